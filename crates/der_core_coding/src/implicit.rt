//! Implicit tags, which replace the tag of a value (X.690 8.14.3).

ghost use Rattle.der_core_values.specs.CoreHead.Tags.{implicit_tag};

use der_core_values::core_head::{Error, Length, Tag, TagNumber, is_constructed};
use der_core_values::core_octets::{Header, Reader, Writer};
use der_core_values::{
    ApartValue, AsReadValue, DecodeValue, EncodeValue, FixedTag, InRangeValue, ShapedValue,
};
use std::alloc::Global;

/// A value whose own tag is replaced by the context-specific tag with number `N` (X.690 8.14.3).
#[derive(Debug, Drop, PartialEq, Eq, Hash)]
pub struct Implicit<T, const N: u32> {
    /// The value whose tag is replaced.
    pub value: T,
}

impl<T: FixedTag, const N: u32> FixedTag for Implicit<T, N> {
    ghost fixed_tag = { implicit_tag N T.fixed_tag };

    fn tag() -> Tag {
        Tag::ContextSpecific {
            constructed: is_constructed(T::tag()),
            number: TagNumber { value: N },
        }
    }
}

impl<T: ShapedValue, const N: u32> ShapedValue for Implicit<T, N> {
    ghost content = { T.content };

    ghost value_plain = { λ x. T.value_plain x.value };

    ghost value_written = { λ x. T.value_written x.value };
}

impl<'a, R: Reader<'a>, T: DecodeValue<'a, R>, const N: u32> DecodeValue<'a, R> for Implicit<T, N> {
    fn decode_value(
        alloc: Global,
        reader: &mut R,
        header: Header,
    ) -> Result<Implicit<T, N>, Error> {
        let value = T::decode_value(alloc, reader, header)?;
        Ok(Implicit { value })
    }
}

impl<T: EncodeValue, const N: u32> EncodeValue for Implicit<T, N> {
    fn value_len(&self) -> Result<Length, Error> {
        self.value.value_len()
    }

    fn encode_value<W: Writer>(&self, writer: &mut W) -> Result<(), Error> {
        self.value.encode_value(writer)
    }
}

impl<T: ApartValue, const N: u32> ApartValue for Implicit<T, N> {
    ghost apart_value = { T.apart_value };
}

impl<T: AsReadValue, const N: u32> AsReadValue for Implicit<T, N> {
    ghost as_read_value = { λ x. T.as_read_value x.value };
}

impl<T: InRangeValue, const N: u32> InRangeValue for Implicit<T, N> {
    fn value_in_range(&self) {
        self.value.value_in_range();
    }
}

/// A reference to a value whose tag is replaced by the context-specific tag with number `N`.
#[derive(Drop)]
pub struct ImplicitRef<'a, T, const N: u32> {
    /// The value whose tag is replaced.
    pub value: &'a T,
}

impl<'a, T: FixedTag, const N: u32> FixedTag for ImplicitRef<'a, T, N> {
    ghost fixed_tag = { implicit_tag N T.fixed_tag };

    fn tag() -> Tag {
        Implicit::<T, N>::tag()
    }
}

impl<'a, T: ShapedValue, const N: u32> ShapedValue for ImplicitRef<'a, T, N> {
    ghost content = { T.content };

    ghost value_plain = { λ r. T.value_plain r.value.now };

    ghost value_written = { λ r. T.value_written r.value.now };
}

impl<'a, T: EncodeValue, const N: u32> EncodeValue for ImplicitRef<'a, T, N> {
    fn value_len(&self) -> Result<Length, Error> {
        self.value.value_len()
    }

    fn encode_value<W: Writer>(&self, writer: &mut W) -> Result<(), Error> {
        self.value.encode_value(writer)
    }
}
