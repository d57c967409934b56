//! An explicit tag around a value (X.690 8.14.2).

ghost use Rattle.std.specs.Prelude.{true};
ghost use Rattle.der_core_values.specs.CoreHead.Tags.{context};
ghost use Rattle.der_core_values.specs.CoreHead.Shapes.{nested, only};

use der_core_values::core_head::{Error, Length, Tag, TagNumber};
use der_core_values::core_octets::{Header, Reader, Writer};
use der_core_values::{
    ApartValue, AsRead, AsReadValue, Decode, DecodeFields, DecodeValue, Element, Encode,
    EncodeValue, Fields, FixedTag, InRange, InRangeValue, Member, Shaped, ShapedValue, read_fields,
};
use std::alloc::Global;

/// A value with an explicit context-specific tag with number `N` before its own tag (X.690 8.14.2).
#[derive(Debug, Drop, PartialEq, Eq, Hash)]
pub struct Explicit<T, const N: u32> {
    /// The value inside.
    pub value: T,
}

impl<T, const N: u32> FixedTag for Explicit<T, N> {
    ghost fixed_tag = { context true N };

    fn tag() -> Tag {
        Tag::ContextSpecific {
            constructed: true,
            number: TagNumber { value: N },
        }
    }
}

impl<T: Shaped, const N: u32> Fields for Explicit<T, N> {
    ghost fields = { only T.shape };

    ghost fields_plain = { λ x. T.plain x.value };

    ghost fields_written = { λ x. T.written x.value };
}

impl<'a, R: Reader<'a>, T: Decode<'a, R>, const N: u32> DecodeFields<'a, R> for Explicit<T, N> {
    fn decode_fields(alloc: Global, reader: &mut R) -> Result<Explicit<T, N>, Error> {
        let value = T::decode(alloc, reader)?;
        Ok(Explicit { value })
    }
}

impl<T: Shaped, const N: u32> ShapedValue for Explicit<T, N> {
    ghost content = { nested (only T.shape) };

    ghost value_plain = { λ x. T.plain x.value };

    ghost value_written = { λ x. T.written x.value };
}

impl<'a, R: Reader<'a>, T: Decode<'a, R>, const N: u32> DecodeValue<'a, R> for Explicit<T, N> {
    fn decode_value(
        alloc: Global,
        reader: &mut R,
        header: Header,
    ) -> Result<Explicit<T, N>, Error> {
        read_fields(alloc, reader, header)
    }
}

impl<T: Encode, const N: u32> EncodeValue for Explicit<T, N> {
    fn value_len(&self) -> Result<Length, Error> {
        self.value.encoded_len()
    }

    #[tactic(auto, unfolding(crate::specs::Opened::contents))]
    fn encode_value<W: Writer>(&self, writer: &mut W) -> Result<(), Error> {
        self.value.encode(writer)
    }
}

impl<T: Element + Member, const N: u32> ApartValue for Explicit<T, N> {
    ghost use Rattle.der_core_values.specs.Both.{both_true};

    ghost apart_value = { both_true T.element T.apart };
}

impl<T: AsRead, const N: u32> AsReadValue for Explicit<T, N> {
    ghost as_read_value = { λ x. T.as_read x.value };
}

impl<T: InRange, const N: u32> InRangeValue for Explicit<T, N> {
    fn value_in_range(&self) {
        self.value.in_range();
    }
}
