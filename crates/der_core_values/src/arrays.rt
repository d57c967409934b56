//! SEQUENCE OF with a fixed number of values (X.690 8.10).

ghost use Rattle.der_core_values.specs.Both.{both_true};
ghost use Rattle.der_core_octets.specs.CoreHead.declared.tag.Tag.TheVariants.{Sequence};
ghost use Rattle.der_core_octets.specs.CoreHead.Shapes.{nested, exactly};
ghost use Rattle.der_core_octets.specs.CoreHead.Grammar.{plain_list};

use crate::decode::{Decode, DecodeValue, FixedTag, Shaped, ShapedValue};
use crate::elements::{ApartValue, AsRead, AsReadValue, Element, Member};
use crate::encode::{Encode, EncodeValue};
use crate::fields::{DecodeFields, Fields, read_fields};
use crate::in_range::{InRange, InRangeValue};
use crate::members::{encode_members, members_len};
use crate::vec::list_in_range;
use der_core_octets::core_head::{Error, ErrorKind, Length, Tag};
use der_core_octets::{Header, Reader, Writer};
use std::alloc::Global;

impl<T, const N: usize> FixedTag for [T; N] {
    ghost fixed_tag = { Sequence };

    fn tag() -> Tag {
        Tag::Sequence
    }
}

/// An array is exactly `N` values.
impl<T: Shaped, const N: usize> Fields for [T; N] {
    ghost fields = { exactly N T.shape };

    ghost fields_plain = { λ xs. plain_list T.plain xs };

    ghost fields_written = { λ xs. plain_list T.written xs };
}

impl<T: Shaped, const N: usize> ShapedValue for [T; N] {
    ghost content = { nested (exactly N T.shape) };

    ghost value_plain = { λ xs. plain_list T.plain xs };

    ghost value_written = { λ xs. plain_list T.written xs };
}

impl<T: Element + Member, const N: usize> ApartValue for [T; N] {
    ghost apart_value = { both_true T.element T.apart };
}

impl<T: AsRead, const N: usize> AsReadValue for [T; N] {
    ghost use Rattle.der_core_values.specs.Same.{same_list};

    ghost as_read_value = { same_list T.as_read };
}

/// Fewer values give the error `Incomplete`. The values are collected in a vector, which allocates.
impl<'a, R: Reader<'a>, T: Decode<'a, R>, const N: usize> DecodeFields<'a, R> for [T; N] {
    fn decode_fields(alloc: Global, reader: &mut R) -> Result<[T; N], Error> {
        if reader.is_failed() {
            return Err(Error::from(ErrorKind::Failed));
        }
        let mut values = Vec::new(alloc);
        for _ in 0..N {
            let value = T::decode(alloc, reader)?;
            match values.push(value) {
                Ok(()) => {}
                Err(error) => {
                    reader.fail();
                    return Err(Error::from(error));
                }
            }
        }
        match <[T; N]>::try_from(values) {
            Ok(array) => Ok(array),
            Err(_) => {
                reader.fail();
                Err(Error::from(ErrorKind::Reader))
            }
        }
    }
}

/// Fewer values give the error `Incomplete`, and more give `TrailingData`.
impl<'a, R: Reader<'a>, T: Decode<'a, R>, const N: usize> DecodeValue<'a, R> for [T; N] {
    fn decode_value(alloc: Global, reader: &mut R, header: Header) -> Result<[T; N], Error> {
        read_fields(alloc, reader, header)
    }
}

impl<T: Encode, const N: usize> EncodeValue for [T; N] {
    fn value_len(&self) -> Result<Length, Error> {
        members_len(self.as_slice())
    }

    #[tactic(auto, unfolding(crate::specs::Opened::contents))]
    fn encode_value<W: Writer>(&self, writer: &mut W) -> Result<(), Error> {
        encode_members(self.as_slice(), writer)
    }
}

impl<T: InRange, const N: usize> InRangeValue for [T; N] {
    fn value_in_range(&self) {
        list_in_range(self.as_slice());
    }
}
