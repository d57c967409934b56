//! SEQUENCE OF as a list (X.690 8.10).

ghost use Rattle.der_core_octets.specs.CoreHead.declared.tag.Tag.TheVariants.{Sequence};
ghost use Rattle.der_core_octets.specs.CoreHead.Shapes.{nested, many};
ghost use Rattle.der_core_octets.specs.CoreHead.Grammar.{plain_list};
ghost use Rattle.std.specs.List.{AllByRecursion};
ghost use Rattle.der_core_octets.specs.CoreHead.Ranges.{IsInRange};

use crate::decode::{Decode, DecodeValue, FixedTag, Shaped, ShapedValue};
use crate::elements::{ApartValue, AsRead, AsReadValue, Element, Member};
use crate::encode::{Encode, EncodeValue};
use crate::fields::{DecodeFields, Fields, read_fields};
use crate::in_range::{InRange, InRangeValue};
use crate::members::{encode_members, members_len};
use der_core_octets::core_head::{Error, ErrorKind, Length, Tag};
use der_core_octets::{Header, Reader, Writer};
use std::alloc::Global;

/// SEQUENCE OF (X.690 8.10).
impl<T> FixedTag for Vec<T> {
    ghost fixed_tag = { Sequence };

    fn tag() -> Tag {
        Tag::Sequence
    }
}

impl<T: Shaped> Fields for Vec<T> {
    ghost fields = { many T.shape };

    ghost fields_plain = { λ v. plain_list T.plain v.items };

    ghost fields_written = { λ v. plain_list T.written v.items };
}

impl<T: Shaped> ShapedValue for Vec<T> {
    ghost content = { nested (many T.shape) };

    ghost value_plain = { λ v. plain_list T.plain v.items };

    ghost value_written = { λ v. plain_list T.written v.items };
}

/// Returns the number of values for which memory is allocated before they are decoded.
///
/// It counts at most 64 values of the input, as long as each has a tag of one byte and fewer than
/// 128 content bytes. Memory for further values is allocated as they are decoded.
fn room_for(octets: &[u8]) -> usize {
    let mut left = octets;
    for count in 0..64 {
        let [_, len, rest @ ..] = left else {
            return count;
        };
        let len = *len as usize;
        if len >= 0x80 || len > rest.len() {
            return count + 1;
        }
        left = &rest[len..];
    }
    64
}

impl<'a, R: Reader<'a>, T: Decode<'a, R>> DecodeFields<'a, R> for Vec<T> {
    fn decode_fields(alloc: Global, reader: &mut R) -> Result<Vec<T>, Error> {
        if reader.is_failed() {
            return Err(Error::from(ErrorKind::Failed));
        }
        let room = room_for(reader.remaining());
        let mut values = match Vec::with_capacity(alloc, room) {
            Ok(values) => values,
            Err(error) => {
                reader.fail();
                return Err(Error::from(error));
            }
        };
        let len = reader.remaining_len().value;
        for _ in 0..len {
            if reader.is_finished() {
                break;
            }
            let value = T::decode(alloc, reader)?;
            match values.push(value) {
                Ok(()) => {}
                Err(error) => {
                    reader.fail();
                    return Err(Error::from(error));
                }
            }
        }
        if reader.is_finished() {
            Ok(values)
        } else {
            reader.fail();
            Err(Error::from(ErrorKind::TrailingData))
        }
    }
}

impl<'a, R: Reader<'a>, T: Decode<'a, R>> DecodeValue<'a, R> for Vec<T> {
    fn decode_value(alloc: Global, reader: &mut R, header: Header) -> Result<Vec<T>, Error> {
        read_fields(alloc, reader, header)
    }
}

impl<T: Encode> EncodeValue for Vec<T> {
    fn value_len(&self) -> Result<Length, Error> {
        members_len(self.as_slice())
    }

    #[tactic(auto, unfolding(crate::specs::Opened::contents))]
    fn encode_value<W: Writer>(&self, writer: &mut W) -> Result<(), Error> {
        encode_members(self.as_slice(), writer)
    }
}

impl<T: Element + Member> ApartValue for Vec<T> {
    ghost use Rattle.der_core_values.specs.Both.{both_true};

    ghost apart_value = { both_true T.element T.apart };
}

impl<T: AsRead> AsReadValue for Vec<T> {
    ghost use Rattle.der_core_values.specs.Same.{same_list};

    ghost as_read_value = { λ v. same_list T.as_read v.items };
}

/// A list of values in range is in range.
pub fn list_in_range<T: InRange>(values: &[T])
    ensures { AllByRecursion (IsInRange T.shape) (plain_list T.written values.now) }
{
    for value in values {
        value.in_range();
    }
}

impl<T: InRange> InRangeValue for Vec<T> {
    fn value_in_range(&self) {
        list_in_range(self.as_slice());
    }
}
