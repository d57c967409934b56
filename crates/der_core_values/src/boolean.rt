//! BOOLEAN as `bool` (X.690 8.2, 11.1).

ghost use Rattle.std.specs.Prelude.{true, false, Err, refl};
ghost use Rattle.der_core_octets.specs.CoreHead.declared.tag.Tag.TheVariants.{Boolean};
ghost use Rattle.der_core_octets.specs.CoreHead.Shapes.{leaf};
ghost use Rattle.der_core_octets.specs.CoreHead.Leaves.{boolean};

use crate::decode::{DecodeValue, FixedTag, ShapedValue};
use crate::elements::{ApartValue, AsReadValue};
use crate::encode::EncodeValue;
use crate::in_range::InRangeValue;
use crate::leaves::{Leaf, Primitive, decode_leaf};
use der_core_octets::core_head::{Error, ErrorKind, Length, Tag};
use der_core_octets::{Header, Reader, Writer};
use std::alloc::Global;

impl FixedTag for bool {
    ghost fixed_tag = { Boolean };

    fn tag() -> Tag {
        Tag::Boolean
    }
}

impl Primitive for bool {
    ghost kind = { boolean };

    ghost leaf_plain = { λ b. b };
}

/// `0x00` is false and `0xFF` is true (X.690 8.2, 11.1).
impl<'a> Leaf<'a> for bool {
    ghost takes_memory = { false };

    fn from_content(_alloc: Global, tag: Tag, octets: &'a [u8]) -> Result<bool, Error> {
        match octets {
            [0] => Ok(false),
            [255] => Ok(true),
            _ => Err(Error::from(ErrorKind::Noncanonical { tag })),
        }
    }
}

impl ShapedValue for bool {
    ghost content = { leaf boolean };

    ghost value_plain = { λ b. b };

    ghost value_written = { λ b. b };
}

impl<'a, R: Reader<'a>> DecodeValue<'a, R> for bool {
    fn decode_value(alloc: Global, reader: &mut R, header: Header) -> Result<bool, Error> {
        decode_leaf(alloc, reader, header)
    }
}

impl EncodeValue for bool {
    fn value_len(&self) -> Result<Length, Error> {
        Ok(Length { value: 1 })
    }

    #[tactic(auto, using(der_core_octets::proofs::Added::write_adds), unfolding(crate::specs::Opened::contents))]
    fn encode_value<W: Writer>(&self, writer: &mut W) -> Result<(), Error> {
        writer.write_byte(if *self { 255 } else { 0 })
    }
}

impl ApartValue for bool {
    ghost apart_value = { refl };
}

impl AsReadValue for bool {
    ghost as_read_value = { λ _. refl };
}

impl InRangeValue for bool {
    fn value_in_range(&self) {}
}
