//! NULL as `()`, whose content is empty (X.690 8.8).

ghost use Rattle.std.specs.Prelude.{false, Err, refl};
ghost use Rattle.der_core_octets.specs.CoreHead.declared.tag.Tag.TheVariants.{Null};
ghost use Rattle.der_core_octets.specs.CoreHead.Shapes.{leaf};
ghost use Rattle.der_core_octets.specs.CoreHead.Leaves.{null};

use crate::decode::{DecodeValue, FixedTag, ShapedValue};
use crate::elements::{ApartValue, AsReadValue};
use crate::encode::EncodeValue;
use crate::in_range::InRangeValue;
use crate::leaves::{Leaf, Primitive, decode_leaf};
use der_core_octets::core_head::{Error, ErrorKind, Length, Tag};
use der_core_octets::{Header, Reader, Writer};
use std::alloc::Global;

impl FixedTag for () {
    ghost fixed_tag = { Null };

    fn tag() -> Tag {
        Tag::Null
    }
}

impl Primitive for () {
    ghost kind = { null };

    ghost leaf_plain = { λ x. x };
}

/// The content is empty (X.690 8.8).
impl<'a> Leaf<'a> for () {
    ghost takes_memory = { false };

    fn from_content(_alloc: Global, tag: Tag, octets: &'a [u8]) -> Result<(), Error> {
        if octets.is_empty() {
            Ok(())
        } else {
            Err(Error::from(ErrorKind::Noncanonical { tag }))
        }
    }
}

impl ShapedValue for () {
    ghost content = { leaf null };

    ghost value_plain = { λ x. x };

    ghost value_written = { λ x. x };
}

impl<'a, R: Reader<'a>> DecodeValue<'a, R> for () {
    fn decode_value(alloc: Global, reader: &mut R, header: Header) -> Result<(), Error> {
        decode_leaf(alloc, reader, header)
    }
}

impl EncodeValue for () {
    fn value_len(&self) -> Result<Length, Error> {
        Ok(Length { value: 0 })
    }

    #[tactic(auto, using(der_core_octets::proofs::Added::write_adds), unfolding(crate::specs::Opened::contents))]
    fn encode_value<W: Writer>(&self, writer: &mut W) -> Result<(), Error> {
        writer.write(&[])
    }
}

impl ApartValue for () {
    ghost apart_value = { refl };
}

impl AsReadValue for () {
    ghost as_read_value = { λ _. refl };
}

impl InRangeValue for () {
    fn value_in_range(&self) {}
}
