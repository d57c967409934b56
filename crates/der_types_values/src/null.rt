//! NULL.

ghost use Rattle.std.specs.Prelude.{◌≡◌, false};
ghost use Rattle.der_core.specs.TagTypes.Tag.TheVariants.{Null as NullTag};
ghost use Rattle.der_core.specs.Leaves.{null};

use der_core::describing::{AsLeaf, Described, EncodeLeaf, Primitive};
use der_core::{EncodeValue, Error, FixedTag, Leaf, Length, Tag, Writer};
use std::alloc::Global;

/// NULL, whose content is empty (X.690 8.8).
#[derive(Clone, Copy, Debug, PartialEq, Eq, PartialOrd, Ord, Hash)]
pub struct Null;

impl FixedTag for Null {
    ghost fixed_tag = { NullTag };

    fn tag() -> Tag {
        Tag::Null
    }
}

impl Described for Null {
    type By = AsLeaf;
}

impl Primitive for Null {
    ghost kind = { null };

    ghost leaf_plain = { λ _. tt };
}

/// The content is empty.
impl<'a> Leaf<'a> for Null {
    ghost takes_memory = { false };

    fn from_content(alloc: Global, tag: Tag, octets: &'a [u8]) -> Result<Null, Error> {
        <()>::from_content(alloc, tag, octets)?;
        Ok(Null)
    }
}

impl EncodeLeaf for Null {
    fn leaf_len(&self) -> Result<Length, Error> {
        ().value_len()
    }

    fn encode_leaf<W: Writer>(&self, writer: &mut W) -> Result<(), Error> {
        ().encode_value(writer)
    }
}
