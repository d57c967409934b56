//! OBJECT IDENTIFIER.

ghost use Rattle.std.specs.Prelude.{◌≡◌, false};
ghost use Rattle.der_core_octets.specs.Oid.Bound.{Bound};
ghost use Rattle.der_core_octets.specs.CoreHead.declared.tag.Tag.TheVariants.{ObjectIdentifier as ObjectIdentifierTag};
ghost use Rattle.der_core_octets.specs.CoreHead.Leaves.{identifier};

use crate::decode::FixedTag;
use crate::leaf_ways::{AsOctets, Octets};
use crate::leaves::{Leaf, Primitive};
use crate::ways::Described;
use der_core_octets::core_head::{Error, Tag};
use der_core_octets::oid::ObjectIdentifier;
use std::alloc::Global;

impl<const MAX_SIZE: usize> FixedTag for ObjectIdentifier<MAX_SIZE> {
    ghost fixed_tag = { ObjectIdentifierTag };

    fn tag() -> Tag {
        Tag::ObjectIdentifier
    }
}

impl<const MAX_SIZE: usize> Described for ObjectIdentifier<MAX_SIZE> {
    type By = AsOctets;
}

impl<const MAX_SIZE: usize> Primitive for ObjectIdentifier<MAX_SIZE> {
    ghost kind = { identifier Bound MAX_SIZE };

    ghost leaf_plain = { λ oid. oid };
}

/// The content is the encoding of the arcs (X.690 8.19). An encoding that exceeds the capacity is
/// rejected.
impl<'a, const MAX_SIZE: usize> Leaf<'a> for ObjectIdentifier<MAX_SIZE> {
    ghost takes_memory = { false };

    // Inlined, so that the identifier is moved less often.
    #[inline(always)]
    fn from_content(
        _alloc: Global,
        _tag: Tag,
        octets: &'a [u8],
    ) -> Result<ObjectIdentifier<MAX_SIZE>, Error> {
        Ok(ObjectIdentifier::from_bytes_sized(octets)?)
    }
}

impl<const MAX_SIZE: usize> Octets for ObjectIdentifier<MAX_SIZE> {
    fn content(&self) -> &[u8] {
        self.as_bytes()
    }
}
