//! An owned SEQUENCE whose content isn't decoded.

ghost use Rattle.std.specs.Prelude.{◌≡◌, ◌<◌, vec_len, IfOk, IfErr};
ghost use Rattle.der_core.specs.Heads.{Fits};
ghost use Rattle.der_core.specs.Limits.{IsLength, length_max};
ghost use Rattle.der_core.specs.TagTypes.Tag.TheVariants.{Sequence as SequenceTag};
ghost use Rattle.der_core.specs.Leaves.{octets};
ghost use Rattle.der_types.specs.Sequences.{fields_lent};

use der_core::describing::{AsOctets, Described, Octets, Ordered, Primitive};
use der_core::{BytesOwned, Error, ErrorKind, FixedTag, Leaf, Tag};
use der_types::{Sequence, SequenceRef};
use std::alloc::{AllocError, Global};
use std::convert::AsSlice;
use std::marker::Model;

/// An owned SEQUENCE (X.690 8.9) whose content of fewer than 2^32 bytes isn't decoded, so the
/// content needn't be DER. Use it for an alternative of a choice, or a field, that your program
/// doesn't need.
///
/// In contracts, its value is the bytes of the content.
#[derive(Debug, Drop, PartialEq, Eq, PartialOrd, Ord, Hash)]
pub struct SequenceOwned {
    bytes: BytesOwned,
}

impl Model for SequenceOwned {
    ghost use Rattle.std.specs.Prelude.{List, ℕ};

    ghost Value = { List ℕ };

    ghost view = { λ s. s.bytes };

    ghost inverse = { λ octets. record { bytes = octets } };
}

impl SequenceOwned {
    /// Returns the SEQUENCE with this content.
    ///
    /// # Errors
    ///
    /// - `Overflow`: there are 2^32 bytes or more.
    pub fn new(bytes: Vec<u8>) -> Result<SequenceOwned, Error>
        ensures ok { IfOk result (λ s. IsLength (vec_len bytes) × (s ≡ bytes.items)) }
        ensures err { IfErr result (λ e. (length_max < vec_len bytes)
            × (e.kind ≡ ErrorKind.Overflow)) }
    {
        let bytes = BytesOwned::new(bytes)?;
        Ok(SequenceOwned { bytes })
    }

    /// Returns a copy.
    ///
    /// # Errors
    ///
    /// - `AllocError`: memory runs out.
    pub fn clone(&self, alloc: Global) -> Result<SequenceOwned, AllocError>
        ensures { IfOk result (λ s. s ≡ self.now) }
    {
        let bytes = self.bytes.clone(alloc)?;
        Ok(SequenceOwned { bytes })
    }

    /// Returns the bytes of the content.
    pub fn as_bytes(&self) -> &[u8]
        ensures octets { result.now ≡ self.now }
        ensures short { Fits result.now }
    {
        self.bytes.as_slice()
    }

    /// Returns the bytes of the content, and consumes the SEQUENCE.
    pub fn into_bytes(self) -> Vec<u8>
        ensures { result.items ≡ self }
    {
        self.bytes.into_vec()
    }

    /// Returns a reference to the SEQUENCE.
    pub fn owned_to_ref(&self) -> SequenceRef<'_>
        ensures { fields_lent result ≡ self.now }
    {
        SequenceRef::of_content(self.as_bytes())
    }
}

/// Returns the bytes of the content.
impl AsSlice<u8> for SequenceOwned {
    ghost items = { λ s. s };

    fn as_slice(&self) -> &[u8] {
        self.as_bytes()
    }
}

/// Copies the value with its own allocator.
impl Clone for SequenceOwned {
    ghost is_clone = { λ x y. y ≡ x };

    fn clone(&self) -> Result<SequenceOwned, AllocError> {
        let bytes = Clone::clone(&self.bytes)?;
        Ok(SequenceOwned { bytes })
    }
}

impl FixedTag for SequenceOwned {
    ghost fixed_tag = { SequenceTag };

    fn tag() -> Tag {
        Tag::Sequence
    }
}

impl Sequence for SequenceOwned {
    ghost use Rattle.std.specs.Prelude.{refl};

    ghost is_sequence = { refl };
}

impl Described for SequenceOwned {
    type By = AsOctets;
}

impl Primitive for SequenceOwned {
    ghost kind = { octets };

    ghost leaf_plain = { λ s. s };
}

/// The content is the bytes, which aren't decoded.
impl<'a> Leaf<'a> for SequenceOwned {
    fn from_content(alloc: Global, tag: Tag, octets: &'a [u8]) -> Result<SequenceOwned, Error> {
        let bytes = BytesOwned::from_content(alloc, tag, octets)?;
        Ok(SequenceOwned { bytes })
    }
}

impl Octets for SequenceOwned {
    fn content(&self) -> &[u8] {
        self.bytes.content()
    }
}

/// Compares the content bytes.
impl Ordered for SequenceOwned {}
