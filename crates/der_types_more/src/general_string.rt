//! An owned GeneralString.

ghost use Rattle.std.specs.Prelude.{◌≡◌, ◌<◌, ◌↔◌, [], length, vec_len, IsTrue, IfOk, IfErr};
ghost use Rattle.der_core.specs.Limits.{IsLength, length_max};
ghost use Rattle.der_core.specs.TagTypes.Tag.TheVariants.{GeneralString as GeneralStringTag};
ghost use Rattle.der_core.specs.Leaves.{text};
ghost use Rattle.der_core.specs.Texts.{any_octet};

use der_core::describing::{AsOctets, Described, Octets, Ordered, Primitive};
use der_core::making::octets_in_range;
use der_core::{BytesOwned, Error, ErrorKind, FixedTag, Leaf, Length, Tag};
use std::alloc::{AllocError, Global};
use std::convert::AsSlice;
use std::marker::Model;

/// An owned GeneralString (X.680 41, X.690 8.23.5): any bytes, fewer than 2^32. Their character
/// sets aren't interpreted.
///
/// In contracts, its value is the bytes.
#[derive(Debug, Drop, PartialEq, Eq, PartialOrd, Ord, Hash)]
pub struct GeneralString {
    bytes: BytesOwned,
}

impl Model for GeneralString {
    ghost use Rattle.std.specs.Prelude.{List, ℕ};

    ghost Value = { List ℕ };

    ghost view = { λ s. s.bytes };

    ghost inverse = { λ octets. record { bytes = octets } };
}

impl GeneralString {
    /// Returns the string of these bytes.
    ///
    /// # Errors
    ///
    /// - `Overflow`: there are 2^32 bytes or more.
    pub fn new(bytes: Vec<u8>) -> Result<GeneralString, Error>
        ensures ok { IfOk result (λ s. IsLength (vec_len bytes) × (s ≡ bytes.items)) }
        ensures err { IfErr result (λ e. (length_max < vec_len bytes)
            × (e.kind ≡ ErrorKind.Overflow)) }
    {
        let bytes = BytesOwned::new(bytes)?;
        Ok(GeneralString { bytes })
    }

    /// Returns a copy.
    ///
    /// # Errors
    ///
    /// - `AllocError`: memory runs out.
    pub fn clone(&self, alloc: Global) -> Result<GeneralString, AllocError>
        ensures { IfOk result (λ s. s ≡ self.now) }
    {
        let bytes = self.bytes.clone(alloc)?;
        Ok(GeneralString { bytes })
    }

    /// Returns the bytes.
    pub fn as_bytes(&self) -> &[u8]
        ensures { result.now ≡ self.now }
    {
        self.bytes.as_slice()
    }

    /// Returns the bytes, and consumes the string.
    pub fn into_bytes(self) -> Vec<u8>
        ensures { result.items ≡ self }
    {
        self.bytes.into_vec()
    }

    /// Returns the number of bytes.
    pub fn len(&self) -> Length
        ensures { result.value ≡ length self.now }
    {
        self.bytes.len()
    }

    /// Returns whether there are no bytes.
    pub fn is_empty(&self) -> bool
        ensures { IsTrue result ↔ (self.now ≡ []) }
    {
        self.bytes.is_empty()
    }
}

/// Returns the bytes.
impl AsSlice<u8> for GeneralString {
    ghost items = { λ s. s };

    fn as_slice(&self) -> &[u8] {
        self.as_bytes()
    }
}

/// Copies the value with its own allocator.
impl Clone for GeneralString {
    ghost is_clone = { λ x y. y ≡ x };

    fn clone(&self) -> Result<GeneralString, AllocError> {
        let bytes = Clone::clone(&self.bytes)?;
        Ok(GeneralString { bytes })
    }
}

impl FixedTag for GeneralString {
    ghost fixed_tag = { GeneralStringTag };

    fn tag() -> Tag {
        Tag::GeneralString
    }
}

impl Described for GeneralString {
    type By = AsOctets;
}

impl Primitive for GeneralString {
    ghost kind = { text any_octet };

    ghost leaf_plain = { λ s. s };
}

/// The content is the bytes.
impl<'a> Leaf<'a> for GeneralString {
    #[tactic(auto, using(crate::proofs::Cited::any_read))]
    fn from_content(alloc: Global, tag: Tag, octets: &'a [u8]) -> Result<GeneralString, Error> {
        let bytes = BytesOwned::from_content(alloc, tag, octets)?;
        Ok(GeneralString { bytes })
    }
}

impl Octets for GeneralString {
    #[tactic(auto, using(crate::proofs::Cited::all_within))]
    fn content(&self) -> &[u8] {
        octets_in_range(self.as_bytes());
        self.as_bytes()
    }
}

/// Compares the bytes (X.690 8.23.5).
impl Ordered for GeneralString {}
