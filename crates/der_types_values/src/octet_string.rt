//! OCTET STRING.

ghost use Rattle.std.specs.Prelude.{◌≡◌, ◌<◌, ◌↔◌, [], length, vec_len, IsTrue, IfOk, IfErr};
ghost use Rattle.der_core.specs.Limits.{IsLength, length_max};
ghost use Rattle.der_core.specs.TagTypes.Tag.TheVariants.{OctetString as OctetStringTag};
ghost use Rattle.der_core.specs.Leaves.{octets};
ghost use Rattle.der_types_values.specs.OctetStrings.{octets_lent};

use crate::octet_string_ref::OctetStringRef;
use der_core::describing::{AsOctets, Described, Octets, Ordered, Primitive};
use der_core::{BytesOwned, Error, ErrorKind, FixedTag, Leaf, Length, Tag};
use std::alloc::{AllocError, Global};
use std::convert::AsSlice;
use std::marker::Model;

/// OCTET STRING (X.690 8.7): any bytes, fewer than 2^32.
///
/// In contracts, its value is the bytes.
#[derive(Debug, Drop, PartialEq, Eq, PartialOrd, Ord, Hash)]
pub struct OctetString {
    bytes: BytesOwned,
}

impl Model for OctetString {
    ghost use Rattle.std.specs.Prelude.{List, ℕ};

    ghost Value = { List ℕ };

    ghost use Rattle.der_types_values.specs.OctetStrings.{octets_kept};

    ghost view = { octets_kept };

    ghost inverse = { λ octets. record { bytes = octets } };
}

impl OctetString {
    /// Returns the octet string of these bytes.
    ///
    /// # Errors
    ///
    /// - `Overflow`: there are 2^32 bytes or more.
    pub fn new(bytes: Vec<u8>) -> Result<OctetString, Error>
        ensures ok { IfOk result (λ o. IsLength (vec_len bytes) × (o ≡ bytes.items)) }
        ensures err { IfErr result (λ e. (length_max < vec_len bytes)
            × (e.kind ≡ ErrorKind.Overflow)) }
    {
        let bytes = BytesOwned::new(bytes)?;
        Ok(OctetString { bytes })
    }

    /// Returns an owned copy of a borrowed octet string.
    pub(crate) fn copy_of(
        alloc: Global,
        lent: &OctetStringRef<'_>,
    ) -> Result<OctetString, AllocError>
        ensures { IfOk result (λ o. o ≡ octets_lent lent.now) }
    {
        let bytes = BytesOwned::copy_of(alloc, lent.as_bytes())?;
        Ok(OctetString { bytes })
    }

    /// Returns a copy.
    ///
    /// # Errors
    ///
    /// - `AllocError`: memory runs out.
    pub fn clone(&self, alloc: Global) -> Result<OctetString, AllocError>
        ensures { IfOk result (λ o. o ≡ self.now) }
    {
        OctetString::copy_of(alloc, &self.owned_to_ref())
    }

    /// Returns the bytes.
    pub fn as_bytes(&self) -> &[u8]
        ensures { result.now ≡ self.now }
    {
        self.bytes.as_slice()
    }

    /// Returns the bytes, and consumes the value.
    pub fn into_bytes(self) -> Vec<u8>
        ensures { result.items ≡ self }
    {
        let OctetString { bytes } = self;
        bytes.into_vec()
    }

    /// Returns the number of bytes.
    pub fn len(&self) -> Length
        ensures { result.value ≡ length self.now }
    {
        self.bytes.len()
    }

    /// Returns whether there are no bytes.
    pub fn is_empty(&self) -> bool
        ensures { IsTrue result ↔ (self.now ≡ []) }
    {
        self.bytes.is_empty()
    }

    /// Returns the borrowed form of the octet string.
    pub fn owned_to_ref(&self) -> OctetStringRef<'_>
        ensures { octets_lent result ≡ self.now }
    {
        OctetStringRef::of_content(self.bytes.as_slice())
    }
}

/// Returns the bytes.
impl AsSlice<u8> for OctetString {
    ghost items = { λ o. o };

    fn as_slice(&self) -> &[u8] {
        self.as_bytes()
    }
}

/// Returns the bytes, and consumes the value.
impl From<OctetString> for Vec<u8> {
    ghost from_gives = { λ string bytes. bytes.items ≡ string };

    fn from(string: OctetString) -> Vec<u8> {
        string.into_bytes()
    }
}

/// Copies the value with its own allocator.
impl Clone for OctetString {
    ghost is_clone = { λ x y. y ≡ x };

    fn clone(&self) -> Result<OctetString, AllocError> {
        let bytes = Clone::clone(&self.bytes)?;
        Ok(OctetString { bytes })
    }
}

impl FixedTag for OctetString {
    ghost fixed_tag = { OctetStringTag };

    fn tag() -> Tag {
        Tag::OctetString
    }
}

impl Described for OctetString {
    type By = AsOctets;
}

impl Primitive for OctetString {
    ghost kind = { octets };

    ghost leaf_plain = { λ x. x };
}

/// The content is the bytes.
impl<'a> Leaf<'a> for OctetString {
    fn from_content(alloc: Global, tag: Tag, octets: &'a [u8]) -> Result<OctetString, Error> {
        let bytes = BytesOwned::from_content(alloc, tag, octets)?;
        Ok(OctetString { bytes })
    }
}

impl Octets for OctetString {
    fn content(&self) -> &[u8] {
        self.bytes.content()
    }
}

/// Compares the bytes (X.690 8.7).
impl Ordered for OctetString {}
