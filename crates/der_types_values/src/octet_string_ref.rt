//! OCTET STRING, borrowed.

ghost use Rattle.std.specs.Prelude.{◌≡◌, ◌<◌, ◌↔◌, [], length, true, Ok, IsTrue, IfOk, false};
ghost use Rattle.std.specs.Prelude.{IfErr, MatchResult};
ghost use Rattle.der_core.specs.Limits.{length_max, levels_max};
ghost use Rattle.der_core.specs.Heads.{Fits};
ghost use Rattle.der_core.specs.TagTypes.Tag.TheVariants.{OctetString as OctetStringTag};
ghost use Rattle.der_core.specs.Leaves.{octets};
ghost use Rattle.der_core.specs.Shapes.{Value, Spells};
ghost use Rattle.der_core.specs.Spelling.{is_apart, are_enough};
ghost use Rattle.der_core.specs.Grammar.{read_whole};
ghost use Rattle.der_core.specs.Reading.{Gives};

use crate::octet_string::OctetString;
use der_core::describing::{AsOctets, Described, Octets, Ordered, Primitive};
use der_core::making::octets_in_range;
use der_core::{Decode, Error, ErrorKind, FixedTag, FromDer, Leaf, Length, SliceReader, Tag};
use std::alloc::{AllocError, Global};
use std::convert::AsSlice;

/// A borrowed OCTET STRING (X.690 8.7): any bytes, fewer than 2^32.
#[derive(Clone, Copy, Debug, PartialEq, Eq, PartialOrd, Ord, Hash)]
pub struct OctetStringRef<'a> {
    bytes: &'a [u8],
    ghost short: { Fits bytes.now },
}

impl<'a> OctetStringRef<'a> {
    ghost use Rattle.der_types_values.specs.OctetStrings.{octets_lent};

    /// Returns the octet string of these bytes.
    ///
    /// # Errors
    ///
    /// - `Overflow`: there are 2^32 bytes or more.
    pub fn new(bytes: &'a [u8]) -> Result<OctetStringRef<'a>, Error>
        ensures ok { IfOk result (λ o. Fits bytes.now × (octets_lent o ≡ bytes.now)) }
        ensures err { IfErr result (λ e. (length_max < length bytes.now)
            × (e.kind ≡ ErrorKind.Overflow)) }
    {
        if bytes.len() > Length::MAX.value as usize {
            return Err(Error::from(ErrorKind::Overflow));
        }
        Ok(OctetStringRef { bytes })
    }

    /// Wraps a content, which the caller proves to have fewer than 2^32 bytes.
    pub fn of_content(bytes: &'a [u8]) -> OctetStringRef<'a>
        requires { Fits bytes.now }
        ensures { octets_lent result ≡ bytes.now }
    {
        OctetStringRef { bytes }
    }

    /// Returns the bytes.
    pub fn as_bytes(&self) -> &'a [u8]
        ensures octets { result.now ≡ octets_lent self.now }
        ensures short { Fits result.now }
    {
        self.bytes
    }

    /// Returns the number of bytes.
    pub fn len(&self) -> Length
        ensures { result.value ≡ length (octets_lent self.now) }
    {
        Length::new(self.bytes.len() as u32)
    }

    /// Returns whether there are no bytes.
    pub fn is_empty(&self) -> bool
        ensures { IsTrue result ↔ (octets_lent self.now ≡ []) }
    {
        self.bytes.is_empty()
    }

    /// Decodes a value from all bytes of the octet string.
    ///
    /// # Errors
    ///
    /// - The first error that decoding meets.
    /// - `TrailingData`: bytes are left after the value.
    /// - `OutOfMemory`: memory runs out.
    pub fn decode_into<T: Decode<'a, SliceReader<'a>>>(&self, alloc: Global) -> Result<T, Error>
        // Accepted bytes are the encoding of the result.
        ensures spelled { is_apart T.shape ≡ true
            → IfOk result (λ v. Spells T.shape (T.plain v) (octets_lent self.now)) }
        // An encoding is accepted, unless memory runs out.
        ensures only { (v : Value T.shape) → is_apart T.shape ≡ true → are_enough T.shape levels_max
            ≡ true
            → Spells T.shape v (octets_lent self.now) → Gives T.plain result (Ok v) }
        // The result is that of the definition, including the kind of the error.
        ensures exact { Gives (λ v. (T.plain v, [])) result
            (read_whole T.shape (octets_lent self.now)) }
    {
        T::from_der(alloc, self.bytes)
    }

    /// Returns an owned copy of the octet string.
    ///
    /// # Errors
    ///
    /// - `AllocError`: memory runs out.
    pub fn ref_to_owned(&self, alloc: Global) -> Result<OctetString, AllocError>
        ensures { IfOk result (λ o. o ≡ octets_lent self.now) }
    {
        OctetString::copy_of(alloc, self)
    }
}

/// Returns the bytes.
impl<'a> AsSlice<u8> for OctetStringRef<'a> {
    ghost use Rattle.der_types_values.specs.OctetStrings.{octets_lent};

    ghost items = { octets_lent };

    fn as_slice(&self) -> &[u8] {
        self.bytes
    }
}

/// Wraps the bytes of a slice, which must be fewer than 2^32.
impl<'a> TryFrom<&'a [u8]> for OctetStringRef<'a> {
    ghost use Rattle.std.specs.Prelude.{◌≡◌, ◌<◌, length, MatchResult};
    ghost use Rattle.der_core.specs.Limits.{length_max};
    ghost use Rattle.der_core.specs.ErrorTypes.ErrorKind.TheVariants as kinds;
    ghost use Rattle.der_types_values.specs.OctetStrings.{octets_lent};

    type Error = Error;

    ghost try_from_gives = { λ bytes r. MatchResult r (λ o. octets_lent o ≡ bytes.now)
        (λ e. (length_max < length bytes.now) × (e.kind ≡ kinds.Overflow)) };

    fn try_from(bytes: &'a [u8]) -> Result<OctetStringRef<'a>, Error> {
        OctetStringRef::new(bytes)
    }
}

impl<'a> FixedTag for OctetStringRef<'a> {
    ghost fixed_tag = { OctetStringTag };

    fn tag() -> Tag
        ensures { result ≡ OctetStringTag }
    {
        Tag::OctetString
    }
}

impl<'a> Described for OctetStringRef<'a> {
    type By = AsOctets;
}

impl<'a> Primitive for OctetStringRef<'a> {
    ghost use Rattle.der_types_values.specs.OctetStrings.{octets_lent};

    ghost kind = { octets };

    ghost leaf_plain = { octets_lent };
}

/// The content is the bytes.
impl<'a> Leaf<'a> for OctetStringRef<'a> {
    ghost takes_memory = { false };

    fn from_content(
        _alloc: Global,
        _tag: Tag,
        octets: &'a [u8],
    ) -> Result<OctetStringRef<'a>, Error> {
        Ok(OctetStringRef { bytes: octets })
    }
}

impl<'a> Octets for OctetStringRef<'a> {
    fn content(&self) -> &[u8] {
        octets_in_range(self.as_bytes());
        self.bytes
    }
}

/// Compares the bytes (X.690 8.7).
impl<'a> Ordered for OctetStringRef<'a> {}
