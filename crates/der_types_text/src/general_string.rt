//! GeneralString.

ghost use Rattle.std.specs.Prelude.{◌≡◌, ◌↔◌, length, IsTrue, IfOk, [], false};
ghost use Rattle.der_core.specs.TagTypes.Tag.TheVariants.{GeneralString};
ghost use Rattle.der_core.specs.Heads.{Fits};
ghost use Rattle.der_core.specs.Leaves.{text};
ghost use Rattle.der_core.specs.Reading.{GivesNow};
ghost use Rattle.der_core.specs.Texts.{any_octet};
ghost use Rattle.der_core.specs.OrdLaws.{octets_order};
ghost use Rattle.der_core.specs.Lengths.{counted};

use der_core::describing::{AsOctets, Described, Octets, Ordered, Primitive};
use der_core::making::{octets_in_range, slice_len};
use der_core::{Error, FixedTag, Leaf, OrdIsValueOrd, Tag};
use std::alloc::Global;
use std::convert::AsSlice;

/// A borrowed GeneralString (X.680 41, X.690 8.23.5): any bytes, fewer than 2^32. Their character
/// sets aren't interpreted.
#[derive(Clone, Copy, Debug, PartialEq, Eq, PartialOrd, Ord, Hash)]
pub struct GeneralStringRef<'a> {
    /// The bytes.
    bytes: &'a [u8],
    ghost short: { Fits bytes.now },
}

impl<'a> GeneralStringRef<'a> {
    /// Returns the string of these bytes.
    ///
    /// # Errors
    ///
    /// - `Overflow`: there are 2^32 bytes or more.
    pub fn new(bytes: &'a [u8]) -> Result<GeneralStringRef<'a>, Error>
        ensures ok { IfOk result (λ s. s.bytes.now ≡ bytes.now) }
        ensures exact { GivesNow (λ s. s.bytes.now) result (counted bytes.now) }
    {
        slice_len(bytes)?;
        Ok(GeneralStringRef { bytes })
    }

    /// Returns the bytes.
    pub fn as_bytes(&self) -> &'a [u8]
        ensures { result.now ≡ self.now.bytes.now }
    {
        self.bytes
    }

    /// Returns the number of bytes.
    pub fn len(&self) -> usize
        ensures { result ≡ length self.now.bytes.now }
    {
        self.bytes.len()
    }

    /// Returns whether there are no bytes.
    pub fn is_empty(&self) -> bool
        ensures { IsTrue result ↔ (self.now.bytes.now ≡ []) }
    {
        self.bytes.is_empty()
    }
}

impl<'a> From<&GeneralStringRef<'a>> for GeneralStringRef<'a> {
    ghost from_gives = { λ s t. t ≡ s.now };

    fn from(text: &GeneralStringRef<'a>) -> GeneralStringRef<'a> {
        *text
    }
}

impl<'a> AsSlice<u8> for GeneralStringRef<'a> {
    ghost items = { λ s. s.bytes.now };

    fn as_slice(&self) -> &[u8] {
        self.bytes
    }
}

impl<'a> FixedTag for GeneralStringRef<'a> {
    ghost fixed_tag = { GeneralString };

    fn tag() -> Tag
        ensures { result ≡ GeneralString }
    {
        Tag::GeneralString
    }
}

impl<'a> Described for GeneralStringRef<'a> {
    type By = AsOctets;
}

impl<'a> Primitive for GeneralStringRef<'a> {
    ghost kind = { text any_octet };

    ghost leaf_plain = { λ s. s.bytes.now };
}

/// The content is the bytes.
impl<'a> Leaf<'a> for GeneralStringRef<'a> {
    ghost takes_memory = { false };

    #[tactic(auto, using(crate::proofs::BmpTexts::any_read))]
    fn from_content(
        _alloc: Global,
        _tag: Tag,
        octets: &'a [u8],
    ) -> Result<GeneralStringRef<'a>, Error> {
        Ok(GeneralStringRef { bytes: octets })
    }
}

impl<'a> Octets for GeneralStringRef<'a> {
    fn content(&self) -> &[u8] {
        octets_in_range(self.as_bytes());
        self.bytes
    }
}

/// Compares the bytes (X.690 8.23.5).
impl<'a> Ordered for GeneralStringRef<'a> {}

impl<'a> OrdIsValueOrd for GeneralStringRef<'a> {
    ghost order = { λ v w. octets_order (text any_octet) v.bytes.now w.bytes.now };
}
