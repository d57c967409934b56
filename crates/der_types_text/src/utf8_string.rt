//! UTF8String.

ghost use Rattle.std.specs.Prelude.{◌≡◌, ◌↔◌, length, IsTrue, IfOk, [], Some, string_bytes, false};
ghost use Rattle.der_core.specs.TagTypes.Tag.TheVariants.{Utf8String};
ghost use Rattle.der_core.specs.Heads.{Fits};
ghost use Rattle.der_core.specs.Leaves.{utf8};
ghost use Rattle.der_core.specs.Reading.{GivesNow};
ghost use Rattle.der_core.specs.Texts.{utf8_read};
ghost use Rattle.der_core.specs.OrdLaws.{octets_order};
ghost use Rattle.der_core.specs.Lengths.{counted};
ghost use Rattle.der_types_text.specs.Texts.{utf8_from};

use der_core::describing::{AsOctets, Described, Octets, Ordered, Primitive};
use der_core::making::{slice_len, text_in_range};
use der_core::{Error, FixedTag, Leaf, OrdIsValueOrd, Tag};
use std::alloc::{AllocError, Global};
use std::convert::{AsSlice, AsStr};
use std::fmt;

/// A borrowed UTF8String (X.680 41, X.690 8.23.10): any characters in UTF-8, of fewer than 2^32
/// bytes.
///
/// Its owned form is `String`. Texts are compared by their bytes.
#[derive(Clone, Copy, PartialEq, Eq, PartialOrd, Ord, Hash)]
pub struct Utf8StringRef<'a> {
    /// The characters.
    text: &'a str,
    ghost short: { Fits text.now },
}

/// Returns the text of UTF-8 bytes.
///
/// # Errors
///
/// - `Utf8`: the bytes aren't UTF-8.
#[tactic(auto, using(crate::proofs::Cited::utf8_reads))]
fn utf8_of(octets: &[u8]) -> Result<&str, Error>
    ensures same { IfOk result (λ s. s.now ≡ octets.now) }
    ensures exact { GivesNow (λ s. s.now) result (utf8_read octets.now) }
{
    Ok(str::from_utf8(octets)?)
}

impl<'a> Utf8StringRef<'a> {
    /// Returns the text of these bytes.
    ///
    /// # Errors
    ///
    /// - `Overflow`: there are 2^32 bytes or more.
    /// - `Utf8`: the bytes aren't UTF-8.
    pub fn new(input: &'a [u8]) -> Result<Utf8StringRef<'a>, Error>
        ensures ok { IfOk result (λ t. t.text.now ≡ input.now) }
        ensures exact { GivesNow (λ t. t.text.now) result (utf8_from input.now) }
    {
        slice_len(input)?;
        let text = utf8_of(input)?;
        Ok(Utf8StringRef { text })
    }

    /// Returns the text.
    pub fn as_str(&self) -> &'a str
        ensures { result.now ≡ self.now.text.now }
    {
        self.text
    }

    /// Returns the bytes of the text.
    pub fn as_bytes(&self) -> &'a [u8]
        ensures { result.now ≡ self.now.text.now }
    {
        self.text.as_bytes()
    }

    /// Returns the number of bytes.
    pub fn len(&self) -> usize
        ensures { result ≡ length self.now.text.now }
    {
        self.text.len()
    }

    /// Returns whether there are no characters.
    pub fn is_empty(&self) -> bool
        ensures { IsTrue result ↔ (self.now.text.now ≡ []) }
    {
        self.text.is_empty()
    }

    /// Returns an owned copy of the text.
    ///
    /// # Errors
    ///
    /// - `AllocError`: memory runs out.
    pub fn ref_to_owned(&self, alloc: Global) -> Result<String, AllocError>
        ensures { IfOk result (λ s. string_bytes s ≡ self.now.text.now) }
    {
        String::from_str(alloc, self.text)
    }
}

/// Wraps a text. The error is `Overflow` if it has 2^32 bytes or more.
impl<'a> TryFrom<&'a str> for Utf8StringRef<'a> {
    type Error = Error;

    ghost try_from_gives = { λ s r. GivesNow (λ t. t.text.now) r (counted s.now) };

    fn try_from(text: &'a str) -> Result<Utf8StringRef<'a>, Error> {
        slice_len(text.as_bytes())?;
        Ok(Utf8StringRef { text })
    }
}

/// Wraps a text. The error is `Overflow` if it has 2^32 bytes or more.
impl<'a> TryFrom<&'a String> for Utf8StringRef<'a> {
    type Error = Error;

    ghost try_from_gives = { λ s r. GivesNow (λ t. t.text.now) r (counted (string_bytes s.now)) };

    fn try_from(text: &'a String) -> Result<Utf8StringRef<'a>, Error> {
        slice_len(text.as_bytes())?;
        Ok(Utf8StringRef {
            text: text.as_str(),
        })
    }
}

impl<'a> From<&Utf8StringRef<'a>> for Utf8StringRef<'a> {
    ghost from_gives = { λ s t. t ≡ s.now };

    fn from(text: &Utf8StringRef<'a>) -> Utf8StringRef<'a> {
        *text
    }
}

impl<'a> AsSlice<u8> for Utf8StringRef<'a> {
    ghost items = { λ t. t.text.now };

    fn as_slice(&self) -> &[u8] {
        self.as_bytes()
    }
}

impl<'a> AsStr for Utf8StringRef<'a> {
    ghost text = { λ t. t.text.now };

    fn as_str(&self) -> &str {
        self.text
    }
}

impl<'a> FixedTag for Utf8StringRef<'a> {
    ghost fixed_tag = { Utf8String };

    fn tag() -> Tag
        ensures { result ≡ Utf8String }
    {
        Tag::Utf8String
    }
}

impl<'a> Described for Utf8StringRef<'a> {
    type By = AsOctets;
}

impl<'a> Primitive for Utf8StringRef<'a> {
    ghost kind = { utf8 };

    ghost leaf_plain = { λ t. t.text.now };
}

/// The content is the bytes of the text.
impl<'a> Leaf<'a> for Utf8StringRef<'a> {
    ghost takes_memory = { false };

    fn from_content(
        _alloc: Global,
        _tag: Tag,
        octets: &'a [u8],
    ) -> Result<Utf8StringRef<'a>, Error> {
        let text = utf8_of(octets)?;
        Ok(Utf8StringRef { text })
    }
}

impl<'a> Octets for Utf8StringRef<'a> {
    fn content(&self) -> &[u8] {
        text_in_range(self.as_str());
        self.as_bytes()
    }
}

/// Compares the bytes of the texts (X.690 8.23.10).
impl<'a> Ordered for Utf8StringRef<'a> {}

impl<'a> OrdIsValueOrd for Utf8StringRef<'a> {
    ghost order = { λ v w. octets_order utf8 v.text.now w.text.now };
}

impl<'a> fmt::Display for Utf8StringRef<'a> {
    ghost output = { λ t. Some t.text.now };

    fn fmt<W: fmt::Write>(&self, f: &mut fmt::Formatter<W>) -> fmt::Result {
        f.pad(self.text)
    }
}

impl<'a> fmt::Debug for Utf8StringRef<'a> {
    fn fmt<W: fmt::Write>(&self, f: &mut fmt::Formatter<W>) -> fmt::Result {
        write!(f, "Utf8String({:?})", self.text)
    }
}
