//! Borrowed texts of ASCII characters.

ghost use Rattle.std.specs.Prelude.{◌≡◌, ◌↔◌, length, IsTrue, IfOk, [], Some, ⊤, false};
ghost use Rattle.std.specs.List.{list_all};
ghost use Rattle.der_core.specs.Heads.{Fits};
ghost use Rattle.der_core.specs.Leaves.{text};
ghost use Rattle.der_core.specs.Reading.{GivesNow};
ghost use Rattle.der_core.specs.Texts.{is_within, text_read, IsText};
ghost use Rattle.der_core.specs.OrdLaws.{octets_order};
ghost use Rattle.der_types_text.specs.Texts.{AreWithin, text_from};

use crate::ascii_string::AsciiString;
use crate::ascii_type::AsciiType;
use der_core::describing::{AsOctets, Described, Octets, Ordered, Primitive};
use der_core::making::slice_len;
use der_core::{Error, ErrorKind, FixedTag, Leaf, OrdIsValueOrd, Tag};
use std::alloc::{AllocError, Global};
use std::convert::{AsSlice, AsStr};
use std::fmt;
use std::marker::PhantomData;

/// Returns whether all bytes are characters of the type.
fn are_characters<T: AsciiType>(octets: &[u8]) -> bool
    ensures { result ≡ list_all (is_within T.repertoire) octets.now }
{
    octets.iter().all(|octet| T::has_character(*octet))
}

/// A borrowed text of a string type whose characters are ASCII, of fewer than 2^32 bytes (X.680
/// 41).
///
/// Texts are compared by their bytes.
#[derive_where(PartialEq, Eq, PartialOrd, Ord, Hash)]
pub struct AsciiStringRef<'a, T: AsciiType> {
    /// The characters.
    pub(crate) text: &'a str,
    #[derive_where(skip(EqHashOrd))]
    pub(crate) kind: PhantomData<T>,
    ghost within: { AreWithin T.repertoire text.now },
    ghost short: { Fits text.now },
}

impl<'a, T: AsciiType> Clone for AsciiStringRef<'a, T> {
    ghost is_clone = { λ s r. r ≡ s };

    ghost is_infallible = { λ _. ⊤ };

    fn clone(&self) -> Result<AsciiStringRef<'a, T>, AllocError> {
        Ok(*self)
    }
}

impl<'a, T: AsciiType> Copy for AsciiStringRef<'a, T> {}

impl<'a, T: AsciiType> AsciiStringRef<'a, T> {
    /// Decodes the content of a text, after its tag.
    ///
    /// # Errors
    ///
    /// - `Value`: a byte isn't a character of the type. The error has the tag.
    #[tactic(auto, unfolding(crate::specs::Opened::text_read))]
    pub(crate) fn spelled_by(tag: Tag, octets: &'a [u8]) -> Result<AsciiStringRef<'a, T>, Error>
        requires { Fits octets.now }
        ensures ok { IfOk result (λ t. t.text.now ≡ octets.now) }
        ensures exact { GivesNow (λ t. t.text.now) result (text_read T.repertoire tag octets.now) }
    {
        if !are_characters::<T>(octets) {
            return Err(Error::from(ErrorKind::Value { tag }));
        }
        // SAFETY: each byte is a character of the repertoire, which is part of ASCII.
        let text = unsafe { str::from_utf8_unchecked(octets) };
        Ok(AsciiStringRef {
            text,
            kind: PhantomData,
        })
    }

    /// Returns the text with these bytes.
    ///
    /// # Errors
    ///
    /// - `Overflow`: there are 2^32 bytes or more.
    /// - `Value`: a byte isn't a character of the type.
    pub fn new(input: &'a [u8]) -> Result<AsciiStringRef<'a, T>, Error>
        ensures ok { IfOk result (λ t. t.text.now ≡ input.now) }
        ensures exact { GivesNow (λ t. t.text.now) result
            (text_from T.repertoire T.string_tag input.now) }
    {
        slice_len(input)?;
        Ok(AsciiStringRef::spelled_by(T::tag(), input)?)
    }

    /// Returns the text.
    pub fn as_str(&self) -> &'a str
        ensures text { result.now ≡ self.now.text.now }
        ensures valid { IsText T.repertoire result.now }
        ensures short { Fits result.now }
    {
        self.text
    }

    /// Returns the bytes of the text.
    pub fn as_bytes(&self) -> &'a [u8]
        ensures { result.now ≡ self.now.text.now }
    {
        self.text.as_bytes()
    }

    /// Returns the number of bytes.
    pub fn len(&self) -> usize
        ensures { result ≡ length self.now.text.now }
    {
        self.text.len()
    }

    /// Returns whether there are no characters.
    pub fn is_empty(&self) -> bool
        ensures { IsTrue result ↔ (self.now.text.now ≡ []) }
    {
        self.text.is_empty()
    }

    /// Returns an owned copy of the text.
    ///
    /// # Errors
    ///
    /// - `AllocError`: memory runs out.
    pub fn ref_to_owned(&self, alloc: Global) -> Result<AsciiString<T>, AllocError>
        ensures { IfOk result (λ t. t ≡ self.now.text.now) }
    {
        AsciiString::from_ref(alloc, *self)
    }
}

impl<'a, T: AsciiType> From<&'a AsciiString<T>> for AsciiStringRef<'a, T> {
    ghost from_gives = { λ s t. t.text.now ≡ s.now };

    fn from(text: &'a AsciiString<T>) -> AsciiStringRef<'a, T> {
        text.owned_to_ref()
    }
}

impl<'a, T: AsciiType> From<&AsciiStringRef<'a, T>> for AsciiStringRef<'a, T> {
    ghost from_gives = { λ s t. t ≡ s.now };

    fn from(text: &AsciiStringRef<'a, T>) -> AsciiStringRef<'a, T> {
        *text
    }
}

/// Returns the bytes of the text.
impl<'a, T: AsciiType> From<AsciiStringRef<'a, T>> for &'a [u8] {
    ghost from_gives = { λ t s. s.now ≡ t.text.now };

    fn from(text: AsciiStringRef<'a, T>) -> &'a [u8] {
        text.as_bytes()
    }
}

impl<'a, T: AsciiType> AsSlice<u8> for AsciiStringRef<'a, T> {
    ghost items = { λ t. t.text.now };

    fn as_slice(&self) -> &[u8] {
        self.as_bytes()
    }
}

impl<'a, T: AsciiType> AsStr for AsciiStringRef<'a, T> {
    ghost text = { λ t. t.text.now };

    fn as_str(&self) -> &str {
        self.text
    }
}

impl<'a, T: AsciiType> FixedTag for AsciiStringRef<'a, T> {
    ghost fixed_tag = { T.string_tag };

    fn tag() -> Tag
        ensures { result ≡ T.string_tag }
    {
        T::tag()
    }
}

impl<'a, T: AsciiType> Described for AsciiStringRef<'a, T> {
    type By = AsOctets;
}

impl<'a, T: AsciiType> Primitive for AsciiStringRef<'a, T> {
    ghost kind = { text T.repertoire };

    ghost leaf_plain = { λ t. t.text.now };
}

impl<'a, T: AsciiType> Leaf<'a> for AsciiStringRef<'a, T> {
    ghost takes_memory = { false };

    fn from_content(
        _alloc: Global,
        tag: Tag,
        octets: &'a [u8],
    ) -> Result<AsciiStringRef<'a, T>, Error> {
        Ok(AsciiStringRef::spelled_by(tag, octets)?)
    }
}

impl<'a, T: AsciiType> Octets for AsciiStringRef<'a, T> {
    fn content(&self) -> &[u8] {
        // Only for the proof: `as_str` states that the characters are those of the type.
        let _text = self.as_str();
        self.as_bytes()
    }
}

/// Compares the bytes of the texts (X.690 8.23.5).
impl<'a, T: AsciiType> Ordered for AsciiStringRef<'a, T> {}

impl<'a, T: AsciiType> OrdIsValueOrd for AsciiStringRef<'a, T> {
    ghost order = { λ v w. octets_order (text T.repertoire) v.text.now w.text.now };
}

impl<'a, T: AsciiType> fmt::Display for AsciiStringRef<'a, T> {
    ghost output = { λ t. Some t.text.now };

    fn fmt<W: fmt::Write>(&self, f: &mut fmt::Formatter<W>) -> fmt::Result {
        f.pad(self.text)
    }
}

impl<'a, T: AsciiType> fmt::Debug for AsciiStringRef<'a, T> {
    fn fmt<W: fmt::Write>(&self, f: &mut fmt::Formatter<W>) -> fmt::Result {
        write!(f, "{}({:?})", T::name(), self.text)
    }
}
