//! Owned texts of ASCII characters.

ghost use Rattle.std.specs.Prelude.{◌≡◌, ◌↔◌, length, IsTrue, IfOk, [], Some, Ok, string_bytes};
ghost use Rattle.der_core.specs.Heads.{Fits};
ghost use Rattle.der_core.specs.Leaves.{text};
ghost use Rattle.der_core.specs.Reading.{Gives, GivesNow};
ghost use Rattle.der_core.specs.Texts.{IsText};
ghost use Rattle.der_core.specs.OrdLaws.{octets_order};
ghost use Rattle.der_types_text.specs.Texts.{text_from};

use crate::ascii_string_ref::AsciiStringRef;
use crate::ascii_type::AsciiType;
use der_core::describing::{AsOctets, Described, Octets, Ordered, Primitive};
use der_core::{Error, FixedTag, Leaf, OrdIsValueOrd, StringOwned, Tag};
use std::alloc::{AllocError, Global};
use std::convert::{AsSlice, AsStr};
use std::fmt;
use std::marker::{Model, PhantomData};

/// A text of a string type whose characters are ASCII, of fewer than 2^32 bytes (X.680 41).
///
/// In contracts, its value is the list of its bytes. Texts are compared by their bytes.
#[derive(Drop)]
#[derive_where(PartialEq, Eq, PartialOrd, Ord, Hash)]
pub struct AsciiString<T: AsciiType> {
    text: StringOwned,
    #[derive_where(skip(EqHashOrd))]
    kind: PhantomData<T>,
}

impl<T: AsciiType> Model for AsciiString<T> {
    ghost use Rattle.std.specs.Prelude.{List, ℕ};
    ghost use Rattle.der_types_text.specs.Texts.{AreWithin};

    ghost Value = { List ℕ };

    ghost view = { λ a. a.text };

    ghost inverse = { λ octets. record { text = octets; kind = record {} } };

    ghost invariant = { λ a. AreWithin T.repertoire a.text };
}

impl<T: AsciiType> AsciiString<T> {
    /// Returns an owned copy of a borrowed text.
    pub(crate) fn from_ref(
        alloc: Global,
        text: AsciiStringRef<'_, T>,
    ) -> Result<AsciiString<T>, AllocError>
        ensures { IfOk result (λ t. t ≡ text.entry.text.now) }
    {
        let text = StringOwned::copy_of(alloc, text.text)?;
        Ok(AsciiString {
            text,
            kind: PhantomData,
        })
    }

    /// Returns the text with these bytes.
    ///
    /// # Errors
    ///
    /// - `Overflow`: there are 2^32 bytes or more.
    /// - `Value`: a byte isn't a character of the type.
    /// - `OutOfMemory`: memory runs out.
    pub fn new(alloc: Global, input: &[u8]) -> Result<AsciiString<T>, Error>
        ensures ok { IfOk result (λ t. t ≡ input.now) }
        ensures exact { Gives (λ t. t) result (text_from T.repertoire T.string_tag input.now) }
    {
        let text = AsciiStringRef::<T>::new(input)?;
        Ok(AsciiString::from_ref(alloc, text)?)
    }

    /// Returns a copy.
    ///
    /// # Errors
    ///
    /// - `AllocError`: memory runs out.
    pub fn clone(&self, alloc: Global) -> Result<AsciiString<T>, AllocError>
        ensures { IfOk result (λ t. t ≡ self.now) }
    {
        AsciiString::from_ref(alloc, self.owned_to_ref())
    }

    /// Returns the text.
    pub fn as_str(&self) -> &str
        ensures text { result.now ≡ self.now }
        ensures valid { IsText T.repertoire result.now }
        ensures short { Fits result.now }
    {
        self.owned_to_ref().as_str()
    }

    /// Returns the bytes of the text.
    pub fn as_bytes(&self) -> &[u8]
        ensures { result.now ≡ self.now }
    {
        self.text.as_bytes()
    }

    /// Returns the number of bytes.
    pub fn len(&self) -> usize
        ensures { result ≡ length self.now }
    {
        self.text.as_bytes().len()
    }

    /// Returns whether there are no characters.
    pub fn is_empty(&self) -> bool
        ensures { IsTrue result ↔ (self.now ≡ []) }
    {
        self.text.is_empty()
    }

    /// Returns the text, and consumes the value.
    pub fn into_string(self) -> String
        ensures { string_bytes result ≡ self }
    {
        self.text.into_string()
    }

    /// Returns the borrowed form of the text.
    pub fn owned_to_ref(&self) -> AsciiStringRef<'_, T>
        ensures { result.text.now ≡ self.now }
    {
        AsciiStringRef {
            text: self.text.as_str(),
            kind: PhantomData,
        }
    }
}

/// Wraps a text. The error is `Overflow` if it has 2^32 bytes or more, and `Value` if a byte isn't
/// a character of the type.
impl<T: AsciiType> TryFrom<String> for AsciiString<T> {
    type Error = Error;

    ghost try_from_gives = { λ s r. GivesNow (λ t. t) r
        (text_from T.repertoire T.string_tag (string_bytes s)) };

    fn try_from(text: String) -> Result<AsciiString<T>, Error> {
        // Checks that each byte is a character of the type.
        let _ = AsciiStringRef::<T>::new(text.as_bytes())?;
        Ok(AsciiString {
            text: StringOwned::new(text)?,
            kind: PhantomData,
        })
    }
}

impl<T: AsciiType> AsSlice<u8> for AsciiString<T> {
    ghost items = { λ t. t };

    fn as_slice(&self) -> &[u8] {
        self.as_bytes()
    }
}

impl<T: AsciiType> AsStr for AsciiString<T> {
    ghost text = { λ t. t };

    fn as_str(&self) -> &str {
        self.text.as_str()
    }
}

impl<T: AsciiType> FixedTag for AsciiString<T> {
    ghost fixed_tag = { T.string_tag };

    fn tag() -> Tag {
        T::tag()
    }
}

impl<T: AsciiType> Described for AsciiString<T> {
    type By = AsOctets;
}

impl<T: AsciiType> Primitive for AsciiString<T> {
    ghost kind = { text T.repertoire };

    ghost leaf_plain = { λ t. t };
}

/// The content is the bytes of the text.
impl<'a, T: AsciiType> Leaf<'a> for AsciiString<T> {
    fn from_content(alloc: Global, tag: Tag, octets: &'a [u8]) -> Result<AsciiString<T>, Error> {
        let text = AsciiStringRef::<T>::spelled_by(tag, octets)?;
        Ok(AsciiString::from_ref(alloc, text)?)
    }
}

impl<T: AsciiType> Octets for AsciiString<T> {
    fn content(&self) -> &[u8] {
        // Only for the proof: `as_str` states that the characters are those of the type.
        let _text = self.as_str();
        self.as_bytes()
    }
}

/// Compares the bytes of the texts (X.690 8.23.5).
impl<T: AsciiType> Ordered for AsciiString<T> {}

/// Copies the value with its own allocator.
impl<T: AsciiType> Clone for AsciiString<T> {
    ghost is_clone = { λ x y. y ≡ x };

    fn clone(&self) -> Result<AsciiString<T>, AllocError> {
        Ok(AsciiString {
            text: Clone::clone(&self.text)?,
            kind: PhantomData,
        })
    }
}

impl<T: AsciiType> OrdIsValueOrd for AsciiString<T> {
    ghost order = { octets_order (text T.repertoire) };
}

impl<T: AsciiType> fmt::Display for AsciiString<T> {
    ghost output = { λ t. Some t };

    fn fmt<W: fmt::Write>(&self, f: &mut fmt::Formatter<W>) -> fmt::Result {
        let text = self.as_str();
        f.pad(text)
    }
}

impl<T: AsciiType> fmt::Debug for AsciiString<T> {
    fn fmt<W: fmt::Write>(&self, f: &mut fmt::Formatter<W>) -> fmt::Result {
        let text = self.as_str();
        write!(f, "{}({text:?})", T::name())
    }
}
