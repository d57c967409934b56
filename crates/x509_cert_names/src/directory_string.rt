ghost use Rattle.std.specs.Prelude.{◌≡◌, [], refl, IfOk, string_bytes};
ghost use Rattle.std.specs.Cow.{cow_str_bytes};
ghost use Rattle.der_core.specs.Copies.{IsCopy};
ghost use Rattle.x509_cert_names.specs.Names.{directory_string};
ghost use Rattle.x509_cert_names.specs.DirectoryStrings.{directory_plain, directory_text};
ghost use Rattle.x509_cert_names.specs.DirectoryStrings.{directory_from, directory_utf8};
ghost use Rattle.der_core.specs.Reading.{Gives};

use crate::from_any::FromAny;
use der_core::{
    AsRead, Choice, Decode, DerOrd, Element, Encode, EncodeRef, Error, ErrorKind, FirstTag, Length,
    Member, OneOf4, Reader, Shaped, Tag, Writer,
};
use der_types::{Any, BmpString, PrintableString, TeletexString};
use std::alloc::{AllocError, Global};
use std::borrow::CowStr;
use std::cmp::Ordering;

/// The string type of most attribute values in names (RFC 5280 4.1.2.4, appendix A.1).
/// UniversalString isn't supported.
///
/// ```text
/// DirectoryString ::= CHOICE {
///     printableString  PrintableString,
///     teletexString    TeletexString,
///     utf8String       UTF8String,
///     bmpString        BMPString }
/// ```
#[derive(Debug, Drop, PartialEq, Eq)]
pub enum DirectoryString {
    /// Letters, digits, spaces and a few punctuation marks (X.680 41.4).
    PrintableString(PrintableString),
    /// ASCII characters.
    TeletexString(TeletexString),
    /// Any Unicode text. RFC 5280 requires this type or PrintableString in new certificates.
    Utf8String(String),
    /// Characters of the Basic Multilingual Plane, two bytes each.
    BmpString(BmpString),
}

type Cases = OneOf4<PrintableString, TeletexString, String, BmpString>;

type CasesRef<'a> = OneOf4<
    EncodeRef<'a, PrintableString>,
    EncodeRef<'a, TeletexString>,
    EncodeRef<'a, String>,
    EncodeRef<'a, BmpString>,
>;

impl Shaped for DirectoryString {
    ghost shape = { directory_string };

    ghost plain = { directory_plain };

    ghost written = { directory_plain };
}

impl Choice for DirectoryString {
    fn can_decode(tag: Tag) -> bool {
        Cases::can_decode(tag)
    }
}

impl<'a, R: Reader<'a>> Decode<'a, R> for DirectoryString {
    fn decode(alloc: Global, reader: &mut R) -> Result<DirectoryString, Error> {
        match Cases::decode(alloc, reader)? {
            OneOf4::First(text) => Ok(DirectoryString::PrintableString(text)),
            OneOf4::Second(text) => Ok(DirectoryString::TeletexString(text)),
            OneOf4::Third(text) => Ok(DirectoryString::Utf8String(text)),
            OneOf4::Fourth(text) => Ok(DirectoryString::BmpString(text)),
        }
    }
}

impl Encode for DirectoryString {
    fn encoded_len(&self) -> Result<Length, Error> {
        self.cases().encoded_len()
    }

    fn encode<W: Writer>(&self, writer: &mut W) -> Result<(), Error> {
        self.cases().encode(writer)
    }
}

impl Element for DirectoryString {
    ghost element = { refl };
}

impl Member for DirectoryString {
    ghost apart = { refl };
}

impl AsRead for DirectoryString {
    ghost as_read = { λ _. refl };
}

/// Compares the tags first, then the contents.
impl DerOrd for DirectoryString {
    fn der_cmp(&self, other: &Self) -> Result<Ordering, Error> {
        self.cases().der_cmp(&other.cases())
    }
}

impl FirstTag for DirectoryString {
    fn first_tag(&self) -> Option<Tag> {
        self.cases().first_tag()
    }
}

impl DirectoryString {
    /// Returns the value as a choice of references, which has the encoding and ordering of a
    /// CHOICE.
    fn cases<'a>(&'a self) -> CasesRef<'a>
        ensures { ⟦<CasesRef<'a> as Shaped>⟧.written result ≡ directory_plain self.now }
    {
        match self {
            DirectoryString::PrintableString(text) => OneOf4::First(EncodeRef(text)),
            DirectoryString::TeletexString(text) => OneOf4::Second(EncodeRef(text)),
            DirectoryString::Utf8String(text) => OneOf4::Third(EncodeRef(text)),
            DirectoryString::BmpString(text) => OneOf4::Fourth(EncodeRef(text)),
        }
    }

    /// Returns the text, or the empty text for a BMPString.
    pub fn as_str(&self) -> &str
        ensures { result.now ≡ directory_text self.now }
    {
        match self {
            DirectoryString::PrintableString(text) => text.as_str(),
            DirectoryString::TeletexString(text) => text.as_str(),
            DirectoryString::Utf8String(text) => text.as_str(),
            DirectoryString::BmpString(_) => "",
        }
    }

    /// Returns the text. A BMPString is converted to UTF-8, which allocates; any other text is
    /// borrowed.
    ///
    /// # Errors
    ///
    /// - `AllocError`: memory runs out while a BMPString is converted.
    pub fn value(&self, alloc: Global) -> Result<CowStr<'_>, AllocError>
        ensures { IfOk result (λ t. cow_str_bytes t ≡ directory_utf8 self.now) }
    {
        match self {
            DirectoryString::PrintableString(text) => Ok(CowStr::Borrowed(text.as_str())),
            DirectoryString::TeletexString(text) => Ok(CowStr::Borrowed(text.as_str())),
            DirectoryString::Utf8String(text) => Ok(CowStr::Borrowed(text.as_str())),
            DirectoryString::BmpString(text) => Ok(CowStr::Owned(text.to_string(alloc)?)),
        }
    }

    /// Converts the value to its text. A BMPString is converted to UTF-8, which allocates.
    ///
    /// # Errors
    ///
    /// - `AllocError`: memory runs out while a BMPString is converted.
    pub fn into_string(self, alloc: Global) -> Result<String, AllocError>
        ensures { IfOk result (λ s. string_bytes s ≡ directory_utf8 self) }
    {
        match self {
            DirectoryString::PrintableString(text) => Ok(text.into_string()),
            DirectoryString::TeletexString(text) => Ok(text.into_string()),
            DirectoryString::Utf8String(text) => Ok(text),
            DirectoryString::BmpString(text) => Ok(text.to_string(alloc)?),
        }
    }

    /// Returns a copy.
    ///
    /// # Errors
    ///
    /// - `AllocError`: memory runs out.
    pub fn clone(&self, alloc: Global) -> Result<DirectoryString, AllocError>
        ensures { IsCopy self.now result directory_plain }
    {
        match self {
            Self::PrintableString(text) => Ok(Self::PrintableString(text.clone(alloc)?)),
            Self::TeletexString(text) => Ok(Self::TeletexString(text.clone(alloc)?)),
            Self::Utf8String(text) => Ok(Self::Utf8String(String::from_str(alloc, text.as_str())?)),
            Self::BmpString(text) => Ok(Self::BmpString(text.clone(alloc)?)),
        }
    }
}

/// Decodes the text of an attribute value.
///
/// # Errors
///
/// - `TagUnexpected`: the value has none of the four tags.
/// - The first error of the content.
/// - `OutOfMemory`: memory runs out.
impl<'a> FromAny<'a> for DirectoryString {
    ghost any_gives = { λ a r. Gives directory_plain r (directory_from a) };

    fn from_any(alloc: Global, any: &'a Any) -> Result<DirectoryString, Error> {
        match any.tag() {
            Tag::PrintableString => Ok(DirectoryString::PrintableString(any.decode_as(alloc)?)),
            Tag::TeletexString => Ok(DirectoryString::TeletexString(any.decode_as(alloc)?)),
            Tag::Utf8String => Ok(DirectoryString::Utf8String(any.decode_as(alloc)?)),
            Tag::BmpString => Ok(DirectoryString::BmpString(any.decode_as(alloc)?)),
            _ => Err(Error::from(ErrorKind::TagUnexpected)),
        }
    }
}
