ghost use Rattle.std.specs.Prelude.{◌≡◌, refl};
ghost use Rattle.x509_cert_policies.specs.Policies.{display_text};
ghost use Rattle.x509_cert_policies.specs.PolicyViews.{display_plain};

use der_core::{
    AsRead, Choice, Decode, DerOrd, Element, Encode, EncodeRef, Error, FirstTag, Length, Member,
    OneOf2, Reader, Shaped, Tag, Writer,
};
use std::alloc::Global;
use std::cmp::Ordering;
use x509_cert_parts::types::Ia5String;

/// A text for display (RFC 5280 4.2.1.4). VisibleString and BMPString aren't supported.
///
/// ```text
/// DisplayText ::= CHOICE {
///     ia5String   IA5String (SIZE (1..200)),
///     utf8String  UTF8String (SIZE (1..200)) }
/// ```
#[derive(Debug, Drop, PartialEq, Eq)]
pub enum DisplayText {
    /// ASCII characters.
    Ia5String(Ia5String),
    /// Any Unicode text.
    Utf8String(String),
}

type Cases = OneOf2<Ia5String, String>;

type CasesRef<'a> = OneOf2<EncodeRef<'a, Ia5String>, EncodeRef<'a, String>>;

impl DisplayText {
    /// Returns the value as a choice of references, which has the encoding and ordering of a
    /// CHOICE.
    fn cases<'a>(&'a self) -> CasesRef<'a>
        ensures { ⟦<CasesRef<'a> as Shaped>⟧.written result ≡ display_plain self.now }
    {
        match self {
            DisplayText::Ia5String(value) => OneOf2::First(EncodeRef(value)),
            DisplayText::Utf8String(value) => OneOf2::Second(EncodeRef(value)),
        }
    }
}

impl Shaped for DisplayText {
    ghost shape = { display_text };

    ghost plain = { display_plain };

    ghost written = { display_plain };
}

impl Choice for DisplayText {
    fn can_decode(tag: Tag) -> bool {
        Cases::can_decode(tag)
    }
}

impl<'a, R: Reader<'a>> Decode<'a, R> for DisplayText {
    fn decode(alloc: Global, reader: &mut R) -> Result<DisplayText, Error> {
        match Cases::decode(alloc, reader)? {
            OneOf2::First(value) => Ok(DisplayText::Ia5String(value)),
            OneOf2::Second(value) => Ok(DisplayText::Utf8String(value)),
        }
    }
}

impl Encode for DisplayText {
    fn encoded_len(&self) -> Result<Length, Error> {
        self.cases().encoded_len()
    }

    fn encode<W: Writer>(&self, writer: &mut W) -> Result<(), Error> {
        self.cases().encode(writer)
    }
}

impl Element for DisplayText {
    ghost element = { refl };
}

impl Member for DisplayText {
    ghost apart = { refl };
}

impl AsRead for DisplayText {
    ghost as_read = { λ _. refl };
}

/// Compares the tags first, then the contents.
impl DerOrd for DisplayText {
    fn der_cmp(&self, other: &Self) -> Result<Ordering, Error> {
        self.cases().der_cmp(&other.cases())
    }
}

impl FirstTag for DisplayText {
    fn first_tag(&self) -> Option<Tag> {
        self.cases().first_tag()
    }
}
