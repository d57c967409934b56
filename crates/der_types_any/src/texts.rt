//! Conversions from `AnyRef` and `Any` to texts, and back. An `Any` is converted as its borrowed
//! form is.

ghost use Rattle.std.specs.Prelude.{◌≡◌};
ghost use Rattle.der_types_text.specs.Der.TagTypes.Tag.TheVariants as tags;
ghost use Rattle.der_types_text.specs.Der.Leaves.{text, utf8};
ghost use Rattle.der_types_text.specs.Der.Texts.{any_octet};
ghost use Rattle.der_types_text.specs.Der.Reading.{GivesNow};
ghost use Rattle.der_types_any.specs.Anys.{any_lent};
ghost use Rattle.der_types_any.specs.Contents.{leaf_as, any_from};

use crate::any::Any;
use crate::any_ref::AnyRef;
use crate::conversions::check_tag;
use der_types_text::der::{Error, Tag};
use der_types_text::{AsciiStringRef, AsciiType, GeneralStringRef, Utf8StringRef};

/// Converts a character string whose characters are ASCII.
impl<'a, T: AsciiType> TryFrom<AnyRef<'a>> for AsciiStringRef<'a, T> {
    type Error = Error;

    ghost try_from_gives = { λ a r. GivesNow (λ t. t.text.now) r
        (leaf_as T.string_tag (text T.repertoire) (any_lent a)) };

    #[tactic(auto, unfolding(crate::specs::Contents::leaf_as), using(crate::proofs::AnyLaws::text_contents))]
    fn try_from(any: AnyRef<'a>) -> Result<AsciiStringRef<'a, T>, Error> {
        check_tag(any.tag(), T::tag())?;
        Ok(AsciiStringRef::new(any.value())?)
    }
}

impl<'a, T: AsciiType> TryFrom<&'a Any> for AsciiStringRef<'a, T> {
    type Error = Error;

    ghost try_from_gives = { λ a r. GivesNow (λ t. t.text.now) r
        (leaf_as T.string_tag (text T.repertoire) a.now) };

    fn try_from(any: &'a Any) -> Result<AsciiStringRef<'a, T>, Error> {
        AsciiStringRef::try_from(any.to_ref())
    }
}

/// Converts a UTF8String.
impl<'a> TryFrom<AnyRef<'a>> for Utf8StringRef<'a> {
    type Error = Error;

    ghost try_from_gives = { λ a r. GivesNow (λ t. t.text.now) r
        (leaf_as tags.Utf8String utf8 (any_lent a)) };

    #[tactic(auto, unfolding(crate::specs::Contents::leaf_as), using(crate::proofs::AnyLaws::text_contents))]
    fn try_from(any: AnyRef<'a>) -> Result<Utf8StringRef<'a>, Error> {
        check_tag(any.tag(), Tag::Utf8String)?;
        Ok(Utf8StringRef::new(any.value())?)
    }
}

impl<'a> TryFrom<&'a Any> for Utf8StringRef<'a> {
    type Error = Error;

    ghost try_from_gives = { λ a r. GivesNow (λ t. t.text.now) r
        (leaf_as tags.Utf8String utf8 a.now) };

    fn try_from(any: &'a Any) -> Result<Utf8StringRef<'a>, Error> {
        Utf8StringRef::try_from(any.to_ref())
    }
}

/// Converts a UTF8String.
impl<'a> TryFrom<AnyRef<'a>> for &'a str {
    type Error = Error;

    ghost try_from_gives = { λ a r. GivesNow (λ s. s.now) r
        (leaf_as tags.Utf8String utf8 (any_lent a)) };

    fn try_from(any: AnyRef<'a>) -> Result<&'a str, Error> {
        let text = Utf8StringRef::try_from(any)?;
        Ok(text.as_str())
    }
}

impl<'a> TryFrom<&'a Any> for &'a str {
    type Error = Error;

    ghost try_from_gives = { λ a r. GivesNow (λ s. s.now) r (leaf_as tags.Utf8String utf8 a.now) };

    fn try_from(any: &'a Any) -> Result<&'a str, Error> {
        <&'a str>::try_from(any.to_ref())
    }
}

/// Converts a GeneralString.
impl<'a> TryFrom<AnyRef<'a>> for GeneralStringRef<'a> {
    type Error = Error;

    ghost try_from_gives = { λ a r. GivesNow (λ s. s.bytes.now) r
        (leaf_as tags.GeneralString (text any_octet) (any_lent a)) };

    #[tactic(auto, unfolding(crate::specs::Contents::leaf_as), using(crate::proofs::AnyLaws::text_contents))]
    fn try_from(any: AnyRef<'a>) -> Result<GeneralStringRef<'a>, Error> {
        check_tag(any.tag(), Tag::GeneralString)?;
        Ok(GeneralStringRef::new(any.value())?)
    }
}

impl<'a> TryFrom<&'a Any> for GeneralStringRef<'a> {
    type Error = Error;

    ghost try_from_gives = { λ a r. GivesNow (λ s. s.bytes.now) r
        (leaf_as tags.GeneralString (text any_octet) a.now) };

    fn try_from(any: &'a Any) -> Result<GeneralStringRef<'a>, Error> {
        GeneralStringRef::try_from(any.to_ref())
    }
}

/// Borrows the bytes of the text.
impl<'a, T: AsciiType> From<AsciiStringRef<'a, T>> for AnyRef<'a> {
    ghost from_gives = { λ text a. any_lent a
        ≡ record { tag = T.string_tag; contents = text.text.now } };

    fn from(text: AsciiStringRef<'a, T>) -> AnyRef<'a> {
        AnyRef::trusted(T::tag(), text.as_bytes())
    }
}

/// Borrows the bytes of the text.
impl<'a> From<Utf8StringRef<'a>> for AnyRef<'a> {
    ghost from_gives = { λ text a. any_lent a
        ≡ record { tag = tags.Utf8String; contents = text.text.now } };

    fn from(text: Utf8StringRef<'a>) -> AnyRef<'a> {
        AnyRef::trusted(Tag::Utf8String, text.as_bytes())
    }
}

/// Borrows the bytes of the string.
impl<'a> From<GeneralStringRef<'a>> for AnyRef<'a> {
    ghost from_gives = { λ text a. any_lent a
        ≡ record { tag = tags.GeneralString; contents = text.bytes.now } };

    fn from(text: GeneralStringRef<'a>) -> AnyRef<'a> {
        AnyRef::trusted(Tag::GeneralString, text.as_bytes())
    }
}

/// Borrows the bytes of the text. The error is `Overflow` if there are 2^32 bytes or more.
impl<'a> TryFrom<&'a str> for AnyRef<'a> {
    type Error = Error;

    ghost try_from_gives = { λ x r. GivesNow any_lent r (any_from tags.Utf8String x.now) };

    #[tactic(auto, unfolding(crate::specs::Contents::any_from, der_types_numbers::specs::Numbers::if_countable))]
    fn try_from(text: &'a str) -> Result<AnyRef<'a>, Error> {
        AnyRef::new(Tag::Utf8String, text.as_bytes())
    }
}
