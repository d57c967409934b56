//! IA5String.

ghost use Rattle.der_core.specs.TagTypes.Tag.TheVariants.{Ia5String as Ia5StringTag};
ghost use Rattle.der_core.specs.Texts.{ascii};
ghost use Rattle.der_types_text.specs.Texts.{ascii_below};

use crate::ascii_string::AsciiString;
use crate::ascii_string_ref::AsciiStringRef;
use crate::ascii_type::AsciiType;
use der_core::Tag;

/// The characters of IA5String (X.680 41): the bytes below `0x80`.
#[derive(Clone, Copy, Debug, PartialEq, Eq)]
pub struct Ia5;

/// An owned IA5String (X.680 41, X.690 8.23.5).
pub type Ia5String = AsciiString<Ia5>;

/// A borrowed IA5String (X.680 41, X.690 8.23.5).
pub type Ia5StringRef<'a> = AsciiStringRef<'a, Ia5>;

impl AsciiType for Ia5 {
    ghost string_tag = { Ia5StringTag };

    ghost repertoire = { ascii };

    ghost is_ascii = { ascii_below };

    fn tag() -> Tag {
        Tag::Ia5String
    }

    fn name() -> &'static str {
        "Ia5String"
    }

    fn has_character(octet: u8) -> bool {
        octet.is_ascii()
    }
}
