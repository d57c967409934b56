//! TeletexString.

ghost use Rattle.der_core.specs.TagTypes.Tag.TheVariants.{TeletexString as TeletexStringTag};
ghost use Rattle.der_core.specs.Texts.{ascii};
ghost use Rattle.der_types_text.specs.Texts.{ascii_below};

use crate::ascii_string::AsciiString;
use crate::ascii_string_ref::AsciiStringRef;
use crate::ascii_type::AsciiType;
use der_core::Tag;

/// The characters of TeletexString (X.680 41). Of its code pages, only the bytes below `0x80` are
/// accepted, as ASCII.
#[derive(Clone, Copy, Debug, PartialEq, Eq)]
pub struct Teletex;

/// An owned TeletexString (X.680 41, X.690 8.23.5).
pub type TeletexString = AsciiString<Teletex>;

/// A borrowed TeletexString (X.680 41, X.690 8.23.5).
pub type TeletexStringRef<'a> = AsciiStringRef<'a, Teletex>;

impl AsciiType for Teletex {
    ghost string_tag = { TeletexStringTag };

    ghost repertoire = { ascii };

    ghost is_ascii = { ascii_below };

    fn tag() -> Tag {
        Tag::TeletexString
    }

    fn name() -> &'static str {
        "TeletexString"
    }

    fn has_character(octet: u8) -> bool {
        octet.is_ascii()
    }
}
