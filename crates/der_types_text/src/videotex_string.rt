//! VideotexString.

ghost use Rattle.der_core.specs.TagTypes.Tag.TheVariants.{VideotexString as VideotexStringTag};
ghost use Rattle.der_core.specs.Texts.{ascii};
ghost use Rattle.der_types_text.specs.Texts.{ascii_below};

use crate::ascii_string_ref::AsciiStringRef;
use crate::ascii_type::AsciiType;
use der_core::Tag;

/// The characters of VideotexString (X.680 41). Of its code pages, only the bytes below `0x80` are
/// accepted, as ASCII.
#[derive(Clone, Copy, Debug, PartialEq, Eq)]
pub struct Videotex;

/// A borrowed VideotexString (X.680 41, X.690 8.23.5).
pub type VideotexStringRef<'a> = AsciiStringRef<'a, Videotex>;

impl AsciiType for Videotex {
    ghost string_tag = { VideotexStringTag };

    ghost repertoire = { ascii };

    ghost is_ascii = { ascii_below };

    fn tag() -> Tag {
        Tag::VideotexString
    }

    fn name() -> &'static str {
        "VideotexString"
    }

    fn has_character(octet: u8) -> bool {
        octet.is_ascii()
    }
}
