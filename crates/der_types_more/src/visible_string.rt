//! VisibleString (X.680 41).

ghost use Rattle.der_core.specs.TagTypes.Tag.TheVariants.{VisibleString as VisibleStringTag};
ghost use Rattle.der_core.specs.Texts.{visible};
ghost use Rattle.der_core.proofs.TextLaws.{visible_below};

use der_core::Tag;
use der_types::{AsciiString, AsciiStringRef, AsciiType};

/// The characters of VisibleString (X.680 41): space and the characters of ASCII that print.
#[derive(Clone, Copy, Debug, PartialEq, Eq)]
pub struct Visible;

/// An owned VisibleString (X.680 41, X.690 8.23.5).
pub type VisibleString = AsciiString<Visible>;

/// A borrowed VisibleString (X.680 41, X.690 8.23.5).
pub type VisibleStringRef<'a> = AsciiStringRef<'a, Visible>;

impl AsciiType for Visible {
    ghost string_tag = { VisibleStringTag };

    ghost repertoire = { visible };

    ghost is_ascii = { visible_below };

    fn tag() -> Tag {
        Tag::VisibleString
    }

    fn name() -> &'static str {
        "VisibleString"
    }

    fn has_character(octet: u8) -> bool {
        octet >= b' ' && octet < 0x7f
    }
}
