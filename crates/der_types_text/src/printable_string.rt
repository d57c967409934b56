//! PrintableString.

ghost use Rattle.der_core.specs.TagTypes.Tag.TheVariants.{PrintableString as PrintableStringTag};
ghost use Rattle.der_core.specs.Texts.{printable};
ghost use Rattle.der_core.proofs.TextLaws.{printable_below};

use crate::ascii_string::AsciiString;
use crate::ascii_string_ref::AsciiStringRef;
use crate::ascii_type::AsciiType;
use der_core::Tag;

/// The characters of PrintableString (X.680 41.4): the letters `A` to `Z` and `a` to `z`, the
/// digits, space, and `' ( ) + , - . / : = ?`.
#[derive(Clone, Copy, Debug, PartialEq, Eq)]
pub struct Printable;

/// An owned PrintableString (X.680 41.4, X.690 8.23.5).
pub type PrintableString = AsciiString<Printable>;

/// A borrowed PrintableString (X.680 41.4, X.690 8.23.5).
pub type PrintableStringRef<'a> = AsciiStringRef<'a, Printable>;

impl AsciiType for Printable {
    ghost string_tag = { PrintableStringTag };

    ghost repertoire = { printable };

    ghost is_ascii = { printable_below };

    fn tag() -> Tag {
        Tag::PrintableString
    }

    fn name() -> &'static str {
        "PrintableString"
    }

    fn has_character(octet: u8) -> bool {
        matches!(
            octet,
            b'A'..=b'Z'
                | b'a'..=b'z'
                | b'0'..=b'9'
                | b' '
                | b'\''
                | b'('
                | b')'
                | b'+'
                | b','
                | b'-'
                | b'.'
                | b'/'
                | b':'
                | b'='
                | b'?'
        )
    }
}
