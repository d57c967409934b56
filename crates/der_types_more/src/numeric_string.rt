//! NumericString (X.680 41.2).

ghost use Rattle.der_core.specs.TagTypes.Tag.TheVariants.{NumericString as NumericStringTag};
ghost use Rattle.der_core.specs.Texts.{numeric};
ghost use Rattle.der_core.proofs.TextLaws.{numeric_below};

use der_core::Tag;
use der_types::{AsciiString, AsciiStringRef, AsciiType};

/// The characters of NumericString (X.680 41.2): digits and space.
#[derive(Clone, Copy, Debug, PartialEq, Eq)]
pub struct Numeric;

/// An owned NumericString (X.680 41.2, X.690 8.23.5).
pub type NumericString = AsciiString<Numeric>;

/// A borrowed NumericString (X.680 41.2, X.690 8.23.5).
pub type NumericStringRef<'a> = AsciiStringRef<'a, Numeric>;

impl AsciiType for Numeric {
    ghost string_tag = { NumericStringTag };

    ghost repertoire = { numeric };

    ghost is_ascii = { numeric_below };

    fn tag() -> Tag {
        Tag::NumericString
    }

    fn name() -> &'static str {
        "NumericString"
    }

    fn has_character(octet: u8) -> bool {
        octet.is_ascii_digit() || octet == b' '
    }
}
