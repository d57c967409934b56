//! Iterators over the code units and the characters of a BMPString (X.680 41.15).

ghost use Rattle.std.specs.Prelude.{◌≡◌, ◌<◌, true, MatchOption};
ghost use Rattle.std.specs.Iterator.{YieldsFirst, item_count};
ghost use Rattle.der_core.specs.BmpStrings.{IsBmp, is_unit, units};

use std::marker::Model;

/// An iterator over the code units of a BMPString, as numbers.
#[derive(Debug, Drop)]
pub struct BmpCodepoints<'a> {
    octets: &'a [u8],
}

impl<'a> Model for BmpCodepoints<'a> {
    ghost use Rattle.std.specs.Prelude.{List, ℕ};

    ghost Value = { List ℕ };

    ghost use Rattle.der_types_text.specs.BmpChars.{codepoints_of};

    ghost view = { codepoints_of };
}

impl<'a> BmpCodepoints<'a> {
    /// Returns an iterator over the code units of a content. Each has two bytes, the more
    /// significant one first.
    pub(crate) fn of(octets: &'a [u8]) -> BmpCodepoints<'a>
        ensures { result ≡ units octets.now }
    {
        BmpCodepoints { octets }
    }
}

impl<'a> Iterator for BmpCodepoints<'a> {
    type Item = u16;

    ghost next_gives = { YieldsFirst (λ s. s) };

    ghost remaining = { item_count (λ s. s) };

    fn next(&mut self) -> Option<u16> {
        let [high, low, octets @ ..] = self.octets else {
            return None;
        };
        self.octets = octets;
        Some(256 * u16::from(*high) + u16::from(*low))
    }
}

/// An iterator over the characters of a BMPString.
#[derive(Debug, Drop)]
pub struct BmpChars<'a> {
    codepoints: BmpCodepoints<'a>,
}

impl<'a> Model for BmpChars<'a> {
    ghost use Rattle.std.specs.Prelude.{List, ℕ};

    ghost Value = { List ℕ };

    ghost use Rattle.der_types_text.specs.BmpChars.{chars_of, AreChars};

    ghost view = { chars_of };

    ghost invariant = { AreChars };
}

/// Returns the character with the number of this code unit, which isn't a surrogate.
fn char_of(unit: u16) -> char
    requires { is_unit unit ≡ true }
    ensures { result ≡ unit }
{
    // SAFETY: a unit is below 2^16 and isn't a surrogate, so it is a scalar value.
    unsafe { char::from_u32_unchecked(u32::from(unit)) }
}

impl<'a> BmpChars<'a> {
    /// Returns an iterator over the characters of a content, whose code units aren't surrogates.
    pub(crate) fn of(octets: &'a [u8]) -> BmpChars<'a>
        requires { IsBmp (units octets.now) }
        ensures { result ≡ units octets.now }
    {
        BmpChars {
            codepoints: BmpCodepoints::of(octets),
        }
    }
}

impl<'a> Iterator for BmpChars<'a> {
    type Item = char;

    ghost next_gives = { YieldsFirst (λ s. s) };

    ghost remaining = { item_count (λ s. s) };

    fn next(&mut self) -> Option<char> {
        let unit = self.codepoints.next()?;
        Some(char_of(unit))
    }
}
