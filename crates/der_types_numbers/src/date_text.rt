//! Dates as text, and their digits in encodings (X.690 11.7, 11.8).

ghost use Rattle.std.specs.Prelude.{◌≡◌, ◌<◌, ◌≤◌, ◌↔◌, IsTrue, IfSome, option_map};
ghost use Rattle.der_core.specs.Dates.{digit_at, two_at, civil_at, two_digits};
ghost use Rattle.der_types_numbers.specs.DateTexts.{behind_mark, time_at, text_at, date_text};
ghost use Rattle.der_core.specs.TagTypes.Tag.{Tag as AnyTag};

use crate::date_time::DateTime;
use std::ops::RangeInclusive;

/// Returns whether a byte lies in a range, both ends included.
pub fn const_contains_u8(range: RangeInclusive<u8>, item: u8) -> bool
    ensures { IsTrue result ↔ ((range.start ≤ item) × (item ≤ range.end)) }
{
    item >= *range.start() && item <= *range.end()
}

/// Returns the value of a digit.
fn digit(octet: u8) -> Option<u8>
    ensures value { result ≡ digit_at octet }
    ensures bound { IfSome result (λ d. d ≤ 9) }
{
    if (b'0'..=b'9').contains(&octet) {
        Some(octet - b'0')
    } else {
        None
    }
}

/// Returns the value of two digits, and the bytes after them.
pub(crate) fn two(octets: &[u8]) -> Option<(u8, &[u8])>
    ensures value { option_map (λ p. (p.0, p.1.now)) result ≡ two_at octets.now }
    ensures bound { IfSome result (λ p. p.0 < 100) }
{
    let [first, second, rest @ ..] = octets else {
        return None;
    };
    let tens = digit(*first)?;
    let ones = digit(*second)?;
    Some((10 * tens + ones, rest))
}

/// Returns the date with this year, whose month, day, hour, minute and second are ten digits
/// followed by `Z`.
#[inline(always)]
#[tactic(auto, unfolding(crate::specs::Opened::civil_at))]
pub(crate) fn date_of(year: u16, octets: &[u8]) -> Option<DateTime>
    ensures value { result ≡ civil_at year octets.now }
    ensures year { IfSome result (λ d. d.year ≡ year) }
{
    let (month, rest) = two(octets)?;
    let (day, rest) = two(rest)?;
    let (hour, rest) = two(rest)?;
    let (minutes, rest) = two(rest)?;
    let Some((seconds, rest)) = two(rest) else {
        return None;
    };
    let [b'Z'] = rest else {
        return None;
    };
    DateTime::new(year, month, day, hour, minutes, seconds).ok()
}

/// Returns the two digits of a number below 100.
pub(crate) fn two_digits(number: u8) -> [u8; 2]
    requires { number < 100 }
    ensures { result ≡ two_digits number }
{
    [b'0' + number / 10, b'0' + number % 10]
}

/// Returns the bytes after a separator, if they begin with it.
fn behind(octets: &[u8], mark: u8) -> Option<&[u8]>
    ensures { option_map (λ rest. rest.now) result ≡ behind_mark mark octets.now }
{
    let [first, rest @ ..] = octets else {
        return None;
    };
    if *first == mark { Some(rest) } else { None }
}

/// Parses a date of the form `YYYY-MM-DDTHH:MM:SSZ`.
#[tactic(auto, unfolding(crate::specs::DateTexts::text_at))]
pub(crate) fn date_of_text(text: &[u8]) -> Option<DateTime>
    ensures { result ≡ text_at text.now }
{
    let (century, rest) = two(text)?;
    let (year, rest) = two(rest)?;
    let rest = behind(rest, b'-')?;
    let (month, rest) = two(rest)?;
    let rest = behind(rest, b'-')?;
    let (day, rest) = two(rest)?;
    let rest = behind(rest, b'T')?;
    let year = 100 * u16::from(century) + u16::from(year);
    time_of_text(year, month, day, rest)
}

/// Returns the date with this day and with a time of the form `HH:MM:SSZ`.
fn time_of_text(year: u16, month: u8, day: u8, text: &[u8]) -> Option<DateTime>
    ensures { result ≡ time_at year month day text.now }
{
    let (hour, rest) = two(text)?;
    let rest = behind(rest, b':')?;
    let (minutes, rest) = two(rest)?;
    let rest = behind(rest, b':')?;
    let Some((seconds, rest)) = two(rest) else {
        return None;
    };
    let [b'Z'] = rest else {
        return None;
    };
    DateTime::new(year, month, day, hour, minutes, seconds).ok()
}

/// Returns the text of a date, `YYYY-MM-DDTHH:MM:SSZ`.
#[tactic(auto, unfolding(crate::specs::DateTexts::date_text))]
pub(crate) fn text_of_date(date: DateTime) -> [u8; 20]
    ensures { result ≡ date_text date }
{
    let [c1, c2] = two_digits((date.year() / 100) as u8);
    let [y1, y2] = two_digits((date.year() % 100) as u8);
    let [m1, m2] = two_digits(date.month());
    let [d1, d2] = two_digits(date.day());
    let [h1, h2] = two_digits(date.hour());
    let [n1, n2] = two_digits(date.minutes());
    let [s1, s2] = two_digits(date.seconds());
    [
        c1, c2, y1, y2, b'-', m1, m2, b'-', d1, d2, b'T', h1, h2, b':', n1, n2, b':', s1, s2, b'Z',
    ]
}
