//! Parsing a dotted text in one pass.

ghost use Rattle.std.specs.Prelude.{◌≡◌, ℕ, ◌+◌, ◌*◌, Option, Some, None, [], nat_lt};
ghost use Rattle.std.specs.Prelude.{if◌then◌else◌, Result, Ok, Err};
ghost use Rattle.const_oid.specs.Bound.{Bound, max_size};
ghost use Rattle.const_oid.specs.TextReading.{early_dot, text_arcs, read_text};

use crate::encoder::Encoder;
use crate::error::{Arc, Error, Result};
use crate::object_identifier::ObjectIdentifier;

/// Returns a number with one more decimal digit, or `None` if it reaches the bound of arcs.
#[inline]
fn push_digit(value: Arc, digit: u8) -> Option<Arc>
    ensures { result
        ≡ (if nat_lt (value * 10 + digit) Bound then Some (value * 10 + digit) else None) }
{
    // Most arcs fit a 64-bit word.
    if value < 1 << 60 {
        return Some(Arc::from(value as u64 * 10 + u64::from(digit)));
    }
    let Some(tens) = value.checked_mul(10) else {
        return None;
    };
    tens.checked_add(Arc::from(digit))
}

/// Parses a dotted text, as `ObjectIdentifier::new` does.
pub(crate) fn read(text: &[u8]) -> Result<ObjectIdentifier<39>>
    ensures { result ≡ read_text Bound max_size text.now }
{
    let mut arcs = Encoder::<39>::new();
    let mut value: Option<Arc> = None;
    for (i, octet) in text.iter().enumerate() {
        if *octet >= b'0' && *octet <= b'9' {
            let Some(next) = push_digit(value.unwrap_or(0), *octet - b'0') else {
                return Err(Error::ArcTooBig);
            };
            value = Some(next);
            continue;
        }
        if *octet != b'.' {
            return Err(Error::DigitExpected { actual: *octet });
        }
        let Some(arc) = value else {
            return Err(early_dot(&arcs));
        };
        if i + 1 == text.len() {
            return Err(Error::TrailingDot);
        }
        arcs.add(arc)?;
        value = None;
    }
    finish(arcs, value)
}

/// Returns the identifier at the end of a text, after adding its last arc.
fn finish(mut arcs: Encoder<39>, value: Option<Arc>) -> Result<ObjectIdentifier<39>>
    ensures { result ≡ text_arcs Bound max_size arcs value [] }
{
    let Some(last) = value else {
        return Err(Error::Empty);
    };
    arcs.add(last)?;
    arcs.finish()
}

/// Returns the error of a dot where a digit is required, which is at the beginning of the text or
/// after a dot.
fn early_dot(arcs: &Encoder<39>) -> Error
    ensures { result ≡ early_dot arcs.now }
{
    if arcs.is_empty() {
        Error::DigitExpected { actual: b'.' }
    } else {
        Error::RepeatedDot
    }
}
