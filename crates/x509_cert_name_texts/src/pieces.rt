//! Splitting a text at its separators.

ghost use Rattle.std.specs.Prelude.{◌≡◌, ◌<◌, ◌==◌, ◌&&◌, not, length, option_map, position, take};
ghost use Rattle.std.specs.Prelude.{drop, MatchOption, slice_index};
ghost use Rattle.x509_cert_name_texts.specs.Pieces.{IsFirstPiece, HasNone, Counts, ReadsPieces};
ghost use Rattle.x509_cert_name_texts.specs.Pieces.{key_and_value};
ghost use Rattle.x509_cert_name_texts.specs.Answers.{GivesBy};

use der_core::Error;
use std::alloc::Global;

/// A type that can be parsed from a text, and may allocate for what it contains.
pub trait FromText: Sized {
    ghost use Rattle.std.specs.Prelude.{Result, List, ℕ};
    ghost use Rattle.der_core.specs.ErrorTypes.ErrorKind.{ErrorKind};
    ghost use Rattle.x509_cert_name_texts.specs.Answers.{GivesBy};

    // The relation between a text and what parsing returns: the value, or why the text is rejected.
    ghost reads_text: { List ℕ → Result Self ErrorKind → Type 0 };

    /// Parses a value from a text.
    ///
    /// # Errors
    ///
    /// - The errors of the type: the text is rejected.
    /// - `OutOfMemory`: memory runs out.
    fn from_text(alloc: Global, text: &str) -> Result<Self, Error>
        ensures { GivesBy (λ x. x) result (reads_text text.now) };
}

/// Returns whether the byte is a separator that isn't escaped. `escaped` says that the byte before
/// it is a backslash that begins an escape.
fn is_end(octet: u8, separator: u8, escaped: bool) -> bool
    ensures { result ≡ (octet == separator && not escaped) }
{
    octet == separator && !escaped
}

/// Returns whether the byte is a backslash that begins an escape. `escaped` says that the byte
/// before it already begins one.
fn opens_escape(octet: u8, escaped: bool) -> bool
    ensures { result ≡ (octet == 92 && not escaped) }
{
    octet == b'\\' && !escaped
}

/// Returns the index of the first separator that isn't escaped, or `None` if there is none.
fn first_separator(text: &[u8], separator: u8) -> Option<usize>
    ensures { MatchOption result (HasNone separator text.now) (λ i. (i < length text.now)
        × (slice_index text.now i ≡ separator) × HasNone separator (take i text.now)
        × Counts (take i text.now)) }
{
    let mut escaped = false;
    for (i, octet) in text.iter().enumerate() {
        if is_end(*octet, separator, escaped) {
            return Some(i);
        }
        escaped = opens_escape(*octet, escaped);
    }
    None
}

/// Splits a text at its first separator that isn't escaped.
///
/// Returns the text before the separator, and the text after it or `None` if there is no such
/// separator. A separator is escaped if the number of backslashes directly before it is odd.
pub fn first_piece(text: &str, separator: u8) -> (&str, Option<&str>)
    requires { separator < 128 }
    ensures { IsFirstPiece separator text.now result.0.now
        (option_map (λ rest. rest.now) result.1) }
{
    match first_separator(text.as_bytes(), separator) {
        None => (text, None),
        Some(i) => (&text[..i], Some(&text[i + 1..])),
    }
}

/// Splits a text at its separators and parses each piece, from left to right.
///
/// # Errors
///
/// - The error of the first piece that is rejected.
/// - `OutOfMemory`: memory runs out.
pub fn read_pieces<T: FromText + Drop>(
    alloc: Global,
    text: &str,
    separator: u8,
) -> Result<Vec<T>, Error>
    requires { separator < 128 }
    ensures { GivesBy (λ v. v.items) result (ReadsPieces separator T.reads_text text.now) }
{
    let mut values = Vec::new(alloc);
    let mut left = text;
    loop {
        let (piece, rest) = first_piece(left, separator);
        values.push(T::from_text(alloc, piece)?)?;
        let Some(rest) = rest else {
            return Ok(values);
        };
        left = rest;
    }
}

/// Returns the index of the first `=`, if any.
fn place_of_equals(text: &[u8]) -> Option<usize>
    ensures { result ≡ position (λ c. c == 61) text.now }
{
    text.iter().position(|octet| *octet == b'=')
}

/// Splits a text at its first `=` into the text before it and the bytes after it, or returns `None`
/// if there is no `=`.
pub fn split_member(text: &str) -> Option<(&str, &[u8])>
    ensures { key_and_value text.now ≡ option_map (λ halves. (halves.0.now, halves.1.now)) result }
{
    let octets = text.as_bytes();
    let i = place_of_equals(octets)?;
    Some((&text[..i], &octets[i + 1..]))
}
