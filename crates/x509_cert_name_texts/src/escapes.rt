//! Escapes and hexadecimal digits in the string form of names (RFC 4514 2.4, 3).

ghost use Rattle.std.specs.Prelude.{◌≡◌, ◌<◌, length, IfOk};
ghost use Rattle.der_core.specs.Reading.{Gives, GivesNow};
ghost use Rattle.hex.specs.Hex.{hex_digit_value};
ghost use Rattle.x509_cert_name_texts.specs.Answers.{GivesBy};
ghost use Rattle.x509_cert_name_texts.specs.Escapes.{is_sign, escape, ReadsOctets, hex_octets};

use der_core::{Error, ErrorKind};
use hex::FromHexError;
use std::alloc::Global;

/// Returns whether the byte may follow a backslash and then represents itself (RFC 4514 3,
/// `special` and `ESC`).
fn is_sign(octet: u8) -> bool
    ensures { result ≡ is_sign octet }
{
    matches!(
        octet,
        b' ' | b'"' | b'#' | b'+' | b',' | b';' | b'<' | b'=' | b'>' | b'\\'
    )
}

/// Returns the value of a hexadecimal digit in either case, or `None` if the byte isn't a digit.
fn digit_value(digit: u8) -> Option<u8>
    ensures { result ≡ hex_digit_value digit }
{
    match digit {
        b'A'..=b'F' => Some(digit - b'A' + 10),
        b'a'..=b'f' => Some(digit - b'a' + 10),
        b'0'..=b'9' => Some(digit - b'0'),
        _ => None,
    }
}

/// Decodes the escape whose backslash comes before these bytes. Returns the byte that it represents
/// and the remaining bytes.
///
/// # Errors
///
/// - `Failed`: neither an escapable character nor two hexadecimal digits follow the backslash.
fn escape(behind: &[u8]) -> Result<(u8, &[u8]), Error>
    ensures exact { GivesNow (λ x. (x.0, x.1.now)) result (escape behind.now) }
    ensures shorter { IfOk result (λ x. length x.1.now < length behind.now) }
{
    match behind {
        [sign, left @ ..] if is_sign(*sign) => Ok((*sign, left)),
        [high, low, left @ ..] => match (digit_value(*high), digit_value(*low)) {
            (Some(high), Some(low)) => Ok((high * 16 + low, left)),
            _ => Err(Error::from(ErrorKind::Failed)),
        },
        _ => Err(Error::from(ErrorKind::Failed)),
    }
}

/// Removes the escapes from the string form of a value and returns its bytes (RFC 4514 3).
///
/// A backslash and two hexadecimal digits represent one byte. A backslash before a space or one of
/// `"#+,;<=>\` is dropped.
///
/// # Errors
///
/// - `Failed`: a backslash is followed by anything else.
/// - `OutOfMemory`: memory runs out.
pub fn undo_escapes(alloc: Global, text: &[u8]) -> Result<Vec<u8>, Error>
    ensures { GivesBy (λ v. v.items) result (ReadsOctets text.now) }
{
    let mut octets = Vec::new(alloc);
    let mut left = text;
    while let Some((octet, behind)) = left.split_first() {
        if *octet == b'\\' {
            let (octet, rest) = escape(behind)?;
            octets.push(octet)?;
            left = rest;
        } else {
            octets.push(*octet)?;
            left = behind;
        }
    }
    Ok(octets)
}

/// Decodes hexadecimal digits in either case, two for each byte.
///
/// # Errors
///
/// - `Failed`: a byte isn't a hexadecimal digit, or the number of digits is odd.
/// - `OutOfMemory`: memory runs out.
pub fn from_hex(alloc: Global, digits: &[u8]) -> Result<Vec<u8>, Error>
    ensures { Gives (λ v. v.items) result (hex_octets digits.now) }
{
    match hex::decode(alloc, digits) {
        Ok(octets) => Ok(octets),
        Err(FromHexError::OutOfMemory) => Err(Error::from(ErrorKind::OutOfMemory)),
        Err(_) => Err(Error::from(ErrorKind::Failed)),
    }
}
