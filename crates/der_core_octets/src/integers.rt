//! Integers: two's complement in the fewest bytes (X.690 8.3).

ghost use Rattle.std.specs.Prelude.{◌≡◌, ◌↔◌, ◌<◌, ◌≤◌, ◌-◌, ◌^◌, pos, IsTrue, IfOk, drop};
ghost use Rattle.std.specs.Int.Digits.{number_from_digits};
ghost use Rattle.der_core_head.specs.Integers.{unsigned, signed, is_redundant, integer_octets};
ghost use Rattle.der_core_head.specs.Integers.{integer_read};
ghost use Rattle.der_core_head.specs.Reading.{GivesNow};
ghost use Rattle.der_core_octets.specs.Numbers.{with_sign, turn, turned, IsMagnitude};
ghost use Rattle.der_core_octets.specs.Numbers.{IsWholeNumber};

use der_core_head::{Error, ErrorKind, Tag};

/// The smallest number that has no room for another byte in 128 bits, 2^120.
const LARGE: u128 = 0x0100_0000_0000_0000_0000_0000_0000_0000;

/// Returns the number that the bytes are in base 256, if it fits 128 bits. For a negative number,
/// each byte is inverted.
fn magnitude_of(octets: &[u8], negative: bool) -> Option<u128>
    ensures { IsMagnitude (number_from_digits 256 (turned negative octets.now)) result }
{
    let mut number = 0u128;
    for octet in octets {
        if number >= LARGE {
            return None;
        }
        let digit = turn(*octet, negative);
        number = 256 * number + u128::from(digit);
    }
    Some(number)
}

/// Returns whether the first nine bits are equal (8.3.2).
pub fn has_redundant_octet(octets: &[u8]) -> bool
    ensures { result ≡ is_redundant octets.now }
{
    match octets {
        [first, second, ..] => { *first == 0 && *second < 128 || *first == 255 && !(*second < 128) }
        _ => false,
    }
}

/// Returns whether the integer is negative, and the number n such that it is n, or -(n + 1) if it
/// is negative, if n fits 128 bits.
///
/// # Errors
///
/// - `Length`: there are no bytes.
/// - `Noncanonical`: the first nine bits are equal.
#[tactic(auto, unfolding(der_core_head::specs::Integers::shortest_integer, der_core_head::specs::Integers::integer_of))]
fn whole_number_of(tag: Tag, octets: &[u8]) -> Result<(bool, Option<u128>), Error>
    ensures { IsWholeNumber tag octets.now result }
{
    let Some(first) = octets.first() else {
        return Err(Error::from(ErrorKind::Length { tag }));
    };
    let negative = *first >= 128;
    if has_redundant_octet(octets) {
        return Err(Error::from(ErrorKind::Noncanonical { tag }));
    }
    Ok((negative, magnitude_of(octets, negative)))
}

/// Returns whether a number has at most this many bits.
fn fits(number: u128, bits: u32) -> bool
    requires { bits ≤ 128 }
    ensures { IsTrue result ↔ number < 2 ^ bits }
{
    bits == 128 || number < 1 << bits
}

/// Returns the integer that a content encodes, which must have at most this many bits and not be
/// negative.
///
/// # Errors
///
/// - `Length`: there are no bytes, or more bits.
/// - `Noncanonical`: fewer bytes would be enough.
/// - `Value`: the integer is negative.
pub fn unsigned_of(tag: Tag, octets: &[u8], bits: u32) -> Result<u128, Error>
    requires { bits ≤ 128 }
    ensures exact { GivesNow (λ n. pos n) result (integer_read (unsigned bits) tag octets.now) }
    ensures small { IfOk result (λ n. n < 2 ^ bits) }
{
    let (negative, magnitude) = whole_number_of(tag, octets)?;
    if negative {
        return Err(Error::from(ErrorKind::Value { tag }));
    }
    let Some(number) = magnitude else {
        return Err(Error::from(ErrorKind::Length { tag }));
    };
    if !fits(number, bits) {
        return Err(Error::from(ErrorKind::Length { tag }));
    }
    Ok(number)
}

/// Returns the number n such that the integer of a content is n, or -(n + 1) if it is negative. The
/// integer must have at most this many bits, including the sign.
///
/// # Errors
///
/// - `Length`: there are no bytes, or more bits.
/// - `Noncanonical`: fewer bytes would be enough.
pub fn signed_of(tag: Tag, octets: &[u8], bits: u32) -> Result<(bool, u128), Error>
    requires low { 0 < bits }
    requires high { bits ≤ 128 }
    ensures exact { GivesNow (λ x. with_sign x.0 x.1) result
        (integer_read (signed bits) tag octets.now) }
    ensures small { IfOk result (λ x. x.1 < 2 ^ (bits - 1)) }
{
    let (negative, magnitude) = whole_number_of(tag, octets)?;
    let Some(number) = magnitude else {
        return Err(Error::from(ErrorKind::Length { tag }));
    };
    if !fits(number, bits - 1) {
        return Err(Error::from(ErrorKind::Length { tag }));
    }
    Ok((negative, number))
}

/// Returns the content of the integer n, or of -(n + 1) if it is negative: an array, and the index
/// at which the content begins in it.
pub fn integer_octets_of(negative: bool, number: u128) -> ([u8; 17], usize)
    ensures octets { drop result.1 result.0 ≡ integer_octets (with_sign negative number) }
    ensures some { result.1 < 17 }
{
    let mut octets = [0; 17];
    let mut at = 16;
    let mut left = number;
    while left >= 256 {
        octets[at] = turn((left % 256) as u8, negative);
        left /= 256;
        at -= 1;
    }
    octets[at] = turn(left as u8, negative);
    if left >= 128 {
        at -= 1;
        octets[at] = turn(0, negative);
    }
    (octets, at)
}

/// Returns a byte, with each bit inverted if the number is negative.
fn turn(octet: u8, negative: bool) -> u8
    ensures { result ≡ turn negative octet }
{
    if negative { 255 - octet } else { octet }
}
