//! Integers in the fewest bytes (X.690 8.3.2).

ghost use Rattle.std.specs.Prelude.{◌≡◌, ◌<◌, pos, length, false, IfOk};
ghost use Rattle.std.specs.Int.Digits.{number_from_digits};
ghost use Rattle.std.specs.List.{cons_option};
ghost use Rattle.der_core.specs.Oid.Digits.{digits};
ghost use Rattle.der_core.specs.Oid.Orders as orders;
ghost use Rattle.der_core.specs.Integers.{integer_of, integer_octets, is_redundant};
ghost use Rattle.der_core.specs.Writing.{Writes, put};
ghost use Rattle.der_types_numbers.specs.Numbers.{has_leading_zero, is_first_bit_set};
ghost use Rattle.der_core.specs.Outputs.{AddsFront, Continues};

use der_core::making::{encode_behind, has_redundant_octet};
use der_core::{Error, Writer};
use std::alloc::{AllocError, Global};
use std::cmp::Ordering;

/// Returns the same integer in the fewest bytes of two's complement.
#[tactic(auto, using(crate::proofs::Naturals::shorter))]
pub fn fewest_signed(octets: &[u8]) -> &[u8]
    requires { 0 < length octets.now }
    ensures octets { result.now ≡ integer_octets (integer_of octets.now) }
    ensures number { integer_of result.now ≡ integer_of octets.now }
    ensures some { 0 < length result.now }
    ensures shortest { is_redundant result.now ≡ false }
{
    let mut rest = octets;
    while has_redundant_octet(rest) {
        rest = rest.split_at(1).1;
    }
    rest
}

/// Returns whether there are at least two bytes and the first is zero.
fn begins_with_zero(octets: &[u8]) -> bool
    ensures { result ≡ has_leading_zero octets.now }
{
    match octets {
        [first, _, ..] => *first == 0,
        _ => false,
    }
}

/// Returns the digits of the same number in base 256, without leading zeros. The number 0 has one
/// digit.
pub fn fewest_unsigned(octets: &[u8]) -> &[u8]
    requires { 0 < length octets.now }
    ensures digits { result.now ≡ digits 256 (number_from_digits 256 octets.now) }
    ensures number { number_from_digits 256 result.now ≡ number_from_digits 256 octets.now }
    ensures some { 0 < length result.now }
{
    let mut rest = octets;
    while begins_with_zero(rest) {
        rest = rest.split_at(1).1;
    }
    rest
}

/// Returns whether the first bit is one, so that the bytes would be a negative number in two's
/// complement.
pub fn begins_with_one_bit(octets: &[u8]) -> bool
    ensures { result ≡ is_first_bit_set octets.now }
{
    match octets {
        [] => false,
        [first, ..] => *first >= 128,
    }
}

/// Returns the length of the content of the number with these digits in base 256.
#[tactic(auto, using(crate::proofs::Naturals::natural_contents))]
pub fn content_len(octets: &[u8]) -> usize
    requires { octets.now ≡ digits 256 (number_from_digits 256 octets.now) }
    ensures { result ≡ length (integer_octets (pos (number_from_digits 256 octets.now))) }
{
    if begins_with_one_bit(octets) {
        octets.len() + 1
    } else {
        octets.len()
    }
}

/// Returns the byte before the digits of a number in base 256 in its content, if there is one. It
/// is a zero, which is there if the first bit is one.
#[tactic(auto, using(crate::proofs::Naturals::natural_contents))]
pub fn lead_of(octets: &[u8]) -> Option<u8>
    requires { octets.now ≡ digits 256 (number_from_digits 256 octets.now) }
    ensures { cons_option result octets.now
        ≡ integer_octets (pos (number_from_digits 256 octets.now)) }
{
    if begins_with_one_bit(octets) {
        Some(0)
    } else {
        None
    }
}

/// Returns the content of the number with these digits in base 256.
///
/// # Errors
///
/// - `AllocError`: memory runs out.
#[tactic(auto, using(crate::proofs::Naturals::natural_contents))]
pub fn content_of(alloc: Global, octets: &[u8]) -> Result<Vec<u8>, AllocError>
    requires { octets.now ≡ digits 256 (number_from_digits 256 octets.now) }
    ensures { IfOk result
        (λ v. v.items ≡ integer_octets (pos (number_from_digits 256 octets.now))) }
{
    if !begins_with_one_bit(octets) {
        return Vec::from_slice(alloc, octets);
    }
    let mut content = Vec::new(alloc);
    content.push(0)?;
    content.extend_from_slice(octets)?;
    Ok(content)
}

/// Encodes the content of the number with these digits in base 256.
///
/// # Errors
///
/// - The errors of the writer.
pub fn encode_natural<W: Writer>(writer: &mut W, octets: &[u8]) -> Result<(), Error>
    requires { octets.now ≡ digits 256 (number_from_digits 256 octets.now) }
    ensures exact { Writes W.takes_memory (W.out writer.old) (W.out writer.new) result
        (put (integer_octets (pos (number_from_digits 256 octets.now)))) }
    ensures kept { Continues (W.out writer.old) (W.out writer.new) }
    ensures front { AddsFront (integer_octets (pos (number_from_digits 256 octets.now)))
        (W.out writer.old) (W.out writer.new) }
{
    if begins_with_one_bit(octets) {
        return encode_behind(writer, 0, octets);
    }
    writer.write(octets)
}

/// Compares the lengths, and then the bytes.
pub fn sized_cmp(octets: &[u8], other: &[u8]) -> Ordering
    ensures { result ≡ orders.sized_cmp octets.now other.now }
{
    match octets.len().cmp(&other.len()) {
        Ordering::Equal => octets.cmp(other),
        by_length => by_length,
    }
}
