//! Decoding lengths and headers, with contracts over the grammar.

ghost use Rattle.std.specs.Prelude.{◌≡◌, ◌++◌, ℕ, List, drop, Ok, IfOk};
ghost use Rattle.der_core_head.specs.Limits.{IsLength};
ghost use Rattle.der_core_head.specs.declared.tag.Tag.{Tag};
ghost use Rattle.der_core_head.specs.Tags.{IsTag};
ghost use Rattle.der_core_head.specs.Heads.{length_octets, head_octets, length_at, head_at};
ghost use Rattle.der_core_head.specs.Fronts.{ReadsFront};
ghost use Rattle.der_core_octets.specs.Headers.{head_of};
ghost use Rattle.der_core_octets.specs.LoneLengths.{lone_length_at};

use crate::header::Header;
use crate::parse;
use der_core_head::{Error, Length, Tag};

/// Returns the length with which the bytes begin, after a tag, and how many bytes encode it (X.690
/// 8.1.3, 10.1).
///
/// # Errors
///
/// - `Incomplete`: the bytes end too early.
/// - `IndefiniteLength`: the first byte is `0x80`.
/// - `Overlength`: the length has more than four bytes.
/// - `Length`: fewer bytes would be enough.
pub fn length_of(tag: Tag, octets: &[u8]) -> Result<(Length, usize), Error>
    // Accepted bytes begin with the encoding of the length.
    ensures spelled { IfOk result
        (λ x. octets.now ≡ length_octets x.0.value ++ drop x.1 octets.now) }
    // An encoding is accepted, whatever follows it.
    ensures only { (n : ℕ) (r : List ℕ) → IsLength n → octets.now ≡ length_octets n ++ r
        → ReadsFront (λ l. l.value) octets.now result (λ _. Ok (n, r)) }
    // The result is that of the definition, including the kind of the error.
    ensures exact { ReadsFront (λ l. l.value) octets.now result (length_at tag) }
{
    parse::length_of(tag, octets)
}

/// Returns the length with which the bytes begin, without a tag before it, and how many bytes
/// encode it (X.690 8.1.3, 10.1).
///
/// # Errors
///
/// - `Incomplete`: the bytes end too early.
/// - `IndefiniteLength`: the first byte is `0x80`.
/// - `Overlength`: the length has more than four bytes, or fewer bytes would be enough.
pub fn lone_length_of(octets: &[u8]) -> Result<(Length, usize), Error>
    // Accepted bytes begin with the encoding of the length.
    ensures spelled { IfOk result
        (λ x. octets.now ≡ length_octets x.0.value ++ drop x.1 octets.now) }
    // An encoding is accepted, whatever follows it.
    ensures only { (n : ℕ) (r : List ℕ) → IsLength n → octets.now ≡ length_octets n ++ r
        → ReadsFront (λ l. l.value) octets.now result (λ _. Ok (n, r)) }
    // The result is that of the definition, including the kind of the error.
    ensures exact { ReadsFront (λ l. l.value) octets.now result lone_length_at }
{
    parse::lone_length_of(octets)
}

/// Returns the header with which the bytes begin, and its length in bytes (X.690 8.1.2, 8.1.3,
/// 10.1).
///
/// # Errors
///
/// - The errors of its tag, and then of its length.
pub fn header_of(octets: &[u8]) -> Result<(Header, usize), Error>
    // Accepted bytes begin with the encoding of the header.
    ensures spelled { IfOk result
        (λ x. IsTag x.0.tag
        × (octets.now ≡ head_octets x.0.tag x.0.length.value ++ drop x.1 octets.now)) }
    // An encoding is accepted, whatever follows it.
    ensures only { (t : Tag) (n : ℕ) (r : List ℕ) → IsTag t → IsLength n
        → octets.now ≡ head_octets t n ++ r
        → ReadsFront head_of octets.now result (λ _. Ok (record { tag = t; len = n }, r)) }
    // The result is that of the definition, including the kind of the error.
    ensures exact { ReadsFront head_of octets.now result head_at }
{
    parse::header_of(octets)
}
