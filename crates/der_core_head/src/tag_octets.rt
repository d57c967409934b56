//! Decoding tags (X.690 8.1.2).

ghost use Rattle.std.specs.Prelude.{◌≡◌, ◌%◌, ◌<◌, ◌≤◌, ◌∷◌, ◌++◌, ℕ, List, drop, IfOk, IfSome};
ghost use Rattle.std.specs.Prelude.{IfNone, OnSome, Ok, Err};
ghost use Rattle.der_core_head.specs.declared.tag.Tag.{Tag};
ghost use Rattle.der_core_head.specs.Tags.{IsTag, tag_octets, universal_tag, class_tag, digits_at};
ghost use Rattle.der_core_head.specs.Tags.{number_at, tag_at};
ghost use Rattle.der_core_head.specs.Fronts.{ReadsFront};

use crate::error::{Error, ErrorKind};
use crate::tag::Tag;
use crate::tag_number::TagNumber;

/// Returns the tag of the universal class with this byte, if it is supported. It is inlined, so
/// that it becomes a table lookup.
#[inline(always)]
#[tactic(auto, unfolding(crate::specs::Tags::universal_tag))]
fn universal_tag_of(octet: u8) -> Option<Tag>
    ensures tag { result ≡ universal_tag octet }
    // The class bits of these bytes are clear.
    ensures low { OnSome result (octet < 64) }
{
    match octet {
        0x01 => Some(Tag::Boolean),
        0x02 => Some(Tag::Integer),
        0x03 => Some(Tag::BitString),
        0x04 => Some(Tag::OctetString),
        0x05 => Some(Tag::Null),
        0x06 => Some(Tag::ObjectIdentifier),
        0x09 => Some(Tag::Real),
        0x0a => Some(Tag::Enumerated),
        0x0c => Some(Tag::Utf8String),
        0x0d => Some(Tag::RelativeOid),
        0x12 => Some(Tag::NumericString),
        0x13 => Some(Tag::PrintableString),
        0x14 => Some(Tag::TeletexString),
        0x15 => Some(Tag::VideotexString),
        0x16 => Some(Tag::Ia5String),
        0x17 => Some(Tag::UtcTime),
        0x18 => Some(Tag::GeneralizedTime),
        0x1a => Some(Tag::VisibleString),
        0x1b => Some(Tag::GeneralString),
        0x1e => Some(Tag::BmpString),
        0x30 => Some(Tag::Sequence),
        0x31 => Some(Tag::Set),
        _ => None,
    }
}

/// Returns a tag that isn't of the universal class.
pub fn tag_of_class(class: u8, constructed: bool, number: u32) -> Tag
    ensures { result ≡ class_tag class constructed number }
{
    let number = TagNumber { value: number };
    match class {
        1 => Tag::Application {
            constructed,
            number,
        },
        2 => Tag::ContextSpecific {
            constructed,
            number,
        },
        _ => Tag::Private {
            constructed,
            number,
        },
    }
}

/// Returns the tag with this one byte, if it is supported (X.690 8.1.2.2).
#[inline(always)]
#[tactic(auto, unfolding(crate::specs::Tags::tag_at))]
pub fn short_tag_of(octet: u8) -> Option<Tag>
    ensures some { IfSome result (λ t. (w : List ℕ) → tag_at (octet ∷ w) ≡ Ok (t, w)) }
    ensures unknown { IfNone result
        (octet < 64 → (w : List ℕ) → tag_at (octet ∷ w) ≡ Err ErrorKind.TagUnknown) }
    // A byte of another class is rejected only if the number follows it.
    ensures number { IfNone result (64 ≤ octet → octet % 32 ≡ 31) }
{
    if let Some(tag) = universal_tag_of(octet) {
        return Some(tag);
    }
    if octet < 64 || octet % 32 == 31 {
        return None;
    }
    Some(tag_of_class(octet / 64, octet / 32 % 2 == 1, u32::from(octet % 32)))
}

/// Returns the tag with which the bytes begin, if it has one byte.
#[inline(always)]
pub fn short_tag_at(octets: &[u8]) -> Option<Tag>
    ensures { IfSome result (λ t. tag_at octets.now ≡ Ok (t, drop 1 octets.now)) }
{
    let [first, ..] = octets else {
        return None;
    };
    let tag = short_tag_of(*first)?;
    Some(tag)
}

/// Returns the number that digits in base 128 encode, and how many digits there are. All digits but
/// the last have the high bit set (8.1.2.4.2).
///
/// # Errors
///
/// - `Incomplete`: the bytes end too early.
/// - `TagNumberInvalid`: the number exceeds 32 bits.
#[tactic(auto, using(crate::proofs::TagLaws::digit_steps))]
fn digits_of(octets: &[u8]) -> Result<(u32, usize), Error>
    ensures { ReadsFront (λ n. n) octets.now result (digits_at 0) }
{
    let mut number = 0u32;
    let mut count = 0usize;
    for octet in octets {
        if number >= 0x0200_0000 {
            return Err(Error::from(ErrorKind::TagNumberInvalid));
        }
        number = 128 * number + u32::from(*octet % 128);
        count += 1;
        if *octet < 128 {
            return Ok((number, count));
        }
    }
    Err(Error::from(ErrorKind::Incomplete))
}

/// Returns the number of a tag from the bytes after the first one, and how many these are
/// (8.1.2.4).
///
/// # Errors
///
/// - The errors of its digits.
/// - `TagNumberInvalid`: there is a leading zero digit, or the number is below 31.
#[tactic(auto, unfolding(crate::specs::Tags::number_at))]
fn tag_number_of(octets: &[u8]) -> Result<(u32, usize), Error>
    ensures { ReadsFront (λ n. n) octets.now result number_at }
{
    let Some(first) = octets.first() else {
        return Err(Error::from(ErrorKind::Incomplete));
    };
    if *first == 128 {
        return Err(Error::from(ErrorKind::TagNumberInvalid));
    }
    let (number, count) = digits_of(octets)?;
    if number < 31 {
        return Err(Error::from(ErrorKind::TagNumberInvalid));
    }
    Ok((number, count))
}

/// Returns the tag with which the bytes begin, and its length.
///
/// # Errors
///
/// - The errors of `tag_of`.
#[tactic(auto, unfolding(crate::specs::Tags::tag_at))]
fn read_tag(octets: &[u8]) -> Result<(Tag, usize), Error>
    ensures { ReadsFront (λ t. t) octets.now result tag_at }
{
    let [first, rest @ ..] = octets else {
        return Err(Error::from(ErrorKind::Incomplete));
    };
    let first = *first;
    if let Some(tag) = short_tag_of(first) {
        return Ok((tag, 1));
    }
    if first < 64 {
        return Err(Error::from(ErrorKind::TagUnknown));
    }
    let (number, count) = tag_number_of(rest)?;
    let tag = tag_of_class(first / 64, first / 32 % 2 == 1, number);
    Ok((tag, 1 + count))
}

/// Returns the tag with which the bytes begin, and its length (X.690 8.1.2).
///
/// # Errors
///
/// - `Incomplete`: the bytes end too early.
/// - `TagUnknown`: the tag is of the universal class, and isn't supported.
/// - `TagNumberInvalid`: a number of 31 or more isn't in its shortest form, or exceeds 32 bits.
#[tactic(auto, using(crate::proofs::HeadLaws::tag_fronts))]
pub fn tag_of(octets: &[u8]) -> Result<(Tag, usize), Error>
    // Accepted bytes begin with the encoding of the tag.
    ensures spelled { IfOk result (λ x.
        IsTag x.0 × (octets.now ≡ tag_octets x.0 ++ drop x.1 octets.now)) }
    // An encoding is accepted, whatever follows it.
    ensures only { (t : Tag) (r : List ℕ) → IsTag t → octets.now ≡ tag_octets t ++ r
        → ReadsFront (λ t. t) octets.now result (λ _. Ok (t, r)) }
    // The result is exactly that of `tag_at`, including the error.
    ensures exact { ReadsFront (λ t. t) octets.now result tag_at }
{
    read_tag(octets)
}
