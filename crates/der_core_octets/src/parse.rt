//! Decoding lengths and headers (X.690 8.1.2, 8.1.3, 10.1).

ghost use Rattle.std.specs.Prelude.{◌≡◌, ◌+◌, ◌-◌, ◌<◌, ◌≤◌, ◌∷◌, length, drop, IfSome, IfNone};
ghost use Rattle.std.specs.Prelude.{OnSome, IsErr, Ok, Err};
ghost use Rattle.der_core_head.specs.declared.tag.Tag.{Tag};
ghost use Rattle.der_core_head.specs.Heads.{length_at, head_at};
ghost use Rattle.der_core_head.specs.Fronts.{ReadsFront};
ghost use Rattle.der_core_octets.specs.Headers.{head_of};
ghost use Rattle.der_core_octets.specs.LoneLengths.{lone_length_at, lone_fault};

use crate::header::Header;
use der_core_head::{
    Error, ErrorKind, Length, Tag, leading_octet_of, number_of, short_tag_of, tag_of,
};

/// Returns the length with which the bytes begin, after a tag, and how many bytes encode it (8.1.3,
/// 10.1).
///
/// # Errors
///
/// - `Incomplete`: the bytes end too early.
/// - `IndefiniteLength`: the first byte is `0x80`.
/// - `Overlength`: the length has more than four bytes.
/// - `Length`: fewer bytes would be enough.
#[tactic(auto, unfolding(der_core_head::specs::Heads::length_at))]
pub fn length_of(tag: Tag, octets: &[u8]) -> Result<(Length, usize), Error>
    ensures { ReadsFront (λ l. l.value) octets.now result (length_at tag) }
{
    match shortest_length_of(octets) {
        Some(front) => Ok(front),
        None => Err(Error::from(length_fault(tag, octets))),
    }
}

/// Returns the length with which the bytes begin, without a tag before it, and how many bytes
/// encode it (8.1.3, 10.1).
///
/// # Errors
///
/// - The errors of `length_of`, but `Overlength` if fewer bytes would be enough.
pub fn lone_length_of(octets: &[u8]) -> Result<(Length, usize), Error>
    ensures { ReadsFront (λ l. l.value) octets.now result lone_length_at }
{
    match shortest_length_of(octets) {
        Some(front) => Ok(front),
        None => Err(Error::from(without_tag(length_fault(Tag::Null, octets)))),
    }
}

/// Returns the error of a length without a tag before it.
fn without_tag(fault: ErrorKind) -> ErrorKind
    ensures { result ≡ lone_fault fault }
{
    match fault {
        ErrorKind::Length { .. } => ErrorKind::Overlength,
        other => other,
    }
}

/// Returns the length with which the bytes begin, after a tag, and how many bytes encode it, if it
/// is in its shortest form.
#[inline(always)]
#[tactic(auto, unfolding(der_core_head::specs::Heads::length_at))]
fn shortest_length_of(octets: &[u8]) -> Option<(Length, usize)>
    ensures some { IfSome result
        (λ x. (t : Tag) → length_at t octets.now ≡ Ok (x.0.value, drop x.1 octets.now)) }
    ensures within { IfSome result (λ x. x.1 ≤ length octets.now) }
    ensures none { IfNone result ((t : Tag) → IsErr (length_at t octets.now)) }
{
    let [first, rest @ ..] = octets else {
        return None;
    };
    let first = *first;
    if first < 128 {
        return Some((
            Length {
                value: u32::from(first),
            },
            1,
        ));
    }
    let length = long_length_of(first, rest)?;
    Some((length, usize::from(first) - 127))
}

/// Returns the length with this first byte, which is at least 128, and these following bytes, if
/// they are its shortest form (8.1.3.5, 10.1).
fn long_length_of(first: u8, rest: &[u8]) -> Option<Length>
    requires { 127 < first }
    ensures some { IfSome result
        (λ l. (t : Tag) → length_at t (first ∷ rest.now)
        ≡ Ok (l.value, drop (first - 128) rest.now)) }
    ensures within { OnSome result (first ≤ length rest.now + 128) }
    ensures none { IfNone result ((t : Tag) → IsErr (length_at t (first ∷ rest.now))) }
{
    if first == 128 || first > 132 {
        return None;
    }
    let count = usize::from(first - 128);
    if rest.len() < count {
        return None;
    }
    let value = u32::from(rest[0]);
    if count == 1 {
        if value < 128 {
            return None;
        }
        return Some(Length { value });
    }
    if value == 0 {
        return None;
    }
    let value = 256 * value + u32::from(rest[1]);
    if count == 2 {
        return Some(Length { value });
    }
    let value = 256 * value + u32::from(rest[2]);
    if count == 3 {
        return Some(Length { value });
    }
    let value = 256 * value + u32::from(rest[3]);
    Some(Length { value })
}

/// Returns the reason why the bytes, after a tag, don't begin with a length.
fn length_fault(tag: Tag, octets: &[u8]) -> ErrorKind
    requires { IsErr (length_at tag octets.now) }
    ensures { length_at tag octets.now ≡ Err result }
{
    let [first, rest @ ..] = octets else {
        return ErrorKind::Incomplete;
    };
    let first = *first;
    if first == 128 {
        return ErrorKind::IndefiniteLength;
    }
    if first > 132 {
        return ErrorKind::Overlength;
    }
    if rest.len() < usize::from(first % 128) {
        return ErrorKind::Incomplete;
    }
    ErrorKind::Length { tag }
}

/// Returns the header with which the bytes begin, and its length in bytes, if its tag has one byte
/// and its length is in its shortest form.
///
/// Most headers are like this, so the loops that decode headers need no call for them.
#[inline(always)]
#[tactic(auto, unfolding(der_core_head::specs::Heads::head_at))]
pub fn short_header_of(octets: &[u8]) -> Option<(Header, usize)>
    ensures { IfSome result (λ x. ReadsFront head_of octets.now (Ok x) head_at) }
{
    let [first, rest @ ..] = octets else {
        return None;
    };
    // The length comes first, because the caller then tests the tag by its byte.
    let (length, count) = shortest_length_of(rest)?;
    let tag = short_tag_of(*first)?;
    Some((Header { tag, length }, 1 + count))
}

/// Returns the header with which the bytes begin, and its length in bytes, if it has the expected
/// tag, which has one byte. One comparison decides this.
#[inline(always)]
pub fn short_header_of_tag(tag: Tag, octets: &[u8]) -> Option<(Header, usize)>
    ensures front { IfSome result (λ x. ReadsFront head_of octets.now (Ok x) head_at) }
    ensures tag { IfSome result (λ x. x.0.tag ≡ tag) }
{
    let [first, rest @ ..] = octets else {
        return None;
    };
    if *first != leading_octet_of(tag) || number_of(tag) > 30 {
        return None;
    }
    let (length, count) = shortest_length_of(rest)?;
    Some((Header { tag, length }, 1 + count))
}

/// Returns the header with which the bytes begin, and its length in bytes.
///
/// # Errors
///
/// - The errors of its tag, and then of its length.
pub fn header_of(octets: &[u8]) -> Result<(Header, usize), Error>
    ensures { ReadsFront head_of octets.now result head_at }
{
    match short_header_of(octets) {
        Some((header, count)) => Ok((header, count)),
        None => {
            let (header, count) = any_header_of(octets)?;
            Ok((header, count))
        }
    }
}

/// Returns a header of any form with which the bytes begin. It isn't inlined into the loops that
/// decode headers, so that the usual headers cost little.
///
/// # Errors
///
/// - The errors of its tag, and then of its length.
#[inline(never)]
#[tactic(auto, unfolding(der_core_head::specs::Heads::head_at))]
fn any_header_of(octets: &[u8]) -> Result<(Header, usize), Error>
    ensures { ReadsFront head_of octets.now result head_at }
{
    let (tag, tag_count) = tag_of(octets)?;
    let (length, length_count) = length_of(tag, &octets[tag_count..])?;
    Ok((Header { tag, length }, tag_count + length_count))
}
