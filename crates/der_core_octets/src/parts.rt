//! Strings in constructed form (X.690 8.7.3).

ghost use Rattle.std.specs.Prelude.{◌≡◌, ◌≤◌, [], length, IfOk};
ghost use Rattle.der_core_head.specs.Fronts.{ReadsFront};
ghost use Rattle.der_core_head.specs.Reading.{Gives};
ghost use Rattle.der_core_octets.specs.Parts.{part_at, are_closed, joined, join_by};

use crate::any_header_of_tag;
use der_core_head::{EncodingRules, Error, ErrorKind, Tag};
use std::alloc::Global;

/// Returns the content of the part with which the bytes begin, and the length of the part.
#[tactic(auto, unfolding(crate::specs::Parts::part_at))]
fn part_of(tag: Tag, octets: &[u8]) -> Result<(&[u8], usize), Error>
    ensures front { ReadsFront (λ s. s.now) octets.now result (part_at tag) }
    ensures within { IfOk result (λ x. length x.0.now ≤ x.1) }
{
    let (header, count) = any_header_of_tag(EncodingRules::Der, tag, octets)?;
    let rest = &octets[count..];
    let len = header.length.value as usize;
    if rest.len() < len {
        return Err(Error::from(ErrorKind::Incomplete));
    }
    Ok((&rest[..len], count + len))
}

/// Returns whether there is no further part.
fn are_closed(octets: &[u8]) -> bool
    ensures { result ≡ are_closed octets.now }
{
    match octets {
        [] => true,
        [first, second] => *first == 0 && *second == 0,
        _ => false,
    }
}

/// Returns the joined contents of parts, under BER.
fn join_parts(alloc: Global, tag: Tag, octets: &[u8]) -> Result<Vec<u8>, Error>
    ensures exact { Gives (λ v. v.items) result (joined tag (length octets.now) [] octets.now) }
    ensures fewer { IfOk result (λ v. length v.items ≤ length octets.now) }
{
    let mut bytes = Vec::new(alloc);
    let mut rest = octets;
    let len = octets.len();
    for _ in 0..len {
        if are_closed(rest) {
            break;
        }
        let (part, count) = part_of(tag, rest)?;
        bytes.extend_from_slice(part)?;
        rest = &rest[count..];
    }
    if are_closed(rest) {
        Ok(bytes)
    } else {
        Err(Error::from(ErrorKind::TrailingData))
    }
}

/// Returns the joined contents of the parts in the bytes.
///
/// # Errors
///
/// - `TagUnknown`: the rules are DER, which doesn't allow the constructed form.
/// - The first error of a part.
/// - `OutOfMemory`: memory runs out.
pub fn join_by(
    alloc: Global,
    rules: EncodingRules,
    tag: Tag,
    octets: &[u8],
) -> Result<Vec<u8>, Error>
    ensures exact { Gives (λ v. v.items) result (join_by rules tag octets.now) }
    ensures fewer { IfOk result (λ v. length v.items ≤ length octets.now) }
{
    match rules {
        EncodingRules::Ber => join_parts(alloc, tag, octets),
        EncodingRules::Der => Err(Error::from(ErrorKind::TagUnknown)),
    }
}
