//! Decoding tags and headers under BER or DER.

ghost use Rattle.std.specs.Prelude.{◌≡◌, ◌≤◌, length, Ok, IfOk, IfSome};
ghost use Rattle.der_core_head.specs.declared.encoding_rules.EncodingRules.{EncodingRules};
ghost use Rattle.der_core_head.specs.Bodies.{head_by, tag_by};
ghost use Rattle.der_core_head.specs.Fronts.{ReadsFront, alone};
ghost use Rattle.der_core_octets.specs.Headers.{head_of, wanted_at};

use crate::header::Header;
use crate::indefinite::{header_ber_of, tag_ber_of};
use crate::parse::{header_of, short_header_of, short_header_of_tag};
use der_core_head::{EncodingRules, Error, ErrorKind, Tag, is_same_tag, short_tag_at, tag_of};

/// Returns the tag with which the bytes begin, and its length in bytes.
///
/// # Errors
///
/// - The errors of `tag_of`, and under BER those of `tag_ber_of`.
pub fn tag_by(rules: EncodingRules, octets: &[u8]) -> Result<(Tag, usize), Error>
    ensures front { ReadsFront (λ t. t) octets.now result (tag_by rules) }
    ensures within { IfOk result (λ x. x.1 ≤ length octets.now) }
{
    match rules {
        EncodingRules::Ber => tag_ber_of(octets),
        EncodingRules::Der => tag_of(octets),
    }
}

/// Returns the tag with which the bytes begin, if it has one byte. The result is the same under
/// both rules.
#[inline(always)]
pub fn short_tag_by_both(octets: &[u8]) -> Option<Tag>
    ensures { IfSome result
        (λ t. (rules : EncodingRules) → alone (tag_by rules octets.now) ≡ Ok t) }
{
    let tag = short_tag_at(octets)?;
    Some(tag)
}

/// Returns the header with which the bytes begin, and its length in bytes.
///
/// # Errors
///
/// - The errors of `header_of`, and under BER those of `header_ber_of`.
pub fn header_by(rules: EncodingRules, octets: &[u8]) -> Result<(Header, usize), Error>
    ensures front { ReadsFront head_of octets.now result (head_by rules) }
    ensures within { IfOk result (λ x. x.1 ≤ length octets.now) }
{
    match rules {
        EncodingRules::Ber => header_ber_of(octets),
        EncodingRules::Der => header_of(octets),
    }
}

/// Returns the header with which the bytes begin, and its length in bytes, if its tag has one byte
/// and its length is in its shortest form. The result is the same under both rules.
#[inline(always)]
pub fn short_header_by_both(octets: &[u8]) -> Option<(Header, usize)>
    ensures front { IfSome result
        (λ x. (rules : EncodingRules) → ReadsFront head_of octets.now (Ok x) (head_by rules)) }
    ensures within { IfSome result (λ x. x.1 ≤ length octets.now) }
{
    let front = short_header_of(octets)?;
    Some(front)
}

/// Returns the header with which the bytes begin, and its length in bytes, if it has the expected
/// tag, which has one byte. The result is the same under both rules.
#[inline(always)]
pub fn short_header_of_tag_by_both(tag: Tag, octets: &[u8]) -> Option<(Header, usize)>
    ensures front { IfSome result
        (λ x. (rules : EncodingRules)
        → ReadsFront head_of octets.now (Ok x) (wanted_at tag (head_by rules))) }
    ensures tag { IfSome result (λ x. x.0.tag ≡ tag) }
    ensures within { IfSome result (λ x. x.1 ≤ length octets.now) }
{
    let front = short_header_of_tag(tag, octets)?;
    Some(front)
}

/// Returns the header with which the bytes begin, and its length in bytes. It must have the
/// expected tag.
///
/// # Errors
///
/// - The errors of `header_by`.
/// - `TagUnexpected`: the tag is another one.
#[tactic(auto, using(der_core_head::proofs::TagLaws::same_tags), unfolding(crate::specs::Headers::wanted_at))]
pub fn any_header_of_tag(
    rules: EncodingRules,
    tag: Tag,
    octets: &[u8],
) -> Result<(Header, usize), Error>
    ensures front { ReadsFront head_of octets.now result (wanted_at tag (head_by rules)) }
    ensures tag { IfOk result (λ x. x.0.tag ≡ tag) }
    ensures within { IfOk result (λ x. x.1 ≤ length octets.now) }
{
    let (header, count) = header_by(rules, octets)?;
    if !is_same_tag(header.tag, tag) {
        return Err(Error::from(ErrorKind::TagUnexpected));
    }
    Ok((header, count))
}
