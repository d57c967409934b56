//! Headers under BER, and bodies of indefinite length (X.690 8.1.3.6, 8.1.5).

ghost use Rattle.std.specs.Prelude.{◌≡◌, ◌+◌, ◌≤◌, ◌++◌, ℕ, List, length, take, drop, Ok, IfOk};
ghost use Rattle.der_core_head.specs.Limits.{levels_max};
ghost use Rattle.der_core_head.specs.Heads.{Head, Fits};
ghost use Rattle.der_core_head.specs.Bodies.{IsIndefiniteBody, SpellsHead, tag_ber_at, mark_at};
ghost use Rattle.der_core_head.specs.Bodies.{piece_at, body_len_at, head_ber_at};
ghost use Rattle.der_core_head.specs.Reading.{GivesNow};
ghost use Rattle.der_core_head.specs.Fronts.{ReadsFront};
ghost use Rattle.der_core_octets.specs.Headers.{head_of};
ghost use Rattle.der_core_octets.specs.Pieces.{plain_mark, plain_piece};

use crate::header::Header;
use crate::parse::length_of;
use der_core_head::{Error, ErrorKind, Length, MAX_LEVELS, Tag, tag_of};

/// Returns the tag with which the bytes begin, under BER, and its length in bytes. The byte `0x24`
/// is the tag of an OCTET STRING in constructed form (X.690 8.1.2, 8.7.1).
///
/// # Errors
///
/// The errors of `tag_of`.
#[tactic(auto, unfolding(der_core_head::specs::Bodies::tag_ber_at))]
pub fn tag_ber_of(octets: &[u8]) -> Result<(Tag, usize), Error>
    ensures { ReadsFront (λ t. t) octets.now result tag_ber_at }
{
    let [first, ..] = octets else {
        return Err(Error::from(ErrorKind::Incomplete));
    };
    if *first == 0x24 {
        return Ok((Tag::OctetString, 1));
    }
    let (tag, count) = tag_of(octets)?;
    Ok((tag, count))
}

/// A tag, and the length of the content if it is definite.
#[derive(Drop)]
struct Mark {
    tag: Tag,
    length: Option<Length>,
}

/// Returns the tag and the length with which the bytes begin, under BER, and the number of their
/// bytes.
///
/// # Errors
///
/// - The errors of the tag.
/// - The errors of the length, and `IndefiniteLength` for the byte `0x80` after a tag that isn't
///   constructed.
#[tactic(auto, unfolding(der_core_head::specs::Bodies::mark_at))]
fn mark_of(octets: &[u8]) -> Result<(Mark, usize), Error>
    ensures { ReadsFront plain_mark octets.now result mark_at }
{
    let [leading, ..] = octets else {
        return Err(Error::from(ErrorKind::Incomplete));
    };
    let constructed = *leading / 32 % 2 == 1;
    let (tag, tag_count) = tag_ber_of(octets)?;
    let rest = &octets[tag_count..];
    let [first, ..] = rest else {
        return Err(Error::from(ErrorKind::Incomplete));
    };
    if constructed && *first == 0x80 {
        return Ok((Mark { tag, length: None }, tag_count + 1));
    }
    let (length, length_count) = length_of(tag, rest)?;
    Ok((
        Mark {
            tag,
            length: Some(length),
        },
        tag_count + length_count,
    ))
}

/// A part of a body of indefinite length.
#[derive(Drop)]
enum Piece {
    /// The end-of-contents bytes, two zero bytes, which end a level.
    Ending,
    /// A tag and the byte `0x80`, which open a level.
    Opening,
    /// A complete encoding of definite length.
    Encoding,
}

/// Returns the part with which the body begins, and its length in bytes.
///
/// # Errors
///
/// - `Incomplete`: the bytes end too early.
/// - `TagUnknown`: a zero byte is followed by a byte that isn't zero.
/// - The errors of a header.
#[tactic(auto, unfolding(der_core_head::specs::Bodies::piece_at))]
fn piece_of(octets: &[u8]) -> Result<(Piece, usize), Error>
    ensures { ReadsFront plain_piece octets.now result piece_at }
{
    let [first, behind @ ..] = octets else {
        return Err(Error::from(ErrorKind::Incomplete));
    };
    if *first == 0 {
        let [second, ..] = behind else {
            return Err(Error::from(ErrorKind::Incomplete));
        };
        if *second != 0 {
            return Err(Error::from(ErrorKind::TagUnknown));
        }
        return Ok((Piece::Ending, 2));
    }
    let (mark, count) = mark_of(octets)?;
    let Some(length) = mark.length else {
        return Ok((Piece::Opening, count));
    };
    let len = length.value as usize;
    if octets.len() - count < len {
        return Err(Error::from(ErrorKind::Incomplete));
    }
    Ok((Piece::Encoding, count + len))
}

/// Returns the length of the body with which the bytes begin.
fn body_len_of(octets: &[u8]) -> Result<Length, Error>
    ensures { GivesNow (λ n. n.value) result (body_len_at octets.now) }
{
    let mut levels = 1usize;
    let mut rest = octets;
    while levels > 0 {
        let (piece, count) = piece_of(rest)?;
        match piece {
            Piece::Ending => levels -= 1,
            Piece::Opening => {
                if levels == MAX_LEVELS {
                    return Err(Error::from(ErrorKind::NestingDepth));
                }
                levels += 1;
            }
            Piece::Encoding => {}
        }
        rest = &rest[count..];
    }
    let len = octets.len() - rest.len();
    if len > Length::MAX.value as usize {
        return Err(Error::from(ErrorKind::Overflow));
    }
    Ok(Length { value: len as u32 })
}

/// Returns the length of the body of indefinite length with which the bytes begin, including its
/// end-of-contents bytes (X.690 8.1.3.6, 8.1.5).
///
/// At most 64 levels may be open at once, including that of the body. The contents of encodings of
/// definite length aren't decoded.
///
/// # Errors
///
/// The first of these from the left:
///
/// - `Incomplete`: the bytes end too early.
/// - `NestingDepth`: a 65th level is opened.
/// - `TagUnknown`: a zero byte is followed by a byte that isn't zero.
/// - The error of a header inside.
/// - `Overflow`: the body has 2^32 bytes or more.
pub fn indefinite_length_of(octets: &[u8]) -> Result<Length, Error>
    // The counted bytes are a body, including its end-of-contents bytes.
    ensures body { IfOk result (λ n. IsIndefiniteBody levels_max (take n.value octets.now)) }
    ensures within { IfOk result (λ n. n.value ≤ length octets.now) }
    ensures least { IfOk result (λ n. 2 ≤ n.value) }
    // A body is accepted, whatever follows it.
    ensures counted { (b more : List ℕ) → IsIndefiniteBody levels_max b → Fits b
        → octets.now ≡ b ++ more
        → GivesNow (λ n. n.value) result (Ok (length b)) }
    // The result doesn't depend on the bytes after the counted ones.
    ensures alone { IfOk result
        (λ n. (more : List ℕ) → body_len_at (take n.value octets.now ++ more) ≡ Ok n.value) }
    // The result is that of the definition, including the kind of the error.
    ensures exact { GivesNow (λ n. n.value) result (body_len_at octets.now) }
{
    let length = body_len_of(octets)?;
    Ok(length)
}

/// Returns the header with which the bytes begin, under BER, and the number of bytes of its tag and
/// length.
///
/// If the length is indefinite, the length of the header is that of the body, including its
/// end-of-contents bytes.
///
/// # Errors
///
/// The first error from the left, which is that of the tag, of the length, or of a body of
/// indefinite length.
pub fn header_ber_of(octets: &[u8]) -> Result<(Header, usize), Error>
    // Accepted bytes begin with an encoding of the header.
    ensures spelled { IfOk result (λ x. SpellsHead (head_of x.0) (drop x.1 octets.now) octets.now) }
    // An encoding is accepted.
    ensures only { (h : Head) (r : List ℕ) → SpellsHead h r octets.now
        → ReadsFront head_of octets.now result (λ w. Ok (h, r)) }
    // The result doesn't depend on the bytes after the counted ones.
    ensures alone { IfOk result (λ x. (more : List ℕ)
        → head_ber_at (take x.1 octets.now ++ (take x.0.length.value (drop x.1 octets.now) ++ more))
        ≡ Ok (head_of x.0, take x.0.length.value (drop x.1 octets.now) ++ more)) }
    // The result is that of the definition, including the kind of the error.
    ensures exact { ReadsFront head_of octets.now result head_ber_at }
{
    let (header, count) = read_header(octets)?;
    Ok((header, count))
}

/// Returns the header with which the bytes begin, under BER.
#[tactic(auto, unfolding(der_core_head::specs::Bodies::head_ber_at))]
fn read_header(octets: &[u8]) -> Result<(Header, usize), Error>
    ensures { ReadsFront head_of octets.now result head_ber_at }
{
    let (mark, count) = mark_of(octets)?;
    let tag = mark.tag;
    if let Some(length) = mark.length {
        return Ok((Header { tag, length }, count));
    }
    let length = indefinite_length_of(&octets[count..])?;
    Ok((Header { tag, length }, count))
}
