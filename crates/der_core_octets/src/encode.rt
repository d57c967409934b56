//! Encoding headers, and lengths of slices.

ghost use Rattle.std.specs.Prelude.{◌≡◌, ◌<◌, ◌++◌, length};
ghost use Rattle.der_core_head.specs.Tags.{number_of, tag_octets};
ghost use Rattle.der_core_head.specs.Heads.{head_octets, length_octets};
ghost use Rattle.der_core_head.specs.Reading.{GivesNow};
ghost use Rattle.der_core_head.specs.Writing.{Writes, put, put_head, fit_len};
ghost use Rattle.der_core_octets.specs.Outputs.{AddsFront, Continues};

use crate::writer::Writer;
use der_core_head::{Error, Length, Tag, leading_octet_of, number_of};

/// Writes the encoding of a tag (X.690 8.1.2).
///
/// # Errors
///
/// - The errors of the writer.
// Inlined, so that a known tag is one byte and no result is moved.
#[inline(always)]
#[tactic(auto, using(der_core_head::proofs::TagLaws::tag_forms, crate::proofs::Added::write_adds))]
pub fn encode_tag<W: Writer>(writer: &mut W, tag: Tag) -> Result<(), Error>
    ensures exact { Writes W.takes_memory (W.out writer.old) (W.out writer.new) result
        (put (tag_octets tag)) }
    ensures kept { Continues (W.out writer.old) (W.out writer.new) }
    ensures front { AddsFront (tag_octets tag) (W.out writer.old) (W.out writer.new) }
{
    let first = leading_octet_of(tag);
    let n = number_of(tag);
    let d4 = 128 + (n / 0x1000_0000) as u8;
    let d3 = 128 + (n / 0x20_0000 % 128) as u8;
    let d2 = 128 + (n / 0x4000 % 128) as u8;
    let d1 = 128 + (n / 0x80 % 128) as u8;
    let last = (n % 128) as u8;
    match n {
        0..=30 => writer.write(&[first]),
        31..=0x7f => writer.write(&[first, last]),
        0x80..=0x3fff => writer.write(&[first, d1, last]),
        0x4000..=0x1f_ffff => writer.write(&[first, d2, d1, last]),
        0x20_0000..=0xfff_ffff => writer.write(&[first, d3, d2, d1, last]),
        _ => writer.write(&[first, d4, d3, d2, d1, last]),
    }
}

/// Writes the encoding of a length (X.690 8.1.3, 10.1).
///
/// # Errors
///
/// - The errors of the writer.
// Inlined, so that a known tag is one byte and no result is moved.
#[inline(always)]
#[tactic(auto, using(der_core_head::proofs::HeadLaws::length_forms, crate::proofs::Added::write_adds))]
pub fn encode_length<W: Writer>(writer: &mut W, len: Length) -> Result<(), Error>
    ensures exact { Writes W.takes_memory (W.out writer.old) (W.out writer.new) result
        (put (length_octets len.value)) }
    ensures kept { Continues (W.out writer.old) (W.out writer.new) }
    ensures front { AddsFront (length_octets len.value) (W.out writer.old) (W.out writer.new) }
{
    let n = len.value;
    let d3 = (n / 0x100_0000) as u8;
    let d2 = (n / 0x1_0000 % 256) as u8;
    let d1 = (n / 0x100 % 256) as u8;
    let last = (n % 256) as u8;
    match n {
        0..=0x7f => writer.write(&[last]),
        0x80..=0xff => writer.write(&[129, last]),
        0x100..=0xffff => writer.write(&[130, d1, last]),
        0x1_0000..=0xff_ffff => writer.write(&[131, d2, d1, last]),
        _ => writer.write(&[132, d3, d2, d1, last]),
    }
}

/// Writes a header whose tag has one byte, which holds for numbers below 31.
///
/// # Errors
///
/// - The errors of the writer.
#[inline(always)]
#[tactic(auto, using(der_core_head::proofs::TagLaws::tag_forms, der_core_head::proofs::HeadLaws::length_forms, crate::proofs::Added::write_adds))]
fn encode_short_header<W: Writer>(writer: &mut W, tag: Tag, len: Length) -> Result<(), Error>
    requires { number_of tag < 31 }
    ensures exact { Writes W.takes_memory (W.out writer.old) (W.out writer.new) result
        (put (tag_octets tag ++ length_octets len.value)) }
    ensures kept { Continues (W.out writer.old) (W.out writer.new) }
    ensures front { AddsFront (tag_octets tag ++ length_octets len.value)
        (W.out writer.old) (W.out writer.new) }
{
    let first = leading_octet_of(tag);
    let n = len.value;
    let d3 = (n / 0x100_0000) as u8;
    let d2 = (n / 0x1_0000 % 256) as u8;
    let d1 = (n / 0x100 % 256) as u8;
    let last = (n % 256) as u8;
    match n {
        0..=0x7f => writer.write(&[first, last]),
        0x80..=0xff => writer.write(&[first, 129, last]),
        0x100..=0xffff => writer.write(&[first, 130, d1, last]),
        0x1_0000..=0xff_ffff => writer.write(&[first, 131, d2, d1, last]),
        _ => writer.write(&[first, 132, d3, d2, d1, last]),
    }
}

/// Writes a header.
///
/// # Errors
///
/// - `Overflow`: the header and the content have more than 2^32 - 1 bytes together.
/// - The errors of the writer.
// Inlined, so that a known tag is one byte and no result is moved.
#[inline(always)]
#[tactic(auto, using(crate::proofs::Added::first_added, crate::proofs::Added::put_then_added), unfolding(der_core_head::specs::Writing::put_head, der_core_head::specs::Heads::head_octets))]
pub fn encode_header<W: Writer>(writer: &mut W, tag: Tag, len: Length) -> Result<(), Error>
    ensures exact { Writes W.takes_memory (W.out writer.old) (W.out writer.new) result
        (put_head tag len.value) }
    ensures kept { Continues (W.out writer.old) (W.out writer.new) }
    ensures front { AddsFront (head_octets tag len.value) (W.out writer.old) (W.out writer.new) }
{
    // Checks that the header and the content together aren't too long.
    let _whole = len.for_tlv(tag)?;
    if number_of(tag) < 31 {
        return encode_short_header(writer, tag, len);
    }
    encode_tag(writer, tag)?;
    encode_length(writer, len)
}

/// Returns the length of a slice.
///
/// # Errors
///
/// - `Overflow`: the slice has 2^32 bytes or more.
pub fn slice_len(octets: &[u8]) -> Result<Length, Error>
    ensures { GivesNow (λ l. l.value) result (fit_len (length octets.now)) }
{
    Ok(Length::try_from(octets.len())?)
}
