//! Readers that make several calls: the result of each after those before it.

use crate::refusals::Refusal;
use crate::shown::{debugged, done, hex_in, hex_of, octets_of, or_refusal, printed, shown};
use crate::small::Small;
use der_core::describing::DecodeRow;
use der_core::{
    BytesOwned, Class, Decode, Element, EncodingRules, Error, ErrorKind, Length, Member, Reader,
    Reading, SliceReader, Tag, TagMode, TagNumber, decode_octets, peek_matches,
};
use der_types::SetOfRef;
use std::alloc::Global;
use std::marker::PhantomData;

/// Returns the results of the calls of a reader of bytes.
pub fn answer(alloc: Global, rest: &str) -> Result<String, Refusal> {
    let (octets, steps) = rest.split_once(' ').ok_or(Refusal::Unread)?;
    let octets = octets_of(alloc, octets)?;
    answers_of(alloc, octets.as_slice(), steps)
}

/// Returns the results of the calls, one after another.
fn answers_of(alloc: Global, octets: &[u8], steps: &str) -> Result<String, Refusal> {
    let mut reader = SliceReader::new(octets)?;
    let mut answers = String::new(alloc);
    for step in steps.split_whitespace() {
        let answer = answer_of_step(alloc, &mut reader, step);
        add(&mut answers, or_refusal(alloc, answer))?;
    }
    Ok(answers)
}

/// Appends a result.
pub fn add(answers: &mut String, answer: Result<String, Refusal>) -> Result<(), Refusal> {
    let answer = answer?;
    if !answers.is_empty() {
        answers.push_str("; ")?;
    }
    Ok(answers.push_str(answer.as_str())?)
}

/// Returns the result of a call, which is a name and, after a colon, a number of bytes.
fn answer_of_step(
    alloc: Global,
    reader: &mut SliceReader<'_>,
    step: &str,
) -> Result<String, Refusal> {
    match step.split_once(':') {
        Some((name, count)) => answer_of_count(alloc, reader, name, Length::new(count.parse()?)),
        None => answer_of_name(alloc, reader, step),
    }
}

/// Returns the result of a call with a number of bytes.
fn answer_of_count(
    alloc: Global,
    reader: &mut SliceReader<'_>,
    name: &str,
    len: Length,
) -> Result<String, Refusal> {
    match name {
        "drain" => done(alloc, reader.drain(len)),
        "nest" => printed(alloc, reader.begin_nested(len)),
        "vec" => hex_in(alloc, reader.read_vec(alloc, len)),
        _ => {
            let mut octets = vec![in alloc; 0u8; len.value as usize]?;
            fill(reader, name, octets.as_mut_slice())?;
            hex_of(alloc, octets.as_slice())
        }
    }
}

/// Fills a buffer with the next bytes.
fn fill(reader: &mut SliceReader<'_>, name: &str, octets: &mut [u8]) -> Result<(), Refusal> {
    match name {
        "peek-into" => Ok(reader.peek_into(octets)?),
        "read-into" => Ok(reader.read_into(octets)?),
        _ => Err(Refusal::Unread),
    }
}

/// Returns the result of a call on the state of the reader.
fn answer_of_name(
    alloc: Global,
    reader: &mut SliceReader<'_>,
    name: &str,
) -> Result<String, Refusal> {
    match name {
        "rules" => shown(alloc, reader.encoding_rules()),
        "by-ber" => done(alloc, Ok(reader.set_encoding_rules(EncodingRules::Ber))),
        "input" => shown(alloc, reader.input_len()),
        "position" => shown(alloc, reader.position()),
        "offset" => shown(alloc, reader.offset()),
        "levels" => shown(alloc, reader.levels_left()),
        "failed" => shown(alloc, reader.is_failed()),
        "finish" => done(alloc, reader.finish()),
        "error" => Err(Refusal::from(reader.error(ErrorKind::DateTime))),
        _ => answer_of_octets(alloc, reader, name),
    }
}

/// Returns the result of a call on the next bytes.
fn answer_of_octets(
    alloc: Global,
    reader: &mut SliceReader<'_>,
    name: &str,
) -> Result<String, Refusal> {
    match name {
        "peek" => debugged(alloc, Ok(reader.peek_byte())),
        "peek-header" => shown(alloc, reader.peek_header()?.length),
        "byte" => printed(alloc, reader.read_byte()),
        "copy" => byte_of_copy(alloc, reader),
        "tlv" => hex_of(alloc, reader.tlv_bytes()?),
        "pair" => debugged(alloc, two_octets(reader)),
        "content" => content_of(alloc, reader),
        "parts" => parts_of(alloc, reader),
        "universal-4" => matches(alloc, reader, Class::Universal),
        "private-4" => matches(alloc, reader, Class::Private),
        _ => answer_of_values(alloc, reader, name),
    }
}

/// Returns the value that a call decodes.
fn answer_of_values<'a>(
    alloc: Global,
    reader: &mut SliceReader<'a>,
    name: &str,
) -> Result<String, Refusal> {
    match name {
        "bool" => printed(alloc, bool::decode(alloc, reader)),
        "u8" => printed(alloc, u8::decode(alloc, reader)),
        "option" => debugged(alloc, Option::<bool>::decode(alloc, reader)),
        "lent" | "lent-of-lent" => answer_of_sets::<Small>(alloc, reader, name),
        "nothing" => nothing(alloc, reader),
        "decode" => flag_of(alloc, reader),
        "fields" => fields_of(alloc, reader),
        "explicit" => answer_of_tagged(alloc, reader, TagMode::Explicit),
        "implicit" => answer_of_tagged(alloc, reader, TagMode::Implicit),
        _ => Err(Refusal::Unread),
    }
}

/// Returns the number of members of the next set, which is borrowed. Its members are values, or
/// sets of them.
fn answer_of_sets<'a, T: Decode<'a, SliceReader<'a>> + Element + Member + 'a>(
    alloc: Global,
    reader: &mut SliceReader<'a>,
    name: &str,
) -> Result<String, Refusal> {
    match name {
        "lent" => answer_of_lent::<T>(alloc, reader),
        _ => answer_of_lent::<SetOfRef<T>>(alloc, reader),
    }
}

/// Returns the number of members of the next set, which is borrowed.
fn answer_of_lent<'a, T: Decode<'a, SliceReader<'a>> + Member + 'a>(
    alloc: Global,
    reader: &mut SliceReader<'a>,
) -> Result<String, Refusal> {
    let set = SetOfRef::<T>::decode(alloc, reader)?;
    shown(alloc, set.len())
}

/// Decodes the value that has no bytes.
fn nothing(alloc: Global, reader: &mut SliceReader<'_>) -> Result<String, Refusal> {
    let PhantomData = PhantomData::<u8>::decode(alloc, reader)?;
    done(alloc, Ok(()))
}

/// Decodes the next flag.
fn flag_of(alloc: Global, reader: &mut SliceReader<'_>) -> Result<String, Refusal> {
    let flag = reader.decode::<bool>(alloc)?;
    shown(alloc, flag)
}

/// Decodes the number between two fields of no bytes.
fn fields_of(alloc: Global, reader: &mut SliceReader<'_>) -> Result<String, Refusal> {
    let (PhantomData, (number, PhantomData)) = <(
        PhantomData<bool>,
        (u8, PhantomData<bool>),
    )>::decode_row(alloc, reader)?;
    shown(alloc, number)
}

/// Returns the byte that a copy of the reader reads next.
fn byte_of_copy(alloc: Global, reader: &SliceReader<'_>) -> Result<String, Refusal> {
    let mut copy = reader.clone()?;
    printed(alloc, copy.read_byte())
}

/// Returns the bytes of the next content.
fn content_of(alloc: Global, reader: &mut SliceReader<'_>) -> Result<String, Refusal> {
    let header = reader.read_header()?;
    let octets = decode_octets(alloc, reader, header)?;
    hex_of(alloc, octets.as_slice())
}

/// Returns the bytes of the next string, concatenated from its parts.
fn parts_of(alloc: Global, reader: &mut SliceReader<'_>) -> Result<String, Refusal> {
    let header = reader.read_header()?;
    let octets = BytesOwned::decode_value_parts(alloc, reader, header, Tag::OctetString)?;
    hex_of(alloc, octets.as_slice())
}

/// Returns whether the next tag is that of this class with the number 4.
fn matches(alloc: Global, reader: &mut SliceReader<'_>, class: Class) -> Result<String, Refusal> {
    printed(alloc, peek_matches(reader, class, TagNumber::new(4)))
}

/// Decodes the number with the context-specific tag 0, if that is next.
fn answer_of_tagged(
    alloc: Global,
    reader: &mut SliceReader<'_>,
    mode: TagMode,
) -> Result<String, Refusal> {
    let number = reader.context_specific::<u8>(alloc, TagNumber::new(0), mode)?;
    debugged(alloc, Ok(number))
}

/// Decodes the two bytes of a SEQUENCE of 2 bytes.
fn two_octets(reader: &mut SliceReader<'_>) -> Result<(u8, u8), Error> {
    reader.sequence(|inner| {
        let first = inner.read_byte()?;
        let second = inner.read_byte()?;
        Ok((first, second))
    })
}
