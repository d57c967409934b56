//! Writers that make several calls, and values that are encoded into slices.

use crate::readers::add;
use crate::refusals::Refusal;
use crate::shown::{hex_of, joined, octets_of, read, shown};
use der_core::{
    Encode, EncodeValueRef, Error, ErrorKind, Length, SliceWriter, TagMode, TagNumber, ToDer,
    Writer, encode_value_to_slice, value_header,
};
use std::alloc::Global;

/// Returns the results of the calls of a writer with that many bytes of capacity, the bytes that it
/// wrote, and the content of its slice.
pub fn answer(alloc: Global, rest: &str) -> Result<String, Refusal> {
    let (room, steps) = rest.split_once(' ').ok_or(Refusal::Unread)?;
    let mut octets = vec![in alloc; 0u8; room.parse::<usize>()?]?;
    let answers = answers_of(alloc, octets.as_mut_slice(), steps);
    joined(answers, "; ", hex_of(alloc, octets.as_slice()))
}

/// Returns the results of the calls, one after another, and then the bytes that were written.
fn answers_of(alloc: Global, octets: &mut [u8], steps: &str) -> Result<String, Refusal> {
    let mut writer = SliceWriter::new(octets);
    let mut answers = String::new(alloc);
    for step in steps.split_whitespace() {
        add(&mut answers, answer_or_refusal(alloc, &mut writer, step))?;
    }
    add(&mut answers, octets_written(alloc, writer.finish()))?;
    Ok(answers)
}

/// Returns the bytes that were written, or the error.
fn octets_written(alloc: Global, outcome: Result<&[u8], Error>) -> Result<String, Refusal> {
    match outcome {
        Ok(written) => hex_of(alloc, written),
        Err(error) => shown(alloc, Refusal::from(error)),
    }
}

/// Returns the result of a call, or the error.
fn answer_or_refusal(
    alloc: Global,
    writer: &mut SliceWriter<'_>,
    step: &str,
) -> Result<String, Refusal> {
    let (name, octets) = step.split_once(':').unwrap_or((step, ""));
    match octets_of(alloc, octets) {
        Ok(octets) => taken(alloc, writer, name, octets.as_slice()),
        Err(refusal) => shown(alloc, refusal),
    }
}

/// Returns the result of a call with these bytes, or the error.
fn taken(
    alloc: Global,
    writer: &mut SliceWriter<'_>,
    name: &str,
    octets: &[u8],
) -> Result<String, Refusal> {
    match answer_of_step(writer, name, octets) {
        Ok(answer) => shown(alloc, answer),
        Err(refusal) => shown(alloc, refusal),
    }
}

/// Returns the result of a call, which is a name and bytes.
fn answer_of_step(
    writer: &mut SliceWriter<'_>,
    name: &str,
    octets: &[u8],
) -> Result<&'static str, Refusal> {
    match name {
        "write" => done(writer.write(octets)),
        "sequence" => sequence_of(writer, octets),
        _ => match octets {
            [] => answer_of_name(writer, name),
            [number] => answer_of_number(writer, name, number),
            _ => Err(Refusal::Unread),
        },
    }
}

/// Returns the answer for a call without a value.
fn done(outcome: Result<(), Error>) -> Result<&'static str, Refusal> {
    outcome?;
    Ok("done")
}

/// Returns the result of a call without bytes.
fn answer_of_name(writer: &mut SliceWriter<'_>, name: &str) -> Result<&'static str, Refusal> {
    match name {
        "true" => done(writer.encode(&true)),
        "none" => done(writer.encode(&None::<bool>)),
        "null" => done(writer.encode(&())),
        "error" => done(writer.error::<()>(ErrorKind::DateTime)),
        "failed" if writer.is_failed() => Ok("true"),
        "failed" => Ok("false"),
        _ => Err(Refusal::Unread),
    }
}

/// Returns the result of a call with a number.
fn answer_of_number(
    writer: &mut SliceWriter<'_>,
    name: &str,
    number: &u8,
) -> Result<&'static str, Refusal> {
    let zero = TagNumber::new(0);
    match name {
        "byte" => done(writer.write_byte(*number)),
        "plain-u8" => done(number.encode(writer)),
        "u8" => done(writer.encode(number)),
        "explicit" => done(writer.context_specific(zero, TagMode::Explicit, number)),
        "implicit" => done(writer.context_specific(zero, TagMode::Implicit, number)),
        _ => Err(Refusal::Unread),
    }
}

/// Writes a SEQUENCE. The first byte is its length, and the others are its content.
fn sequence_of(writer: &mut SliceWriter<'_>, octets: &[u8]) -> Result<&'static str, Refusal> {
    let [len, content @ ..] = octets else {
        return Err(Refusal::Unread);
    };
    done(writer.sequence(Length::from(*len), |inner| inner.write(content)))
}

/// Encodes a number into a slice of that many bytes, which are 09 before. Returns the encoding and
/// then the content of the slice.
pub fn answer_of_slices(alloc: Global, word: &str, rest: &str) -> Result<String, Refusal> {
    let (room, octets) = rest.split_once(' ').ok_or(Refusal::Unread)?;
    let number = number_of(alloc, octets)?;
    let mut room = vec![in alloc; 9u8; room.parse::<usize>()?]?;
    let written = written_hex(alloc, word, number, room.as_mut_slice());
    joined(written, " ", hex_of(alloc, room.as_slice()))
}

/// Encodes a number at the beginning of a slice, and returns the encoding in base 16.
fn written_hex(alloc: Global, word: &str, number: u8, room: &mut [u8]) -> Result<String, Refusal> {
    hex_of(alloc, written_to(word, number, room)?)
}

/// Decodes a number.
fn number_of(alloc: Global, octets: &str) -> Result<u8, Refusal> {
    let octets = octets_of(alloc, octets)?;
    Ok(read(alloc, octets.as_slice())?)
}

/// Encodes a number at the beginning of a slice, with or without its header.
fn written_to<'a>(word: &str, number: u8, room: &'a mut [u8]) -> Result<&'a [u8], Refusal> {
    match word {
        "slice" => Ok(number.encode_to_slice(room)?),
        "slice-value" => Ok(encode_value_to_slice(&number, room)?),
        _ => Err(Refusal::Unread),
    }
}

/// Appends the encoding of a number to a vector of bytes. Returns the content of the vector, and
/// the length of the encoding.
pub fn answer_of_vectors(alloc: Global, rest: &str) -> Result<String, Refusal> {
    let (octets, number) = rest.split_once(' ').ok_or(Refusal::Unread)?;
    let number = number_of(alloc, number)?;
    let mut octets = octets_of(alloc, octets)?;
    let len = number.encode_to_vec(&mut octets);
    joined(
        hex_of(alloc, octets.as_slice()),
        " ",
        lengths_of(alloc, len, number),
    )
}

/// Returns the length of the encoding of a number, and the tag and the length of its header.
fn lengths_of(alloc: Global, len: Result<Length, Error>, number: u8) -> Result<String, Refusal> {
    let len = len?;
    let header = value_header(&EncodeValueRef(&number))?;
    Ok(format!(in alloc; "{len} {} {}", header.tag(), header.length())?)
}
