//! Inputs and outputs in memory, call by call.

use crate::refusal::Refusal;
use crate::schedules::Schedule;
use crate::words::{Word, octets_of};
use cert_desk::{Input, MemoryOutput, write_all};
use std::alloc::{AllocError, Global};
use std::fmt::Write;

/// Returns the result of each of six reads into a buffer of 4 bytes.
pub fn answer_of_input(alloc: Global, rest: &str) -> Result<String, Refusal> {
    let (schedule, octets) = rest.split_once(' ').ok_or(Refusal::Unread)?;
    let schedule = Schedule::parse(alloc, schedule)?;
    let octets = octets_of(alloc, octets)?;
    let mut input = schedule.input(octets.as_slice());
    let mut text = String::new(alloc);
    for _ in 0..6 {
        let mut buffer = [0; 4];
        match input.read(&mut buffer) {
            Ok(count) => write_word(&mut text, &buffer[..count])?,
            Err(error) => write!(text, "{error}")?,
        }
        text.push_str(", ")?;
    }
    write!(text, "failures={}", input.failures())?;
    Ok(text)
}

/// Returns whether an output with a capacity of 64 bytes accepts each text, and the bytes that it
/// accepted.
pub fn answer_of_output(alloc: Global, rest: &str) -> Result<String, Refusal> {
    let (schedule, texts) = rest.split_once(' ').ok_or(Refusal::Unread)?;
    let schedule = Schedule::parse(alloc, schedule)?;
    let mut room = [0; 64];
    let mut output = schedule.output(&mut room);
    taken_by(alloc, &mut output, texts)
}

/// Returns whether an output accepts each text, and the bytes that it accepted.
fn taken_by(alloc: Global, output: &mut MemoryOutput<'_>, texts: &str) -> Result<String, Refusal> {
    let mut text = String::new(alloc);
    for octets in texts.split(' ') {
        write_taken(alloc, &mut text, output, octets)?;
    }
    write_word(&mut text, output.written())?;
    write!(text, ", failures={}", output.failures())?;
    Ok(text)
}

/// Writes whether an output accepts the bytes of a word.
fn write_taken(
    alloc: Global,
    text: &mut String,
    output: &mut MemoryOutput<'_>,
    word: &str,
) -> Result<(), Refusal> {
    let octets = octets_of(alloc, word)?;
    match write_all(output, octets.as_slice()) {
        Ok(()) => text.push_str("ok, ")?,
        Err(error) => write!(text, "{error}, ")?,
    }
    Ok(())
}

/// Writes the word for these bytes.
fn write_word(text: &mut String, octets: &[u8]) -> Result<(), AllocError> {
    write!(text, "{}", Word(octets))
}
