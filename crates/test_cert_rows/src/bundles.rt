//! Bundles, call by call.

ghost use Rattle.std.specs.Prelude.{◌≤◌, IfOk};

use crate::cuts::{SERVERS, verdict_on};
use crate::refusal::Refusal;
use crate::schedules::Schedule;
use crate::words::{Word, number_of, octets_of, purpose_of};
use cert_desk::{Bundle, DigestJudge, MemoryInput, ObjectIdentifier, Rule, reason_of};
use std::alloc::Global;
use std::fmt::Write;

/// The rules that can be broken in several ways.
const EXPLAINED: &[Rule] = &[
    Rule::DuplicateExtension,
    Rule::MalformedExtension,
    Rule::UnweighedCritical,
    Rule::AgainstPurpose,
    Rule::NotAuthority,
    Rule::PathTooLong,
];

/// Parses a size limit.
pub fn limit_of(word: &str) -> Result<u32, Refusal>
    ensures { IfOk result (λ limit. 6 ≤ limit) }
{
    let limit = number_of(word)?;
    if limit < 6 {
        return Err(Refusal::Unread);
    }
    Ok(limit)
}

/// Returns the results of the calls, and the state of the bundle and of its input.
pub fn answer(alloc: Global, rest: &str) -> Result<String, Refusal> {
    let (limit, rest) = rest.split_once(' ').ok_or(Refusal::Unread)?;
    let (schedule, rest) = rest.split_once(' ').ok_or(Refusal::Unread)?;
    let (octets, calls) = rest.split_once(' ').ok_or(Refusal::Unread)?;
    let limit = limit_of(limit)?;
    let schedule = Schedule::parse(alloc, schedule)?;
    let octets = octets_of(alloc, octets)?;
    answers_of(alloc, limit, &mut schedule.input(octets.as_slice()), calls)
}

/// Returns the results of the calls of a bundle over this input, and the state of both.
fn answers_of(
    alloc: Global,
    limit: u32,
    input: &mut MemoryInput<'_>,
    calls: &str,
) -> Result<String, Refusal>
    requires { 6 ≤ limit }
{
    let mut bundle = Bundle::new(alloc, limit);
    let mut text = String::new(alloc);
    for call in calls.split(' ') {
        write_call(alloc, &mut text, &mut bundle, input, call)?;
    }
    write_end(&mut text, &bundle, input)?;
    Ok(text)
}

/// Writes the state of a bundle and of its input.
fn write_end(text: &mut String, bundle: &Bundle, input: &MemoryInput<'_>) -> Result<(), Refusal> {
    write_standing(text, bundle)?;
    let (left, failures) = (input.left().len(), input.failures());
    write!(text, "left={left} failures={failures}")?;
    Ok(())
}

/// Writes the result of a call.
fn write_call(
    alloc: Global,
    text: &mut String,
    bundle: &mut Bundle,
    input: &mut MemoryInput<'_>,
    call: &str,
) -> Result<(), Refusal> {
    match call {
        "read" => write!(text, "{:?}; ", bundle.read_from(input))?,
        "end" => write!(text, "{:?}; ", bundle.finish())?,
        "unfinished" => write!(text, "{}; ", bundle.unfinished())?,
        "check" => {
            let verdict = verdict_on(alloc, bundle, &mut DigestJudge::new())?;
            write!(text, "{verdict}; ")?;
        }
        "reasons" => write_reasons(alloc, text, bundle, &purpose_of(SERVERS)?)?,
        piece => {
            let piece = octets_of(alloc, piece)?;
            write!(text, "{:?}; ", bundle.feed(piece.as_slice()))?;
        }
    }
    Ok(())
}

/// Writes the reasons why each certificate breaks each rule, for a key purpose.
fn write_reasons(
    alloc: Global,
    text: &mut String,
    bundle: &Bundle,
    purpose: &ObjectIdentifier<39>,
) -> Result<(), Refusal> {
    for place in 0..bundle.len() {
        for rule in EXPLAINED {
            if let Some(reason) = reason_of(alloc, bundle, place, *rule, purpose)? {
                write!(text, "{place} {rule} {reason:?}; ")?;
            }
        }
    }
    Ok(())
}

/// Writes the state of a bundle, and its certificates: the offset, the bytes and the signed bytes
/// of each.
pub fn write_standing(text: &mut String, bundle: &Bundle) -> Result<(), Refusal> {
    let (len, end) = (bundle.len(), bundle.end_offset());
    write!(text, "{:?} len={len} end={end}; ", bundle.standing())?;
    for place in 0..bundle.len() {
        let Some(entry) = bundle.get(place) else {
            break;
        };
        let (octets, signed) = (Word(entry.octets), Word(entry.signed));
        write!(text, "{} {octets} {signed}; ", entry.offset)?;
    }
    Ok(())
}
