//! Dates and times.

use crate::nested;
use crate::questions::{Asked, Question, answer_of_lent};
use crate::refusals::Refusal;
use crate::shown::{printed, read, shown};
use der_core::describing::{DecodeWay, Described};
use der_core::{Error, FixedTag, SliceReader};
use der_types::{DateTime, GeneralizedTime, UtcTime};
use std::alloc::Global;

/// Returns the answer for a type that this module names, or that a later module names.
pub fn answer(alloc: Global, kind: &str, question: &Question<'_>) -> Result<String, Refusal> {
    match kind {
        "UtcTime" | "GeneralizedTime" | "DateTime" => answer_of_time(alloc, kind, question),
        _ => nested::answer(alloc, kind, question),
    }
}

/// Returns the answer for a time, whose text is that of its date.
fn answer_of_time(alloc: Global, kind: &str, question: &Question<'_>) -> Result<String, Refusal> {
    match question.asked {
        Asked::Text => printed(alloc, date_of(alloc, kind, question.first)),
        _ => answer_of_type(alloc, kind, question),
    }
}

/// Answers any other question about a type of times.
fn answer_of_type(alloc: Global, kind: &str, question: &Question<'_>) -> Result<String, Refusal> {
    match kind {
        "UtcTime" => answer_of_lent::<UtcTime>(alloc, question),
        "GeneralizedTime" => answer_of_lent::<GeneralizedTime>(alloc, question),
        _ => answer_of_lent::<DateTime>(alloc, question),
    }
}

/// Decodes a time and returns its date.
fn date_of(alloc: Global, kind: &str, octets: &[u8]) -> Result<DateTime, Error> {
    match kind {
        "UtcTime" => date_in::<UtcTime>(alloc, octets),
        "GeneralizedTime" => date_in::<GeneralizedTime>(alloc, octets),
        _ => read(alloc, octets),
    }
}

/// Decodes a time of a type and returns its date.
fn date_in<'a, T: Described + FixedTag + Into<DateTime> + Drop>(
    alloc: Global,
    octets: &'a [u8],
) -> Result<DateTime, Error>
where
    T::By: DecodeWay<'a, SliceReader<'a>, T>,
{
    let time = read::<T>(alloc, octets)?;
    Ok(time.into())
}

/// Answers a question about dates: `date` returns the seconds since 1970, and `seconds` returns the
/// date.
pub fn answer_of_dates(alloc: Global, word: &str, rest: &str) -> Result<String, Refusal> {
    match word {
        "date" => {
            let date: DateTime = rest.parse()?;
            shown(alloc, date.unix_seconds())
        }
        "seconds" => printed(alloc, DateTime::from_unix_seconds(seconds_of(rest)?)),
        _ => Err(Refusal::Unread),
    }
}

/// Parses a number of seconds.
pub fn seconds_of(text: &str) -> Result<u64, Refusal> {
    text.parse().ok().ok_or(Refusal::Unread)
}
