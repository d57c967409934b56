//! Answers questions about validity periods.

use crate::refusals::Refusal;
use crate::shown::written;
use std::alloc::Global;
use std::time::Duration;
use x509_cert::{DateTime, Raw, Time, Validity};

/// Returns the encoding of the validity period from a date on, with a number of milliseconds or
/// without an end.
pub fn validity_of(alloc: Global, text: &str) -> Result<String, Refusal> {
    match text.split_once(' ') {
        Some((now, millis)) => validity_for(alloc, now, millis),
        None => validity_without_end(alloc, text),
    }
}

/// Returns the encoding of the validity period from a date on with that many milliseconds.
fn validity_for(alloc: Global, now: &str, millis: &str) -> Result<String, Refusal> {
    let now: DateTime = now.parse()?;
    let millis: u64 = millis.parse()?;
    let validity = Validity::<Raw>::from_now(now, Duration::from_millis(millis))?;
    written_from(alloc, validity.not_before, validity.not_after)
}

/// Returns the encoding of the validity period from a date on without an end.
fn validity_without_end(alloc: Global, now: &str) -> Result<String, Refusal> {
    let now: DateTime = now.parse()?;
    let validity = Validity::<Raw>::infinity(now);
    written_from(alloc, validity.not_before, validity.not_after)
}

/// Returns the encoding of the validity period between two dates.
fn written_from(alloc: Global, before: Time, after: Time) -> Result<String, Refusal> {
    written(alloc, &Validity::<Raw>::new(before, after))
}
