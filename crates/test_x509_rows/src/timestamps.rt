//! Timestamps and their dates.

use crate::answers::answer_of_type;
use crate::refusals::Refusal;
use crate::shown::{Dashed, shown};
use crate::timestamp_lists::{list_of, list_read, member_of, members_of};
use crate::tls_values::{blank_timestamp, length_of, length_of_list};
use std::alloc::Global;
use x509_cert::timestamps::SignedCertificateTimestamp;

/// Answers a question about timestamps, or about a type.
pub fn answer(alloc: Global, word: &str, rest: &str) -> Result<String, Refusal> {
    match word {
        "members" => members_of(alloc, rest),
        "list" => list_of(alloc, rest),
        "list-read" => list_read(alloc, rest),
        "long" => length_of(alloc, rest),
        "long-list" => length_of_list(alloc, rest),
        "stamp" => parts_of(alloc, rest),
        "date" => date_of(alloc, rest),
        _ => answer_of_type(alloc, word, rest),
    }
}

/// Decodes a timestamp and returns its parts.
fn parts_of(alloc: Global, octets: &str) -> Result<String, Refusal> {
    let timestamp = member_of(alloc, octets)?.parse_timestamp(alloc)?;
    parts_in(alloc, &timestamp)
}

/// Returns the parts of a timestamp.
fn parts_in(alloc: Global, timestamp: &SignedCertificateTimestamp) -> Result<String, Refusal> {
    let date = timestamp.timestamp()?;
    let version = &timestamp.version;
    let log = Dashed(timestamp.log_id.key_id.as_slice());
    let milliseconds = timestamp.timestamp;
    let extensions = Dashed(timestamp.extensions.as_slice());
    let algorithm = &timestamp.signature.algorithm;
    let (hash, signature) = (&algorithm.hash, &algorithm.signature);
    let octets = Dashed(timestamp.signature.signature.as_slice());
    Ok(format!(in alloc;
        "{version:?} {log} {milliseconds} {date} {extensions} {hash:?} {signature:?} {octets}"
    )?)
}

/// Returns the date of a timestamp with that many milliseconds, which is otherwise empty.
fn date_of(alloc: Global, milliseconds: &str) -> Result<String, Refusal> {
    let timestamp = blank_timestamp(alloc, milliseconds.parse()?, Vec::new(alloc));
    shown(alloc, timestamp.timestamp()?)
}
