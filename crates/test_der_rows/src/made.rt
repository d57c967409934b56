//! Values that are built without decoding.

use crate::key_usages;
use crate::refusals::Refusal;
use crate::shown::{front_of, octets_of, written, written_in};
use crate::times::seconds_of;
use der_core::describing::Described;
use der_core::{Error, FixedTag};
use der_types::{
    BitString, BitStringRef, BmpString, DateTime, GeneralStringRef, GeneralizedTime, Ia5String,
    Ia5StringRef, Int, IntRef, OctetString, OctetStringRef, PrintableString, PrintableStringRef,
    SequenceRef, Uint, UintRef, UtcTime, Utf8StringRef,
};
use std::alloc::Global;
use std::time::Duration;

/// Returns the encoding of the value that a type makes of bytes.
pub fn of_octets(alloc: Global, rest: &str) -> Result<String, Refusal> {
    let (kind, octets) = front_of(rest);
    let octets = octets_of(alloc, octets)?;
    match kind {
        "BitString" => outcome_written(alloc, BitString::from_bytes(octets)),
        "OctetString" => outcome_written(alloc, OctetString::new(octets)),
        "Vec<u8>" => outcome_written(alloc, given_back(octets)),
        "BmpString" => outcome_written(alloc, BmpString::from_ucs2(octets)),
        _ => number_of(alloc, kind, octets.as_slice()),
    }
}

/// Returns the octet string of the bytes that an octet string of these returns.
fn given_back(octets: Vec<u8>) -> Result<OctetString, Error> {
    let string = OctetString::new(octets)?;
    OctetString::new(Vec::from(string))
}

/// Returns the encoding of the number with these bytes, of which leading ones may be redundant.
fn number_of(alloc: Global, kind: &str, octets: &[u8]) -> Result<String, Refusal> {
    match kind {
        "Int" => outcome_written(alloc, Int::new(alloc, octets)),
        "IntRef" => outcome_written(alloc, IntRef::new(octets)),
        "Uint" => outcome_written(alloc, Uint::new(alloc, octets)),
        "UintRef" => outcome_written(alloc, UintRef::new(octets)),
        _ => string_of(alloc, kind, octets),
    }
}

/// Returns the encoding of the string of bytes, or of the number that is encoded in one.
fn string_of(alloc: Global, kind: &str, octets: &[u8]) -> Result<String, Refusal> {
    match kind {
        "BitStringRef" => outcome_written(alloc, BitStringRef::from_bytes(octets)),
        "OctetStringRef" => outcome_written(alloc, OctetStringRef::new(octets)),
        "SequenceRef" => outcome_written(alloc, SequenceRef::new(octets)),
        "u8" => outcome_written(alloc, number_inside(alloc, octets)),
        _ => text_of(alloc, kind, octets),
    }
}

/// Decodes the number that is encoded in an octet string.
fn number_inside(alloc: Global, octets: &[u8]) -> Result<u8, Error> {
    OctetStringRef::new(octets)?.decode_into(alloc)
}

/// Returns the encoding of the text of bytes.
fn text_of(alloc: Global, kind: &str, octets: &[u8]) -> Result<String, Refusal> {
    match kind {
        "PrintableString" => outcome_written(alloc, PrintableString::new(alloc, octets)),
        "PrintableStringRef" => outcome_written(alloc, PrintableStringRef::new(octets)),
        "Ia5String" => outcome_written(alloc, Ia5String::new(alloc, octets)),
        "Ia5StringRef" => outcome_written(alloc, Ia5StringRef::new(octets)),
        "Utf8StringRef" => outcome_written(alloc, Utf8StringRef::new(octets)),
        "GeneralStringRef" => outcome_written(alloc, GeneralStringRef::new(octets)),
        _ => Err(Refusal::Unread),
    }
}

/// Returns the encoding of the value that a type makes of a text, of names, or of seconds since
/// 1970.
pub fn of_text(alloc: Global, rest: &str) -> Result<String, Refusal> {
    let (kind, text) = front_of(rest);
    match kind {
        "PrintableString" => {
            let text = String::from_str(alloc, text)?;
            outcome_written(alloc, PrintableString::try_from(text))
        }
        "Utf8StringRef" => outcome_written(alloc, Utf8StringRef::try_from(text)),
        "BmpString" => outcome_written(alloc, BmpString::from_str(alloc, text)),
        "KeyUsages" => written(alloc, &key_usages::named(text)?),
        _ => time_of(alloc, kind, text),
    }
}

/// Returns the encoding of the time that many seconds after 1970.
fn time_of(alloc: Global, kind: &str, seconds: &str) -> Result<String, Refusal> {
    let since_1970 = Duration::from_secs(seconds_of(seconds)?);
    match kind {
        "UtcTime" => outcome_written(alloc, UtcTime::from_unix_duration(since_1970)),
        "GeneralizedTime" => outcome_written(
            alloc,
            GeneralizedTime::from_unix_duration(since_1970),
        ),
        "DateTime" => outcome_written(alloc, DateTime::from_unix_duration(since_1970)),
        _ => Err(Refusal::Unread),
    }
}

/// Returns the encoding of a value of a `Described` type.
fn outcome_written<T: Described + FixedTag + Drop>(
    alloc: Global,
    outcome: Result<T, Error>,
) -> Result<String, Refusal> {
    written_in(alloc, outcome)
}
