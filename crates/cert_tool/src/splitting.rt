//! The commands `split` and `reverse`.

ghost use Rattle.std.specs.Prelude.{◌≡◌, ◌≢◌, ◌<◌, ◌≤◌, IfOk, length, string_bytes, true};
ghost use Rattle.cert_tool_explain.specs.CertCertificates.Certificates.{subject};
ghost use Rattle.cert_tool_explain.specs.CertCertificates.Views.{certificate_plain};
ghost use Rattle.cert_tool_explain.specs.CertNames.PlainTexts.{name_text};
ghost use Rattle.cert_tool_explain.specs.CertNames.Views.{name_plain};
ghost use Rattle.cert_tool_explain.specs.DeskIo.Devices.{sink, source};
ghost use Rattle.cert_tool_explain.specs.DeskBundle.Streams.{Kept};
ghost use Rattle.cert_tool.specs.JsonTexts.{escaped_text};
ghost use Rattle.cert_tool.specs.Splitting.{IsListed, IsReversed, IsTaken, comma_before};
ghost use Rattle.cert_tool.specs.Splitting.{json_at, place_lines, places_text, reversed};
ghost use Rattle.cert_tool.specs.EarlyEnds.{FedWithin};

use crate::early_end::report_outcome;
use crate::json_texts::{escaped_text, place_object};
use crate::stream_fault::stop_of;
use cert_tool_explain::cert_certificates::CertificateInner;
use cert_tool_explain::cert_names::Name;
use cert_tool_explain::cert_parts::Raw;
use cert_tool_explain::desk_bundle::{Bundle, Standing};
use cert_tool_explain::desk_checking::read_stream;
use cert_tool_explain::desk_io::{ExitStatus, Input, Output, answer, complain, tell_memory};
use std::alloc::{AllocError, Global};

// Returns one line for each certificate: its index, its offset and its number of bytes.
fn list_of(alloc: Global, bundle: &Bundle) -> Result<String, AllocError>
    ensures { IfOk result (λ text. string_bytes text ≡ place_lines bundle.now.certificates) }
{
    let mut text = String::new(alloc);
    for place in 0..bundle.len() {
        let entry = bundle.get(place).unwrap();
        let (offset, len) = (entry.offset, entry.octets.len());
        writeln!(text, "{place} {offset} {len}")?;
    }
    Ok(text)
}

// Returns the comma before the object of a certificate, which the first one doesn't have.
fn comma_before(place: usize) -> &'static str
    ensures { result.now ≡ comma_before place }
{
    if place == 0 { "" } else { "," }
}

// Returns the text of a name (RFC 4514).
pub(crate) fn name_text(alloc: Global, name: &Name) -> Result<String, AllocError>
    ensures { IfOk result (λ text. string_bytes text ≡ name_text (name_plain name.now)) }
{
    let text = name.to_string(alloc)?;
    Ok(text)
}

// Returns the subject of a certificate, escaped for a JSON string.
pub(crate) fn subject_of(
    alloc: Global,
    certificate: &CertificateInner<Raw>,
) -> Result<String, AllocError>
    ensures { IfOk result (λ text. string_bytes text
        ≡ escaped_text (name_text (subject (certificate_plain certificate.now)))) }
{
    let name = name_text(alloc, certificate.tbs_certificate().subject())?;
    let text = escaped_text(alloc, name.as_str())?;
    Ok(text)
}

// Returns the JSON object of the certificate at this index.
fn json_at(alloc: Global, bundle: &Bundle, place: usize) -> Result<String, AllocError>
    requires { place < length bundle.now.certificates }
    ensures { IfOk result (λ text. string_bytes text ≡ json_at bundle.now.certificates place) }
{
    let entry = bundle.get(place).unwrap();
    let subject = subject_of(alloc, entry.certificate)?;
    let len = entry.octets.len();
    let text = place_object(alloc, place, entry.offset, len, subject.as_str())?;
    Ok(text)
}

// Returns the JSON array of the certificates.
fn json_of(alloc: Global, bundle: &Bundle) -> Result<String, AllocError>
    ensures { IfOk result (λ text. string_bytes text ≡ places_text true bundle.now.certificates) }
{
    let mut text = String::new(alloc);
    text.push_str("[")?;
    for place in 0..bundle.len() {
        let object = json_at(alloc, bundle, place)?;
        let (comma, object) = (comma_before(place), object.as_str());
        write!(text, "{comma}{object}")?;
    }
    text.push_str("]\n")?;
    Ok(text)
}

// Returns the bytes of the certificates, the last one first.
fn reversed(alloc: Global, bundle: &Bundle) -> Result<Vec<u8>, AllocError>
    ensures { IfOk result (λ octets. octets.items ≡ reversed bundle.now.certificates) }
{
    let mut octets = Vec::new(alloc);
    let mut left = bundle.len();
    while left > 0 {
        left -= 1;
        octets.extend_from_slice(bundle.get(left).unwrap().octets)?;
    }
    Ok(octets)
}

// Returns the list of the certificates, as JSON or as lines.
fn text_of(alloc: Global, bundle: &Bundle, json: bool) -> Result<String, AllocError>
    ensures { IfOk result (λ text. string_bytes text ≡ places_text json bundle.now.certificates) }
{
    if json {
        json_of(alloc, bundle)
    } else {
        list_of(alloc, bundle)
    }
}

// Prints the list of the certificates that were read from a stream, and then reports what ended the
// stream early.
fn write_places<O: Output, E: Output>(
    alloc: Global,
    bundle: &Bundle,
    out: &mut O,
    err: &mut E,
    json: bool,
) -> ExitStatus
    requires { bundle.now.standing ≢ Standing.Open }
    ensures { IsListed json (sink O.gives O.failures out.old out.new)
        (sink E.gives E.failures err.old err.new) bundle.now result }
{
    let Ok(text) = text_of(alloc, bundle, json) else {
        return tell_memory(err);
    };
    let status = answer(out, err, text.as_bytes(), ExitStatus::Done);
    if status != ExitStatus::Done {
        return status;
    }
    match stop_of(bundle) {
        Some(outcome) => report_outcome(alloc, outcome, err),
        None => ExitStatus::Done,
    }
}

// Writes the certificate at this index, of those that were read from a stream.
fn write_taken<O: Output, E: Output>(
    alloc: Global,
    bundle: &Bundle,
    out: &mut O,
    err: &mut E,
    place: usize,
) -> ExitStatus
    requires { bundle.now.standing ≢ Standing.Open }
    ensures { IsTaken (sink O.gives O.failures out.old out.new)
        (sink E.gives E.failures err.old err.new) bundle.now place result }
{
    if let Some(entry) = bundle.get(place) {
        return answer(out, err, entry.octets, ExitStatus::Done);
    }
    match stop_of(bundle) {
        Some(outcome) => report_outcome(alloc, outcome, err),
        None => complain(
            err,
            b"no certificate has that index\n",
            ExitStatus::Arguments,
        ),
    }
}

// Writes the certificates that were read from a stream, the last one first.
fn write_reversed<O: Output, E: Output>(
    alloc: Global,
    bundle: &Bundle,
    out: &mut O,
    err: &mut E,
) -> ExitStatus
    requires { bundle.now.standing ≢ Standing.Open }
    ensures { IsReversed (sink O.gives O.failures out.old out.new)
        (sink E.gives E.failures err.old err.new) bundle.now result }
{
    if let Some(outcome) = stop_of(bundle) {
        return report_outcome(alloc, outcome, err);
    }
    match reversed(alloc, bundle) {
        Ok(octets) => answer(out, err, octets.as_slice(), ExitStatus::Done),
        Err(_) => tell_memory(err),
    }
}

/// Prints the certificates of a stream, one line each: `PLACE OFFSET LENGTH`, in decimal. As JSON,
/// it is an array of objects with the members `place`, `offset`, `length` and `subject` (RFC 4514).
///
/// If the stream has an error, the certificates before it are listed, and then the error is
/// reported on the error output.
pub fn run_list<S: Input, O: Output, E: Output>(
    alloc: Global,
    stream: &mut S,
    out: &mut O,
    err: &mut E,
    limit: u32,
    json: bool,
) -> ExitStatus
    requires { 6 ≤ limit }
    ensures told { (kept : Kept)
        × FedWithin (source S.takes S.is_ended S.failures stream.old stream.new) limit kept
        × IsListed json (sink O.gives O.failures out.old out.new)
        (sink E.gives E.failures err.old err.new) kept result }
{
    let bundle = read_stream(alloc, limit, stream);
    write_places(alloc, &bundle, out, err, json)
}

/// Writes the bytes of the certificate at this index of a stream. An error after that certificate
/// isn't reported.
pub fn run_take<S: Input, O: Output, E: Output>(
    alloc: Global,
    stream: &mut S,
    out: &mut O,
    err: &mut E,
    limit: u32,
    place: usize,
) -> ExitStatus
    requires { 6 ≤ limit }
    ensures told { (kept : Kept)
        × FedWithin (source S.takes S.is_ended S.failures stream.old stream.new) limit kept
        × IsTaken (sink O.gives O.failures out.old out.new)
        (sink E.gives E.failures err.old err.new) kept place result }
{
    let bundle = read_stream(alloc, limit, stream);
    write_taken(alloc, &bundle, out, err, place)
}

/// Writes the certificates of a stream, the last one first. This turns a chain in the order of TLS,
/// which begins with the end-entity certificate, into one that begins with the certificate that the
/// trust anchor issued, and back.
pub fn run_reverse<S: Input, O: Output, E: Output>(
    alloc: Global,
    stream: &mut S,
    out: &mut O,
    err: &mut E,
    limit: u32,
) -> ExitStatus
    requires { 6 ≤ limit }
    ensures told { (kept : Kept)
        × FedWithin (source S.takes S.is_ended S.failures stream.old stream.new) limit kept
        × IsReversed (sink O.gives O.failures out.old out.new)
        (sink E.gives E.failures err.old err.new) kept result }
{
    let bundle = read_stream(alloc, limit, stream);
    write_reversed(alloc, &bundle, out, err)
}
