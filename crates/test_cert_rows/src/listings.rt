//! Listings of a value, by a run of `show` and by a call.

use crate::refusal::Refusal;
use crate::schedules::{Devices, Schedule};
use crate::words::{kind_of, octets_of, read, told};
use cert_desk::{
    CertReq, CertificateInner, CertificateList, FileKind, MemoryOutput, Raw, ShowError, run_show,
    show_certificate, show_list, show_request,
};
use std::alloc::Global;
use std::str;

/// Returns the output of a run, with bytes in place of the file. Its input and two outputs move
/// bytes by these schedules.
pub fn run(
    alloc: Global,
    schedules: &str,
    kind: FileKind,
    octets: &[u8],
) -> Result<String, Refusal> {
    let Devices {
        input,
        output,
        errors,
    } = Devices::parse(alloc, schedules)?;
    let mut out_room = [0; 2048];
    let mut err_room = [0; 64];
    let mut out = output.output(&mut out_room);
    let mut err = errors.output(&mut err_room);
    let mut input = input.input(octets);
    let status = run_show(alloc, &mut input, &mut out, &mut err, kind);
    told(alloc, status.code(), out.written(), err.written())
}

/// Returns the output of a run on bytes of a kind.
pub fn answer(alloc: Global, schedules: &str, rest: &str) -> Result<String, Refusal> {
    let (kind, octets) = rest.split_once(' ').ok_or(Refusal::Unread)?;
    let kind = kind_of(kind)?;
    let octets = octets_of(alloc, octets)?;
    run(alloc, schedules, kind, octets.as_slice())
}

/// Returns the result of the call for a value, and the content of its output, which moves bytes by
/// this schedule.
pub fn answer_of_call(alloc: Global, schedule: &str, rest: &str) -> Result<String, Refusal> {
    let schedule = Schedule::parse(alloc, schedule)?;
    let (kind, octets) = rest.split_once(' ').ok_or(Refusal::Unread)?;
    let kind = kind_of(kind)?;
    let octets = octets_of(alloc, octets)?;
    call_told(alloc, &schedule, kind, octets.as_slice())
}

/// Returns the result of the call for a value, and the content of its output.
fn call_told(
    alloc: Global,
    schedule: &Schedule,
    kind: FileKind,
    octets: &[u8],
) -> Result<String, Refusal> {
    let mut room = [0; 2048];
    let mut output = schedule.output(&mut room);
    let answer = call(alloc, kind, octets, &mut output)?;
    let told = str::from_utf8(output.written())?;
    match answer {
        Ok(()) => Ok(format!(in alloc; "ok {told:?}")?),
        Err(error) => Ok(format!(in alloc; "{error} {told:?}")?),
    }
}

// Writes the listing of the value of this kind that the bytes encode.
fn call(
    alloc: Global,
    kind: FileKind,
    octets: &[u8],
    output: &mut MemoryOutput<'_>,
) -> Result<Result<(), ShowError>, Refusal> {
    match kind {
        FileKind::Certificate => call_for_certificate(alloc, octets, output),
        FileKind::List => call_for_list(alloc, octets, output),
        FileKind::Request => call_for_request(alloc, octets, output),
    }
}

// Writes the listing of a certificate.
fn call_for_certificate(
    alloc: Global,
    octets: &[u8],
    output: &mut MemoryOutput<'_>,
) -> Result<Result<(), ShowError>, Refusal> {
    let certificate = CertificateInner::<Raw>::from_der(alloc, octets)?;
    Ok(show_certificate(alloc, &certificate, output))
}

// Writes the listing of a CRL.
fn call_for_list(
    alloc: Global,
    octets: &[u8],
    output: &mut MemoryOutput<'_>,
) -> Result<Result<(), ShowError>, Refusal> {
    let list = read::<CertificateList<Raw>>(alloc, octets)?;
    Ok(show_list(alloc, &list, output))
}

// Writes the listing of a CSR.
fn call_for_request(
    alloc: Global,
    octets: &[u8],
    output: &mut MemoryOutput<'_>,
) -> Result<Result<(), ShowError>, Refusal> {
    let request = CertReq::try_from_bytes(alloc, octets)?;
    Ok(show_request(alloc, &request, output))
}
