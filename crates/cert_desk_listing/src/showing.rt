//! A complete run of `show`, over any input and outputs.
ghost use Rattle.cert_desk_io.specs.Devices.{sink, source};
ghost use Rattle.cert_desk_listing.specs.declared.finding.Finding.{Finding};
ghost use Rattle.cert_desk_listing.specs.declared.file_kind.FileKind.TheVariants as kinds;
ghost use Rattle.cert_desk_listing.specs.Shown.{IsRead, IsFinding, IsTold};

use crate::file_kind::FileKind;
use crate::finding::Finding;
use crate::listing::{of_certificate, of_list, of_request};
use cert_desk_io::{
    ExitStatus, Input, Output, ReadAllError, answer, complain, read_all, tell_device, tell_memory,
};
use std::alloc::Global;
use x509_cert_certificates::CertificateInner;
use x509_cert_lists::cert_parts::Raw;
use x509_cert_lists::der::making::is_out_of_memory;
use x509_cert_lists::{CertReq, CertificateList};

// Decodes a certificate from these bytes and lists it.
fn certificate_in(alloc: Global, octets: &[u8]) -> Finding
    ensures { IsRead kinds.Certificate octets.now result }
{
    match CertificateInner::<Raw>::from_der(alloc, octets) {
        Ok(certificate) => match of_certificate(alloc, &certificate) {
            Ok(lines) => Finding::Listed(lines),
            Err(_) => Finding::OutOfMemory,
        },
        Err(error) => {
            if is_out_of_memory(&error) {
                return Finding::OutOfMemory;
            }
            Finding::Malformed
        }
    }
}

// Decodes a CRL from these bytes and lists it.
fn list_in(alloc: Global, octets: &[u8]) -> Finding
    ensures { IsRead kinds.List octets.now result }
{
    match CertificateList::<Raw>::from_der(alloc, octets) {
        Ok(list) => match of_list(alloc, &list) {
            Ok(lines) => Finding::Listed(lines),
            Err(_) => Finding::OutOfMemory,
        },
        Err(error) => {
            if is_out_of_memory(&error) {
                return Finding::OutOfMemory;
            }
            Finding::Malformed
        }
    }
}

// Decodes a CSR from these bytes and lists it.
fn request_in(alloc: Global, octets: &[u8]) -> Finding
    ensures { IsRead kinds.Request octets.now result }
{
    match CertReq::try_from_bytes(alloc, octets) {
        Ok(request) => match of_request(alloc, &request) {
            Ok(lines) => Finding::Listed(lines),
            Err(_) => Finding::OutOfMemory,
        },
        Err(error) => {
            if is_out_of_memory(&error) {
                return Finding::OutOfMemory;
            }
            Finding::Malformed
        }
    }
}

// Decodes a value of this kind from these bytes and lists it.
fn value_in(alloc: Global, kind: FileKind, octets: &[u8]) -> Finding
    ensures { IsRead kind octets.now result }
{
    match kind {
        FileKind::Certificate => certificate_in(alloc, octets),
        FileKind::List => list_in(alloc, octets),
        FileKind::Request => request_in(alloc, octets),
    }
}

// Reads the input and returns the result.
fn find<I: Input>(alloc: Global, input: &mut I, kind: FileKind) -> Finding
    ensures { IsFinding (source I.takes I.is_ended I.failures input.old input.new) kind result }
{
    match read_all(alloc, input, u32::MAX) {
        Ok(octets) => value_in(alloc, kind, octets.as_slice()),
        Err(ReadAllError::TooMuch) => Finding::Malformed,
        Err(ReadAllError::Device) => Finding::Device,
        Err(ReadAllError::OutOfMemory) => Finding::OutOfMemory,
    }
}

// Writes the result, and returns the exit status.
fn tell<O: Output, E: Output>(finding: &Finding, out: &mut O, err: &mut E) -> ExitStatus
    ensures { IsTold (sink O.gives O.failures out.old out.new)
        (sink E.gives E.failures err.old err.new) finding.now result }
{
    match finding {
        Finding::Listed(lines) => answer(out, err, lines.text.as_bytes(), ExitStatus::Done),
        Finding::Malformed => complain(err, b"malformed\n", ExitStatus::Faulty),
        Finding::Device => tell_device(err),
        Finding::OutOfMemory => tell_memory(err),
    }
}

/// Writes the listing of the value that an input contains, and returns the exit status.
///
/// The input is read to its end. It has to be the encoding of a value of this kind, with the
/// profile `Raw`. An input with more than 2^32 - 1 bytes is malformed, and only one byte more than
/// these is read.
///
/// The listing goes to `out`. The words `malformed`, `device` and `memory` go to `err`. If a text
/// can't be written, the run tries once to write `device` to `err`, and the status is
/// `ExitStatus::Device`.
pub fn run_show<I: Input, O: Output, E: Output>(
    alloc: Global,
    input: &mut I,
    out: &mut O,
    err: &mut E,
    kind: FileKind,
) -> ExitStatus
    // The text and the status report the result for the bytes that were read.
    ensures { (finding : Finding)
        × IsFinding (source I.takes I.is_ended I.failures input.old input.new) kind finding
        × IsTold (sink O.gives O.failures out.old out.new)
        (sink E.gives E.failures err.old err.new) finding result }
{
    let finding = find(alloc, input, kind);
    tell(&finding, out, err)
}
