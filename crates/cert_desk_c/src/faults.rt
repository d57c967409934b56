//! Checks whether bytes are the encoding of a value, and reports the first error if they aren't.
ghost use Rattle.std.specs.Prelude.{◌≡◌, ◌≢◌, ◌⊎◌, Err};
ghost use Rattle.cert_tool_describe.specs.Oid.Bound.{Bound};
ghost use Rattle.cert_tool_describe.specs.Der.ErrorTypes.ErrorKind.{ErrorKind};
ghost use Rattle.cert_tool_describe.specs.Der.Grammar.{read_whole};
ghost use Rattle.cert_tool_describe.specs.Der.Shapes.{Spells};
ghost use Rattle.cert_desk_listing.specs.DeskIo.declared.exit_status.ExitStatus.TheVariants.{Done};
ghost use Rattle.cert_desk_listing.specs.DeskIo.declared.exit_status.ExitStatus.TheVariants.{Faulty};
ghost use Rattle.cert_desk_listing.specs.DeskIo.declared.exit_status.ExitStatus.TheVariants.{Memory};
ghost use Rattle.cert_desk_listing.specs.DeskIo.Statuses.{code_of};
ghost use Rattle.cert_tool_describe.specs.CertCertificates.Certificates.{PlainCertificate};
ghost use Rattle.cert_tool_describe.specs.CertCertificates.Certificates.{raw_certificate};
ghost use Rattle.cert_tool_describe.specs.CertLists.ListGrammar.{cert_req};
ghost use Rattle.cert_desk_listing.specs.Parts.{PlainList, PlainRequest, raw_certificate_list};
ghost use Rattle.cert_desk_c.specs.FaultNumbers.{IsTold, fault_number};
ghost use Rattle.cert_desk_c.specs.Values.{IsNoCertificate, IsNoList, IsNoRequest};

use cert_desk_answers::desk_rules::code;
use cert_desk_listing::desk_io::ExitStatus;
use cert_tool_describe::cert_certificates::CertificateInner;
use cert_tool_describe::cert_lists::{CertReq, CertificateList};
use cert_tool_describe::cert_parts::Raw;
use cert_tool_describe::der::making::is_out_of_memory;
use cert_tool_describe::der::{Error, ErrorKind};
use std::alloc::Global;

/// The first error of decoding.
#[repr(C)]
pub struct WdFault {
    /// The number of its kind.
    pub kind: u32,
    /// The index of the byte at which it was found, or 2^64 - 1 if that isn't known.
    pub octet: u64,
}

// Returns the number of a kind of error.
fn fault_number(kind: ErrorKind) -> u32
    ensures { result ≡ fault_number kind }
{
    match kind {
        ErrorKind::DateTime => 1,
        ErrorKind::EncodingRules => 2,
        ErrorKind::Failed => 3,
        ErrorKind::Incomplete => 4,
        ErrorKind::IndefiniteLength => 5,
        ErrorKind::Length { .. } => 6,
        ErrorKind::NestingDepth => 7,
        ErrorKind::Noncanonical { .. } => 8,
        ErrorKind::OidMalformed => 9,
        ErrorKind::OidUnknown => 10,
        ErrorKind::OutOfMemory => 11,
        ErrorKind::Overflow => 12,
        ErrorKind::Overlength => 13,
        ErrorKind::Reader => 14,
        ErrorKind::SetDuplicate => 15,
        ErrorKind::SetOrdering => 16,
        ErrorKind::TagModeUnknown => 17,
        ErrorKind::TagNumberInvalid => 18,
        ErrorKind::TagUnexpected => 19,
        ErrorKind::TagUnknown => 20,
        ErrorKind::TrailingData => 21,
        ErrorKind::Utf8 => 22,
        ErrorKind::Value { .. } => 23,
    }
}

// Stores an error, unless memory ran out, and returns the status.
fn tell(error: Error, fault: &mut WdFault) -> u32
    ensures { IsTold error.kind fault.old fault.new result }
{
    if is_out_of_memory(&error) {
        return code(ExitStatus::Memory);
    }
    fault.kind = fault_number(error.kind);
    fault.octet = match error.position {
        Some(place) => u64::from(place.value),
        None => u64::MAX,
    };
    code(ExitStatus::Faulty)
}

/// Checks whether all the bytes are the encoding of a certificate (RFC 5280 4.1). Returns 0 if they
/// are, 2 with the first error if they aren't, or 6 if an allocation fails.
#[unsafe(no_mangle)]
pub extern "C" fn wd_is_certificate(alloc: Global, octets: &[u8], fault: &mut WdFault) -> u32
    ensures spelled { result ≡ code_of Done
        → (c : PlainCertificate) × Spells (raw_certificate Bound) c octets.now }
    ensures not_spelled { result ≡ code_of Faulty → IsNoCertificate octets.now }
    ensures fault { result ≡ code_of Faulty → (kind : ErrorKind)
        × (fault.new.kind ≡ fault_number kind)
        × (read_whole (raw_certificate Bound) octets.now ≡ Err kind) }
    ensures statuses { (result ≡ code_of Done) ⊎ ((result ≡ code_of Faulty)
        ⊎ (result ≡ code_of Memory)) }
    ensures untouched { result ≢ code_of Faulty → fault.new ≡ fault.old }
{
    let _certificate = match CertificateInner::<Raw>::from_der(alloc, octets) {
        Ok(certificate) => certificate,
        Err(error) => return tell(error, fault),
    };
    code(ExitStatus::Done)
}

/// Checks whether all the bytes are the encoding of a CRL (RFC 5280 5.1). Returns 0 if they are, 2
/// with the first error if they aren't, or 6 if an allocation fails.
#[unsafe(no_mangle)]
pub extern "C" fn wd_is_list(alloc: Global, octets: &[u8], fault: &mut WdFault) -> u32
    ensures spelled { result ≡ code_of Done
        → (l : PlainList) × Spells (raw_certificate_list Bound) l octets.now }
    ensures not_spelled { result ≡ code_of Faulty → IsNoList octets.now }
    ensures fault { result ≡ code_of Faulty → (kind : ErrorKind)
        × (fault.new.kind ≡ fault_number kind)
        × (read_whole (raw_certificate_list Bound) octets.now ≡ Err kind) }
    ensures statuses { (result ≡ code_of Done) ⊎ ((result ≡ code_of Faulty)
        ⊎ (result ≡ code_of Memory)) }
    ensures untouched { result ≢ code_of Faulty → fault.new ≡ fault.old }
{
    let _list = match CertificateList::<Raw>::from_der(alloc, octets) {
        Ok(list) => list,
        Err(error) => return tell(error, fault),
    };
    code(ExitStatus::Done)
}

/// Checks whether all the bytes are the encoding of a CSR (RFC 2986 4.2). Returns 0 if they are, 2
/// with the first error if they aren't, or 6 if an allocation fails.
#[unsafe(no_mangle)]
pub extern "C" fn wd_is_request(alloc: Global, octets: &[u8], fault: &mut WdFault) -> u32
    ensures spelled { result ≡ code_of Done
        → (r : PlainRequest) × Spells (cert_req Bound) r octets.now }
    ensures not_spelled { result ≡ code_of Faulty → IsNoRequest octets.now }
    ensures fault { result ≡ code_of Faulty → (kind : ErrorKind)
        × (fault.new.kind ≡ fault_number kind)
        × (read_whole (cert_req Bound) octets.now ≡ Err kind) }
    ensures statuses { (result ≡ code_of Done) ⊎ ((result ≡ code_of Faulty)
        ⊎ (result ≡ code_of Memory)) }
    ensures untouched { result ≢ code_of Faulty → fault.new ≡ fault.old }
{
    let _request = match CertReq::try_from_bytes(alloc, octets) {
        Ok(request) => request,
        Err(error) => return tell(error, fault),
    };
    code(ExitStatus::Done)
}
