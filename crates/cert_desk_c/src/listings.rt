//! Listings of certificates, CRLs and CSRs.
ghost use Rattle.std.specs.Prelude.{◌≡◌, ◌≢◌, take, IfOk};
ghost use Rattle.cert_desk_listing.specs.DeskIo.declared.exit_status.ExitStatus.TheVariants.{Done};
ghost use Rattle.cert_desk_listing.specs.DeskIo.declared.exit_status.ExitStatus.TheVariants.{Faulty};
ghost use Rattle.cert_desk_listing.specs.DeskIo.declared.exit_status.ExitStatus.TheVariants.{Device};
ghost use Rattle.cert_desk_listing.specs.DeskIo.Statuses.{code_of};
ghost use Rattle.cert_desk_answers.specs.DeskRules.Returned.{IsExactWithMemory, IsFaultyStatus};
ghost use Rattle.cert_desk_answers.specs.DeskRules.Returned.{IsTextStatus};
ghost use Rattle.cert_desk_answers.specs.DeskRules.Rooms.{ChangesFront, IsUnsized, Wants};
ghost use Rattle.cert_desk_listing.specs.declared.file_kind.FileKind.TheVariants as kinds;
ghost use Rattle.cert_desk_listing.specs.Listing.{certificate_lines, list_lines, request_lines};
ghost use Rattle.cert_desk_listing.specs.Shown.{IsListing};
ghost use Rattle.cert_tool_describe.specs.CertCertificates.Views.{certificate_plain};
ghost use Rattle.cert_tool_describe.specs.CertLists.ListViews.{certificate_list_plain};
ghost use Rattle.cert_tool_describe.specs.CertLists.ListViews.{cert_req_plain};
ghost use Rattle.cert_desk_c.specs.Values.{IsNoCertificate, IsNoList, IsNoRequest};

use crate::reading::{certificate_of, list_of, request_of};
use cert_desk_answers::desk_rules::{code, give};
use cert_desk_listing::desk_io::{ExitStatus, ToWrite};
use cert_desk_listing::{show_certificate, show_list, show_request};
use cert_tool_describe::cert_certificates::CertificateInner;
use cert_tool_describe::cert_lists::{CertReq, CertificateList};
use cert_tool_describe::cert_parts::Raw;
use std::alloc::{AllocError, Global};

// Returns the listing of a certificate.
fn certificate_listing(
    alloc: Global,
    certificate: &CertificateInner<Raw>,
) -> Result<Vec<u8>, AllocError>
    ensures { IfOk result
        (λ text. text.items ≡ certificate_lines (certificate_plain certificate.now)) }
{
    let mut output = ToWrite::new(Vec::new(alloc));
    if show_certificate(alloc, certificate, &mut output).is_err() {
        return Err(AllocError);
    }
    Ok(output.into_inner())
}

// Returns the listing of a CRL.
fn list_listing(alloc: Global, list: &CertificateList<Raw>) -> Result<Vec<u8>, AllocError>
    ensures { IfOk result
        (λ text. text.items ≡ list_lines (certificate_list_plain list.now)) }
{
    let mut output = ToWrite::new(Vec::new(alloc));
    if show_list(alloc, list, &mut output).is_err() {
        return Err(AllocError);
    }
    Ok(output.into_inner())
}

// Returns the listing of a CSR.
fn request_listing(alloc: Global, request: &CertReq) -> Result<Vec<u8>, AllocError>
    ensures { IfOk result
        (λ text. text.items ≡ request_lines (cert_req_plain request.now)) }
{
    let mut output = ToWrite::new(Vec::new(alloc));
    if show_request(alloc, request, &mut output).is_err() {
        return Err(AllocError);
    }
    Ok(output.into_inner())
}

/// Writes the listing of a certificate to `out`, as `cert_desk show certificate` prints it. Returns
/// 0, 2 if the bytes aren't a certificate, 5 if the buffer is too small, or 6 if an allocation
/// fails.
#[unsafe(no_mangle)]
pub extern "C" fn wd_show_certificate(
    alloc: Global,
    octets: &[u8],
    out: &mut [u8],
    size: &mut usize,
) -> u32
    ensures statuses { IsExactWithMemory (IsTextStatus (IsListing kinds.Certificate octets.now)
        (IsFaultyStatus (IsNoCertificate octets.now)) out.old) result }
    ensures done { result ≡ code_of Done
        → IsListing kinds.Certificate octets.now (take size.new out.new) }
    ensures no_room { result ≡ code_of Device
        → Wants (IsListing kinds.Certificate octets.now) out.old size.new }
    ensures not_spelled { result ≡ code_of Faulty → IsNoCertificate octets.now }
    ensures front { result ≡ code_of Done → ChangesFront size.new out.old out.new }
    ensures untouched { result ≢ code_of Done → out.new ≡ out.old }
    ensures no_size { IsUnsized result size.new }
{
    *size = 0;
    let certificate = match certificate_of(alloc, octets) {
        Ok(certificate) => certificate,
        Err(status) => return code(status),
    };
    let Ok(text) = certificate_listing(alloc, &certificate) else {
        return code(ExitStatus::Memory);
    };
    give(text.as_slice(), out, size)
}

/// Writes the listing of a CRL to `out`, as `cert_desk show list` prints it. The statuses are those
/// of `wd_show_certificate`.
#[unsafe(no_mangle)]
pub extern "C" fn wd_show_list(
    alloc: Global,
    octets: &[u8],
    out: &mut [u8],
    size: &mut usize,
) -> u32
    ensures statuses { IsExactWithMemory (IsTextStatus (IsListing kinds.List octets.now)
        (IsFaultyStatus (IsNoList octets.now)) out.old) result }
    ensures done { result ≡ code_of Done
        → IsListing kinds.List octets.now (take size.new out.new) }
    ensures no_room { result ≡ code_of Device
        → Wants (IsListing kinds.List octets.now) out.old size.new }
    ensures not_spelled { result ≡ code_of Faulty → IsNoList octets.now }
    ensures front { result ≡ code_of Done → ChangesFront size.new out.old out.new }
    ensures untouched { result ≢ code_of Done → out.new ≡ out.old }
    ensures no_size { IsUnsized result size.new }
{
    *size = 0;
    let list = match list_of(alloc, octets) {
        Ok(list) => list,
        Err(status) => return code(status),
    };
    let Ok(text) = list_listing(alloc, &list) else {
        return code(ExitStatus::Memory);
    };
    give(text.as_slice(), out, size)
}

/// Writes the listing of a CSR to `out`, as `cert_desk show request` prints it. The statuses are
/// those of `wd_show_certificate`.
#[unsafe(no_mangle)]
pub extern "C" fn wd_show_request(
    alloc: Global,
    octets: &[u8],
    out: &mut [u8],
    size: &mut usize,
) -> u32
    ensures statuses { IsExactWithMemory (IsTextStatus (IsListing kinds.Request octets.now)
        (IsFaultyStatus (IsNoRequest octets.now)) out.old) result }
    ensures done { result ≡ code_of Done
        → IsListing kinds.Request octets.now (take size.new out.new) }
    ensures no_room { result ≡ code_of Device
        → Wants (IsListing kinds.Request octets.now) out.old size.new }
    ensures not_spelled { result ≡ code_of Faulty → IsNoRequest octets.now }
    ensures front { result ≡ code_of Done → ChangesFront size.new out.old out.new }
    ensures untouched { result ≢ code_of Done → out.new ≡ out.old }
    ensures no_size { IsUnsized result size.new }
{
    *size = 0;
    let request = match request_of(alloc, octets) {
        Ok(request) => request,
        Err(status) => return code(status),
    };
    let Ok(text) = request_listing(alloc, &request) else {
        return code(ExitStatus::Memory);
    };
    give(text.as_slice(), out, size)
}
