//! Reports on files, by their kind. Each type has a function of its own, because the proof of a
//! function that names several types takes long.

ghost use Rattle.std.specs.Prelude.{IfOk};
ghost use Rattle.cert_tool_explain.specs.Reports.{IsReportOn};
ghost use Rattle.cert_tool.specs.Kinds.{IsOfKind};

use crate::kinds::Kind;
use cert_tool_explain::cert_certificates::CertificateInner;
use cert_tool_explain::cert_lists::{CertReq, CertificateList};
use cert_tool_explain::cert_parts::Raw;
use cert_tool_explain::{Contents, Report, WithoutRemarks, report_on};
use cert_tool_messages::{ContentInfo, OcspRequest, OcspResponse, PrivateKey, TimeStampResp};
use std::alloc::{AllocError, Global};

// Returns the report on a file that should be a certificate.
fn report_on_certificate(
    alloc: Global,
    octets: &[u8],
    contents: Contents,
    is_json: bool,
) -> Result<Report, AllocError>
    ensures { IfOk result (IsReportOn (IsOfKind Kind.Certificate octets.now)) }
{
    let kind = Kind::Certificate.named(octets);
    report_on::<CertificateInner<Raw>>(alloc, octets, kind, contents, is_json)
}

// Returns the report on a file that should be a CRL.
fn report_on_list(
    alloc: Global,
    octets: &[u8],
    contents: Contents,
    is_json: bool,
) -> Result<Report, AllocError>
    ensures { IfOk result (IsReportOn (IsOfKind Kind.List octets.now)) }
{
    let kind = Kind::List.named(octets);
    report_on::<CertificateList<Raw>>(alloc, octets, kind, contents, is_json)
}

// Returns the report on a file that should be a CSR.
fn report_on_request(
    alloc: Global,
    octets: &[u8],
    contents: Contents,
    is_json: bool,
) -> Result<Report, AllocError>
    ensures { IfOk result (IsReportOn (IsOfKind Kind.Request octets.now)) }
{
    let kind = Kind::Request.named(octets);
    report_on::<WithoutRemarks<CertReq>>(alloc, octets, kind, contents, is_json)
}

// Returns the report on a file that should be an OCSP request.
fn report_on_ocsp_request(
    alloc: Global,
    octets: &[u8],
    contents: Contents,
    is_json: bool,
) -> Result<Report, AllocError>
    ensures { IfOk result (IsReportOn (IsOfKind Kind.OcspRequest octets.now)) }
{
    let kind = Kind::OcspRequest.named(octets);
    report_on::<WithoutRemarks<OcspRequest>>(alloc, octets, kind, contents, is_json)
}

// Returns the report on a file that should be an OCSP response.
fn report_on_ocsp_response(
    alloc: Global,
    octets: &[u8],
    contents: Contents,
    is_json: bool,
) -> Result<Report, AllocError>
    ensures { IfOk result (IsReportOn (IsOfKind Kind.OcspResponse octets.now)) }
{
    let kind = Kind::OcspResponse.named(octets);
    report_on::<WithoutRemarks<OcspResponse>>(alloc, octets, kind, contents, is_json)
}

// Returns the report on a file that should be a CMS message.
fn report_on_message(
    alloc: Global,
    octets: &[u8],
    contents: Contents,
    is_json: bool,
) -> Result<Report, AllocError>
    ensures { IfOk result (IsReportOn (IsOfKind Kind.Message octets.now)) }
{
    let kind = Kind::Message.named(octets);
    report_on::<WithoutRemarks<ContentInfo>>(alloc, octets, kind, contents, is_json)
}

// Returns the report on a file that should be a private key.
fn report_on_key(
    alloc: Global,
    octets: &[u8],
    contents: Contents,
    is_json: bool,
) -> Result<Report, AllocError>
    ensures { IfOk result (IsReportOn (IsOfKind Kind.Key octets.now)) }
{
    let kind = Kind::Key.named(octets);
    report_on::<WithoutRemarks<PrivateKey>>(alloc, octets, kind, contents, is_json)
}

// Returns the report on a file that should be a timestamp response.
fn report_on_timestamp(
    alloc: Global,
    octets: &[u8],
    contents: Contents,
    is_json: bool,
) -> Result<Report, AllocError>
    ensures { IfOk result (IsReportOn (IsOfKind Kind.Timestamp octets.now)) }
{
    let kind = Kind::Timestamp.named(octets);
    report_on::<WithoutRemarks<TimeStampResp>>(alloc, octets, kind, contents, is_json)
}

/// Returns the report on a file that should be of this kind. If it isn't, the report has the error,
/// its offset, and the enclosing fields, the outermost first.
///
/// # Errors
///
/// Fails if an allocation fails.
pub(crate) fn report_on_kind(
    alloc: Global,
    kind: Kind,
    octets: &[u8],
    contents: Contents,
    is_json: bool,
) -> Result<Report, AllocError>
    ensures { IfOk result (IsReportOn (IsOfKind kind octets.now)) }
{
    match kind {
        Kind::Certificate => report_on_certificate(alloc, octets, contents, is_json),
        Kind::List => report_on_list(alloc, octets, contents, is_json),
        Kind::Request => report_on_request(alloc, octets, contents, is_json),
        Kind::OcspRequest => report_on_ocsp_request(alloc, octets, contents, is_json),
        Kind::OcspResponse => report_on_ocsp_response(alloc, octets, contents, is_json),
        Kind::Message => report_on_message(alloc, octets, contents, is_json),
        Kind::Key => report_on_key(alloc, octets, contents, is_json),
        Kind::Timestamp => report_on_timestamp(alloc, octets, contents, is_json),
    }
}
