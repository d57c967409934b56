//! Writes listings to outputs.
ghost use Rattle.std.specs.Prelude.{◌≡◌, IfOk, IfErr, OnOk, string_bytes};
ghost use Rattle.cert_desk_io.specs.Devices.{IsWritten, sink};
ghost use Rattle.x509_cert_certificates.specs.Views.{certificate_plain};
ghost use Rattle.x509_cert_lists.specs.ListViews.{certificate_list_plain, cert_req_plain};
ghost use Rattle.cert_desk_listing.specs.Listing.{certificate_lines, list_lines, request_lines};
ghost use Rattle.cert_desk_listing.specs.Shown.{IsUnshown};

use crate::lines::Lines;
use crate::show_error::ShowError;
use cert_desk_io::{Output, write_all};
use std::alloc::{AllocError, Global};
use x509_cert_certificates::CertificateInner;
use x509_cert_lists::cert_parts::Profile;
use x509_cert_lists::{CertReq, CertificateList};

/// Returns the lines of a certificate.
pub(crate) fn of_certificate<P: Profile>(
    alloc: Global,
    certificate: &CertificateInner<P>,
) -> Result<Lines, AllocError>
    ensures { IfOk result
        (λ lines. string_bytes lines.text ≡ certificate_lines (certificate_plain certificate.now)) }
{
    let signed = certificate.tbs_certificate();
    let validity = signed.validity();
    let mut lines = Lines::new(alloc, "certificate")?;
    lines.serial(signed.serial_number())?;
    lines.name("issuer", signed.issuer())?;
    lines.date("not-before", &validity.not_before)?;
    lines.date("not-after", &validity.not_after)?;
    lines.name("subject", signed.subject())?;
    let Some(extensions) = signed.extensions() else {
        return Ok(lines);
    };
    lines.extensions(extensions.as_slice())?;
    Ok(lines)
}

/// Returns the lines of a CRL.
pub(crate) fn of_list<P: Profile>(
    alloc: Global,
    list: &CertificateList<P>,
) -> Result<Lines, AllocError>
    ensures { IfOk result
        (λ lines. string_bytes lines.text ≡ list_lines (certificate_list_plain list.now)) }
{
    let signed = &list.tbs_cert_list;
    let mut lines = Lines::new(alloc, "list")?;
    lines.name("issuer", &signed.issuer)?;
    lines.date("this-update", &signed.this_update)?;
    lines.next_update(&signed.next_update)?;
    lines.any_entries(&signed.revoked_certificates)?;
    lines.any_extensions(&signed.crl_extensions)?;
    Ok(lines)
}

/// Returns the lines of a CSR.
pub(crate) fn of_request(alloc: Global, request: &CertReq) -> Result<Lines, AllocError>
    ensures { IfOk result
        (λ lines. string_bytes lines.text ≡ request_lines (cert_req_plain request.now)) }
{
    let info = &request.info;
    let mut lines = Lines::new(alloc, "request")?;
    lines.name("subject", &info.subject)?;
    lines.attributes(alloc, info.attributes.values.as_slice())?;
    Ok(lines)
}

// Writes the lines to an output.
fn give<O: Output>(output: &mut O, lines: &Lines) -> Result<(), ShowError>
    ensures listed { OnOk result (IsWritten (sink O.gives O.failures output.old output.new)
        (string_bytes lines.now.text)) }
    ensures refused { IfErr result (IsUnshown (sink O.gives O.failures output.old output.new)
        (string_bytes lines.now.text)) }
{
    if write_all(output, lines.text.as_bytes()).is_err() {
        return Err(ShowError::Device);
    }
    Ok(())
}

/// Writes the listing of a certificate. Its lines are `certificate`, `serial`, `issuer`,
/// `not-before`, `not-after`, `subject`, and `extension` for each extension, with ` critical` at
/// the end if it is critical.
///
/// A space and a text follow each label but the first, and each line ends with LF. Names are
/// printed as in RFC 4514, serial numbers as their content bytes in base 16 with colons between
/// them, dates as `YYYY-MM-DDTHH:MM:SSZ`, and OIDs with dots.
///
/// # Errors
///
/// - `OutOfMemory`: memory runs out. Nothing was written.
/// - `Device`: a write failed.
pub fn show_certificate<P: Profile, O: Output>(
    alloc: Global,
    certificate: &CertificateInner<P>,
    output: &mut O,
) -> Result<(), ShowError>
    ensures listed { OnOk result (IsWritten (sink O.gives O.failures output.old output.new)
        (certificate_lines (certificate_plain certificate.now))) }
    ensures refused { IfErr result (IsUnshown (sink O.gives O.failures output.old output.new)
        (certificate_lines (certificate_plain certificate.now))) }
{
    let Ok(lines) = of_certificate(alloc, certificate) else {
        return Err(ShowError::OutOfMemory);
    };
    give(output, &lines)?;
    Ok(())
}

/// Writes the listing of a CRL. Its lines are `list`, `issuer`, `this-update`, `next-update` if it
/// is present, `revoked SERIAL DATE` for each entry, and the extensions of the CRL, as those of a
/// certificate.
///
/// # Errors
///
/// - `OutOfMemory`: memory runs out. Nothing was written.
/// - `Device`: a write failed.
pub fn show_list<P: Profile, O: Output>(
    alloc: Global,
    list: &CertificateList<P>,
    output: &mut O,
) -> Result<(), ShowError>
    ensures listed { OnOk result (IsWritten (sink O.gives O.failures output.old output.new)
        (list_lines (certificate_list_plain list.now))) }
    ensures refused { IfErr result (IsUnshown (sink O.gives O.failures output.old output.new)
        (list_lines (certificate_list_plain list.now))) }
{
    let Ok(lines) = of_list(alloc, list) else {
        return Err(ShowError::OutOfMemory);
    };
    give(output, &lines)?;
    Ok(())
}

/// Writes the listing of a CSR. Its lines are `request`, `subject`, and `attribute` for each
/// attribute. After an extensionRequest attribute (1.2.840.113549.1.9.14, RFC 2985 5.4.2) come the
/// extensions of each of its values that can be decoded, as those of a certificate.
///
/// # Errors
///
/// - `OutOfMemory`: memory runs out. Nothing was written.
/// - `Device`: a write failed.
pub fn show_request<O: Output>(
    alloc: Global,
    request: &CertReq,
    output: &mut O,
) -> Result<(), ShowError>
    ensures listed { OnOk result (IsWritten (sink O.gives O.failures output.old output.new)
        (request_lines (cert_req_plain request.now))) }
    ensures refused { IfErr result (IsUnshown (sink O.gives O.failures output.old output.new)
        (request_lines (cert_req_plain request.now))) }
{
    let Ok(lines) = of_request(alloc, request) else {
        return Err(ShowError::OutOfMemory);
    };
    give(output, &lines)?;
    Ok(())
}
