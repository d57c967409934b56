//! The subject and the issuer of the end-entity certificate, which is the last one of a chain.

ghost use Rattle.std.specs.Prelude.{◌≡◌, ◌<◌, ◌++◌, length, IfOk, string_bytes};
ghost use Rattle.cert_tool_explain.specs.CertCertificates.Certificates.{issuer};
ghost use Rattle.cert_tool_explain.specs.CertCertificates.Views.{certificate_plain};
ghost use Rattle.cert_tool_explain.specs.CertNames.PlainTexts.{name_text};
ghost use Rattle.cert_tool.specs.JsonTexts.{escaped_text};
ghost use Rattle.cert_tool.specs.EndEntities.{end_entity_text, names_object, names_of_entry_at};
ghost use Rattle.cert_tool.specs.EndEntities.{trusted_text};

use crate::json_texts::escaped_text;
use crate::splitting::{name_text, subject_of};
use cert_tool_explain::cert_certificates::CertificateInner;
use cert_tool_explain::cert_parts::Raw;
use cert_tool_explain::desk_bundle::Bundle;
use std::alloc::{AllocError, Global};

// Returns the issuer of a certificate, escaped for a JSON string.
fn issuer_of(alloc: Global, certificate: &CertificateInner<Raw>) -> Result<String, AllocError>
    ensures { IfOk result (λ text. string_bytes text
        ≡ escaped_text (name_text (issuer (certificate_plain certificate.now)))) }
{
    let name = name_text(alloc, certificate.tbs_certificate().issuer())?;
    let text = escaped_text(alloc, name.as_str())?;
    Ok(text)
}

// Returns the member `endEntity` of a JSON object, with these names.
fn names_object(
    alloc: Global,
    place: usize,
    subject: &str,
    issuer: &str,
) -> Result<String, AllocError>
    ensures { IfOk result (λ text. string_bytes text
        ≡ names_object place subject.now issuer.now) }
{
    format!(in alloc;
        ",\"endEntity\":{{\"place\":{place},\"subject\":\"{subject}\",\"issuer\":\"{issuer}\"}}"
    )
}

// Returns the names of the certificate at this index, as they are printed after the number of
// calls.
fn names_of_entry_at(
    alloc: Global,
    bundle: &Bundle,
    place: usize,
    json: bool,
) -> Result<String, AllocError>
    requires { place < length bundle.now.certificates }
    ensures { IfOk result (λ text. string_bytes text
        ≡ names_of_entry_at json bundle.now.certificates place) }
{
    let entry = bundle.get(place).unwrap();
    let subject = subject_of(alloc, entry.certificate)?;
    if !json {
        return format!(in alloc; " \"{subject}\"");
    }
    let issuer = issuer_of(alloc, entry.certificate)?;
    names_object(alloc, place, subject.as_str(), issuer.as_str())
}

// Returns the names of the last certificate of a chain, as they are printed after the number of
// calls.
pub(crate) fn end_entity_text(
    alloc: Global,
    bundle: &Bundle,
    json: bool,
) -> Result<String, AllocError>
    ensures { IfOk result (λ text.
        string_bytes text ≡ end_entity_text json bundle.now.certificates) }
{
    if bundle.is_empty() {
        return Ok(String::new(alloc));
    }
    names_of_entry_at(alloc, bundle, bundle.len() - 1, json)
}

// Returns those names, and what a report has after them.
pub(crate) fn end_entity_with(
    alloc: Global,
    bundle: &Bundle,
    json: bool,
    behind: &str,
) -> Result<String, AllocError>
    ensures { IfOk result (λ text. string_bytes text
        ≡ end_entity_text json bundle.now.certificates ++ behind.now) }
{
    let whom = end_entity_text(alloc, bundle, json)?;
    let whom = whom.as_str();
    format!(in alloc; "{whom}{behind}")
}

// Returns the report on a trusted chain with these names of the end entity.
pub(crate) fn trusted_text(
    alloc: Global,
    whom: &str,
    calls: u64,
    json: bool,
) -> Result<String, AllocError>
    ensures { IfOk result (λ text. string_bytes text ≡ trusted_text json whom.now calls) }
{
    if json {
        format!(in alloc; "{{\"verdict\":\"trusted\",\"calls\":{calls}{whom}}}\n")
    } else {
        format!(in alloc; "trusted calls={calls}{whom}\n")
    }
}
