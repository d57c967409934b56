//! Checks whether a certificate is issued for a host.

ghost use Rattle.std.specs.Prelude.{◌≡◌, IfOk};
ghost use Rattle.std.specs.List.{list_any};
ghost use Rattle.x509_cert_anchors.specs.CertCertificates.Views.{certificate_plain};
ghost use Rattle.x509_cert_anchors.specs.CertGeneralNames.GeneralNameViews.{general_name_plain};
ghost use Rattle.x509_cert_anchors.specs.CertParts.Views.{extension_plain, extensions_plain};
ghost use Rattle.x509_cert_anchors.specs.Oid.Bound.{Bound};
ghost use Rattle.cert_desk_bundle.specs.Der.Grammar.{plain_list};
ghost use Rattle.cert_desk_rules.specs.Weighing.{meaning_of, other_names, subject_alt_name_in};
ghost use Rattle.cert_tool_limits.specs.Limits.{is_for_host, is_of_host, presents, presents_as};

use crate::key_uses::is_ce;
use cert_desk_bundle::cert_certificates::CertificateInner;
use cert_desk_bundle::cert_parts::{Extension, Raw};
use cert_desk_bundle::der::Error;
use cert_desk_bundle::der::making::{is_out_of_memory, read_whole};
use cert_desk_rules::extensions_of;
use cert_tool_hosts::Host;
use std::alloc::{AllocError, Global};
use x509_cert_extensions::cert_general_names::GeneralName;

// Returns whether a name is a dNSName or an iPAddress of a host.
fn is_of_host(host: &Host<'_>, name: &GeneralName) -> bool
    ensures { result ≡ is_of_host host.now (general_name_plain name.now) }
{
    match name {
        GeneralName::DnsName(name) => host.has_name(name.as_str()),
        GeneralName::IpAddress(octets) => host.has_address(octets.as_bytes()),
        _ => false,
    }
}

// Returns whether one of the names is that of the host.
fn is_among(host: &Host<'_>, names: &[GeneralName]) -> bool
    ensures { result ≡ list_any (is_of_host host.now) (plain_list general_name_plain names.now) }
{
    names.iter().any(|name| is_of_host(host, name))
}

// Returns whether the content of subjectAltName has a name of the host. Malformed content has none.
fn presents_as(alloc: Global, octets: &[u8], host: &Host<'_>) -> Result<bool, AllocError>
    ensures { IfOk result (λ b. b
        ≡ presents_as host.now (meaning_of other_names (subject_alt_name_in Bound octets.now))) }
{
    let read: Result<Vec<GeneralName>, Error> = read_whole(alloc, octets);
    match read {
        Ok(names) => Ok(is_among(host, names.as_slice())),
        Err(error) => {
            if is_out_of_memory(&error) {
                return Err(AllocError);
            }
            Ok(false)
        }
    }
}

// Returns whether an extension is subjectAltName and has a name of the host.
fn presents(alloc: Global, extension: &Extension, host: &Host<'_>) -> Result<bool, AllocError>
    ensures { IfOk result (λ b. b ≡ presents host.now (extension_plain extension.now)) }
{
    if !is_ce(extension, 17) {
        return Ok(false);
    }
    let presents = presents_as(alloc, extension.extn_value.as_bytes(), host)?;
    Ok(presents)
}

// Returns whether one of the extensions is subjectAltName and has a name of the host.
fn some_presents(
    alloc: Global,
    extensions: &[Extension],
    host: &Host<'_>,
) -> Result<bool, AllocError>
    ensures { IfOk result (λ b. b ≡ list_any (presents host.now)
        (extensions_plain extensions.now)) }
{
    for extension in extensions {
        if presents(alloc, extension, host)? {
            return Ok(true);
        }
    }
    Ok(false)
}

/// Returns whether a certificate is issued for a host: its subjectAltName has a dNSName or an
/// iPAddress of the host (RFC 9525 6.3, 6.4). The common name isn't compared.
///
/// # Errors
///
/// - `AllocError`: memory runs out.
pub fn is_for_host(
    alloc: Global,
    certificate: &CertificateInner<Raw>,
    host: &Host<'_>,
) -> Result<bool, AllocError>
    ensures { IfOk result (λ b. b ≡ is_for_host host.now (certificate_plain certificate.now)) }
{
    let is_one = some_presents(alloc, extensions_of(certificate), host)?;
    Ok(is_one)
}
