//! Checks whether the key usage of the end entity is consistent with a key purpose.

ghost use Rattle.std.specs.Prelude.{◌≡◌, ◌<◌};
ghost use Rattle.std.specs.List.{list_all};
ghost use Rattle.x509_cert_anchors.specs.CertCertificates.Views.{certificate_plain};
ghost use Rattle.x509_cert_anchors.specs.CertParts.Views.{extension_plain, extensions_plain};
ghost use Rattle.cert_desk_bundle.specs.Oid.Comparing.{owned_eq};
ghost use Rattle.cert_desk_rules.specs.Weighing.{is_ce, key_usage_in, meaning_of, uses};
ghost use Rattle.cert_tool_limits.specs.Limits.{allows, allows_as, allows_purpose, id_kp};
ghost use Rattle.cert_tool_limits.specs.Limits.{is_consistent, needs_use};

use cert_desk_bundle::cert_certificates::CertificateInner;
use cert_desk_bundle::cert_parts::{Extension, Raw};
use cert_desk_bundle::der::making::leaf_from_der;
use cert_desk_bundle::oid::ObjectIdentifier;
use cert_desk_bundle::types::FlagSet;
use cert_desk_rules::extensions_of;
use std::alloc::Global;
use x509_cert_extensions::{KeyUsage, KeyUsages};

// Returns whether an extension is id-ce `arc` (RFC 5280 4.2.1).
pub(crate) fn is_ce(extension: &Extension, arc: u8) -> bool
    requires { arc < 128 }
    ensures { result ≡ is_ce arc (extension_plain extension.now) }
{
    extension.extn_id.as_bytes() == [0x55, 0x1d, arc].as_slice()
}

// Returns whether a key purpose is id-kp `number` (RFC 5280 4.2.1.12).
fn is_kp(purpose: &ObjectIdentifier<39>, number: u8) -> bool
    requires { number < 128 }
    ensures { result ≡ owned_eq purpose.now (id_kp number) }
{
    purpose.as_bytes() == [0x2b, 6, 1, 5, 5, 7, 3, number].as_slice()
}

// Returns whether the bits of keyUsage are consistent with a key purpose.
fn is_consistent(purpose: &ObjectIdentifier<39>, uses: KeyUsage) -> bool
    ensures { result ≡ is_consistent purpose.now uses.0.flags.0 }
{
    if is_kp(purpose, 1) {
        return uses.digital_signature() || uses.key_encipherment() || uses.key_agreement();
    }
    if is_kp(purpose, 2) {
        return uses.digital_signature() || uses.key_agreement();
    }
    if is_kp(purpose, 3) {
        return uses.digital_signature();
    }
    if is_kp(purpose, 4) {
        return uses.digital_signature()
            || uses.non_repudiation()
            || uses.key_encipherment()
            || uses.key_agreement();
    }
    if is_kp(purpose, 8) || is_kp(purpose, 9) {
        return uses.digital_signature() || uses.non_repudiation();
    }
    true
}

/// Returns whether RFC 5280 4.2.1.12 lists bits of keyUsage for a key purpose. If it lists none,
/// any bits are consistent with the purpose.
pub fn needs_use(purpose: &ObjectIdentifier<39>) -> bool
    ensures { result ≡ needs_use purpose.now }
{
    !is_consistent(purpose, KeyUsage(FlagSet::empty()))
}

// Returns whether the content of keyUsage is consistent with a key purpose.
fn allows_as(alloc: Global, octets: &[u8], purpose: &ObjectIdentifier<39>) -> bool
    ensures { result ≡ allows_as purpose.now (meaning_of uses (key_usage_in octets.now)) }
{
    match leaf_from_der::<FlagSet<KeyUsages>>(alloc, octets) {
        Ok(uses) => is_consistent(purpose, KeyUsage(uses)),
        Err(_) => false,
    }
}

// Returns whether an extension isn't keyUsage, or is consistent with a key purpose.
fn allows(alloc: Global, extension: &Extension, purpose: &ObjectIdentifier<39>) -> bool
    ensures { result ≡ allows purpose.now (extension_plain extension.now) }
{
    !is_ce(extension, 15) || allows_as(alloc, extension.extn_value.as_bytes(), purpose)
}

// Returns whether each extension that is keyUsage is consistent with a key purpose.
fn all_allow(alloc: Global, extensions: &[Extension], purpose: &ObjectIdentifier<39>) -> bool
    ensures { result ≡ list_all (allows purpose.now) (extensions_plain extensions.now) }
{
    extensions
        .iter()
        .all(|extension| allows(alloc, extension, purpose))
}

/// Returns whether a certificate's keyUsage, if it has one, is consistent with a key purpose: it
/// has one of the bits that RFC 5280 4.2.1.12 lists for the purpose. If the RFC doesn't define the
/// purpose, any bits are consistent.
pub fn allows_purpose(
    alloc: Global,
    certificate: &CertificateInner<Raw>,
    purpose: &ObjectIdentifier<39>,
) -> bool
    ensures { result ≡ allows_purpose purpose.now (certificate_plain certificate.now) }
{
    all_allow(alloc, extensions_of(certificate), purpose)
}
