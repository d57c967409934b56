//! Building certificates. The fields of a certificate are private, so that it can't change once it
//! exists. The functions here prepare a TBSCertificate for a profile, complete it, and add the
//! signature.

ghost use Rattle.std.specs.Prelude.{◌≡◌, pos};
ghost use Rattle.der_core.specs.Grammar.{plain_option};
ghost use Rattle.x509_cert_names.specs.Views.{name_plain};
ghost use Rattle.x509_cert_parts.specs.Views.{algorithm_plain, extensions_plain, key_plain};
ghost use Rattle.x509_cert_parts.specs.Views.{validity_plain, version_number};
ghost use Rattle.x509_cert_certificates.specs.Certificates.{tbs_inner_algorithm};
ghost use Rattle.x509_cert_certificates.specs.Assembling.{bare_part, extensions_if_any};
ghost use Rattle.x509_cert_certificates.specs.Assembling.{extensions_in};
ghost use Rattle.x509_cert_certificates.specs.Assembling.{fields_of, has_any, signed_part};
ghost use Rattle.x509_cert_certificates.specs.Assembling.{version_of};
ghost use Rattle.x509_cert_certificates.specs.Views.{certificate_plain, tbs_plain};

use crate::certificate::CertificateInner;
use crate::tbs_certificate::TbsCertificateInner;
use std::alloc::Global;
use x509_cert_names::Name;
use x509_cert_parts::types::BitString;
use x509_cert_parts::{
    AlgorithmIdentifier, Extensions, SerialNumber, SubjectPublicKeyInfo, Validity, Version,
};

/// Returns the TBSCertificate that a profile receives: version 3, with this algorithm, and without
/// extensions. It never has unique identifiers (RFC 5280 4.1.2.8).
pub fn bare_part<P>(
    serial_number: SerialNumber<P>,
    signature: AlgorithmIdentifier,
    issuer: Name,
    validity: Validity<P>,
    subject: Name,
    subject_public_key_info: SubjectPublicKeyInfo,
) -> TbsCertificateInner<P>
    ensures { tbs_plain result ≡ bare_part
        (record {
          serial = serial_number;
          issuer = name_plain issuer;
          validity = validity_plain validity;
          subject = name_plain subject;
          key = key_plain subject_public_key_info;
        })
        (algorithm_plain signature) }
{
    TbsCertificateInner {
        version: Version::V3,
        serial_number,
        signature,
        issuer,
        validity,
        subject,
        subject_public_key_info,
        issuer_unique_id: None,
        subject_unique_id: None,
        extensions: None,
    }
}

/// Turns a TBSCertificate into the one that a profile receives: version 3, with this algorithm, and
/// without extensions and unique identifiers.
pub fn lay_bare<P>(part: &mut TbsCertificateInner<P>, algorithm: AlgorithmIdentifier)
    ensures { tbs_plain part.new ≡ bare_part (fields_of (tbs_plain part.old))
        (algorithm_plain algorithm) }
{
    part.version = Version::V3;
    part.signature = algorithm;
    part.issuer_unique_id = None;
    part.subject_unique_id = None;
    part.extensions = None;
}

/// Returns the extensions, or `None` if the list is empty (RFC 5280 4.1.2.9).
fn listed(extensions: Extensions) -> Option<Extensions>
    ensures { plain_option (λ v. extensions_plain v.items) result
        ≡ extensions_if_any (extensions_plain extensions.items) }
{
    if extensions.is_empty() {
        return None;
    }
    Some(extensions)
}

/// Returns the version that these extensions require: version 3 if there are any, and otherwise
/// version 1 (RFC 5280 4.1.2.1).
fn version_for(extensions: &Extensions) -> Version
    ensures { pos (version_number result)
        ≡ version_of (has_any (extensions_plain extensions.now.items)) }
{
    if extensions.is_empty() {
        return Version::V1;
    }
    Version::V3
}

/// Sets the extensions of a TBSCertificate, and its version according to them. Unique identifiers
/// are removed.
pub fn complete<P>(part: &mut TbsCertificateInner<P>, extensions: Extensions)
    ensures { tbs_plain part.new ≡ signed_part (fields_of (tbs_plain part.old))
        (tbs_inner_algorithm (tbs_plain part.old)) (extensions_plain extensions.items) }
{
    part.version = version_for(&extensions);
    part.issuer_unique_id = None;
    part.subject_unique_id = None;
    part.extensions = listed(extensions);
}

/// Moves the extensions out of a TBSCertificate and returns them. If the field is absent, the list
/// is empty.
///
/// The serial number, the names, the validity and the key are unchanged.
pub fn take_extensions<P>(alloc: Global, part: &mut TbsCertificateInner<P>) -> Extensions
    ensures taken { extensions_plain result.items ≡ extensions_in (tbs_plain part.old) }
    ensures fields { fields_of (tbs_plain part.new) ≡ fields_of (tbs_plain part.old) }
{
    match part.extensions.take() {
        Some(extensions) => extensions,
        None => Vec::new(alloc),
    }
}

/// Returns the certificate with this TBSCertificate, this algorithm and this signature.
pub fn certificate_of<P>(
    tbs_certificate: TbsCertificateInner<P>,
    signature_algorithm: AlgorithmIdentifier,
    signature: BitString,
) -> CertificateInner<P>
    ensures { certificate_plain result
        ≡ (tbs_plain tbs_certificate, (algorithm_plain signature_algorithm, (signature, tt))) }
{
    CertificateInner {
        tbs_certificate,
        signature_algorithm,
        signature,
    }
}
