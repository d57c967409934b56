//! The certificate of a signer among the certificates of a bundle.

ghost use Rattle.std.specs.Prelude.{◌≡◌, ◌<◌, length, IfSome, bytes_eq};
ghost use Rattle.std.specs.List.{list_any, position};
ghost use Rattle.cert_desk_checking.specs.Oid.Bound.{Bound};
ghost use Rattle.cert_desk_checking.specs.CertParts.Views.{extension_plain, extensions_plain};
ghost use Rattle.cert_desk_checking.specs.Der.Shapes.{IsValid};
ghost use Rattle.cert_desk_checking.specs.CertCertificates.Certificates.{raw_certificate};
ghost use Rattle.cert_desk_checking.specs.CertCertificates.Views.{certificate_plain};
ghost use Rattle.cert_desk_checking.specs.CertCertificates.CertNames.Views.{name_plain};
ghost use Rattle.der_core.specs.Heads.{Fits, tlv};
ghost use Rattle.pki_signers.specs.Signers.{has_issuer_and_serial, has_key_hash};
ghost use Rattle.pki_signers.specs.Signers.{has_key_identifier, has_subject, is_key_identifier};

use cert_desk_checking::desk_bundle::Bundle;
use cert_desk_checking::is_issued_by;
use der_core::oid::ObjectIdentifier;
use der_core::{Tag, header_of};
use sha1::Sha1;
use x509_cert_certificates::CertificateInner;
use x509_cert_certificates::cert_names::Name;
use x509_cert_certificates::cert_parts::{Extension, Raw, SerialNumber};

/// Returns the index of the first certificate with this issuer, byte for byte, and this serial
/// number, or `None` if there is none. Together, they identify a certificate (RFC 5280 4.1.2.2;
/// issuerAndSerialNumber of RFC 5652 10.2.4).
pub fn find_by_issuer_and_serial(
    certificates: &Bundle,
    issuer: &Name,
    serial_number: &SerialNumber<Raw>,
) -> Option<usize>
    ensures found { result ≡ position
        (has_issuer_and_serial Bound (name_plain issuer.now) serial_number.now)
        certificates.now.certificates }
    ensures within { IfSome result (λ place. place < length certificates.now.certificates) }
{
    for place in 0..certificates.len() {
        let entry = certificates.get(place).unwrap();
        if has_issuer_and_serial(entry.certificate, issuer, serial_number) {
            return Some(place);
        }
    }
    None
}

// Returns whether a certificate has this issuer and this serial number.
fn has_issuer_and_serial(
    certificate: &CertificateInner<Raw>,
    issuer: &Name,
    serial_number: &SerialNumber<Raw>,
) -> bool
    requires { IsValid (raw_certificate Bound) (certificate_plain certificate.now) }
    ensures { result ≡ has_issuer_and_serial Bound (name_plain issuer.now) serial_number.now
        (certificate_plain certificate.now) }
{
    let own = certificate.tbs_certificate().serial_number();
    if own.as_bytes() == serial_number.as_bytes() {
        return is_issued_by(certificate, issuer);
    }
    false
}

/// Returns the index of the first certificate that has a subjectKeyIdentifier extension with this
/// key identifier, or `None` if there is none (RFC 5280 4.2.1.2; subjectKeyIdentifier of RFC 5652
/// 5.3). A malformed subjectKeyIdentifier never matches.
pub fn find_by_key_identifier(certificates: &Bundle, key_identifier: &[u8]) -> Option<usize>
    ensures found { result ≡ position (has_key_identifier key_identifier.now)
        certificates.now.certificates }
    ensures within { IfSome result (λ place. place < length certificates.now.certificates) }
{
    for place in 0..certificates.len() {
        let entry = certificates.get(place).unwrap();
        if has_key_identifier(entry.certificate, key_identifier) {
            return Some(place);
        }
    }
    None
}

// Returns whether a certificate has a subjectKeyIdentifier with this key identifier.
fn has_key_identifier(certificate: &CertificateInner<Raw>, key_identifier: &[u8]) -> bool
    ensures { result ≡ has_key_identifier key_identifier.now (certificate_plain certificate.now) }
{
    match certificate.tbs_certificate().extensions() {
        Some(extensions) => any_key_identifier(extensions.as_slice(), key_identifier),
        None => false,
    }
}

// Returns whether one of the extensions is a subjectKeyIdentifier with this key identifier.
fn any_key_identifier(extensions: &[Extension], key_identifier: &[u8]) -> bool
    ensures { result ≡ list_any (is_key_identifier key_identifier.now)
        (extensions_plain extensions.now) }
{
    for extension in extensions {
        if is_key_identifier(extension, key_identifier) {
            return true;
        }
    }
    false
}

// Returns whether the extension is a subjectKeyIdentifier with this key identifier.
fn is_key_identifier(extension: &Extension, key_identifier: &[u8]) -> bool
    ensures { result ≡ is_key_identifier key_identifier.now (extension_plain extension.now) }
{
    // id-ce-subjectKeyIdentifier, 2.5.29.14.
    let identifier = ObjectIdentifier::from_bytes_unwrap(&[0x55, 0x1d, 14]);
    if extension.extn_id != identifier {
        return false;
    }
    // Only for the proof: the length fits 32 bits.
    let _len = extension.extn_value.len();
    is_octet_string(extension.extn_value.as_bytes(), key_identifier)
}

// Returns whether the bytes are the encoding of an OCTET STRING with this content.
fn is_octet_string(octets: &[u8], content: &[u8]) -> bool
    requires { Fits octets.now }
    ensures { result ≡ bytes_eq octets.now (tlv Tag.OctetString content.now) }
{
    let Ok((header, start)) = header_of(octets) else {
        return false;
    };
    let Tag::OctetString = header.tag else {
        return false;
    };
    if header.length.value as usize != content.len() {
        return false;
    }
    &octets[start..] == content
}

/// Returns the index of the first certificate with this subject, byte for byte, or `None` if there
/// is none (byName of RFC 6960 4.2.1).
pub fn find_by_subject(certificates: &Bundle, subject: &Name) -> Option<usize>
    ensures found { result ≡ position (has_subject Bound (name_plain subject.now))
        certificates.now.certificates }
    ensures within { IfSome result (λ place. place < length certificates.now.certificates) }
{
    for place in 0..certificates.len() {
        let entry = certificates.get(place).unwrap();
        if has_subject(entry.certificate, subject) {
            return Some(place);
        }
    }
    None
}

// Returns whether a certificate has this subject, byte for byte.
fn has_subject(certificate: &CertificateInner<Raw>, subject: &Name) -> bool
    requires { IsValid (raw_certificate Bound) (certificate_plain certificate.now) }
    ensures { result ≡ has_subject Bound (name_plain subject.now)
        (certificate_plain certificate.now) }
{
    certificate
        .tbs_certificate()
        .subject()
        .has_octets_of(subject)
}

/// Returns the index of the first certificate whose key has this SHA-1 digest, or `None` if there
/// is none (byKey of RFC 6960 4.2.1). The digest is computed over the bytes of the key's BIT
/// STRING, without the tag, the length and the number of unused bits.
pub fn find_by_key_hash(certificates: &Bundle, key_hash: &[u8]) -> Option<usize>
    ensures found { result ≡ position (has_key_hash key_hash.now) certificates.now.certificates }
    ensures within { IfSome result (λ place. place < length certificates.now.certificates) }
{
    for place in 0..certificates.len() {
        let entry = certificates.get(place).unwrap();
        if has_key_hash(entry.certificate, key_hash) {
            return Some(place);
        }
    }
    None
}

// Returns whether this is the SHA-1 digest of a certificate's key.
fn has_key_hash(certificate: &CertificateInner<Raw>, key_hash: &[u8]) -> bool
    ensures { result ≡ has_key_hash key_hash.now (certificate_plain certificate.now) }
{
    let key = certificate.tbs_certificate().subject_public_key_info();
    key_hash == Sha1::digest(key.subject_public_key.raw_bytes()).as_slice()
}
