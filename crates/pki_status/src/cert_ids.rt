//! CertIDs (RFC 6960 4.1.1).

ghost use Rattle.std.specs.Prelude.{◌≡◌, true, IfOk, IfErr};
ghost use Rattle.der_core.specs.Oid.Bound.{Bound};
ghost use Rattle.der_core.specs.Shapes.{IsValid};
ghost use Rattle.x509_cert_reading.specs.Certificates.{issuer};
ghost use Rattle.x509_cert_reading.specs.CertificateViews.{certificate_plain};
ghost use Rattle.x509_cert_reading.specs.Names.Names.{name};
ghost use Rattle.x509_cert_reading.specs.Parts.Views.{key_plain};
ghost use Rattle.pki_status.specs.CertIds.{has_key_hash, has_serial, identifies};
ghost use Rattle.pki_status.specs.Hashes.{arcs_of};

use crate::hash_function::HashFunction;
use der_core::{Error, ErrorKind, ToDer};
use pki_ocsp::CertId;
use std::alloc::Global;
use x509_cert_reading::{
    AlgorithmIdentifier, CertificateInner, OctetString, Raw, SerialNumber, SubjectPublicKeyInfo,
};

/// Returns whether a CertID identifies a certificate whose issuer has this key: it has the hashes
/// of the issuer's name and of the key, and the certificate's serial number. Returns `false` if its
/// hash function isn't a [`HashFunction`].
///
/// # Errors
///
/// - `OutOfMemory`: memory runs out. A name that has no encoding has other errors; the name of a
///   certificate that was decoded has one.
pub fn identifies(
    alloc: Global,
    id: &CertId,
    certificate: &CertificateInner<Raw>,
    issuer_key: &SubjectPublicKeyInfo,
) -> Result<bool, Error>
    ensures identified { IfOk result (λ is. is ≡ identifies Bound id.now
        (certificate_plain certificate.now) (key_plain issuer_key.now)) }
    ensures fault { IsValid (name Bound) (issuer (certificate_plain certificate.now))
        → IfErr result (λ e. e.kind ≡ ErrorKind.OutOfMemory) }
{
    let Some(function) = HashFunction::named(&id.hash_algorithm.oid) else {
        return Ok(false);
    };
    let signed = certificate.tbs_certificate();
    if !has_serial(id, signed.serial_number()) {
        return Ok(false);
    }
    if !has_key_hash(function, id, issuer_key) {
        return Ok(false);
    }
    let name = signed.issuer().to_der(alloc)?;
    Ok(function.is_digest(id.issuer_name_hash.as_bytes(), name.as_slice()))
}

// Returns whether a CertID has this serial number.
fn has_serial(id: &CertId, serial_number: &SerialNumber<Raw>) -> bool
    ensures { result ≡ has_serial id.now serial_number.now }
{
    id.serial_number.as_bytes() == serial_number.as_bytes()
}

// Returns whether a CertID has the hash of this key.
fn has_key_hash(function: HashFunction, id: &CertId, issuer_key: &SubjectPublicKeyInfo) -> bool
    ensures { result ≡ has_key_hash function id.now (key_plain issuer_key.now) }
{
    let key = issuer_key.subject_public_key.raw_bytes();
    function.is_digest(id.issuer_key_hash.as_bytes(), key)
}

/// Returns the CertID of a certificate whose issuer has this key, with the hashes of this hash
/// function. Its algorithm identifier has no parameters. The profile for environments with many
/// requests requires SHA-1 (RFC 5019 2.1.1).
///
/// # Errors
///
/// - The errors of [`identifies`].
pub fn cert_id_of(
    alloc: Global,
    function: HashFunction,
    certificate: &CertificateInner<Raw>,
    issuer_key: &SubjectPublicKeyInfo,
) -> Result<CertId, Error>
    ensures identified { IfOk result (λ id. identifies Bound id
        (certificate_plain certificate.now) (key_plain issuer_key.now) ≡ true) }
    ensures function { IfOk result (λ id. id.hash_algorithm.oid ≡ arcs_of function) }
    ensures fault { IsValid (name Bound) (issuer (certificate_plain certificate.now))
        → IfErr result (λ e. e.kind ≡ ErrorKind.OutOfMemory) }
{
    let signed = certificate.tbs_certificate();
    let name = signed.issuer().to_der(alloc)?;
    let name_digest = function.digest(alloc, name.as_slice())?;
    let issuer_name_hash = OctetString::new(name_digest)?;
    let key_digest = function.digest(alloc, issuer_key.subject_public_key.raw_bytes())?;
    let issuer_key_hash = OctetString::new(key_digest)?;
    let serial_number = signed.serial_number().clone(alloc)?;
    let oid = function.oid();
    let hash_algorithm = AlgorithmIdentifier {
        oid,
        parameters: None,
    };
    Ok(CertId {
        hash_algorithm,
        issuer_name_hash,
        issuer_key_hash,
        serial_number,
    })
}
