//! The OIDs of key purposes, of key algorithms and of TPM versions.

ghost use Rattle.std.specs.Prelude.{◌≡◌, ◌<◌, ◌∷◌, []};
ghost use Rattle.x509_cert_builders.specs.Profiles.{id_kp, rsa_encryption, elliptic_curve_key};

use x509_cert_certificates::cert_parts::AlgorithmIdentifier;
use x509_cert_certificates::oid::ObjectIdentifier;

/// Returns a placeholder for the signature algorithm, which is set when the signer is known.
pub(crate) fn no_algorithm() -> AlgorithmIdentifier {
    AlgorithmIdentifier {
        oid: ObjectIdentifier::from_bytes_unwrap(&[0]),
        parameters: None,
    }
}

/// Returns the OID with these two arcs below 2.5 (X.500).
#[tactic(auto, using(crate::proofs::Encodable::read_x500))]
pub(crate) fn x500(arc: u8, number: u8) -> ObjectIdentifier<39>
    requires arc { arc < 128 }
    requires number { number < 128 }
    ensures { result ≡ 2 ∷ 5 ∷ arc ∷ number ∷ [] }
{
    match ObjectIdentifier::from_bytes(&[0x55, arc, number]) {
        Ok(oid) => oid,
        Err(_) => unreachable!(),
    }
}

/// Returns the OID `id-kp-serverAuth` (RFC 5280 4.2.1.12).
pub(crate) fn server_auth() -> ObjectIdentifier<39>
    ensures { result ≡ id_kp 1 }
{
    ObjectIdentifier::from_bytes_unwrap(&[0x2b, 6, 1, 5, 5, 7, 3, 1])
}

/// Returns the OID `id-kp-clientAuth` (RFC 5280 4.2.1.12).
pub(crate) fn client_auth() -> ObjectIdentifier<39>
    ensures { result ≡ id_kp 2 }
{
    ObjectIdentifier::from_bytes_unwrap(&[0x2b, 6, 1, 5, 5, 7, 3, 2])
}

/// Returns the OID `rsaEncryption` (RFC 3279 2.3.1).
pub(crate) fn rsa_encryption() -> ObjectIdentifier<39>
    ensures { result ≡ rsa_encryption }
{
    ObjectIdentifier::from_bytes_unwrap(&[0x2a, 0x86, 0x48, 0x86, 0xf7, 0x0d, 1, 1, 1])
}

/// Returns the OID `id-ecPublicKey` (RFC 5480 2.1.1).
pub(crate) fn elliptic_curve_key() -> ObjectIdentifier<39>
    ensures { result ≡ elliptic_curve_key }
{
    ObjectIdentifier::from_bytes_unwrap(&[0x2a, 0x86, 0x48, 0xce, 0x3d, 2, 1])
}

/// Returns the OID of TPM version 1.2, 2.23.133.1.0.
pub fn tcg_sv_tpm_12() -> ObjectIdentifier<39>
    ensures { result ≡ 2 ∷ 23 ∷ 133 ∷ 1 ∷ 0 ∷ [] }
{
    ObjectIdentifier::from_bytes_unwrap(&[0x67, 0x81, 5, 1, 0])
}

/// Returns the OID of TPM version 2.0, 2.23.133.1.2.
pub fn tcg_sv_tpm_20() -> ObjectIdentifier<39>
    ensures { result ≡ 2 ∷ 23 ∷ 133 ∷ 1 ∷ 2 ∷ [] }
{
    ObjectIdentifier::from_bytes_unwrap(&[0x67, 0x81, 5, 1, 2])
}
