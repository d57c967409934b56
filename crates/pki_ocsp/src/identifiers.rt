//! Object identifiers.

ghost use Rattle.std.specs.Prelude.{◌≡◌, [], ◌∷◌};

use der_core::oid::ObjectIdentifier;

/// `id-kp-OCSPSigning`, 1.3.6.1.5.5.7.3.9.
pub fn id_kp_ocsp_signing() -> ObjectIdentifier<39>
    ensures { result ≡ 1 ∷ 3 ∷ 6 ∷ 1 ∷ 5 ∷ 5 ∷ 7 ∷ 3 ∷ 9 ∷ [] }
{
    ObjectIdentifier::from_bytes_unwrap(&[0x2b, 0x06, 0x01, 0x05, 0x05, 0x07, 0x03, 0x09])
}

/// `id-pkix-ocsp`, 1.3.6.1.5.5.7.48.1.
pub fn id_pkix_ocsp() -> ObjectIdentifier<39>
    ensures { result ≡ 1 ∷ 3 ∷ 6 ∷ 1 ∷ 5 ∷ 5 ∷ 7 ∷ 48 ∷ 1 ∷ [] }
{
    ObjectIdentifier::from_bytes_unwrap(&[0x2b, 0x06, 0x01, 0x05, 0x05, 0x07, 0x30, 0x01])
}

/// `id-pkix-ocsp-basic`, 1.3.6.1.5.5.7.48.1.1.
pub fn id_pkix_ocsp_basic() -> ObjectIdentifier<39>
    ensures { result ≡ 1 ∷ 3 ∷ 6 ∷ 1 ∷ 5 ∷ 5 ∷ 7 ∷ 48 ∷ 1 ∷ 1 ∷ [] }
{
    ObjectIdentifier::from_bytes_unwrap(&[0x2b, 0x06, 0x01, 0x05, 0x05, 0x07, 0x30, 0x01, 0x01])
}

/// `id-pkix-ocsp-nonce`, 1.3.6.1.5.5.7.48.1.2.
pub fn id_pkix_ocsp_nonce() -> ObjectIdentifier<39>
    ensures { result ≡ 1 ∷ 3 ∷ 6 ∷ 1 ∷ 5 ∷ 5 ∷ 7 ∷ 48 ∷ 1 ∷ 2 ∷ [] }
{
    ObjectIdentifier::from_bytes_unwrap(&[0x2b, 0x06, 0x01, 0x05, 0x05, 0x07, 0x30, 0x01, 0x02])
}

/// `id-pkix-ocsp-crl`, 1.3.6.1.5.5.7.48.1.3.
pub fn id_pkix_ocsp_crl() -> ObjectIdentifier<39>
    ensures { result ≡ 1 ∷ 3 ∷ 6 ∷ 1 ∷ 5 ∷ 5 ∷ 7 ∷ 48 ∷ 1 ∷ 3 ∷ [] }
{
    ObjectIdentifier::from_bytes_unwrap(&[0x2b, 0x06, 0x01, 0x05, 0x05, 0x07, 0x30, 0x01, 0x03])
}

/// `id-pkix-ocsp-response`, 1.3.6.1.5.5.7.48.1.4.
pub fn id_pkix_ocsp_response() -> ObjectIdentifier<39>
    ensures { result ≡ 1 ∷ 3 ∷ 6 ∷ 1 ∷ 5 ∷ 5 ∷ 7 ∷ 48 ∷ 1 ∷ 4 ∷ [] }
{
    ObjectIdentifier::from_bytes_unwrap(&[0x2b, 0x06, 0x01, 0x05, 0x05, 0x07, 0x30, 0x01, 0x04])
}

/// `id-pkix-ocsp-nocheck`, 1.3.6.1.5.5.7.48.1.5.
pub fn id_pkix_ocsp_nocheck() -> ObjectIdentifier<39>
    ensures { result ≡ 1 ∷ 3 ∷ 6 ∷ 1 ∷ 5 ∷ 5 ∷ 7 ∷ 48 ∷ 1 ∷ 5 ∷ [] }
{
    ObjectIdentifier::from_bytes_unwrap(&[0x2b, 0x06, 0x01, 0x05, 0x05, 0x07, 0x30, 0x01, 0x05])
}

/// `id-pkix-ocsp-archive-cutoff`, 1.3.6.1.5.5.7.48.1.6.
pub fn id_pkix_ocsp_archive_cutoff() -> ObjectIdentifier<39>
    ensures { result ≡ 1 ∷ 3 ∷ 6 ∷ 1 ∷ 5 ∷ 5 ∷ 7 ∷ 48 ∷ 1 ∷ 6 ∷ [] }
{
    ObjectIdentifier::from_bytes_unwrap(&[0x2b, 0x06, 0x01, 0x05, 0x05, 0x07, 0x30, 0x01, 0x06])
}

/// `id-pkix-ocsp-service-locator`, 1.3.6.1.5.5.7.48.1.7.
pub fn id_pkix_ocsp_service_locator() -> ObjectIdentifier<39>
    ensures { result ≡ 1 ∷ 3 ∷ 6 ∷ 1 ∷ 5 ∷ 5 ∷ 7 ∷ 48 ∷ 1 ∷ 7 ∷ [] }
{
    ObjectIdentifier::from_bytes_unwrap(&[0x2b, 0x06, 0x01, 0x05, 0x05, 0x07, 0x30, 0x01, 0x07])
}

/// `id-pkix-ocsp-pref-sig-algs`, 1.3.6.1.5.5.7.48.1.8.
pub fn id_pkix_ocsp_pref_sig_algs() -> ObjectIdentifier<39>
    ensures { result ≡ 1 ∷ 3 ∷ 6 ∷ 1 ∷ 5 ∷ 5 ∷ 7 ∷ 48 ∷ 1 ∷ 8 ∷ [] }
{
    ObjectIdentifier::from_bytes_unwrap(&[0x2b, 0x06, 0x01, 0x05, 0x05, 0x07, 0x30, 0x01, 0x08])
}

/// `id-pkix-ocsp-extended-revoke`, 1.3.6.1.5.5.7.48.1.9.
pub fn id_pkix_ocsp_extended_revoke() -> ObjectIdentifier<39>
    ensures { result ≡ 1 ∷ 3 ∷ 6 ∷ 1 ∷ 5 ∷ 5 ∷ 7 ∷ 48 ∷ 1 ∷ 9 ∷ [] }
{
    ObjectIdentifier::from_bytes_unwrap(&[0x2b, 0x06, 0x01, 0x05, 0x05, 0x07, 0x30, 0x01, 0x09])
}
