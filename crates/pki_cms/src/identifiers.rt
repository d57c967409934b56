//! Object identifiers.

ghost use Rattle.std.specs.Prelude.{◌≡◌, [], ◌∷◌};

use der_core::oid::ObjectIdentifier;

/// `id-ct-contentInfo`, 1.2.840.113549.1.9.16.1.6.
pub fn id_ct_content_info() -> ObjectIdentifier<39>
    ensures { result ≡ 1 ∷ 2 ∷ 840 ∷ 113549 ∷ 1 ∷ 9 ∷ 16 ∷ 1 ∷ 6 ∷ [] }
{
    ObjectIdentifier::from_bytes_unwrap(&[
        0x2a, 0x86, 0x48, 0x86, 0xf7, 0x0d, 0x01, 0x09, 0x10, 0x01, 0x06,
    ])
}

/// `id-data`, 1.2.840.113549.1.7.1.
pub fn id_data() -> ObjectIdentifier<39>
    ensures { result ≡ 1 ∷ 2 ∷ 840 ∷ 113549 ∷ 1 ∷ 7 ∷ 1 ∷ [] }
{
    ObjectIdentifier::from_bytes_unwrap(&[0x2a, 0x86, 0x48, 0x86, 0xf7, 0x0d, 0x01, 0x07, 0x01])
}

/// `id-signedData`, 1.2.840.113549.1.7.2.
pub fn id_signed_data() -> ObjectIdentifier<39>
    ensures { result ≡ 1 ∷ 2 ∷ 840 ∷ 113549 ∷ 1 ∷ 7 ∷ 2 ∷ [] }
{
    ObjectIdentifier::from_bytes_unwrap(&[0x2a, 0x86, 0x48, 0x86, 0xf7, 0x0d, 0x01, 0x07, 0x02])
}

/// `id-envelopedData`, 1.2.840.113549.1.7.3.
pub fn id_enveloped_data() -> ObjectIdentifier<39>
    ensures { result ≡ 1 ∷ 2 ∷ 840 ∷ 113549 ∷ 1 ∷ 7 ∷ 3 ∷ [] }
{
    ObjectIdentifier::from_bytes_unwrap(&[0x2a, 0x86, 0x48, 0x86, 0xf7, 0x0d, 0x01, 0x07, 0x03])
}

/// `id-digestedData`, 1.2.840.113549.1.7.5.
pub fn id_digested_data() -> ObjectIdentifier<39>
    ensures { result ≡ 1 ∷ 2 ∷ 840 ∷ 113549 ∷ 1 ∷ 7 ∷ 5 ∷ [] }
{
    ObjectIdentifier::from_bytes_unwrap(&[0x2a, 0x86, 0x48, 0x86, 0xf7, 0x0d, 0x01, 0x07, 0x05])
}

/// `id-encryptedData`, 1.2.840.113549.1.7.6.
pub fn id_encrypted_data() -> ObjectIdentifier<39>
    ensures { result ≡ 1 ∷ 2 ∷ 840 ∷ 113549 ∷ 1 ∷ 7 ∷ 6 ∷ [] }
{
    ObjectIdentifier::from_bytes_unwrap(&[0x2a, 0x86, 0x48, 0x86, 0xf7, 0x0d, 0x01, 0x07, 0x06])
}

/// `id-ct-authData`, 1.2.840.113549.1.9.16.1.2.
pub fn id_ct_auth_data() -> ObjectIdentifier<39>
    ensures { result ≡ 1 ∷ 2 ∷ 840 ∷ 113549 ∷ 1 ∷ 9 ∷ 16 ∷ 1 ∷ 2 ∷ [] }
{
    ObjectIdentifier::from_bytes_unwrap(&[
        0x2a, 0x86, 0x48, 0x86, 0xf7, 0x0d, 0x01, 0x09, 0x10, 0x01, 0x02,
    ])
}

/// `id-contentType`, 1.2.840.113549.1.9.3.
pub fn id_content_type() -> ObjectIdentifier<39>
    ensures { result ≡ 1 ∷ 2 ∷ 840 ∷ 113549 ∷ 1 ∷ 9 ∷ 3 ∷ [] }
{
    ObjectIdentifier::from_bytes_unwrap(&[0x2a, 0x86, 0x48, 0x86, 0xf7, 0x0d, 0x01, 0x09, 0x03])
}

/// `id-messageDigest`, 1.2.840.113549.1.9.4.
pub fn id_message_digest() -> ObjectIdentifier<39>
    ensures { result ≡ 1 ∷ 2 ∷ 840 ∷ 113549 ∷ 1 ∷ 9 ∷ 4 ∷ [] }
{
    ObjectIdentifier::from_bytes_unwrap(&[0x2a, 0x86, 0x48, 0x86, 0xf7, 0x0d, 0x01, 0x09, 0x04])
}

/// `id-signingTime`, 1.2.840.113549.1.9.5.
pub fn id_signing_time() -> ObjectIdentifier<39>
    ensures { result ≡ 1 ∷ 2 ∷ 840 ∷ 113549 ∷ 1 ∷ 9 ∷ 5 ∷ [] }
{
    ObjectIdentifier::from_bytes_unwrap(&[0x2a, 0x86, 0x48, 0x86, 0xf7, 0x0d, 0x01, 0x09, 0x05])
}

/// `id-countersignature`, 1.2.840.113549.1.9.6.
pub fn id_countersignature() -> ObjectIdentifier<39>
    ensures { result ≡ 1 ∷ 2 ∷ 840 ∷ 113549 ∷ 1 ∷ 9 ∷ 6 ∷ [] }
{
    ObjectIdentifier::from_bytes_unwrap(&[0x2a, 0x86, 0x48, 0x86, 0xf7, 0x0d, 0x01, 0x09, 0x06])
}
