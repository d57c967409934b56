//! The type `AuthorityKeyIdentifier`, and key identifiers by SHA-1.

ghost use Rattle.std.specs.Prelude.{◌≡◌, Some, None, IfOk, IfErr, refl};
ghost use Rattle.der_core.specs.Oid.Bound.{Bound};
ghost use Rattle.x509_cert_parts.specs.Views.{key_lent};
ghost use Rattle.x509_cert_general_names.specs.GeneralNames.{authority_key_identifier_fields};
ghost use Rattle.x509_cert_general_names.specs.KeyIdentifiers.{key_identifier};
ghost use Rattle.x509_cert_general_names.specs.GeneralNameViews.{authority_key_identifier_plain};

use crate::general_name::GeneralNames;
use der_core::describing::{AsRecord, Described, FieldsView, RowUser, Rows};
use der_core::{DecodeFields, Error, ErrorKind, Reader, lend, read_row};
use sha1::Sha1;
use std::alloc::Global;
use x509_cert_parts::types::OctetString;
use x509_cert_parts::{SerialNumber, SubjectPublicKeyInfoRef};

/// Identifies the key with which a certificate or a CRL is signed (RFC 5280 4.2.1.1, 5.2.1).
///
/// ```text
/// AuthorityKeyIdentifier ::= SEQUENCE {
///     keyIdentifier              [0] KeyIdentifier OPTIONAL,
///     authorityCertIssuer        [1] GeneralNames OPTIONAL,
///     authorityCertSerialNumber  [2] CertificateSerialNumber OPTIONAL }
///
/// KeyIdentifier ::= OCTET STRING
/// ```
#[derive(Debug, Default, Drop, PartialEq, Eq)]
pub struct AuthorityKeyIdentifier {
    /// The key identifier of the key.
    pub key_identifier: Option<OctetString>,
    /// The issuer of the key's certificate.
    pub authority_cert_issuer: Option<GeneralNames>,
    /// The serial number of the key's certificate.
    pub authority_cert_serial_number: Option<SerialNumber>,
}

impl FieldsView for AuthorityKeyIdentifier {
    ghost body = { authority_key_identifier_fields Bound };

    ghost view = { authority_key_identifier_plain };
}

impl<'a, R: Reader<'a>> DecodeFields<'a, R> for AuthorityKeyIdentifier {
    fn decode_fields(alloc: Global, reader: &mut R) -> Result<AuthorityKeyIdentifier, Error> {
        read_row!(alloc, reader; AuthorityKeyIdentifier {
            key_identifier: implicit 0 optional, authority_cert_issuer: implicit 1 optional,
            authority_cert_serial_number: implicit 2 optional,
        })
    }
}

impl Described for AuthorityKeyIdentifier {
    type By = AsRecord;
}

impl Rows for AuthorityKeyIdentifier {
    fn with_rows<U: RowUser>(&self, other: &Self, user: &mut U) -> U::Answer {
        lend!(self, other, user;
            key_identifier: implicit 0 optional, authority_cert_issuer: implicit 1 optional,
            authority_cert_serial_number: implicit 2 optional)
    }

    ghost apart = { refl };
}

impl AuthorityKeyIdentifier {
    /// Returns the extension with only the key identifier of this key (`key_identifier_of`).
    ///
    /// # Errors
    ///
    /// - `OutOfMemory`: memory runs out.
    pub fn try_from_key<'a>(alloc: Global, key: &SubjectPublicKeyInfoRef<'a>) -> Result<Self, Error>
        ensures ok { IfOk result (λ i. i ≡ record {
          key_identifier = Some (key_identifier (key_lent key.now));
          authority_cert_issuer = None;
          authority_cert_serial_number = None;
        }) }
        ensures err { IfErr result (λ e. e.kind ≡ ErrorKind.OutOfMemory) }
    {
        let identifier = key_identifier_of(alloc, key)?;
        Ok(AuthorityKeyIdentifier {
            key_identifier: Some(identifier),
            authority_cert_issuer: None,
            authority_cert_serial_number: None,
        })
    }
}

/// Returns the key identifier of a key by method (1) of RFC 5280 4.2.1.2: the SHA-1 digest (FIPS
/// 180-4) of the bytes of its bit string, without the count of unused bits.
///
/// # Errors
///
/// - `OutOfMemory`: memory runs out.
pub fn key_identifier_of<'a>(
    alloc: Global,
    key: &SubjectPublicKeyInfoRef<'a>,
) -> Result<OctetString, Error>
    ensures ok { IfOk result (λ o. o ≡ key_identifier (key_lent key.now)) }
    ensures err { IfErr result (λ e. e.kind ≡ ErrorKind.OutOfMemory) }
{
    let digest = Sha1::digest(key.subject_public_key.raw_bytes());
    let octets = digest.as_slice().to_vec(alloc)?;
    Ok(OctetString::new(octets)?)
}
