//! CertId.

ghost use Rattle.std.specs.Prelude.{refl};

use der_core::describing::{AsRecord, Described, FieldRow, FieldsView, RowUser, Rows};
use der_core::{DecodeFields, Error, Reader, Shaped, lend, read_row};
use der_types::OctetString;
use std::alloc::Global;
use x509_cert_reading::{AlgorithmIdentifier, Raw, SerialNumber};

/// ```text
/// CertID ::= SEQUENCE {
///     hashAlgorithm           AlgorithmIdentifier,
///     issuerNameHash          OCTET STRING, -- Hash of issuer's DN
///     issuerKeyHash           OCTET STRING, -- Hash of issuer's public key
///     serialNumber            CertificateSerialNumber }
/// ```
#[derive(Debug, Drop, PartialEq, Eq)]
pub struct CertId {
    pub hash_algorithm: AlgorithmIdentifier,
    pub issuer_name_hash: OctetString,
    pub issuer_key_hash: OctetString,
    pub serial_number: SerialNumber<Raw>,
}

type Row = (
    AlgorithmIdentifier,
    (OctetString, (OctetString, (SerialNumber<Raw>, ()))),
);

impl Described for CertId {
    type By = AsRecord;
}

impl FieldsView for CertId {
    ghost body = { ⟦<Row as FieldRow>⟧.fields };

    ghost view = { λ r. (
      ⟦<AlgorithmIdentifier as Shaped>⟧.plain r.hash_algorithm,
      (
        ⟦<OctetString as Shaped>⟧.plain r.issuer_name_hash,
        (
          ⟦<OctetString as Shaped>⟧.plain r.issuer_key_hash,
          (⟦<SerialNumber<Raw> as Shaped>⟧.plain r.serial_number, tt),
        ),
      ),
    ) };
}

impl<'a, R: Reader<'a>> DecodeFields<'a, R> for CertId {
    fn decode_fields(alloc: Global, reader: &mut R) -> Result<CertId, Error> {
        read_row!(alloc, reader; CertId {
            hash_algorithm, issuer_name_hash, issuer_key_hash, serial_number,
        })
    }
}

impl Rows for CertId {
    fn with_rows<U: RowUser>(&self, other: &Self, user: &mut U) -> U::Answer {
        lend!(self, other, user; hash_algorithm, issuer_name_hash, issuer_key_hash, serial_number)
    }

    ghost apart = { refl };
}
