//! IssuerAndSerialNumber.

ghost use Rattle.std.specs.Prelude.{refl};

use der_core::describing::{AsRecord, Described, FieldRow, FieldsView, RowUser, Rows};
use der_core::{DecodeFields, Error, Reader, Shaped, lend, read_row};
use std::alloc::Global;
use x509_cert_reading::{Name, Raw, SerialNumber};

/// ```text
/// IssuerAndSerialNumber ::= SEQUENCE {
///     issuer Name,
///     serialNumber CertificateSerialNumber }
/// ```
#[derive(Debug, Drop, PartialEq, Eq)]
pub struct IssuerAndSerialNumber {
    pub issuer: Name,
    pub serial_number: SerialNumber<Raw>,
}

type Row = (Name, (SerialNumber<Raw>, ()));

impl Described for IssuerAndSerialNumber {
    type By = AsRecord;
}

impl FieldsView for IssuerAndSerialNumber {
    ghost body = { ⟦<Row as FieldRow>⟧.fields };

    ghost view = { λ r. (
      ⟦<Name as Shaped>⟧.plain r.issuer,
      (⟦<SerialNumber<Raw> as Shaped>⟧.plain r.serial_number, tt),
    ) };
}

impl<'a, R: Reader<'a>> DecodeFields<'a, R> for IssuerAndSerialNumber {
    fn decode_fields(alloc: Global, reader: &mut R) -> Result<IssuerAndSerialNumber, Error> {
        read_row!(alloc, reader; IssuerAndSerialNumber { issuer, serial_number })
    }
}

impl Rows for IssuerAndSerialNumber {
    fn with_rows<U: RowUser>(&self, other: &Self, user: &mut U) -> U::Answer {
        lend!(self, other, user; issuer, serial_number)
    }

    ghost apart = { refl };
}
