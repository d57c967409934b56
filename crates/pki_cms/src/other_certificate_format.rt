//! OtherCertificateFormat.

ghost use Rattle.std.specs.Prelude.{refl};

use der_core::describing::{AsRecord, Described, FieldRow, FieldsView, RowUser, Rows};
use der_core::oid::ObjectIdentifier;
use der_core::{DecodeFields, Error, Reader, Shaped, lend, read_row};
use der_types::Any;
use std::alloc::Global;

/// ```text
/// OtherCertificateFormat ::= SEQUENCE {
///     otherCertFormat OBJECT IDENTIFIER,
///     otherCert ANY DEFINED BY otherCertFormat }
/// ```
#[derive(Debug, Drop, PartialEq, Eq)]
pub struct OtherCertificateFormat {
    pub other_cert_format: ObjectIdentifier<39>,
    pub other_cert: Any,
}

type Row = (ObjectIdentifier<39>, (Any, ()));

impl Described for OtherCertificateFormat {
    type By = AsRecord;
}

impl FieldsView for OtherCertificateFormat {
    ghost body = { ⟦<Row as FieldRow>⟧.fields };

    ghost view = { λ r. (
      ⟦<ObjectIdentifier<39> as Shaped>⟧.plain r.other_cert_format,
      (⟦<Any as Shaped>⟧.plain r.other_cert, tt),
    ) };
}

impl<'a, R: Reader<'a>> DecodeFields<'a, R> for OtherCertificateFormat {
    fn decode_fields(alloc: Global, reader: &mut R) -> Result<OtherCertificateFormat, Error> {
        read_row!(alloc, reader; OtherCertificateFormat { other_cert_format, other_cert })
    }
}

impl Rows for OtherCertificateFormat {
    fn with_rows<U: RowUser>(&self, other: &Self, user: &mut U) -> U::Answer {
        lend!(self, other, user; other_cert_format, other_cert)
    }

    ghost apart = { refl };
}
