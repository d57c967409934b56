//! ResponseBytes.

ghost use Rattle.std.specs.Prelude.{refl};

use der_core::describing::{AsRecord, Described, FieldRow, FieldsView, RowUser, Rows};
use der_core::oid::ObjectIdentifier;
use der_core::{DecodeFields, Error, Reader, Shaped, lend, read_row};
use der_types::OctetString;
use std::alloc::Global;

/// ```text
/// ResponseBytes ::= SEQUENCE {
///     responseType            OBJECT IDENTIFIER,
///     response                OCTET STRING }
/// ```
#[derive(Debug, Drop, PartialEq, Eq)]
pub struct ResponseBytes {
    pub response_type: ObjectIdentifier<39>,
    pub response: OctetString,
}

type Row = (ObjectIdentifier<39>, (OctetString, ()));

impl Described for ResponseBytes {
    type By = AsRecord;
}

impl FieldsView for ResponseBytes {
    ghost body = { ⟦<Row as FieldRow>⟧.fields };

    ghost view = { λ r. (
      ⟦<ObjectIdentifier<39> as Shaped>⟧.plain r.response_type,
      (⟦<OctetString as Shaped>⟧.plain r.response, tt),
    ) };
}

impl<'a, R: Reader<'a>> DecodeFields<'a, R> for ResponseBytes {
    fn decode_fields(alloc: Global, reader: &mut R) -> Result<ResponseBytes, Error> {
        read_row!(alloc, reader; ResponseBytes { response_type, response })
    }
}

impl Rows for ResponseBytes {
    fn with_rows<U: RowUser>(&self, other: &Self, user: &mut U) -> U::Answer {
        lend!(self, other, user; response_type, response)
    }

    ghost apart = { refl };
}
