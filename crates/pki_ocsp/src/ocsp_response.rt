//! OcspResponse.

ghost use Rattle.std.specs.Prelude.{refl};
ghost use Rattle.der_core.specs.Grammar.{plain_option};

use crate::ocsp_response_status::OcspResponseStatus;
use crate::response_bytes::ResponseBytes;
use der_core::describing::{AsRecord, Described, FieldRow, FieldsView, RowUser, Rows};
use der_core::{DecodeFields, Error, Explicit, Reader, Shaped, lend, read_row};
use std::alloc::Global;

/// ```text
/// OCSPResponse ::= SEQUENCE {
///     responseStatus          OCSPResponseStatus,
///     responseBytes       [0] EXPLICIT ResponseBytes OPTIONAL }
/// ```
#[derive(Debug, Drop, PartialEq, Eq)]
pub struct OcspResponse {
    pub response_status: OcspResponseStatus,
    pub response_bytes: Option<ResponseBytes>,
}

type Row = (OcspResponseStatus, (Option<Explicit<ResponseBytes, 0>>, ()));

impl Described for OcspResponse {
    type By = AsRecord;
}

impl FieldsView for OcspResponse {
    ghost body = { ⟦<Row as FieldRow>⟧.fields };

    ghost view = { λ r. (
      ⟦<OcspResponseStatus as Shaped>⟧.plain r.response_status,
      (plain_option ⟦<ResponseBytes as Shaped>⟧.plain r.response_bytes, tt),
    ) };
}

impl<'a, R: Reader<'a>> DecodeFields<'a, R> for OcspResponse {
    fn decode_fields(alloc: Global, reader: &mut R) -> Result<OcspResponse, Error> {
        read_row!(alloc, reader; OcspResponse {
            response_status, response_bytes: explicit 0 optional,
        })
    }
}

impl Rows for OcspResponse {
    fn with_rows<U: RowUser>(&self, other: &Self, user: &mut U) -> U::Answer {
        lend!(self, other, user; response_status, response_bytes: explicit 0 optional)
    }

    ghost apart = { refl };
}
