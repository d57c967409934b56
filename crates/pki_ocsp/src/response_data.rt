//! ResponseData.

ghost use Rattle.std.specs.Prelude.{refl};
ghost use Rattle.der_core.specs.Grammar.{plain_option};

use crate::responder_id::ResponderId;
use crate::single_response::SingleResponse;
use crate::version::Version;
use der_core::describing::{AsRecord, Described, FieldRow, FieldsView, RowUser, Rows};
use der_core::{DecodeFields, Error, Explicit, Reader, Shaped, WithDefault, lend, read_row};
use der_types::GeneralizedTime;
use std::alloc::Global;
use x509_cert_reading::Extensions;

/// ```text
/// ResponseData ::= SEQUENCE {
///     version             [0] EXPLICIT Version DEFAULT v1,
///     responderID             ResponderID,
///     producedAt              GeneralizedTime,
///     responses               SEQUENCE OF SingleResponse,
///     responseExtensions  [1] EXPLICIT Extensions OPTIONAL }
/// ```
#[derive(Debug, Drop, PartialEq, Eq)]
pub struct ResponseData {
    pub version: Version,
    pub responder_id: ResponderId,
    pub produced_at: GeneralizedTime,
    pub responses: Vec<SingleResponse>,
    pub response_extensions: Option<Extensions>,
}

type Row = (
    WithDefault<Explicit<Version, 0>>,
    (
        ResponderId,
        (
            GeneralizedTime,
            (Vec<SingleResponse>, (Option<Explicit<Extensions, 1>>, ())),
        ),
    ),
);

impl Described for ResponseData {
    type By = AsRecord;
}

impl FieldsView for ResponseData {
    ghost body = { ⟦<Row as FieldRow>⟧.fields };

    ghost view = { λ r. (
      ⟦<Version as Shaped>⟧.plain r.version,
      (
        ⟦<ResponderId as Shaped>⟧.plain r.responder_id,
        (
          ⟦<GeneralizedTime as Shaped>⟧.plain r.produced_at,
          (
            ⟦<Vec<SingleResponse> as Shaped>⟧.plain r.responses,
            (plain_option ⟦<Extensions as Shaped>⟧.plain r.response_extensions, tt),
          ),
        ),
      ),
    ) };
}

impl<'a, R: Reader<'a>> DecodeFields<'a, R> for ResponseData {
    fn decode_fields(alloc: Global, reader: &mut R) -> Result<ResponseData, Error> {
        read_row!(alloc, reader; ResponseData {
            version: explicit 0 default, responder_id, produced_at, responses,
            response_extensions: explicit 1 optional,
        })
    }
}

impl Rows for ResponseData {
    fn with_rows<U: RowUser>(&self, other: &Self, user: &mut U) -> U::Answer {
        lend!(self, other, user;
            version: explicit 0 default, responder_id, produced_at, responses,
            response_extensions: explicit 1 optional)
    }

    ghost apart = { refl };
}
