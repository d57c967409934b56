//! SingleResponse.

ghost use Rattle.std.specs.Prelude.{refl};
ghost use Rattle.der_core.specs.Grammar.{plain_option};

use crate::cert_id::CertId;
use crate::cert_status::CertStatus;
use der_core::describing::{AsRecord, Described, FieldRow, FieldsView, RowUser, Rows};
use der_core::{DecodeFields, Error, Explicit, Reader, Shaped, lend, read_row};
use der_types::GeneralizedTime;
use std::alloc::Global;
use x509_cert_reading::Extensions;

/// ```text
/// SingleResponse ::= SEQUENCE {
///     certID                  CertID,
///     certStatus              CertStatus,
///     thisUpdate              GeneralizedTime,
///     nextUpdate          [0] EXPLICIT GeneralizedTime OPTIONAL,
///     singleExtensions    [1] EXPLICIT Extensions OPTIONAL }
/// ```
#[derive(Debug, Drop, PartialEq, Eq)]
pub struct SingleResponse {
    pub cert_id: CertId,
    pub cert_status: CertStatus,
    pub this_update: GeneralizedTime,
    pub next_update: Option<GeneralizedTime>,
    pub single_extensions: Option<Extensions>,
}

type Row = (
    CertId,
    (
        CertStatus,
        (
            GeneralizedTime,
            (
                Option<Explicit<GeneralizedTime, 0>>,
                (Option<Explicit<Extensions, 1>>, ()),
            ),
        ),
    ),
);

impl Described for SingleResponse {
    type By = AsRecord;
}

impl FieldsView for SingleResponse {
    ghost body = { ⟦<Row as FieldRow>⟧.fields };

    ghost view = { λ r. (
      ⟦<CertId as Shaped>⟧.plain r.cert_id,
      (
        ⟦<CertStatus as Shaped>⟧.plain r.cert_status,
        (
          ⟦<GeneralizedTime as Shaped>⟧.plain r.this_update,
          (
            plain_option ⟦<GeneralizedTime as Shaped>⟧.plain r.next_update,
            (plain_option ⟦<Extensions as Shaped>⟧.plain r.single_extensions, tt),
          ),
        ),
      ),
    ) };
}

impl<'a, R: Reader<'a>> DecodeFields<'a, R> for SingleResponse {
    fn decode_fields(alloc: Global, reader: &mut R) -> Result<SingleResponse, Error> {
        read_row!(alloc, reader; SingleResponse {
            cert_id, cert_status, this_update, next_update: explicit 0 optional,
            single_extensions: explicit 1 optional,
        })
    }
}

impl Rows for SingleResponse {
    fn with_rows<U: RowUser>(&self, other: &Self, user: &mut U) -> U::Answer {
        lend!(self, other, user;
            cert_id, cert_status, this_update, next_update: explicit 0 optional,
            single_extensions: explicit 1 optional)
    }

    ghost apart = { refl };
}
