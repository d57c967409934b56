//! Request.

ghost use Rattle.std.specs.Prelude.{refl};
ghost use Rattle.der_core.specs.Grammar.{plain_option};

use crate::cert_id::CertId;
use der_core::describing::{AsRecord, Described, FieldRow, FieldsView, RowUser, Rows};
use der_core::{DecodeFields, Error, Explicit, Reader, Shaped, lend, read_row};
use std::alloc::Global;
use x509_cert_reading::Extensions;

/// ```text
/// Request ::= SEQUENCE {
///     reqCert                     CertID,
///     singleRequestExtensions [0] EXPLICIT Extensions OPTIONAL }
/// ```
#[derive(Debug, Drop, PartialEq, Eq)]
pub struct Request {
    pub req_cert: CertId,
    pub single_request_extensions: Option<Extensions>,
}

type Row = (CertId, (Option<Explicit<Extensions, 0>>, ()));

impl Described for Request {
    type By = AsRecord;
}

impl FieldsView for Request {
    ghost body = { ⟦<Row as FieldRow>⟧.fields };

    ghost view = { λ r. (
      ⟦<CertId as Shaped>⟧.plain r.req_cert,
      (plain_option ⟦<Extensions as Shaped>⟧.plain r.single_request_extensions, tt),
    ) };
}

impl<'a, R: Reader<'a>> DecodeFields<'a, R> for Request {
    fn decode_fields(alloc: Global, reader: &mut R) -> Result<Request, Error> {
        read_row!(alloc, reader; Request {
            req_cert, single_request_extensions: explicit 0 optional,
        })
    }
}

impl Rows for Request {
    fn with_rows<U: RowUser>(&self, other: &Self, user: &mut U) -> U::Answer {
        lend!(self, other, user; req_cert, single_request_extensions: explicit 0 optional)
    }

    ghost apart = { refl };
}
