//! OcspRequest.

ghost use Rattle.std.specs.Prelude.{refl};
ghost use Rattle.der_core.specs.Grammar.{plain_option};

use crate::signature::Signature;
use crate::tbs_request::TbsRequest;
use der_core::describing::{AsRecord, Described, FieldRow, FieldsView, RowUser, Rows};
use der_core::{DecodeFields, Error, Explicit, Reader, Shaped, lend, read_row};
use std::alloc::Global;

/// ```text
/// OCSPRequest ::= SEQUENCE {
///     tbsRequest              TBSRequest,
///     optionalSignature   [0] EXPLICIT Signature OPTIONAL }
/// ```
#[derive(Debug, Drop, PartialEq, Eq)]
pub struct OcspRequest {
    pub tbs_request: TbsRequest,
    pub optional_signature: Option<Signature>,
}

type Row = (TbsRequest, (Option<Explicit<Signature, 0>>, ()));

impl Described for OcspRequest {
    type By = AsRecord;
}

impl FieldsView for OcspRequest {
    ghost body = { ⟦<Row as FieldRow>⟧.fields };

    ghost view = { λ r. (
      ⟦<TbsRequest as Shaped>⟧.plain r.tbs_request,
      (plain_option ⟦<Signature as Shaped>⟧.plain r.optional_signature, tt),
    ) };
}

impl<'a, R: Reader<'a>> DecodeFields<'a, R> for OcspRequest {
    fn decode_fields(alloc: Global, reader: &mut R) -> Result<OcspRequest, Error> {
        read_row!(alloc, reader; OcspRequest {
            tbs_request, optional_signature: explicit 0 optional,
        })
    }
}

impl Rows for OcspRequest {
    fn with_rows<U: RowUser>(&self, other: &Self, user: &mut U) -> U::Answer {
        lend!(self, other, user; tbs_request, optional_signature: explicit 0 optional)
    }

    ghost apart = { refl };
}
