//! TbsRequest.

ghost use Rattle.std.specs.Prelude.{refl};
ghost use Rattle.der_core.specs.Grammar.{plain_option};

use crate::request::Request;
use crate::version::Version;
use der_core::describing::{AsRecord, Described, FieldRow, FieldsView, RowUser, Rows};
use der_core::{DecodeFields, Error, Explicit, Reader, Shaped, WithDefault, lend, read_row};
use std::alloc::Global;
use x509_cert_reading::{Extensions, GeneralName};

/// ```text
/// TBSRequest ::= SEQUENCE {
///     version             [0] EXPLICIT Version DEFAULT v1,
///     requestorName       [1] EXPLICIT GeneralName OPTIONAL,
///     requestList             SEQUENCE OF Request,
///     requestExtensions   [2] EXPLICIT Extensions OPTIONAL }
/// ```
#[derive(Debug, Drop, PartialEq, Eq)]
pub struct TbsRequest {
    pub version: Version,
    pub requestor_name: Option<GeneralName>,
    pub request_list: Vec<Request>,
    pub request_extensions: Option<Extensions>,
}

type Row = (
    WithDefault<Explicit<Version, 0>>,
    (
        Option<Explicit<GeneralName, 1>>,
        (Vec<Request>, (Option<Explicit<Extensions, 2>>, ())),
    ),
);

impl Described for TbsRequest {
    type By = AsRecord;
}

impl FieldsView for TbsRequest {
    ghost body = { ⟦<Row as FieldRow>⟧.fields };

    ghost view = { λ r. (
      ⟦<Version as Shaped>⟧.plain r.version,
      (
        plain_option ⟦<GeneralName as Shaped>⟧.plain r.requestor_name,
        (
          ⟦<Vec<Request> as Shaped>⟧.plain r.request_list,
          (plain_option ⟦<Extensions as Shaped>⟧.plain r.request_extensions, tt),
        ),
      ),
    ) };
}

impl<'a, R: Reader<'a>> DecodeFields<'a, R> for TbsRequest {
    fn decode_fields(alloc: Global, reader: &mut R) -> Result<TbsRequest, Error> {
        read_row!(alloc, reader; TbsRequest {
            version: explicit 0 default, requestor_name: explicit 1 optional, request_list,
            request_extensions: explicit 2 optional,
        })
    }
}

impl Rows for TbsRequest {
    fn with_rows<U: RowUser>(&self, other: &Self, user: &mut U) -> U::Answer {
        lend!(self, other, user;
            version: explicit 0 default, requestor_name: explicit 1 optional, request_list,
            request_extensions: explicit 2 optional)
    }

    ghost apart = { refl };
}
