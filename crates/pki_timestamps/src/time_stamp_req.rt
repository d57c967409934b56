//! TimeStampReq.

ghost use Rattle.std.specs.Prelude.{refl};
ghost use Rattle.der_core.specs.Grammar.{plain_option};

use crate::aliases::TsaPolicyId;
use crate::message_imprint::MessageImprint;
use crate::time_stamp_req_version::TimeStampReqVersion;
use der_core::describing::{AsRecord, Described, FieldRow, FieldsView, RowUser, Rows};
use der_core::{
    DecodeFields, Error, Implicit, Reader, Shaped, ShapedValue, WithDefault, lend, read_row,
};
use der_types::Int;
use std::alloc::Global;
use x509_cert_reading::Extensions;

/// ```text
/// TimeStampReq ::= SEQUENCE  {
///     version                  INTEGER  { v1(1) },
///     messageImprint           MessageImprint,
///       --a hash algorithm OID and the hash value of the data to be
///       --time-stamped
///     reqPolicy                TSAPolicyId                OPTIONAL,
///     nonce                    INTEGER                    OPTIONAL,
///     certReq                  BOOLEAN                    DEFAULT FALSE,
///     extensions               [0] IMPLICIT Extensions    OPTIONAL  }
/// ```
#[derive(Debug, Drop, PartialEq, Eq)]
pub struct TimeStampReq {
    pub version: TimeStampReqVersion,
    pub message_imprint: MessageImprint,
    pub req_policy: Option<TsaPolicyId>,
    pub nonce: Option<Int>,
    pub cert_req: bool,
    pub extensions: Option<Extensions>,
}

type Row = (
    TimeStampReqVersion,
    (
        MessageImprint,
        (
            Option<TsaPolicyId>,
            (
                Option<Int>,
                (WithDefault<bool>, (Option<Implicit<Extensions, 0>>, ())),
            ),
        ),
    ),
);

impl Described for TimeStampReq {
    type By = AsRecord;
}

impl FieldsView for TimeStampReq {
    ghost body = { ⟦<Row as FieldRow>⟧.fields };

    ghost view = { λ r. (
      ⟦<TimeStampReqVersion as Shaped>⟧.plain r.version,
      (
        ⟦<MessageImprint as Shaped>⟧.plain r.message_imprint,
        (
          plain_option ⟦<TsaPolicyId as Shaped>⟧.plain r.req_policy,
          (
            plain_option ⟦<Int as Shaped>⟧.plain r.nonce,
            (
              ⟦<bool as Shaped>⟧.plain r.cert_req,
              (plain_option ⟦<Extensions as ShapedValue>⟧.value_plain r.extensions, tt),
            ),
          ),
        ),
      ),
    ) };
}

impl<'a, R: Reader<'a>> DecodeFields<'a, R> for TimeStampReq {
    fn decode_fields(alloc: Global, reader: &mut R) -> Result<TimeStampReq, Error> {
        read_row!(alloc, reader; TimeStampReq {
            version, message_imprint, req_policy, nonce, cert_req: default,
            extensions: implicit 0 optional,
        })
    }
}

impl Rows for TimeStampReq {
    fn with_rows<U: RowUser>(&self, other: &Self, user: &mut U) -> U::Answer {
        lend!(self, other, user;
            version, message_imprint, req_policy, nonce, cert_req: default,
            extensions: implicit 0 optional)
    }

    ghost apart = { refl };
}
