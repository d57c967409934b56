//! TimeStampResp.

ghost use Rattle.std.specs.Prelude.{refl};
ghost use Rattle.der_core.specs.Grammar.{plain_option};

use crate::aliases::TimeStampToken;
use crate::pki_status_info::PkiStatusInfo;
use der_core::describing::{AsRecord, Described, FieldRow, FieldsView, RowUser, Rows};
use der_core::{DecodeFields, Error, Reader, Shaped, lend, read_row};
use std::alloc::Global;

/// ```text
/// TimeStampResp ::= SEQUENCE  {
///     status                  PKIStatusInfo,
///     timeStampToken          TimeStampToken     OPTIONAL  }
/// ```
#[derive(Debug, Drop, PartialEq, Eq)]
pub struct TimeStampResp {
    pub status: PkiStatusInfo,
    pub time_stamp_token: Option<TimeStampToken>,
}

type Row = (PkiStatusInfo, (Option<TimeStampToken>, ()));

impl Described for TimeStampResp {
    type By = AsRecord;
}

impl FieldsView for TimeStampResp {
    ghost body = { ⟦<Row as FieldRow>⟧.fields };

    ghost view = { λ r. (
      ⟦<PkiStatusInfo as Shaped>⟧.plain r.status,
      (plain_option ⟦<TimeStampToken as Shaped>⟧.plain r.time_stamp_token, tt),
    ) };
}

impl<'a, R: Reader<'a>> DecodeFields<'a, R> for TimeStampResp {
    fn decode_fields(alloc: Global, reader: &mut R) -> Result<TimeStampResp, Error> {
        read_row!(alloc, reader; TimeStampResp { status, time_stamp_token })
    }
}

impl Rows for TimeStampResp {
    fn with_rows<U: RowUser>(&self, other: &Self, user: &mut U) -> U::Answer {
        lend!(self, other, user; status, time_stamp_token)
    }

    ghost apart = { refl };
}
