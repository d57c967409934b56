//! PkiStatusInfo.

ghost use Rattle.std.specs.Prelude.{refl};
ghost use Rattle.der_core.specs.Grammar.{plain_option};

use crate::pki_failure_info::PkiFailureInfo;
use crate::pki_status::PkiStatus;
use der_core::describing::{AsRecord, Described, FieldRow, FieldsView, RowUser, Rows};
use der_core::{DecodeFields, Error, Reader, Shaped, lend, read_row};
use std::alloc::Global;

/// ```text
/// PKIStatusInfo ::= SEQUENCE {
///     status        PKIStatus,
///     statusString  PKIFreeText     OPTIONAL,
///     failInfo      PKIFailureInfo  OPTIONAL  }
/// ```
#[derive(Debug, Drop, PartialEq, Eq)]
pub struct PkiStatusInfo {
    pub status: PkiStatus,
    pub status_string: Option<Vec<String>>,
    pub fail_info: Option<PkiFailureInfo>,
}

type Row = (
    PkiStatus,
    (Option<Vec<String>>, (Option<PkiFailureInfo>, ())),
);

impl Described for PkiStatusInfo {
    type By = AsRecord;
}

impl FieldsView for PkiStatusInfo {
    ghost body = { ⟦<Row as FieldRow>⟧.fields };

    ghost view = { λ r. (
      ⟦<PkiStatus as Shaped>⟧.plain r.status,
      (
        plain_option ⟦<Vec<String> as Shaped>⟧.plain r.status_string,
        (plain_option ⟦<PkiFailureInfo as Shaped>⟧.plain r.fail_info, tt),
      ),
    ) };
}

impl<'a, R: Reader<'a>> DecodeFields<'a, R> for PkiStatusInfo {
    fn decode_fields(alloc: Global, reader: &mut R) -> Result<PkiStatusInfo, Error> {
        read_row!(alloc, reader; PkiStatusInfo { status, status_string, fail_info })
    }
}

impl Rows for PkiStatusInfo {
    fn with_rows<U: RowUser>(&self, other: &Self, user: &mut U) -> U::Answer {
        lend!(self, other, user; status, status_string, fail_info)
    }

    ghost apart = { refl };
}
