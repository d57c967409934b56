//! RevokedInfo.

ghost use Rattle.std.specs.Prelude.{refl};
ghost use Rattle.der_core.specs.Grammar.{plain_option};

use der_core::describing::{AsRecord, Described, FieldRow, FieldsView, RowUser, Rows};
use der_core::{DecodeFields, Error, Explicit, Reader, Shaped, lend, read_row};
use der_types::GeneralizedTime;
use std::alloc::Global;
use x509_cert_reading::CrlReason;

/// ```text
/// RevokedInfo ::= SEQUENCE {
///     revocationTime          GeneralizedTime,
///     revocationReason    [0] EXPLICIT CRLReason OPTIONAL }
/// ```
#[derive(Debug, Drop, PartialEq, Eq)]
pub struct RevokedInfo {
    pub revocation_time: GeneralizedTime,
    pub revocation_reason: Option<CrlReason>,
}

type Row = (GeneralizedTime, (Option<Explicit<CrlReason, 0>>, ()));

impl Described for RevokedInfo {
    type By = AsRecord;
}

impl FieldsView for RevokedInfo {
    ghost body = { ⟦<Row as FieldRow>⟧.fields };

    ghost view = { λ r. (
      ⟦<GeneralizedTime as Shaped>⟧.plain r.revocation_time,
      (plain_option ⟦<CrlReason as Shaped>⟧.plain r.revocation_reason, tt),
    ) };
}

impl<'a, R: Reader<'a>> DecodeFields<'a, R> for RevokedInfo {
    fn decode_fields(alloc: Global, reader: &mut R) -> Result<RevokedInfo, Error> {
        read_row!(alloc, reader; RevokedInfo {
            revocation_time, revocation_reason: explicit 0 optional,
        })
    }
}

impl Rows for RevokedInfo {
    fn with_rows<U: RowUser>(&self, other: &Self, user: &mut U) -> U::Answer {
        lend!(self, other, user; revocation_time, revocation_reason: explicit 0 optional)
    }

    ghost apart = { refl };
}
