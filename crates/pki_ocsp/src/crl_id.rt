//! CrlId.

ghost use Rattle.std.specs.Prelude.{refl};
ghost use Rattle.der_core.specs.Grammar.{plain_option};

use der_core::describing::{AsRecord, Described, FieldRow, FieldsView, RowUser, Rows};
use der_core::{DecodeFields, Error, Explicit, Reader, Shaped, lend, read_row};
use der_types::{GeneralizedTime, Ia5String, Int};
use std::alloc::Global;

/// ```text
/// CrlID ::= SEQUENCE {
///     crlUrl               [0]     EXPLICIT IA5String OPTIONAL,
///     crlNum               [1]     EXPLICIT INTEGER OPTIONAL,
///     crlTime              [2]     EXPLICIT GeneralizedTime OPTIONAL }
/// ```
#[derive(Debug, Drop, PartialEq, Eq)]
pub struct CrlId {
    pub crl_url: Option<Ia5String>,
    pub crl_num: Option<Int>,
    pub crl_time: Option<GeneralizedTime>,
}

type Row = (
    Option<Explicit<Ia5String, 0>>,
    (
        Option<Explicit<Int, 1>>,
        (Option<Explicit<GeneralizedTime, 2>>, ()),
    ),
);

impl Described for CrlId {
    type By = AsRecord;
}

impl FieldsView for CrlId {
    ghost body = { ⟦<Row as FieldRow>⟧.fields };

    ghost view = { λ r. (
      plain_option ⟦<Ia5String as Shaped>⟧.plain r.crl_url,
      (
        plain_option ⟦<Int as Shaped>⟧.plain r.crl_num,
        (plain_option ⟦<GeneralizedTime as Shaped>⟧.plain r.crl_time, tt),
      ),
    ) };
}

impl<'a, R: Reader<'a>> DecodeFields<'a, R> for CrlId {
    fn decode_fields(alloc: Global, reader: &mut R) -> Result<CrlId, Error> {
        read_row!(alloc, reader; CrlId {
            crl_url: explicit 0 optional, crl_num: explicit 1 optional,
            crl_time: explicit 2 optional,
        })
    }
}

impl Rows for CrlId {
    fn with_rows<U: RowUser>(&self, other: &Self, user: &mut U) -> U::Answer {
        lend!(self, other, user;
            crl_url: explicit 0 optional, crl_num: explicit 1 optional,
            crl_time: explicit 2 optional)
    }

    ghost apart = { refl };
}
