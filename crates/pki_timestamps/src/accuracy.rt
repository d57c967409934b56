//! Accuracy.

ghost use Rattle.std.specs.Prelude.{refl};
ghost use Rattle.der_core.specs.Grammar.{plain_option};

use der_core::describing::{AsRecord, Described, FieldRow, FieldsView, RowUser, Rows};
use der_core::{DecodeFields, Error, Implicit, Reader, Shaped, ShapedValue, lend, read_row};
use der_types::Int;
use std::alloc::Global;

/// ```text
/// Accuracy ::= SEQUENCE {
///     seconds        INTEGER           OPTIONAL,
///     millis     [0] INTEGER  (1..999) OPTIONAL,
///     micros     [1] INTEGER  (1..999) OPTIONAL  }
/// ```
#[derive(Debug, Drop, PartialEq, Eq)]
pub struct Accuracy {
    pub seconds: Option<Int>,
    pub millis: Option<u16>,
    pub micros: Option<u16>,
}

type Row = (
    Option<Int>,
    (Option<Implicit<u16, 0>>, (Option<Implicit<u16, 1>>, ())),
);

impl Described for Accuracy {
    type By = AsRecord;
}

impl FieldsView for Accuracy {
    ghost body = { ⟦<Row as FieldRow>⟧.fields };

    ghost view = { λ r. (
      plain_option ⟦<Int as Shaped>⟧.plain r.seconds,
      (
        plain_option ⟦<u16 as ShapedValue>⟧.value_plain r.millis,
        (plain_option ⟦<u16 as ShapedValue>⟧.value_plain r.micros, tt),
      ),
    ) };
}

impl<'a, R: Reader<'a>> DecodeFields<'a, R> for Accuracy {
    fn decode_fields(alloc: Global, reader: &mut R) -> Result<Accuracy, Error> {
        read_row!(alloc, reader; Accuracy {
            seconds, millis: implicit 0 optional, micros: implicit 1 optional,
        })
    }
}

impl Rows for Accuracy {
    fn with_rows<U: RowUser>(&self, other: &Self, user: &mut U) -> U::Answer {
        lend!(self, other, user; seconds, millis: implicit 0 optional, micros: implicit 1 optional)
    }

    ghost apart = { refl };
}
