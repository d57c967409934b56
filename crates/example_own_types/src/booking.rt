//! A record with default fields, an optional field and a set.

ghost use Rattle.std.specs.Prelude.{refl};
ghost use Rattle.der_core.specs.Grammar.{plain_option};

use crate::fare::Fare;
use crate::ticket::Ticket;
use der_core::describing::{AsRecord, Described, FieldRow, FieldsView, RowUser, Rows};
use der_core::{
    DecodeFields, Error, Explicit, Implicit, Reader, Shaped, ShapedValue, StrictSetOf, WithDefault,
    lend, read_row,
};
use std::alloc::Global;

/// ```text
/// Booking ::= SEQUENCE {
///     fare     [0] EXPLICIT Fare DEFAULT full,
///     refund   [1] IMPLICIT BOOLEAN DEFAULT FALSE,
///     remark   [2] IMPLICIT UTF8String OPTIONAL,
///     tickets  SET OF Ticket }
/// ```
#[derive(Debug, Drop)]
pub struct Booking {
    fare: Fare,
    refund: bool,
    remark: Option<String>,
    tickets: StrictSetOf<Ticket>,
}

type Row = (
    WithDefault<Explicit<Fare, 0>>,
    (
        WithDefault<Implicit<bool, 1>>,
        (Option<Implicit<String, 2>>, (StrictSetOf<Ticket>, ())),
    ),
);

impl Described for Booking {
    type By = AsRecord;
}

impl FieldsView for Booking {
    ghost body = { ⟦<Row as FieldRow>⟧.fields };

    ghost view = { λ b. (
      ⟦<Fare as Shaped>⟧.plain b.fare,
      (
        ⟦<bool as Shaped>⟧.plain b.refund,
        (
          plain_option ⟦<String as ShapedValue>⟧.value_plain b.remark,
          (⟦<StrictSetOf<Ticket> as Shaped>⟧.plain b.tickets, tt),
        ),
      ),
    ) };
}

impl<'a, R: Reader<'a>> DecodeFields<'a, R> for Booking {
    fn decode_fields(alloc: Global, reader: &mut R) -> Result<Booking, Error> {
        read_row!(alloc, reader; Booking {
            fare: explicit 0 default,
            refund: implicit 1 default,
            remark: implicit 2 optional,
            tickets,
        })
    }
}

impl Rows for Booking {
    fn with_rows<U: RowUser>(&self, other: &Self, user: &mut U) -> U::Answer {
        lend!(self, other, user;
            fare: explicit 0 default,
            refund: implicit 1 default,
            remark: implicit 2 optional,
            tickets,
        )
    }

    ghost apart = { refl };
}
