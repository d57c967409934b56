//! A record.

ghost use Rattle.std.specs.Prelude.{refl};

use crate::fare::Fare;
use crate::holder::Holder;
use crate::seat::Seat;
use der_core::describing::{AsRecord, Described, FieldRow, RowUser, Rows};
use der_core::{DecodeFields, Error, Fields, Reader, lend, read_row};
use std::alloc::Global;

/// ```text
/// Ticket ::= SEQUENCE {
///     seat    Seat,
///     fare    Fare,
///     holder  Holder }
/// ```
#[derive(Debug, Drop)]
pub struct Ticket {
    seat: Seat,
    fare: Fare,
    holder: Holder,
}

type Row = (Seat, (Fare, (Holder, ())));

impl Described for Ticket {
    type By = AsRecord;
}

impl Fields for Ticket {
    ghost fields = { ⟦<Row as FieldRow>⟧.fields };

    ghost fields_plain = { λ t. ⟦<Row as FieldRow>⟧.fields_plain
        (t.seat, (t.fare, (t.holder, tt))) };

    ghost fields_written = { λ t. ⟦<Row as FieldRow>⟧.fields_written
        (t.seat, (t.fare, (t.holder, tt))) };
}

impl<'a, R: Reader<'a>> DecodeFields<'a, R> for Ticket {
    fn decode_fields(alloc: Global, reader: &mut R) -> Result<Ticket, Error> {
        read_row!(alloc, reader; Ticket { seat, fare, holder })
    }
}

impl Rows for Ticket {
    fn with_rows<U: RowUser>(&self, other: &Self, user: &mut U) -> U::Answer {
        lend!(self, other, user; seat, fare, holder)
    }

    ghost apart = { refl };
}
