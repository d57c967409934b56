//! A record with an optional field, a field with a tag, and a set.

ghost use Rattle.std.specs.Prelude.{refl};

use der_core::describing::{AsRecord, Described, FieldRow, RowUser, Rows};
use der_core::{
    DecodeFields, Error, Fields, Implicit, InRange, InRangeValue, Reader, StrictSetOf, lend,
    read_row,
};
use der_types::{BitString, PrintableString, Uint, UtcTime};
use std::alloc::Global;

/// ```text
/// Entry ::= SEQUENCE {
///     number  INTEGER (0..MAX),
///     name    PrintableString,
///     since   UTCTime,
///     uses    [0] IMPLICIT BIT STRING OPTIONAL,
///     codes   SET OF INTEGER (0..65535) }
/// ```
#[derive(Debug, Drop)]
pub struct Entry {
    number: Uint,
    name: PrintableString,
    since: UtcTime,
    uses: Option<Implicit<BitString, 0>>,
    codes: StrictSetOf<u16>,
}

type Row = (
    Uint,
    (
        PrintableString,
        (
            UtcTime,
            (Option<Implicit<BitString, 0>>, (StrictSetOf<u16>, ())),
        ),
    ),
);

impl Described for Entry {
    type By = AsRecord;
}

impl Fields for Entry {
    ghost fields = { ⟦<Row as FieldRow>⟧.fields };

    ghost fields_plain = { λ e. ⟦<Row as FieldRow>⟧.fields_plain
        (e.number, (e.name, (e.since, (e.uses, (e.codes, tt))))) };

    ghost fields_written = { λ e. ⟦<Row as FieldRow>⟧.fields_written
        (e.number, (e.name, (e.since, (e.uses, (e.codes, tt))))) };
}

impl<'a, R: Reader<'a>> DecodeFields<'a, R> for Entry {
    fn decode_fields(alloc: Global, reader: &mut R) -> Result<Entry, Error> {
        read_row!(alloc, reader; Entry { number, name, since, uses, codes })
    }
}

impl Rows for Entry {
    fn with_rows<U: RowUser>(&self, other: &Self, user: &mut U) -> U::Answer {
        lend!(self, other, user; number, name, since, uses, codes)
    }

    ghost apart = { refl };
}

impl InRangeValue for Entry {
    fn value_in_range(&self) {
        self.number.in_range();
        self.name.in_range();
        self.since.in_range();
        self.uses.in_range();
        self.codes.in_range();
    }
}
