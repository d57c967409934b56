//! Rows of fields as nested pairs: `(A, (B, (C, ())))`.

ghost use Rattle.der_core_octets.specs.CoreHead.Shapes.{field, done};

use crate::decode::{Decode, Shaped};
use crate::fields::{DecodeRow, FieldRow};
use crate::in_range::{InRange, InRangeFields};
use der_core_octets::Reader;
use der_core_octets::core_head::{Error, ErrorKind};
use std::alloc::Global;

impl FieldRow for () {
    ghost fields = { done };

    ghost fields_plain = { λ x. x };

    ghost fields_written = { λ x. x };
}

impl<A: Shaped, B: FieldRow> FieldRow for (A, B) {
    ghost fields = { field A.shape B.fields };

    ghost fields_plain = { λ x. (A.plain x.0, B.fields_plain x.1) };

    ghost fields_written = { λ x. (A.written x.0, B.fields_written x.1) };
}

impl<'a, R: Reader<'a>> DecodeRow<'a, R> for () {
    fn decode_row(_alloc: Global, reader: &mut R) -> Result<(), Error> {
        if reader.is_failed() {
            return Err(Error::from(ErrorKind::Failed));
        }
        Ok(())
    }
}

impl<'a, R: Reader<'a>, A: Decode<'a, R>, B: DecodeRow<'a, R>> DecodeRow<'a, R> for (A, B) {
    fn decode_row(alloc: Global, reader: &mut R) -> Result<(A, B), Error> {
        let first = A::decode(alloc, reader)?;
        let others = B::decode_row(alloc, reader)?;
        Ok((first, others))
    }
}

impl InRangeFields for () {
    fn fields_in_range(&self) {}
}

impl<A: InRange, B: InRangeFields> InRangeFields for (A, B) {
    fn fields_in_range(&self) {
        self.0.in_range();
        self.1.fields_in_range();
    }
}
