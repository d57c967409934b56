//! OtherRevocationInfoFormat.

ghost use Rattle.std.specs.Prelude.{refl};

use der_core::describing::{AsRecord, Described, FieldRow, FieldsView, RowUser, Rows};
use der_core::oid::ObjectIdentifier;
use der_core::{DecodeFields, Error, Reader, Shaped, lend, read_row};
use der_types::Any;
use std::alloc::Global;

/// ```text
/// OtherRevocationInfoFormat ::= SEQUENCE {
///     otherRevInfoFormat OBJECT IDENTIFIER,
///     otherRevInfo ANY DEFINED BY otherRevInfoFormat }
/// ```
#[derive(Debug, Drop, PartialEq, Eq)]
pub struct OtherRevocationInfoFormat {
    pub other_rev_info_format: ObjectIdentifier<39>,
    pub other_rev_info: Any,
}

type Row = (ObjectIdentifier<39>, (Any, ()));

impl Described for OtherRevocationInfoFormat {
    type By = AsRecord;
}

impl FieldsView for OtherRevocationInfoFormat {
    ghost body = { ⟦<Row as FieldRow>⟧.fields };

    ghost view = { λ r. (
      ⟦<ObjectIdentifier<39> as Shaped>⟧.plain r.other_rev_info_format,
      (⟦<Any as Shaped>⟧.plain r.other_rev_info, tt),
    ) };
}

impl<'a, R: Reader<'a>> DecodeFields<'a, R> for OtherRevocationInfoFormat {
    fn decode_fields(alloc: Global, reader: &mut R) -> Result<OtherRevocationInfoFormat, Error> {
        read_row!(alloc, reader; OtherRevocationInfoFormat {
            other_rev_info_format, other_rev_info,
        })
    }
}

impl Rows for OtherRevocationInfoFormat {
    fn with_rows<U: RowUser>(&self, other: &Self, user: &mut U) -> U::Answer {
        lend!(self, other, user; other_rev_info_format, other_rev_info)
    }

    ghost apart = { refl };
}
