//! ContentInfo.

ghost use Rattle.std.specs.Prelude.{refl};

use crate::aliases::ContentType;
use der_core::describing::{AsRecord, Described, FieldRow, FieldsView, RowUser, Rows};
use der_core::{DecodeFields, Error, Explicit, Reader, Shaped, lend, read_row};
use der_types::Any;
use std::alloc::Global;

/// ```text
/// ContentInfo ::= SEQUENCE {
///     contentType ContentType,
///     content [0] EXPLICIT ANY DEFINED BY contentType }
/// ```
#[derive(Debug, Drop, PartialEq, Eq)]
pub struct ContentInfo {
    pub content_type: ContentType,
    pub content: Any,
}

type Row = (ContentType, (Explicit<Any, 0>, ()));

impl Described for ContentInfo {
    type By = AsRecord;
}

impl FieldsView for ContentInfo {
    ghost body = { ⟦<Row as FieldRow>⟧.fields };

    ghost view = { λ r. (
      ⟦<ContentType as Shaped>⟧.plain r.content_type,
      (⟦<Any as Shaped>⟧.plain r.content, tt),
    ) };
}

impl<'a, R: Reader<'a>> DecodeFields<'a, R> for ContentInfo {
    fn decode_fields(alloc: Global, reader: &mut R) -> Result<ContentInfo, Error> {
        read_row!(alloc, reader; ContentInfo { content_type, content: explicit 0 })
    }
}

impl Rows for ContentInfo {
    fn with_rows<U: RowUser>(&self, other: &Self, user: &mut U) -> U::Answer {
        lend!(self, other, user; content_type, content: explicit 0)
    }

    ghost apart = { refl };
}
