//! EncapsulatedContentInfo.

ghost use Rattle.std.specs.Prelude.{refl};
ghost use Rattle.der_core.specs.Grammar.{plain_option};

use crate::aliases::ContentType;
use der_core::describing::{AsRecord, Described, FieldRow, FieldsView, RowUser, Rows};
use der_core::{DecodeFields, Error, Explicit, Reader, Shaped, lend, read_row};
use der_types::OctetString;
use std::alloc::Global;

/// ```text
/// EncapsulatedContentInfo ::= SEQUENCE {
///     eContentType ContentType,
///     eContent [0] EXPLICIT OCTET STRING OPTIONAL }
/// ```
#[derive(Debug, Drop, PartialEq, Eq)]
pub struct EncapsulatedContentInfo {
    pub e_content_type: ContentType,
    pub e_content: Option<OctetString>,
}

type Row = (ContentType, (Option<Explicit<OctetString, 0>>, ()));

impl Described for EncapsulatedContentInfo {
    type By = AsRecord;
}

impl FieldsView for EncapsulatedContentInfo {
    ghost body = { ⟦<Row as FieldRow>⟧.fields };

    ghost view = { λ r. (
      ⟦<ContentType as Shaped>⟧.plain r.e_content_type,
      (plain_option ⟦<OctetString as Shaped>⟧.plain r.e_content, tt),
    ) };
}

impl<'a, R: Reader<'a>> DecodeFields<'a, R> for EncapsulatedContentInfo {
    fn decode_fields(alloc: Global, reader: &mut R) -> Result<EncapsulatedContentInfo, Error> {
        read_row!(alloc, reader; EncapsulatedContentInfo {
            e_content_type, e_content: explicit 0 optional,
        })
    }
}

impl Rows for EncapsulatedContentInfo {
    fn with_rows<U: RowUser>(&self, other: &Self, user: &mut U) -> U::Answer {
        lend!(self, other, user; e_content_type, e_content: explicit 0 optional)
    }

    ghost apart = { refl };
}
