//! EncryptedContentInfo.

ghost use Rattle.std.specs.Prelude.{refl};
ghost use Rattle.der_core.specs.Grammar.{plain_option};

use crate::aliases::{ContentEncryptionAlgorithmIdentifier, ContentType, EncryptedContent};
use der_core::describing::{AsRecord, Described, FieldRow, FieldsView, RowUser, Rows};
use der_core::{DecodeFields, Error, Implicit, Reader, Shaped, ShapedValue, lend, read_row};
use std::alloc::Global;

/// ```text
/// EncryptedContentInfo ::= SEQUENCE {
///     contentType ContentType,
///     contentEncryptionAlgorithm ContentEncryptionAlgorithmIdentifier,
///     encryptedContent [0] IMPLICIT EncryptedContent OPTIONAL }
/// ```
#[derive(Debug, Drop, PartialEq, Eq)]
pub struct EncryptedContentInfo {
    pub content_type: ContentType,
    pub content_encryption_algorithm: ContentEncryptionAlgorithmIdentifier,
    pub encrypted_content: Option<EncryptedContent>,
}

type Row = (
    ContentType,
    (
        ContentEncryptionAlgorithmIdentifier,
        (Option<Implicit<EncryptedContent, 0>>, ()),
    ),
);

impl Described for EncryptedContentInfo {
    type By = AsRecord;
}

impl FieldsView for EncryptedContentInfo {
    ghost body = { ⟦<Row as FieldRow>⟧.fields };

    ghost view = { λ r. (
      ⟦<ContentType as Shaped>⟧.plain r.content_type,
      (
        ⟦<ContentEncryptionAlgorithmIdentifier as Shaped>⟧.plain r.content_encryption_algorithm,
        (plain_option ⟦<EncryptedContent as ShapedValue>⟧.value_plain r.encrypted_content, tt),
      ),
    ) };
}

impl<'a, R: Reader<'a>> DecodeFields<'a, R> for EncryptedContentInfo {
    fn decode_fields(alloc: Global, reader: &mut R) -> Result<EncryptedContentInfo, Error> {
        read_row!(alloc, reader; EncryptedContentInfo {
            content_type, content_encryption_algorithm, encrypted_content: implicit 0 optional,
        })
    }
}

impl Rows for EncryptedContentInfo {
    fn with_rows<U: RowUser>(&self, other: &Self, user: &mut U) -> U::Answer {
        lend!(self, other, user;
            content_type, content_encryption_algorithm, encrypted_content: implicit 0 optional)
    }

    ghost apart = { refl };
}
