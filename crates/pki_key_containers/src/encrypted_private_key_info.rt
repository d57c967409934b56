//! EncryptedPrivateKeyInfo.

ghost use Rattle.std.specs.Prelude.{refl};

use crate::aliases::{EncryptedData, EncryptionAlgorithmIdentifier};
use der_core::describing::{AsRecord, Described, FieldRow, FieldsView, RowUser, Rows};
use der_core::{DecodeFields, Error, Reader, Shaped, lend, read_row};
use std::alloc::Global;

/// ```text
/// EncryptedPrivateKeyInfo ::= SEQUENCE {
///     encryptionAlgorithm  EncryptionAlgorithmIdentifier,
///     encryptedData        EncryptedData }
/// ```
#[derive(Debug, Drop, PartialEq, Eq)]
pub struct EncryptedPrivateKeyInfo {
    pub encryption_algorithm: EncryptionAlgorithmIdentifier,
    pub encrypted_data: EncryptedData,
}

type Row = (EncryptionAlgorithmIdentifier, (EncryptedData, ()));

impl Described for EncryptedPrivateKeyInfo {
    type By = AsRecord;
}

impl FieldsView for EncryptedPrivateKeyInfo {
    ghost body = { ⟦<Row as FieldRow>⟧.fields };

    ghost view = { λ r. (
      ⟦<EncryptionAlgorithmIdentifier as Shaped>⟧.plain r.encryption_algorithm,
      (⟦<EncryptedData as Shaped>⟧.plain r.encrypted_data, tt),
    ) };
}

impl<'a, R: Reader<'a>> DecodeFields<'a, R> for EncryptedPrivateKeyInfo {
    fn decode_fields(alloc: Global, reader: &mut R) -> Result<EncryptedPrivateKeyInfo, Error> {
        read_row!(alloc, reader; EncryptedPrivateKeyInfo { encryption_algorithm, encrypted_data })
    }
}

impl Rows for EncryptedPrivateKeyInfo {
    fn with_rows<U: RowUser>(&self, other: &Self, user: &mut U) -> U::Answer {
        lend!(self, other, user; encryption_algorithm, encrypted_data)
    }

    ghost apart = { refl };
}
