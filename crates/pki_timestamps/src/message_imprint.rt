//! MessageImprint.

ghost use Rattle.std.specs.Prelude.{refl};

use der_core::describing::{AsRecord, Described, FieldRow, FieldsView, RowUser, Rows};
use der_core::{DecodeFields, Error, Reader, Shaped, lend, read_row};
use der_types::OctetString;
use std::alloc::Global;
use x509_cert_reading::AlgorithmIdentifier;

/// ```text
/// MessageImprint ::= SEQUENCE  {
///     hashAlgorithm                AlgorithmIdentifier,
///     hashedMessage                OCTET STRING  }
/// ```
#[derive(Debug, Drop, PartialEq, Eq)]
pub struct MessageImprint {
    pub hash_algorithm: AlgorithmIdentifier,
    pub hashed_message: OctetString,
}

type Row = (AlgorithmIdentifier, (OctetString, ()));

impl Described for MessageImprint {
    type By = AsRecord;
}

impl FieldsView for MessageImprint {
    ghost body = { ⟦<Row as FieldRow>⟧.fields };

    ghost view = { λ r. (
      ⟦<AlgorithmIdentifier as Shaped>⟧.plain r.hash_algorithm,
      (⟦<OctetString as Shaped>⟧.plain r.hashed_message, tt),
    ) };
}

impl<'a, R: Reader<'a>> DecodeFields<'a, R> for MessageImprint {
    fn decode_fields(alloc: Global, reader: &mut R) -> Result<MessageImprint, Error> {
        read_row!(alloc, reader; MessageImprint { hash_algorithm, hashed_message })
    }
}

impl Rows for MessageImprint {
    fn with_rows<U: RowUser>(&self, other: &Self, user: &mut U) -> U::Answer {
        lend!(self, other, user; hash_algorithm, hashed_message)
    }

    ghost apart = { refl };
}
