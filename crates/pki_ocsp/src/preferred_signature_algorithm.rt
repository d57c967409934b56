//! PreferredSignatureAlgorithm.

ghost use Rattle.std.specs.Prelude.{refl};
ghost use Rattle.der_core.specs.Grammar.{plain_option};

use der_core::describing::{AsRecord, Described, FieldRow, FieldsView, RowUser, Rows};
use der_core::{DecodeFields, Error, Reader, Shaped, lend, read_row};
use std::alloc::Global;
use x509_cert_reading::AlgorithmIdentifier;

/// ```text
/// PreferredSignatureAlgorithm ::= SEQUENCE {
///     sigIdentifier   AlgorithmIdentifier,
///     certIdentifier  AlgorithmIdentifier OPTIONAL }
/// ```
#[derive(Debug, Drop, PartialEq, Eq)]
pub struct PreferredSignatureAlgorithm {
    pub sig_identifier: AlgorithmIdentifier,
    pub cert_identifier: Option<AlgorithmIdentifier>,
}

type Row = (AlgorithmIdentifier, (Option<AlgorithmIdentifier>, ()));

impl Described for PreferredSignatureAlgorithm {
    type By = AsRecord;
}

impl FieldsView for PreferredSignatureAlgorithm {
    ghost body = { ⟦<Row as FieldRow>⟧.fields };

    ghost view = { λ r. (
      ⟦<AlgorithmIdentifier as Shaped>⟧.plain r.sig_identifier,
      (plain_option ⟦<AlgorithmIdentifier as Shaped>⟧.plain r.cert_identifier, tt),
    ) };
}

impl<'a, R: Reader<'a>> DecodeFields<'a, R> for PreferredSignatureAlgorithm {
    fn decode_fields(alloc: Global, reader: &mut R) -> Result<PreferredSignatureAlgorithm, Error> {
        read_row!(alloc, reader; PreferredSignatureAlgorithm { sig_identifier, cert_identifier })
    }
}

impl Rows for PreferredSignatureAlgorithm {
    fn with_rows<U: RowUser>(&self, other: &Self, user: &mut U) -> U::Answer {
        lend!(self, other, user; sig_identifier, cert_identifier)
    }

    ghost apart = { refl };
}
