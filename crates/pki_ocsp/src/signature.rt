//! Signature.

ghost use Rattle.std.specs.Prelude.{refl};
ghost use Rattle.der_core.specs.Grammar.{plain_option};

use der_core::describing::{AsRecord, Described, FieldRow, FieldsView, RowUser, Rows};
use der_core::{DecodeFields, Error, Explicit, Reader, Shaped, lend, read_row};
use der_types::BitString;
use std::alloc::Global;
use x509_cert_reading::{AlgorithmIdentifier, CertificateInner, Raw};

/// ```text
/// Signature ::= SEQUENCE {
///     signatureAlgorithm      AlgorithmIdentifier,
///     signature               BIT STRING,
///     certs               [0] EXPLICIT SEQUENCE OF Certificate OPTIONAL }
/// ```
#[derive(Debug, Drop, PartialEq, Eq)]
pub struct Signature {
    pub signature_algorithm: AlgorithmIdentifier,
    pub signature: BitString,
    pub certs: Option<Vec<CertificateInner<Raw>>>,
}

type Row = (
    AlgorithmIdentifier,
    (
        BitString,
        (Option<Explicit<Vec<CertificateInner<Raw>>, 0>>, ()),
    ),
);

impl Described for Signature {
    type By = AsRecord;
}

impl FieldsView for Signature {
    ghost body = { ⟦<Row as FieldRow>⟧.fields };

    ghost view = { λ r. (
      ⟦<AlgorithmIdentifier as Shaped>⟧.plain r.signature_algorithm,
      (
        ⟦<BitString as Shaped>⟧.plain r.signature,
        (plain_option ⟦<Vec<CertificateInner<Raw>> as Shaped>⟧.plain r.certs, tt),
      ),
    ) };
}

impl<'a, R: Reader<'a>> DecodeFields<'a, R> for Signature {
    fn decode_fields(alloc: Global, reader: &mut R) -> Result<Signature, Error> {
        read_row!(alloc, reader; Signature {
            signature_algorithm, signature, certs: explicit 0 optional,
        })
    }
}

impl Rows for Signature {
    fn with_rows<U: RowUser>(&self, other: &Self, user: &mut U) -> U::Answer {
        lend!(self, other, user; signature_algorithm, signature, certs: explicit 0 optional)
    }

    ghost apart = { refl };
}
