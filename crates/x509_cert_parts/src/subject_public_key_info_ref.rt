ghost use Rattle.std.specs.Prelude.{◌≡◌, refl, IfOk};
ghost use Rattle.der_core.specs.Oid.Bound.{Bound};
ghost use Rattle.x509_cert_parts.specs.Grammar.{public_key_fields};
ghost use Rattle.x509_cert_parts.specs.Views.{key_plain, key_lent};

use crate::algorithm_identifier_ref::AlgorithmIdentifierRef;
use crate::subject_public_key_info::SubjectPublicKeyInfo;
use der_core::describing::{AsRecord, DecodeRow, Described, FieldsView, RowUser, Rows};
use der_core::{DecodeFields, Error, Reader, lend, row};
use der_types::BitStringRef;
use std::alloc::{AllocError, Global};

/// A public key and its algorithm (RFC 5280 4.1.2.7), with the parts borrowed.
///
/// ```text
/// SubjectPublicKeyInfo ::= SEQUENCE {
///     algorithm         AlgorithmIdentifier,
///     subjectPublicKey  BIT STRING }
/// ```
#[derive(Clone, Copy, Debug, PartialEq, Eq)]
pub struct SubjectPublicKeyInfoRef<'a> {
    /// The algorithm with which the key is used.
    pub algorithm: AlgorithmIdentifierRef<'a>,
    /// The key.
    pub subject_public_key: BitStringRef<'a>,
}

impl<'a> SubjectPublicKeyInfoRef<'a> {
    /// Returns an owned copy of the key.
    ///
    /// # Errors
    ///
    /// - `AllocError`: memory runs out.
    pub fn ref_to_owned(&self, alloc: Global) -> Result<SubjectPublicKeyInfo, AllocError>
        ensures { IfOk result (λ k. key_plain k ≡ key_lent self.now) }
    {
        Ok(SubjectPublicKeyInfo {
            algorithm: self.algorithm.ref_to_owned(alloc)?,
            subject_public_key: self.subject_public_key.ref_to_owned(alloc)?,
        })
    }
}

impl<'a> FieldsView for SubjectPublicKeyInfoRef<'a> {
    ghost body = { public_key_fields Bound };

    ghost view = { key_lent };
}

impl<'a, R: Reader<'a>> DecodeFields<'a, R> for SubjectPublicKeyInfoRef<'a> {
    fn decode_fields(alloc: Global, reader: &mut R) -> Result<SubjectPublicKeyInfoRef<'a>, Error> {
        match DecodeRow::decode_row(alloc, reader) {
            Ok(row!(algorithm, subject_public_key)) => Ok(SubjectPublicKeyInfoRef {
                algorithm,
                subject_public_key,
            }),
            Err(error) => Err(error),
        }
    }
}

impl<'a> Described for SubjectPublicKeyInfoRef<'a> {
    type By = AsRecord;
}

impl<'a> Rows for SubjectPublicKeyInfoRef<'a> {
    fn with_rows<U: RowUser>(&self, other: &Self, user: &mut U) -> U::Answer {
        lend!(self, other, user; algorithm, subject_public_key)
    }

    ghost apart = { refl };
}
