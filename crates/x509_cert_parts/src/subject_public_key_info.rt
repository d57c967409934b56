ghost use Rattle.std.specs.Prelude.{◌≡◌, refl};
ghost use Rattle.der_core.specs.Oid.Bound.{Bound};
ghost use Rattle.der_core.specs.Copies.{IsCopy};
ghost use Rattle.x509_cert_parts.specs.Grammar.{public_key_fields};
ghost use Rattle.x509_cert_parts.specs.Views.{key_plain, key_lent};

use crate::algorithm_identifier::AlgorithmIdentifier;
use crate::subject_public_key_info_ref::SubjectPublicKeyInfoRef;
use der_core::describing::{AsRecord, Described, FieldsView, RowUser, Rows};
use der_core::{DecodeFields, Error, Reader, lend, read_row};
use der_types::BitString;
use std::alloc::{AllocError, Global};

/// A public key and its algorithm (RFC 5280 4.1.2.7).
///
/// ```text
/// SubjectPublicKeyInfo ::= SEQUENCE {
///     algorithm         AlgorithmIdentifier,
///     subjectPublicKey  BIT STRING }
/// ```
#[derive(Debug, PartialEq, Eq, Drop)]
pub struct SubjectPublicKeyInfo {
    /// The algorithm with which the key is used.
    pub algorithm: AlgorithmIdentifier,
    /// The key.
    pub subject_public_key: BitString,
}

impl SubjectPublicKeyInfo {
    /// Returns a copy.
    ///
    /// # Errors
    ///
    /// - `AllocError`: memory runs out.
    pub fn clone(&self, alloc: Global) -> Result<SubjectPublicKeyInfo, AllocError>
        ensures { IsCopy self.now result key_plain }
    {
        Ok(SubjectPublicKeyInfo {
            algorithm: self.algorithm.clone(alloc)?,
            subject_public_key: self.subject_public_key.clone(alloc)?,
        })
    }

    /// Returns the key with its parts borrowed.
    pub fn owned_to_ref(&self) -> SubjectPublicKeyInfoRef<'_>
        ensures { key_lent result ≡ key_plain self.now }
    {
        SubjectPublicKeyInfoRef {
            algorithm: self.algorithm.owned_to_ref(),
            subject_public_key: self.subject_public_key.owned_to_ref(),
        }
    }
}

impl FieldsView for SubjectPublicKeyInfo {
    ghost body = { public_key_fields Bound };

    ghost view = { key_plain };
}

impl<'a, R: Reader<'a>> DecodeFields<'a, R> for SubjectPublicKeyInfo {
    fn decode_fields(alloc: Global, reader: &mut R) -> Result<SubjectPublicKeyInfo, Error> {
        read_row!(alloc, reader; SubjectPublicKeyInfo { algorithm, subject_public_key })
    }
}

impl Described for SubjectPublicKeyInfo {
    type By = AsRecord;
}

impl Rows for SubjectPublicKeyInfo {
    fn with_rows<U: RowUser>(&self, other: &Self, user: &mut U) -> U::Answer {
        lend!(self, other, user; algorithm, subject_public_key)
    }

    ghost apart = { refl };
}
