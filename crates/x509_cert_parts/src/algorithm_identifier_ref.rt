ghost use Rattle.std.specs.Prelude.{◌≡◌, refl, IfOk};
ghost use Rattle.der_core.specs.Oid.Bound.{Bound};
ghost use Rattle.x509_cert_parts.specs.Grammar.{algorithm_fields};
ghost use Rattle.x509_cert_parts.specs.Views.{algorithm_plain, algorithm_lent};

use crate::algorithm_identifier::AlgorithmIdentifier;
use der_core::describing::{AsRecord, DecodeRow, Described, FieldsView, RowUser, Rows};
use der_core::oid::ObjectIdentifier;
use der_core::{DecodeFields, Error, Reader, lend, row};
use der_types::AnyRef;
use std::alloc::{AllocError, Global};

/// An algorithm and its parameters (RFC 5280 4.1.1.2), with the parameters borrowed.
///
/// ```text
/// AlgorithmIdentifier ::= SEQUENCE {
///     algorithm   OBJECT IDENTIFIER,
///     parameters  ANY DEFINED BY algorithm OPTIONAL }
/// ```
#[derive(Clone, Copy, Debug, PartialEq, Eq)]
pub struct AlgorithmIdentifierRef<'a> {
    /// The OID of the algorithm.
    pub oid: ObjectIdentifier<39>,
    /// The parameters, undecoded. Parameters that are NULL differ from absent parameters.
    pub parameters: Option<AnyRef<'a>>,
}

impl<'a> AlgorithmIdentifierRef<'a> {
    /// Returns an owned copy of the algorithm.
    ///
    /// # Errors
    ///
    /// - `AllocError`: memory runs out.
    pub fn ref_to_owned(&self, alloc: Global) -> Result<AlgorithmIdentifier, AllocError>
        ensures { IfOk result (λ a. algorithm_plain a ≡ algorithm_lent self.now) }
    {
        let parameters = match &self.parameters {
            Some(parameters) => Some(parameters.ref_to_owned(alloc)?),
            None => None,
        };
        Ok(AlgorithmIdentifier {
            oid: self.oid,
            parameters,
        })
    }
}

impl<'a> FieldsView for AlgorithmIdentifierRef<'a> {
    ghost body = { algorithm_fields Bound };

    ghost view = { algorithm_lent };
}

impl<'a, R: Reader<'a>> DecodeFields<'a, R> for AlgorithmIdentifierRef<'a> {
    fn decode_fields(alloc: Global, reader: &mut R) -> Result<AlgorithmIdentifierRef<'a>, Error> {
        match DecodeRow::decode_row(alloc, reader) {
            Ok(row!(oid, parameters)) => Ok(AlgorithmIdentifierRef { oid, parameters }),
            Err(error) => Err(error),
        }
    }
}

impl<'a> Described for AlgorithmIdentifierRef<'a> {
    type By = AsRecord;
}

impl<'a> Rows for AlgorithmIdentifierRef<'a> {
    fn with_rows<U: RowUser>(&self, other: &Self, user: &mut U) -> U::Answer {
        lend!(self, other, user; oid, parameters)
    }

    ghost apart = { refl };
}
