ghost use Rattle.std.specs.Prelude.{◌≡◌, true, refl, IsTrue, IfSome};
ghost use Rattle.der_core.specs.Oid.Bound.{Bound};
ghost use Rattle.der_core.specs.Grammar.{plain_option};
ghost use Rattle.der_core.specs.Shapes.{octets_of, optional, any, IsValid, IsBody, body_octets};
ghost use Rattle.der_core.specs.Copies.{IsCopy};
ghost use Rattle.x509_cert_parts.specs.Grammar.{algorithm_fields, algorithm_identifier};
ghost use Rattle.x509_cert_parts.specs.Views.{algorithm_plain, algorithm_lent};

use crate::algorithm_identifier_ref::AlgorithmIdentifierRef;
use crate::fronts::{identifier_front, reads_der};
use der_core::describing::{AsRecord, Described, FieldsView, RowUser, Rows};
use der_core::making::copy_of_option;
use der_core::oid::ObjectIdentifier;
use der_core::{DecodeFields, Error, Reader, lend, read_row};
use der_types::Any;
use std::alloc::{AllocError, Global};

/// An algorithm and its parameters (RFC 5280 4.1.1.2).
///
/// ```text
/// AlgorithmIdentifier ::= SEQUENCE {
///     algorithm   OBJECT IDENTIFIER,
///     parameters  ANY DEFINED BY algorithm OPTIONAL }
/// ```
#[derive(Debug, PartialEq, Eq, Drop)]
pub struct AlgorithmIdentifier {
    /// The OID of the algorithm.
    pub oid: ObjectIdentifier<39>,
    /// The parameters, undecoded. Parameters that are NULL differ from absent parameters.
    pub parameters: Option<Any>,
}

impl AlgorithmIdentifier {
    /// Returns a copy.
    ///
    /// # Errors
    ///
    /// - `AllocError`: memory runs out.
    pub fn clone(&self, alloc: Global) -> Result<AlgorithmIdentifier, AllocError>
        ensures { IsCopy self.now result algorithm_plain }
    {
        Ok(AlgorithmIdentifier {
            oid: self.oid,
            parameters: copy_of_option(alloc, &self.parameters, Any::clone)?,
        })
    }

    /// Returns whether both have the same encoding, as the signature algorithm of a certificate and
    /// that of its TBSCertificate must (RFC 5280 4.1.1.2). The comparison doesn't encode them.
    pub fn has_octets_of(&self, other: &AlgorithmIdentifier) -> bool
        ensures same { IsTrue result
            → octets_of (algorithm_identifier Bound) (algorithm_plain self.now)
            ≡ octets_of (algorithm_identifier Bound) (algorithm_plain other.now) }
        ensures differ { algorithm_plain self.now ≡ algorithm_plain other.now → result ≡ true }
    {
        self == other
    }

    /// Returns the algorithm with its parameters borrowed.
    pub fn owned_to_ref(&self) -> AlgorithmIdentifierRef<'_>
        ensures { algorithm_lent result ≡ algorithm_plain self.now }
    {
        let parameters = match &self.parameters {
            Some(parameters) => Some(parameters.owned_to_ref()),
            None => None,
        };
        AlgorithmIdentifierRef {
            oid: self.oid,
            parameters,
        }
    }
}

impl FieldsView for AlgorithmIdentifier {
    ghost body = { algorithm_fields Bound };

    ghost view = { algorithm_plain };
}

/// Decodes parameters that are absent or NULL. Returns `None` for any other bytes, or if memory
/// runs out; the general decoder then decides.
#[inline(always)]
fn plain_parameters(alloc: Global, octets: &[u8]) -> Option<Option<Any>>
    ensures { IfSome result (λ p. IsValid (optional any) (plain_option (λ v. v) p)
        × (octets.now ≡ octets_of (optional any) (plain_option (λ v. v) p))) }
{
    if octets.is_empty() {
        return Some(None);
    }
    let [first, second] = octets else {
        return None;
    };
    if *first != 0x05 || *second != 0x00 {
        return None;
    }
    Some(Some(Any::null(alloc)))
}

/// Decodes the fields of an algorithm if the header of its OID has two bytes and its parameters are
/// absent or NULL. Returns `None` for any other bytes, or if memory runs out; the general decoder
/// then decides.
#[inline(always)]
fn plain_fields(alloc: Global, octets: &[u8]) -> Option<AlgorithmIdentifier>
    ensures { IfSome result (λ a. IsBody (algorithm_fields Bound) (algorithm_plain a)
        × (body_octets (algorithm_fields Bound) (algorithm_plain a) ≡ octets.now)) }
{
    let Some((identifier, behind)) = identifier_front(octets) else {
        return None;
    };
    let Some(parameters) = plain_parameters(alloc, behind) else {
        return None;
    };
    let Ok(oid) = ObjectIdentifier::from_bytes_sized(identifier) else {
        return None;
    };
    Some(AlgorithmIdentifier { oid, parameters })
}

impl<'a, R: Reader<'a>> DecodeFields<'a, R> for AlgorithmIdentifier {
    // Inlined, so that the fields are moved less often.
    #[inline(always)]
    fn decode_fields(alloc: Global, reader: &mut R) -> Result<AlgorithmIdentifier, Error> {
        if reads_der(reader) {
            let octets = reader.remaining();
            if let Some(algorithm) = plain_fields(alloc, octets) {
                reader.skip(octets.len());
                return Ok(algorithm);
            }
        }
        read_row!(alloc, reader; AlgorithmIdentifier { oid, parameters })
    }
}

impl Described for AlgorithmIdentifier {
    type By = AsRecord;
}

impl Rows for AlgorithmIdentifier {
    fn with_rows<U: RowUser>(&self, other: &Self, user: &mut U) -> U::Answer {
        lend!(self, other, user; oid, parameters)
    }

    ghost apart = { refl };
}
