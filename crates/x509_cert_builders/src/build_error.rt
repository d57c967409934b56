//! The error of builders.

ghost use Rattle.std.specs.Prelude.{◌≡◌};
ghost use Rattle.x509_cert_builders.specs.declared.build_error.Error.TheVariants.{Asn1, Signature};
ghost use Rattle.x509_cert_builders.specs.Refusals.{IsWantOfMemory};

use crate::sign_error::SignError;
use std::alloc::{AllocError, AllocFailed};
use x509_cert_certificates::oid::ObjectIdentifier;

/// The error of building a certificate or another signed value.
#[derive(Debug, Drop, thiserror::Error)]
pub enum Error {
    /// A value can't be encoded or decoded, or memory runs out.
    #[error("ASN.1: {0}")]
    Asn1(x509_cert_certificates::der::Error),
    /// The signer returned no signature.
    #[error("signature: {0}")]
    Signature(SignError),
    /// An RDN doesn't have exactly one attribute.
    #[error("a relative name hasn't exactly one attribute")]
    NonUniqueRdn,
    /// An attribute type occurs twice in a name.
    #[error("a type of attribute stands twice")]
    NonUniqueATV,
    /// An attribute type isn't allowed in the name, or not at its position.
    #[error("attribute {oid} may not stand there")]
    InvalidAttribute {
        /// The OID of the attribute type.
        oid: ObjectIdentifier<39>,
    },
    /// The name lacks an attribute type that is required.
    #[error("an attribute is missing")]
    MissingAttributes,
    /// The profile doesn't support this kind of certificate.
    #[error("no such certificate is made")]
    Unsupported,
}

impl From<x509_cert_certificates::der::Error> for Error {
    ghost from_gives = { λ e r. r ≡ Asn1 e };

    fn from(error: x509_cert_certificates::der::Error) -> Error {
        Error::Asn1(error)
    }
}

impl From<SignError> for Error {
    ghost from_gives = { λ e r. r ≡ Signature e };

    fn from(error: SignError) -> Error {
        Error::Signature(error)
    }
}

impl From<AllocError> for Error {
    ghost from_gives = { λ _ r. IsWantOfMemory r };

    fn from(error: AllocError) -> Error {
        Error::Asn1(x509_cert_certificates::der::Error::from(error))
    }
}

impl<T: Drop> From<AllocFailed<T>> for Error {
    ghost from_gives = { λ _ r. IsWantOfMemory r };

    fn from(error: AllocFailed<T>) -> Error {
        Error::Asn1(x509_cert_certificates::der::Error::from(error))
    }
}
