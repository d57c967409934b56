//! The errors of questions about builders.

use der_core::ErrorKind;
use hex::FromHexError;
use std::alloc::{AllocError, AllocFailed};
use std::fmt;
use x509_cert::builder::{Error, SignError};

/// The error with which a question is answered.
#[derive(Drop)]
pub enum Refusal {
    /// The question has an unknown form.
    Unread,
    /// Memory ran out.
    Memory,
    /// Two results that should be equal differ, or a call that ran out of memory changed something.
    Changed,
    /// An error of DER, or of the builder.
    Refused(Error),
}

impl From<Error> for Refusal {
    fn from(error: Error) -> Refusal {
        match error {
            Error::Asn1(error) => Refusal::from(error),
            Error::Signature(error) => Refusal::from(error),
            error => Refusal::Refused(error),
        }
    }
}

impl From<der_core::Error> for Refusal {
    fn from(error: der_core::Error) -> Refusal {
        match error.kind {
            ErrorKind::OutOfMemory => Refusal::Memory,
            _ => Refusal::Refused(Error::Asn1(error)),
        }
    }
}

impl From<SignError> for Refusal {
    fn from(error: SignError) -> Refusal {
        match error {
            SignError::OutOfMemory => Refusal::Memory,
            SignError::Refused => Refusal::Refused(Error::Signature(error)),
        }
    }
}

impl From<FromHexError> for Refusal {
    fn from(error: FromHexError) -> Refusal {
        match error {
            FromHexError::OutOfMemory => Refusal::Memory,
            _ => Refusal::Unread,
        }
    }
}

impl From<AllocError> for Refusal {
    fn from(_error: AllocError) -> Refusal {
        Refusal::Memory
    }
}

impl<T: Drop> From<AllocFailed<T>> for Refusal {
    fn from(_error: AllocFailed<T>) -> Refusal {
        Refusal::Memory
    }
}

impl fmt::Display for Refusal {
    fn fmt<W: fmt::Write>(&self, f: &mut fmt::Formatter<W>) -> fmt::Result {
        match self {
            Refusal::Unread => f.write_str("?"),
            Refusal::Memory => f.write_str("memory"),
            Refusal::Changed => f.write_str("changed"),
            Refusal::Refused(Error::Asn1(error)) => write!(f, "refused {:?}", error.kind),
            Refusal::Refused(Error::Signature(error)) => write!(f, "refused {error:?}"),
            Refusal::Refused(Error::NonUniqueRdn) => f.write_str("refused NonUniqueRdn"),
            Refusal::Refused(Error::NonUniqueATV) => f.write_str("refused NonUniqueATV"),
            Refusal::Refused(Error::InvalidAttribute { oid }) => {
                write!(f, "refused InvalidAttribute {oid}")
            }
            Refusal::Refused(Error::MissingAttributes) => f.write_str("refused MissingAttributes"),
            Refusal::Refused(Error::Unsupported) => f.write_str("refused Unsupported"),
        }
    }
}
