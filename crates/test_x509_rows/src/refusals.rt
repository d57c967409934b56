//! The errors of questions.

use der_core::{Error, ErrorKind};
use hex::FromHexError;
use std::alloc::{AllocError, AllocFailed};
use std::fmt;
use std::num::ParseIntError;
use x509_cert::timestamps;
use x509_cert::timestamps::TlsError;

/// The error with which a question is answered.
#[derive(Clone, Copy)]
pub enum Refusal {
    /// The question has an unknown form, or its type is unknown.
    Unread,
    /// Memory ran out.
    Memory,
    /// A call that ran out of memory changed something.
    Changed,
    /// The length of a value's encoding isn't the one that it reports.
    Length,
    /// The bytes don't encode a value of the type, or its values can't be encoded.
    Der(Error),
    /// The bytes don't encode a value of the type in the presentation language of TLS, or its
    /// values can't be encoded.
    Tls(TlsError),
}

impl From<Error> for Refusal {
    fn from(error: Error) -> Refusal {
        match error.kind {
            ErrorKind::OutOfMemory => Refusal::Memory,
            _ => Refusal::Der(error),
        }
    }
}

impl From<TlsError> for Refusal {
    fn from(error: TlsError) -> Refusal {
        match error {
            TlsError::OutOfMemory => Refusal::Memory,
            _ => Refusal::Tls(error),
        }
    }
}

impl From<timestamps::Error> for Refusal {
    fn from(error: timestamps::Error) -> Refusal {
        match error {
            timestamps::Error::Der(error) => Refusal::from(error),
            timestamps::Error::Tls(error) => Refusal::from(error),
        }
    }
}

impl From<FromHexError> for Refusal {
    fn from(error: FromHexError) -> Refusal {
        match error {
            FromHexError::OutOfMemory => Refusal::Memory,
            _ => Refusal::Unread,
        }
    }
}

impl From<AllocError> for Refusal {
    fn from(_error: AllocError) -> Refusal {
        Refusal::Memory
    }
}

impl<T: Drop> From<AllocFailed<T>> for Refusal {
    fn from(_error: AllocFailed<T>) -> Refusal {
        Refusal::Memory
    }
}

impl From<ParseIntError> for Refusal {
    fn from(_error: ParseIntError) -> Refusal {
        Refusal::Unread
    }
}

impl fmt::Display for Refusal {
    fn fmt<W: fmt::Write>(&self, f: &mut fmt::Formatter<W>) -> fmt::Result {
        match self {
            Refusal::Unread => f.write_str("?"),
            Refusal::Memory => f.write_str("memory"),
            Refusal::Changed => f.write_str("changed"),
            Refusal::Length => f.write_str("length"),
            Refusal::Der(error) => write!(f, "refused {:?}", error.kind),
            Refusal::Tls(TlsError::UnknownValue(number)) => {
                write!(f, "refused UnknownValue {number}")
            }
            Refusal::Tls(error) => write!(f, "refused {error:?}"),
        }
    }
}
