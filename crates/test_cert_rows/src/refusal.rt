//! The errors of questions.

use cert_desk::{BundleError, OrdersError, SignError};
use der_core::{Error, ErrorKind};
use hex::FromHexError;
use std::alloc::{AllocError, AllocFailed};
use std::fmt;
use std::str::Utf8Error;

/// The error with which a question is answered.
#[derive(Clone, Copy)]
pub enum Refusal {
    /// The question has an unknown form.
    Unread,
    /// Memory ran out.
    Memory,
    /// A call that ran out of memory changed something.
    Changed,
    /// The bytes don't encode a value of the kind.
    Der(ErrorKind),
}

impl From<Error> for Refusal {
    fn from(error: Error) -> Refusal {
        match error.kind {
            ErrorKind::OutOfMemory => Refusal::Memory,
            kind => Refusal::Der(kind),
        }
    }
}

impl From<FromHexError> for Refusal {
    fn from(error: FromHexError) -> Refusal {
        match error {
            FromHexError::OutOfMemory => Refusal::Memory,
            _ => Refusal::Unread,
        }
    }
}

impl From<SignError> for Refusal {
    fn from(error: SignError) -> Refusal {
        match error {
            SignError::OutOfMemory => Refusal::Memory,
            SignError::Refused => Refusal::Unread,
        }
    }
}

impl From<BundleError> for Refusal {
    fn from(error: BundleError) -> Refusal {
        match error {
            BundleError::OutOfMemory => Refusal::Memory,
            _ => Refusal::Unread,
        }
    }
}

impl From<OrdersError> for Refusal {
    fn from(error: OrdersError) -> Refusal {
        match error {
            OrdersError::OutOfMemory => Refusal::Memory,
            OrdersError::Line(_) => Refusal::Unread,
        }
    }
}

impl From<AllocError> for Refusal {
    fn from(_error: AllocError) -> Refusal {
        Refusal::Memory
    }
}

impl<T: Drop> From<AllocFailed<T>> for Refusal {
    fn from(_error: AllocFailed<T>) -> Refusal {
        Refusal::Memory
    }
}

impl From<Utf8Error> for Refusal {
    fn from(_error: Utf8Error) -> Refusal {
        Refusal::Unread
    }
}

impl fmt::Display for Refusal {
    fn fmt<W: fmt::Write>(&self, f: &mut fmt::Formatter<W>) -> fmt::Result {
        match self {
            Refusal::Unread => f.write_str("?"),
            Refusal::Memory => f.write_str("memory"),
            Refusal::Changed => f.write_str("changed"),
            Refusal::Der(kind) => write!(f, "refused {kind:?}"),
        }
    }
}
