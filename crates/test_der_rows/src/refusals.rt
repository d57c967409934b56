//! The errors of questions.

use crate::shown::shown;
use der_core::{Error, ErrorKind};
use hex::FromHexError;
use std::alloc::{AllocError, AllocFailed, Global};
use std::fmt;
use std::num::ParseIntError;

/// The error with which a question is answered.
#[derive(Clone, Copy)]
pub enum Refusal {
    /// The question has an unknown form, or its type is unknown.
    Unread,
    /// Memory ran out.
    Memory,
    /// A call that ran out of memory changed something.
    Changed,
    /// The bytes don't encode a value of the type, or its values can't be encoded.
    Der(Error),
    /// The text, the bytes or the arcs aren't an OID.
    Identifier(const_oid::Error),
}

impl Refusal {
    /// Returns the text of the kind of error.
    pub fn reason(self, alloc: Global) -> Result<String, Refusal> {
        match self {
            Refusal::Der(error) => shown(alloc, error.kind),
            Refusal::Identifier(error) => shown(alloc, error),
            refusal => Err(refusal),
        }
    }

    /// Returns the position in the input at which the error was found.
    pub fn place(self, alloc: Global) -> Result<String, Refusal> {
        match self {
            Refusal::Der(
                Error {
                    position: Some(place),
                    ..
                },
            ) => shown(alloc, place),
            Refusal::Der(_) => shown(alloc, "none"),
            refusal => Err(refusal),
        }
    }
}

impl From<Error> for Refusal {
    fn from(error: Error) -> Refusal {
        match error.kind {
            ErrorKind::OutOfMemory => Refusal::Memory,
            _ => Refusal::Der(error),
        }
    }
}

impl From<const_oid::Error> for Refusal {
    fn from(error: const_oid::Error) -> Refusal {
        Refusal::Identifier(error)
    }
}

impl From<FromHexError> for Refusal {
    fn from(error: FromHexError) -> Refusal {
        match error {
            FromHexError::OutOfMemory => Refusal::Memory,
            _ => Refusal::Unread,
        }
    }
}

impl From<AllocError> for Refusal {
    fn from(_error: AllocError) -> Refusal {
        Refusal::Memory
    }
}

impl<T: Drop> From<AllocFailed<T>> for Refusal {
    fn from(_error: AllocFailed<T>) -> Refusal {
        Refusal::Memory
    }
}

impl From<ParseIntError> for Refusal {
    fn from(_error: ParseIntError) -> Refusal {
        Refusal::Unread
    }
}

impl fmt::Display for Refusal {
    fn fmt<W: fmt::Write>(&self, f: &mut fmt::Formatter<W>) -> fmt::Result {
        match self {
            Refusal::Unread => f.write_str("?"),
            Refusal::Memory => f.write_str("memory"),
            Refusal::Changed => f.write_str("changed"),
            Refusal::Der(error) => write!(f, "refused {:?}", error.kind),
            Refusal::Identifier(error) => write!(f, "refused {error:?}"),
        }
    }
}
