//! Why a certificate isn't built.

ghost use Rattle.std.specs.Prelude.{◌≡◌};
ghost use Rattle.cert_desk.specs.declared.stop.Stop.TheVariants.{OutOfMemory};
ghost use Rattle.cert_desk.specs.Refusals.{stop_at, stop_of, stop_of_kind};

use crate::issue_error::IssueError;
use cert_desk_listing::der::{Error, ErrorKind};
use std::alloc::{AllocError, AllocFailed};
use x509_cert_builders::{Error as BuilderError, SignError};

/// Why a certificate isn't built, whatever its index.
#[derive(Clone, Copy)]
pub(crate) enum Stop {
    /// The signer refuses to sign the TBSCertificate.
    Refused,
    /// A length exceeds 2^32 - 1.
    TooLong,
    /// Memory ran out.
    OutOfMemory,
}

impl Stop {
    /// Returns the error for the order at an index.
    pub(crate) fn at(self, place: usize) -> IssueError
        ensures { result ≡ stop_at place self }
    {
        match self {
            Stop::Refused => IssueError::Signer { place },
            Stop::TooLong => IssueError::TooLong { place },
            Stop::OutOfMemory => IssueError::OutOfMemory,
        }
    }
}

impl From<Error> for Stop {
    ghost from_gives = { λ e s. s ≡ stop_of_kind e.kind };

    fn from(error: Error) -> Stop {
        match error.kind {
            ErrorKind::OutOfMemory => Stop::OutOfMemory,
            _ => Stop::TooLong,
        }
    }
}

/// The profile accepts the order. So an error is that memory ran out, that the signer refuses to
/// sign, or that a length is too large.
impl From<BuilderError> for Stop {
    ghost from_gives = { λ e s. s ≡ stop_of e };

    fn from(error: BuilderError) -> Stop {
        match error {
            BuilderError::Asn1(error) => Stop::from(error),
            BuilderError::Signature(SignError::Refused) => Stop::Refused,
            BuilderError::Signature(SignError::OutOfMemory) => Stop::OutOfMemory,
            _ => Stop::TooLong,
        }
    }
}

impl From<AllocError> for Stop {
    ghost from_gives = { λ _ s. s ≡ OutOfMemory };

    fn from(_error: AllocError) -> Stop {
        Stop::OutOfMemory
    }
}

impl<T: Drop> From<AllocFailed<T>> for Stop {
    ghost from_gives = { λ _ s. s ≡ OutOfMemory };

    fn from(_error: AllocFailed<T>) -> Stop {
        Stop::OutOfMemory
    }
}
