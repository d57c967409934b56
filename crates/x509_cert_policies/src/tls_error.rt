//! The error of decoding or encoding values of TLS.

ghost use Rattle.std.specs.Prelude.{◌≡◌};
ghost use Rattle.x509_cert_policies.specs.declared.tls_error.TlsError.TheVariants.{OutOfMemory};

use std::alloc::{AllocError, AllocFailed};
use thiserror::Error;

/// The error of decoding or encoding values in the presentation language of TLS (RFC 5246 4).
#[derive(Clone, Copy, Debug, PartialEq, Eq, Error)]
pub enum TlsError {
    /// The bytes end within a value.
    #[error("the octets end within a value")]
    EndOfStream,
    /// A number isn't a value of its enumeration.
    #[error("{0} has no meaning")]
    UnknownValue(u64),
    /// Bytes follow the last value.
    #[error("octets stand after the last value")]
    TrailingData,
    /// A vector has more bytes than its length field can express.
    #[error("a vector is too long")]
    InvalidVectorLength,
    /// Memory runs out.
    #[error("out of memory")]
    OutOfMemory,
}

impl From<AllocError> for TlsError {
    ghost from_gives = { λ _ e. e ≡ OutOfMemory };

    fn from(_error: AllocError) -> TlsError {
        TlsError::OutOfMemory
    }
}

impl<T: Drop> From<AllocFailed<T>> for TlsError {
    ghost from_gives = { λ _ e. e ≡ OutOfMemory };

    fn from(_error: AllocFailed<T>) -> TlsError {
        TlsError::OutOfMemory
    }
}
