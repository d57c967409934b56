//! The error of signers.

ghost use Rattle.std.specs.Prelude.{◌≡◌};
ghost use Rattle.x509_cert_builders.specs.declared.sign_error.SignError.TheVariants.{OutOfMemory};

use std::alloc::{AllocError, AllocFailed};
use thiserror::Error;

/// The error of a signer that returns no signature.
#[derive(Clone, Copy, Debug, PartialEq, Eq, Error)]
pub enum SignError {
    /// The signer refuses to sign these bytes.
    #[error("the signer refuses")]
    Refused,
    /// Memory runs out.
    #[error("out of memory")]
    OutOfMemory,
}

impl From<AllocError> for SignError {
    ghost from_gives = { λ _ e. e ≡ OutOfMemory };

    fn from(_error: AllocError) -> SignError {
        SignError::OutOfMemory
    }
}

impl<T: Drop> From<AllocFailed<T>> for SignError {
    ghost from_gives = { λ _ e. e ≡ OutOfMemory };

    fn from(_error: AllocFailed<T>) -> SignError {
        SignError::OutOfMemory
    }
}
