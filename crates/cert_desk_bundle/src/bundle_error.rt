//! The errors of a bundle.

ghost use Rattle.std.specs.Prelude.{◌≡◌};
ghost use Rattle.cert_desk_bundle.specs.declared.bundle_error.ReadError.TheVariants.{Bundle};

use crate::fault_kind::FaultKind;
use thiserror::Error;

/// Why a bundle rejects a piece, or the end of the input.
#[derive(Clone, Copy, Debug, PartialEq, Eq, Error)]
pub enum BundleError {
    /// The input isn't a sequence of certificates: `place` certificates come before the error,
    /// which begins at `offset`.
    #[error("{kind} at octet {offset}, after {place} certificates")]
    Fault {
        place: usize,
        offset: u64,
        kind: FaultKind,
    },
    /// An allocation failed. The bundle has failed.
    #[error("out of memory")]
    OutOfMemory,
    /// The bundle has ended or failed before.
    #[error("the bundle failed or ended before")]
    Failed,
}

/// Why an input wasn't read to its end.
#[derive(Clone, Copy, Debug, PartialEq, Eq, Error)]
pub enum ReadError {
    /// A read of the input failed. The bundle has failed, too.
    #[error("a device failed")]
    Device,
    /// The bundle rejected the input.
    #[error(transparent)]
    Bundle(BundleError),
}

impl From<BundleError> for ReadError {
    ghost from_gives = { λ e r. r ≡ Bundle e };

    fn from(error: BundleError) -> ReadError {
        ReadError::Bundle(error)
    }
}
