//! The errors of a single trust anchor.
ghost use Rattle.std.specs.Prelude.{◌≡◌};
ghost use Rattle.cert_desk_checking.specs.declared.anchor_error.AnchorError.TheVariants.{OutOfMemory};

use std::alloc::AllocError;
use thiserror::Error;

/// Why a trust anchor can't be used.
#[derive(Clone, Copy, Debug, PartialEq, Eq, Error)]
pub enum AnchorError {
    /// The trust anchor is a key without a name.
    #[error("the trust anchor has no name")]
    NoName,
    /// The trust anchor is a key with conditions on certification paths besides the name (RFC 5914
    /// 2.5).
    #[error("a path from the trust anchor must meet more than its name")]
    PathControls,
    /// Memory ran out for the copies.
    #[error("out of memory")]
    OutOfMemory,
}

impl From<AllocError> for AnchorError {
    ghost from_gives = { λ e r. r ≡ OutOfMemory };

    fn from(_error: AllocError) -> AnchorError {
        AnchorError::OutOfMemory
    }
}
