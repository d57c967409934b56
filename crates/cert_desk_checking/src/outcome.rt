//! The outcomes of a run over inputs.
ghost use Rattle.std.specs.Prelude.{◌≡◌};
ghost use Rattle.cert_desk_checking.specs.Runs.{outcome_of};

use crate::anchor_fault::AnchorFault;
use crate::anchors_error::AnchorsError;
use cert_desk_rules::Checked;

/// The outcome of a run.
#[derive(Clone, Copy, Debug, PartialEq, Eq)]
pub enum Outcome {
    /// The verdict on the chain.
    Checked(Checked),
    /// The trust anchor that begins at this offset is rejected.
    BadAnchors {
        /// The offset of the trust anchor.
        offset: u64,
        /// Why it is rejected.
        fault: AnchorFault,
    },
    /// A read of an input failed.
    Device,
    /// Memory ran out.
    OutOfMemory,
}

impl From<AnchorsError> for Outcome {
    ghost from_gives = { λ e r. r ≡ outcome_of e };

    fn from(error: AnchorsError) -> Outcome {
        match error {
            AnchorsError::BadAnchors { offset, fault } => Outcome::BadAnchors { offset, fault },
            AnchorsError::Device => Outcome::Device,
            AnchorsError::OutOfMemory => Outcome::OutOfMemory,
        }
    }
}
