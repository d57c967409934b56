//! The states of a bundle.

use crate::fault_kind::FaultKind;

/// The state of a bundle.
#[derive(Clone, Copy, Debug, PartialEq, Eq)]
pub enum Standing {
    /// The bundle accepts pieces.
    Open,
    /// The input is complete.
    Ended,
    /// The input has an error.
    Faulted(FaultKind),
    /// Memory ran out.
    NoMemory,
    /// A read of the input failed.
    NoDevice,
}
