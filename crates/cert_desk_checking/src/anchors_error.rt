//! Why trust anchors can't be read.

use crate::anchor_fault::AnchorFault;
use thiserror::Error;

/// Why trust anchors can't be read from an input.
#[derive(Clone, Copy, Debug, PartialEq, Eq, Error)]
pub enum AnchorsError {
    /// The trust anchor that begins at `offset` is rejected.
    #[error("{fault} at octet {offset}")]
    BadAnchors { offset: u64, fault: AnchorFault },
    /// A read of the input failed.
    #[error("a device failed")]
    Device,
    /// Memory ran out.
    #[error("out of memory")]
    OutOfMemory,
}
