//! The outcomes of `issue`.

use crate::issue_error::IssueError;
use crate::issued::Issued;

/// The outcome of a run of `issue`.
#[derive(Drop)]
pub(crate) enum Outcome {
    /// The chain was issued.
    Issued(Issued),
    /// The orders are rejected, and no chain was issued.
    Refused(IssueError),
    /// This line of the file is the first wrong one.
    BadLine(u64),
    /// A read failed.
    Device,
    /// Memory ran out.
    OutOfMemory,
}
