//! The lines that a run of `issue` prints.
ghost use Rattle.std.specs.Prelude.{◌≡◌, IfOk, string_bytes};
ghost use Rattle.cert_desk.specs.Lines.{refusal_line, fault_line};

use crate::issue_error::IssueError;
use std::alloc::{AllocError, Global};

/// Returns the line that reports why no chain is issued.
pub(crate) fn refusal_line(alloc: Global, error: &IssueError) -> Result<String, AllocError>
    ensures { IfOk result (λ line. string_bytes line ≡ refusal_line error.now) }
{
    match error {
        IssueError::NoOrders => format!(in alloc; "orders NoOrders\n"),
        IssueError::SignerCount => format!(in alloc; "orders SignerCount\n"),
        IssueError::Name { place } => format!(in alloc; "order {place} Name\n"),
        IssueError::RootName { place, .. } => format!(in alloc; "order {place} RootName\n"),
        IssueError::SubscriberName { place } => {
            format!(in alloc; "order {place} SubscriberName\n")
        }
        IssueError::Serial { place } => format!(in alloc; "order {place} Serial\n"),
        IssueError::Dates { place } => format!(in alloc; "order {place} Dates\n"),
        IssueError::DnsName { place } => format!(in alloc; "order {place} DnsName\n"),
        IssueError::KeyMismatch { place } => format!(in alloc; "order {place} KeyMismatch\n"),
        IssueError::Signer { place } => format!(in alloc; "order {place} Signer\n"),
        IssueError::TooLong { place } => format!(in alloc; "order {place} TooLong\n"),
        IssueError::OutOfMemory => format!(in alloc; "memory\n"),
    }
}

/// Returns the line that reports the number of the first wrong line of a file.
pub(crate) fn fault_line(alloc: Global, line: u64) -> Result<String, AllocError>
    ensures { IfOk result (λ text. string_bytes text ≡ fault_line line) }
{
    format!(in alloc; "orders: line {line}\n")
}
