//! The lines that a run prints.
ghost use Rattle.std.specs.Prelude.{◌≡◌, IfOk, string_bytes};
ghost use Rattle.cert_desk_checking.specs.Lines.{line_of, anchors_line};

use crate::anchor_fault::AnchorFault;
use cert_desk_rules::{Checked, Verdict};
use std::alloc::{AllocError, Global};

/// Returns the line that reports a verdict.
///
/// # Errors
///
/// - `AllocError`: memory runs out.
pub fn verdict_line(alloc: Global, checked: Checked) -> Result<String, AllocError>
    ensures { IfOk result (λ line. string_bytes line ≡ line_of checked.verdict checked.calls) }
{
    let calls = checked.calls;
    match checked.verdict {
        Verdict::Trusted => format!(in alloc; "trusted calls={calls}\n"),
        Verdict::Refused { place, rule } => {
            format!(in alloc; "refused {place} {rule} calls={calls}\n")
        }
        Verdict::StreamFault {
            place,
            offset,
            kind,
        } => format!(in alloc; "fault {place} {offset} {kind}\n"),
        Verdict::Empty => format!(in alloc; "empty\n"),
    }
}

/// Returns the line that reports a rejected trust anchor, which begins at this offset.
///
/// # Errors
///
/// - `AllocError`: memory runs out.
pub fn anchors_line(alloc: Global, offset: u64, fault: AnchorFault) -> Result<String, AllocError>
    ensures { IfOk result (λ line. string_bytes line ≡ anchors_line offset fault) }
{
    format!(in alloc; "anchors: {fault} at {offset}\n")
}
