//! A text about the input of a command.

ghost use Rattle.std.specs.Prelude.{◌≡◌, true, false, IfOk};

use cert_tool_describe::tool_lines::Lines;
use std::alloc::AllocError;

/// A text about the input of a command, and what it reports.
#[derive(Drop)]
pub struct Report {
    /// The text.
    pub text: Vec<u8>,
    /// Whether the input can be decoded and breaks no rule.
    pub is_valid: bool,
    /// Whether the text has a remark, an error or a broken rule.
    pub has_remarks: bool,
}

impl Report {
    /// Returns the report with the text of these lines. A report on invalid input has remarks.
    pub fn of(lines: Lines, is_valid: bool) -> Result<Report, AllocError>
        ensures valid { IfOk result (λ report. report.is_valid ≡ is_valid) }
        ensures remarks { IfOk result (λ report. report.has_remarks ≡ false → is_valid ≡ true) }
    {
        let has_remarks = lines.has_remarks || !is_valid;
        let text = lines.finish()?;
        Ok(Report {
            text,
            is_valid,
            has_remarks,
        })
    }
}
