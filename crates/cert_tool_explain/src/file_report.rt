//! Reports on a file that should be one value: what it contains, or why it can't be decoded.

ghost use Rattle.std.specs.Prelude.{◌≡◌, true, false, IfOk};
ghost use Rattle.cert_tool_explain.specs.Reports.{IsReportOn};

use crate::error_lines::{add_fault, add_fault_inside};
use crate::remarked::Remarked;
use crate::report::Report;
use cert_tool_describe::der::{Error, ErrorKind};
use cert_tool_describe::tool_lines::Lines;
use cert_tool_describe::{DescribeFile, Node};
use std::alloc::{AllocError, Global};

/// What a report on a file contains, unless the file is malformed.
#[derive(Clone, Copy)]
pub enum Contents {
    /// The description of the value, with digests of its encoding and of its key if `has_digests`.
    Description {
        /// Whether there are digests.
        has_digests: bool,
    },
    /// The error in the contents that the decoder of the value keeps as bytes, or that there is
    /// none, and the remarks on the value.
    Remarks,
}

/// How reports name a kind of file.
#[derive(Clone, Copy)]
pub struct FileKind {
    /// The outermost value, with which the path to an error begins.
    pub node: Node,
    /// The line for a file without an error.
    pub valid: &'static str,
}

// Adds the error in the contents of a value that these bytes encode, or that there is none, and the
// remarks.
fn add_findings<T: DescribeFile + Remarked>(
    lines: &mut Lines,
    octets: &[u8],
    value: &T,
    kind: FileKind,
) {
    match value.content_error(lines.alloc, octets) {
        Some(fault) if fault.error.kind == ErrorKind::OutOfMemory => lines.fail(),
        Some(fault) => add_fault_inside(lines, octets, kind.node, &fault),
        None => lines.finding(kind.valid),
    }
    value.add_remarks(lines, octets);
}

// Returns the report on a value that these bytes encode.
fn report_on_value<T: DescribeFile + Remarked>(
    alloc: Global,
    octets: &[u8],
    value: &T,
    kind: FileKind,
    contents: Contents,
    is_json: bool,
) -> Result<Report, AllocError>
    ensures { IfOk result (λ report. report.is_valid ≡ true) }
{
    let mut lines = Lines::new(alloc, is_json);
    match contents {
        Contents::Description { has_digests } => {
            lines.has_digests = has_digests;
            value.describe_file(&mut lines, octets);
        }
        Contents::Remarks => {
            lines.list("findings");
            add_findings(&mut lines, octets, value, kind);
            lines.end_list();
        }
    }
    let report = Report::of(lines, true)?;
    Ok(report)
}

// Returns the report on an error of the value `node`. A report that takes the place of a
// description is never JSON.
fn report_on_error(
    alloc: Global,
    octets: &[u8],
    node: Node,
    error: &Error,
    contents: Contents,
    is_json: bool,
) -> Result<Report, AllocError>
    ensures valid { IfOk result (λ report. report.is_valid ≡ false) }
    ensures remarks { IfOk result (λ report. report.has_remarks ≡ true) }
{
    let is_json = is_json && matches!(contents, Contents::Remarks);
    let mut lines = Lines::new(alloc, is_json);
    lines.list("findings");
    add_fault(&mut lines, octets, 0, node, error);
    lines.end_list();
    let text = lines.finish()?;
    Ok(Report {
        text,
        is_valid: false,
        has_remarks: true,
    })
}

/// Returns a report on bytes that should be the encoding of a value of type `T`. If they aren't,
/// the report has the error, its offset, and the enclosing fields, the outermost first.
///
/// No clause states the text. `has_remarks` is also true for an error. So if it is false, the bytes
/// are the encoding of a value.
///
/// # Errors
///
/// Fails if an allocation fails.
pub fn report_on<T: DescribeFile + Remarked + Drop>(
    alloc: Global,
    octets: &[u8],
    kind: FileKind,
    contents: Contents,
    is_json: bool,
) -> Result<Report, AllocError>
    ensures { IfOk result (IsReportOn (T.is_spelled octets.now)) }
{
    match T::read_file(alloc, octets) {
        Ok(value) => {
            let report = report_on_value(alloc, octets, &value, kind, contents, is_json)?;
            Ok(report)
        }
        Err(error) => match error.kind {
            ErrorKind::OutOfMemory => Err(AllocError),
            _ => {
                let report = report_on_error(alloc, octets, kind.node, &error, contents, is_json)?;
                Ok(report)
            }
        },
    }
}
