//! Explains why contents of extensions can't be decoded.

use crate::error_lines::add_fault_of_content;
use crate::remark_lines::{Subject, add_where, begin_remark, end_text};
use cert_tool_describe::cert_kinds::ExtensionKind as Kind;
use cert_tool_describe::cert_parts::Extension;
use cert_tool_describe::der::Error;
use cert_tool_describe::tool_lines::Lines;
use cert_tool_describe::{ErrorPath, parts_of_content, path_to};

// Adds the name of an extension and the error in its content, with the fields that enclose it.
// Returns the section that the error violates.
fn add_path_in(
    lines: &mut Lines,
    extension: &Extension,
    error: &Error,
    way: &ErrorPath,
) -> &'static str {
    let octets = extension.extn_value.as_bytes();
    let is_unread = !way.unread(octets, error.kind).is_empty();
    let words = if is_unread { ": " } else { " is malformed: " };
    lines.identifier("", &extension.extn_id, words);
    add_fault_of_content(lines, octets, error, way)
}

// Returns the fields that enclose the error in the content of an extension.
fn path_in(lines: &mut Lines, extension: &Extension, error: &Error) -> Option<ErrorPath> {
    let parts = match Kind::of(&extension.extn_id) {
        Some(kind) => parts_of_content(kind),
        None => &[],
    };
    match path_to(lines.alloc, extension.extn_value.as_bytes(), parts, error) {
        Ok(way) => Some(way),
        Err(_) => {
            lines.fail();
            None
        }
    }
}

/// Adds why the content of an extension is malformed or isn't supported. Returns the section that
/// it violates.
pub fn add_content_fault(lines: &mut Lines, extension: &Extension, error: &Error) -> &'static str {
    match path_in(lines, extension, error) {
        Some(way) => add_path_in(lines, extension, error, &way),
        None => "",
    }
}

/// Adds a remark for malformed content of an extension, or for content that is valid and isn't
/// supported. For an entry of a CRL, the remark has its number.
pub fn add_content_finding(
    lines: &mut Lines,
    subject: &Subject<'_>,
    entry: Option<usize>,
    extension: &Extension,
    error: &Error,
) {
    let Some(way) = path_in(lines, extension, error) else {
        return;
    };
    let octets = extension.extn_value.as_bytes();
    let is_remark = way.unread(octets, error.kind).is_empty();
    if is_remark {
        begin_remark(lines);
    } else {
        lines.entry("");
        lines.key("finding");
        lines.begin();
    }
    if let Some(number) = entry {
        lines.show("of entry ", number as u64, ", ");
    }
    let section = match (add_path_in(lines, extension, error, &way), entry) {
        ("", None) if is_remark => "RFC 5280 4.2",
        ("", Some(_)) if is_remark => "RFC 5280 5.3",
        (section, _) => section,
    };
    end_text(lines, section);
    let identifier = if is_remark {
        "extension-malformed"
    } else {
        "extension-not-read"
    };
    let place = subject.inner.saturating_add(way.place);
    add_where(lines, identifier, subject, "", place);
}
