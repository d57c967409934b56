//! Remarks: violations of RFC 5280 that neither the decoder nor the rules of path validation
//! reject.

use cert_tool_describe::cert_kinds::ExtensionKind as Kind;
use cert_tool_describe::cert_parts::{Extension, Time};
use cert_tool_describe::oid::ObjectIdentifier;
use cert_tool_describe::tool_lines::Lines;
use cert_tool_describe::{Inside, Node, content_place, parts_of_content, place_of};
use std::alloc::Global;
use std::collections::BTreeMap;

/// A remark: whether it applies, its identifier, its text, the section that it violates, and the
/// path of field names to what it is about, from the subject on.
pub type Remark = (bool, &'static str, &'static str, &'static str, &'static str);

/// The value that remarks are about. The bytes begin at an offset of a file.
#[derive(Clone, Copy)]
pub struct Subject<'a> {
    pub octets: &'a [u8],
    pub offset: u64,
    // The offset of the value.
    pub place: usize,
    // The value inside it whose fields have names: its offset and its kind.
    pub inner: usize,
    pub node: Node,
    // The path of field names to the value. A remark's identifier may follow it.
    pub path: &'static str,
    pub identifier: Option<&'a ObjectIdentifier<39>>,
}

impl<'a> Subject<'a> {
    /// Returns the value of a kind that begins at this offset, at the end of this path of field
    /// names.
    pub fn at(&self, place: usize, node: Node, path: &'static str) -> Subject<'a> {
        Subject {
            place,
            inner: place,
            node,
            path,
            identifier: None,
            ..*self
        }
    }

    /// Returns the offset of the field at the end of a path, or of the last field on the path that
    /// is present.
    pub fn place_of(&self, path: &str) -> usize {
        if path.is_empty() {
            self.place
        } else {
            place_of(self.octets, self.inner, self.node, path)
        }
    }
}

/// Begins a remark.
pub fn begin_remark(lines: &mut Lines) {
    lines.has_remarks = true;
    lines.entry("remark:");
    lines.key("remark");
    lines.begin();
}

// Ends a text, with the section that it refers to, if there is one.
pub fn end_text(lines: &mut Lines, section: &str) {
    lines.end();
    lines.section(section);
}

/// Ends an entry with a text.
pub fn end_remark(lines: &mut Lines, section: &str) {
    end_text(lines, section);
    lines.close();
}

// Adds the path of field names to a value, and the path from there.
fn add_path(lines: &mut Lines, subject: &Subject<'_>, path: &str) {
    let mut between = "";
    if !subject.path.is_empty() {
        lines.push(subject.path);
        between = ".";
    }
    if let Some(identifier) = subject.identifier {
        lines.push(between);
        lines.short_identifier(identifier);
        between = ".";
    }
    if !path.is_empty() {
        lines.push(between);
        lines.push(path);
    } else if between.is_empty() {
        lines.push(".");
    }
}

// Adds a line with the identifier of a remark, the path to what it is about and the offset, and
// ends the remark.
pub fn add_where(
    lines: &mut Lines,
    identifier: &str,
    subject: &Subject<'_>,
    path: &str,
    at: usize,
) {
    lines.text_row("", "identifier", identifier);
    lines.tail(": ");
    lines.key("path");
    lines.begin();
    add_path(lines, subject, path);
    lines.end();
    lines.tail(" (");
    lines.place(subject.offset, at as u64);
    lines.tail(")");
    lines.close();
}

// Ends the text of a remark on a field of a value, and the remark.
pub fn end_at(
    lines: &mut Lines,
    section: &str,
    identifier: &str,
    subject: &Subject<'_>,
    path: &str,
) {
    end_text(lines, section);
    add_where(lines, identifier, subject, path, subject.place_of(path));
}

// Adds those of the remarks that apply.
pub fn add_each(lines: &mut Lines, subject: &Subject<'_>, remarks: &[Remark]) {
    for (is_made, identifier, text, section, path) in remarks {
        if *is_made {
            begin_remark(lines);
            lines.push(text);
            end_at(lines, section, identifier, subject, path);
        }
    }
}

// Returns whether a date is a GeneralizedTime in a year that UTCTime can express (RFC 5280
// 4.1.2.5).
pub fn is_long_for_its_year(date: &Time) -> bool {
    match date {
        Time::UtcTime(_) => false,
        Time::GeneralTime(date) => date.to_date_time().year() < 2050,
    }
}

// Returns whether a serial number isn't positive, or is longer than 20 bytes (RFC 5280 4.1.2.2).
pub fn is_wrong_serial(serial: &[u8]) -> bool {
    match serial {
        [] | [0] | [0x80..=0xff, ..] => true,
        [0, rest @ ..] => rest.len() > 20,
        _ => serial.len() > 20,
    }
}

// Adds the remarks on a serial number: RFC 5280 4.1.2.2 requires a positive number of at most 20
// bytes, not counting a byte for the sign.
pub fn add_serial_remarks(lines: &mut Lines, subject: &Subject<'_>, serial: &[u8]) {
    let is_below_zero = matches!(serial, [0x80..=0xff, ..]);
    let amount = match serial {
        [0, rest @ ..] => rest,
        _ => serial,
    };
    let path = "serialNumber";
    add_each(
        lines,
        subject,
        &[
            (
                amount.is_empty(),
                "serial-number-zero",
                "the serial number is zero",
                "RFC 5280 4.1.2.2",
                path,
            ),
            (
                is_below_zero,
                "serial-number-negative",
                "the serial number is negative",
                "RFC 5280 4.1.2.2",
                path,
            ),
            (
                amount.len() > 20,
                "serial-number-long",
                "the serial number has more than 20 bytes",
                "RFC 5280 4.1.2.2",
                path,
            ),
        ],
    );
}

/// A set of byte strings.
#[derive(Drop)]
pub struct Seen {
    texts: BTreeMap<Vec<u8>, ()>,
}

impl Seen {
    // Returns the empty set.
    pub fn new(alloc: Global) -> Seen {
        Seen {
            texts: BTreeMap::new(alloc),
        }
    }

    // Adds a byte string, and returns whether it was in the set before.
    pub fn take(&mut self, lines: &mut Lines, octets: &[u8]) -> bool {
        let Ok(text) = octets.to_vec(lines.alloc) else {
            lines.fail();
            return false;
        };
        match self.texts.insert(text, ()) {
            Ok(before) => before.is_some(),
            Err(_) => {
                lines.fail();
                false
            }
        }
    }
}

// Returns the number of the first extension that has the identifier of an earlier one (RFC 5280
// 4.2).
fn twin_in(lines: &mut Lines, extensions: &[Extension]) -> Option<usize> {
    let mut seen = Seen::new(lines.alloc);
    for (number, extension) in extensions.iter().enumerate() {
        if seen.take(lines, extension.extn_id.as_bytes()) {
            return Some(number);
        }
    }
    None
}

/// Returns the encodings of the extensions in the field at the end of a path.
pub fn extensions_at<'a>(subject: &Subject<'a>, path: &str) -> Inside<'a> {
    let octets = subject.octets;
    let place = subject.place_of(path);
    match octets.get(place) {
        // The extensions of a certificate or a CRL have an explicit tag.
        Some(0xa0..=0xa3) => Inside::of(octets, content_place(octets, place)),
        _ => Inside::of(octets, place),
    }
}

/// Returns the extension that begins at this offset, as the subject of remarks.
pub fn extension_at<'a>(
    subject: &Subject<'a>,
    place: usize,
    extension: &'a Extension,
    path: &'static str,
) -> Subject<'a> {
    let value = Inside::of(subject.octets, place).last();
    let node = match Kind::of(&extension.extn_id) {
        Some(kind) => match parts_of_content(kind) {
            [(_, _, _, node)] => *node,
            _ => Node::Leaf,
        },
        None => Node::Leaf,
    };
    Subject {
        place,
        inner: content_place(subject.octets, value),
        node,
        path,
        identifier: Some(&extension.extn_id),
        ..*subject
    }
}

/// Adds a remark if an extension has the identifier of an earlier one.
pub fn add_twin_remark<'a>(
    lines: &mut Lines,
    subject: &Subject<'a>,
    extensions: &'a [Extension],
    path: &'static str,
) {
    let Some(number) = twin_in(lines, extensions) else {
        return;
    };
    let place = extensions_at(subject, path).nth(number);
    if let Some(extension) = extensions.get(number) {
        begin_remark(lines);
        lines.push("an extension is present twice");
        let twin = extension_at(subject, place, extension, path);
        end_at(lines, "RFC 5280 4.2", "extension-twice", &twin, "");
    }
}
