//! Prints decoding errors: the offset, the reason and the enclosing fields.

use crate::error_reasons::words_of;
use crate::format_hints::{format_hint, is_signed_data};
use cert_tool_describe::der::{Error, ErrorKind, Tag};
use cert_tool_describe::tool_lines::Lines;
use cert_tool_describe::{
    ContentError, ErrorPath, Node, Part, Step, content_at, is_any, is_followed, parts_of,
    path_into, path_to, unsupported_type,
};

// Returns a file of this kind as a list of one field.
fn alone(node: Node) -> &'static [Part] {
    match node {
        Node::Certificate => &[(Some(0x30), false, "", Node::Certificate)],
        Node::List => &[(Some(0x30), false, "", Node::List)],
        Node::Request => &[(Some(0x30), false, "", Node::Request)],
        Node::OcspRequest => &[(Some(0x30), false, "", Node::OcspRequest)],
        Node::OcspResponse => &[(Some(0x30), false, "", Node::OcspResponse)],
        Node::Message => &[(Some(0x30), false, "", Node::Message)],
        Node::Key => &[(Some(0x30), false, "", Node::Key)],
        Node::EncryptedKey => &[(Some(0x30), false, "", Node::EncryptedKey)],
        Node::Timestamp => &[(Some(0x30), false, "", Node::Timestamp)],
        Node::Anchor => &[(None, false, "", Node::Anchor)],
        _ => &[],
    }
}

// Adds the tag with this first byte.
fn add_tag(lines: &mut Lines, first: u8) {
    if let Ok(tag) = Tag::peek(&[first]) {
        lines.show("", tag, "");
    }
}

// Adds an alternative of a CHOICE: its name and the number of its tag, or the tag.
fn add_choice(lines: &mut Lines, name: &str, first: u8) {
    lines.push(name);
    if !name.is_empty() && first >= 0x80 {
        lines.show(" [", first & 31, "]");
    } else if !name.is_empty() {
        lines.push(" ");
        add_tag(lines, first);
    } else {
        add_tag(lines, first);
    }
}

// Adds the alternatives of a CHOICE.
fn add_choices(lines: &mut Lines, choices: &[Part]) {
    let mut between = "";
    for choice in choices {
        let (tag, _, name, _) = *choice;
        if let Some(first) = tag {
            lines.push(between);
            add_choice(lines, name, first);
            between = " or ";
        }
    }
}

// Returns the name that is printed for a field.
fn called(name: &'static str) -> &'static str {
    if name.is_empty() { "a value" } else { name }
}

// Adds the tags that a field may have; nothing if it may have any tag.
fn add_tags(lines: &mut Lines, part: &Part) {
    let (tag, _, _, node) = *part;
    match tag {
        Some(first) => add_tag(lines, first),
        None => add_choices(lines, parts_of(node)),
    }
}

// Adds a field that is expected.
fn add_part(lines: &mut Lines, part: &Part) {
    let (_, _, name, _) = *part;
    lines.comma();
    lines.brace();
    lines.text_member("part", called(name));
    if !is_any(part) {
        lines.tail(" (");
        lines.key("type");
        lines.begin();
        add_tags(lines, part);
        lines.end();
        lines.tail(")");
    }
    lines.end_brace();
}

// Adds a line with the fields that are expected, if there are any.
fn add_wanted(lines: &mut Lines, wanted: &[Part]) {
    if wanted.is_empty() {
        return;
    }
    lines.list("expected");
    lines.line();
    lines.word("expected:");
    let mut is_first = true;
    for part in wanted {
        if !is_first {
            lines.tail(", ");
        }
        add_part(lines, part);
        is_first = false;
    }
    lines.end_list();
}

// Adds the names of a value that encloses an error, after `before`. Returns whether it has any.
fn add_names(lines: &mut Lines, before: &str, step: &Step) -> bool {
    let name = step.taken.name;
    let choice = step.taken.choice;
    if name.is_empty() && choice.is_empty() {
        return false;
    }
    lines.push(before);
    lines.push(name);
    if !name.is_empty() && !choice.is_empty() {
        lines.push(", ");
    }
    lines.push(choice);
    true
}

// Adds a line for a value that encloses an error.
fn add_step(lines: &mut Lines, offset: u64, step: &Step) {
    lines.entry("in");
    lines.key("part");
    lines.begin();
    add_names(lines, "", step);
    lines.end();
    lines.tail(" (");
    lines.key("type");
    lines.value(step.value.tag);
    lines.tail(", ");
    lines.place(offset, step.value.start as u64);
    lines.tail(")");
    lines.close();
}

// Adds the values that enclose an error and have names.
fn add_steps(lines: &mut Lines, offset: u64, steps: &[Step]) {
    lines.list("path");
    for step in steps {
        if !step.taken.name.is_empty() || !step.taken.choice.is_empty() {
            add_step(lines, offset, step);
        }
    }
    lines.end_list();
}

// Returns the number of content bytes of the innermost value and its length field, if the length is
// greater.
fn cut(steps: &[Step]) -> Option<(usize, usize)> {
    match steps {
        [.., last] => {
            let there = last.value.end.saturating_sub(last.value.content);
            if there < last.value.len {
                Some((there, last.value.len))
            } else {
                None
            }
        }
        [] => None,
    }
}

// Adds the length of a value and the number of bytes that follow.
fn add_cut(lines: &mut Lines, there: usize, counted: usize) {
    lines.show("its length is ", counted as u64, " bytes, but only ");
    lines.show("", there as u64, " follow");
}

// Returns the fields that are expected at an error of this kind. If a value of any type is
// expected, they only matter for an unknown tag.
fn expected_by(kind: ErrorKind, way: &ErrorPath) -> &'static [Part] {
    match (kind, way.wanted) {
        (ErrorKind::TagUnknown | ErrorKind::TagNumberInvalid, [.., last]) if is_any(last) => &[],
        (_, wanted) => wanted,
    }
}

// Adds the values that enclose an error of the value at this offset, and the fields that are
// expected if there is no valid one.
fn add_error_path(lines: &mut Lines, offset: u64, way: &ErrorPath, wanted: &[Part]) {
    add_steps(lines, offset, way.steps.as_slice());
    if let Some((there, counted)) = cut(way.steps.as_slice()) {
        lines.row("", "cut");
        lines.begin();
        add_cut(lines, there, counted);
        lines.end();
    }
    add_wanted(lines, wanted);
}

// Adds the type at the beginning of these bytes, where another type is expected.
fn add_other_type(lines: &mut Lines, rest: &[u8]) {
    match (Tag::peek(rest), unsupported_type(rest)) {
        (Ok(tag), _) => lines.show(": ", tag, ""),
        (Err(_), "") => {}
        (Err(_), name) => lines.show(": ", name, ""),
    }
}

// Adds the kind of an error, its reason and, where the tag is wrong, the tag. Returns the section
// that the error violates.
fn add_kind(lines: &mut Lines, octets: &[u8], kind: ErrorKind, way: &ErrorPath) -> &'static str {
    let rest = way.rest(octets);
    lines.note(kind);
    let unread = way.unread(octets, kind);
    if !unread.is_empty() {
        lines.show("valid, and not read here: ", unread, "");
        return "";
    }
    // A tag that the decoder doesn't know, but X.680 does, is reported as an unexpected tag.
    let kind = match (kind, unsupported_type(rest)) {
        (ErrorKind::TagUnknown, "") => kind,
        (ErrorKind::TagUnknown, _) => ErrorKind::TagUnexpected,
        _ => kind,
    };
    let content = content_at(rest, 0);
    let (words, section) = words_of(kind, rest, content, way.name(), way.around());
    lines.show("", kind, words);
    match kind {
        ErrorKind::TagUnexpected | ErrorKind::TrailingData => add_other_type(lines, rest),
        _ => {}
    }
    section
}

// Adds the offset and the kind of an error in a value that begins at this offset of the file.
fn add_place(lines: &mut Lines, octets: &[u8], offset: u64, kind: ErrorKind, way: &ErrorPath) {
    lines.place(offset, way.place as u64);
    lines.tail(": ");
    lines.key("fault");
    lines.begin();
    let section = add_kind(lines, octets, kind, way);
    lines.end();
    lines.section(section);
}

// Adds an error in a value that begins at this offset of the file, and the enclosing values.
fn add_members(lines: &mut Lines, octets: &[u8], offset: u64, kind: ErrorKind, way: &ErrorPath) {
    let is_unread = !way.unread(octets, kind).is_empty();
    add_place(lines, octets, offset, kind, way);
    if is_unread {
        lines.mark("", "unread", true);
        add_error_path(lines, offset, way, &[]);
    } else {
        add_error_path(lines, offset, way, expected_by(kind, way));
    }
}

// Returns whether the error of a certificate is that another certificate follows it.
fn is_first_of_several(octets: &[u8], error: &Error) -> bool {
    match (error.kind, error.position) {
        (ErrorKind::TrailingData, Some(place)) => is_followed(octets, place.value as usize),
        _ => false,
    }
}

/// Adds an error in a value that begins at this offset of the file, and the enclosing values.
pub fn add_fault(lines: &mut Lines, octets: &[u8], offset: u64, kind: Node, error: &Error) {
    if octets.is_empty() {
        lines.finding("the file is empty");
        return;
    }
    lines.entry("");
    match path_to(lines.alloc, octets, alone(kind), error) {
        Ok(way) => add_members(lines, octets, offset, error.kind, &way),
        Err(_) => lines.fail(),
    }
    let hint = match kind {
        Node::Certificate if is_first_of_several(octets, error) => {
            "(the file has several certificates; `cert_tool split FILE` lists them)"
        }
        Node::Message if is_signed_data(octets) => "",
        _ => format_hint(octets),
    };
    if !hint.is_empty() {
        lines.text_row("", "hint", hint);
    }
    lines.close();
}

/// Adds an error in a content of a file of this kind, and the enclosing values. If the content is
/// valid and isn't supported, the file has no remark because of it.
pub fn add_fault_inside(lines: &mut Lines, octets: &[u8], kind: Node, fault: &ContentError) {
    let octets = match octets.get(..fault.content.end) {
        Some(octets) => octets,
        None => octets,
    };
    lines.entry("");
    match path_into(lines.alloc, octets, alone(kind), fault) {
        Ok(way) => {
            if way.unread(octets, fault.error.kind).is_empty() {
                lines.has_remarks = true;
            }
            add_members(lines, octets, 0, fault.error.kind, &way);
        }
        Err(_) => lines.fail(),
    }
    lines.close();
}

// Adds the names of the values that enclose an error in the content of an extension.
fn add_names_of_all(lines: &mut Lines, steps: &[Step]) {
    let mut is_first = true;
    for step in steps {
        let before = if is_first { ", in " } else { ", " };
        if add_names(lines, before, step) {
            is_first = false;
        }
    }
}

// Adds the fields that are expected at an error in the content of an extension.
fn add_wanted_there(lines: &mut Lines, wanted: &[Part]) {
    let mut between = "; expected: ";
    for part in wanted {
        let (_, _, name, _) = *part;
        lines.push(between);
        lines.push(called(name));
        if !is_any(part) {
            lines.push(" (");
            add_tags(lines, part);
            lines.push(")");
        }
        between = ", ";
    }
}

// Adds an error in the content of an extension, and the enclosing fields. Returns the section that
// the error violates.
pub fn add_fault_of_content(
    lines: &mut Lines,
    octets: &[u8],
    error: &Error,
    way: &ErrorPath,
) -> &'static str {
    lines.show("octet ", way.place as u64, " of its content");
    add_names_of_all(lines, way.steps.as_slice());
    lines.push(": ");
    let section = add_kind(lines, octets, error.kind, way);
    if let Some((there, counted)) = cut(way.steps.as_slice()) {
        lines.push("; ");
        add_cut(lines, there, counted);
    }
    if way.unread(octets, error.kind).is_empty() {
        add_wanted_there(lines, expected_by(error.kind, way));
    }
    section
}
