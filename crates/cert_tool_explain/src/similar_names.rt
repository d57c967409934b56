//! Finds the differences between names that print alike, or nearly alike.

use crate::reasons::begin_detail;
use cert_tool_describe::cert_names::{AttributeTypeAndValue, Name};
use cert_tool_describe::tool_lines::Lines;

// Returns the bytes after the leading spaces.
fn without_blanks(octets: &[u8]) -> &[u8] {
    let mut rest = octets;
    for _ in 0..octets.len() {
        match rest {
            [b' ', behind @ ..] => rest = behind,
            _ => break,
        }
    }
    rest
}

// Returns whether two texts are equal but for case and spaces.
fn are_near(this: &[u8], other: &[u8]) -> bool {
    let mut left = without_blanks(this);
    let mut right = without_blanks(other);
    for _ in 0..this.len() {
        match (left, right) {
            ([first, rest @ ..], [second, behind @ ..]) if first.eq_ignore_ascii_case(second) => {
                left = without_blanks(rest);
                right = without_blanks(behind);
            }
            _ => break,
        }
    }
    left.is_empty() && right.is_empty()
}

// Returns whether two names have the same attributes but for the string types, case and spaces. The
// result is a hint: no clause says when it is true.
pub(crate) fn are_similar(this: &Name, other: &Name) -> bool {
    let mut others = other.iter();
    for attribute in this.iter() {
        match others.next() {
            Some(of_other) if of_other.oid == attribute.oid => {
                if !are_near(attribute.value.value(), of_other.value.value()) {
                    return false;
                }
            }
            _ => return false,
        }
    }
    others.next().is_none()
}

// Adds the difference between two attributes, if there is one.
fn add_difference(lines: &mut Lines, this: &AttributeTypeAndValue, other: &AttributeTypeAndValue) {
    if this.value.tag() != other.value.tag() {
        begin_detail(lines);
        lines.identifier("", &this.oid, " is a ");
        lines.show("", this.value.tag(), " here and a ");
        lines.show("", other.value.tag(), " there");
        lines.end();
    }
    if this.value.value() != other.value.value() {
        begin_detail(lines);
        lines.identifier("", &this.oid, " differs in case or blanks");
        lines.end();
    }
}

// Adds the attributes in which two similar names differ.
pub(crate) fn add_differences(lines: &mut Lines, this: &Name, other: &Name) {
    let mut others = other.iter();
    for attribute in this.iter() {
        if let Some(of_other) = others.next() {
            add_difference(lines, attribute, of_other);
        }
    }
}
