//! Describes attributes (RFC 5652 5.3, 11, RFC 5958 2).

use cert_tool_describe::cert_names::Attribute;
use cert_tool_describe::der::Tag;
use cert_tool_describe::oid::ObjectIdentifier;
use cert_tool_describe::tool_lines::Lines;
use cert_tool_describe::types::{Any, DateTime, GeneralizedTime, UtcTime};
use cert_tool_describe::{add_value, noted};

// Returns the date of a value, or `None` if the value isn't a UTCTime or GeneralizedTime that can
// be decoded.
fn date_in(lines: &mut Lines, value: &Any) -> Option<DateTime> {
    match value.tag() {
        Tag::UtcTime => {
            let date = value.decode_as::<UtcTime>(lines.alloc);
            let date = noted(lines, date)?;
            Some(date.to_date_time())
        }
        Tag::GeneralizedTime => {
            let date = value.decode_as::<GeneralizedTime>(lines.alloc);
            let date = noted(lines, date)?;
            Some(date.to_date_time())
        }
        _ => None,
    }
}

// Returns the object identifier of a value, or `None` if the value isn't one that can be decoded.
fn identifier_in(lines: &mut Lines, value: &Any) -> Option<ObjectIdentifier<39>> {
    if value.tag() != Tag::ObjectIdentifier {
        return None;
    }
    let identifier = value.decode_as::<ObjectIdentifier<39>>(lines.alloc);
    noted(lines, identifier)
}

// Adds the members of a value that isn't an object identifier: a date, or a value of any type.
fn add_other_value(lines: &mut Lines, value: &Any) {
    match date_in(lines, value) {
        Some(date) => {
            lines.key("date");
            lines.value(date);
        }
        None => add_value(lines, value),
    }
}

// Adds a line with a value of an attribute.
fn add_attribute_value(lines: &mut Lines, value: &Any) {
    lines.item("");
    lines.brace();
    match identifier_in(lines, value) {
        Some(identifier) => lines.members_of(&identifier),
        None => add_other_value(lines, value),
    }
    lines.end_brace();
}

// Adds the lines of an attribute.
fn add_attribute(lines: &mut Lines, word: &str, attribute: &Attribute) {
    lines.entry(word);
    lines.members_of(&attribute.oid);
    lines.list("values");
    for value in attribute.values.values.as_slice() {
        add_attribute_value(lines, value);
    }
    lines.end_list();
    lines.close();
}

/// Adds the lines of attributes, in order.
pub fn add_attributes(lines: &mut Lines, word: &str, key: &str, attributes: &[Attribute]) {
    lines.list(key);
    for attribute in attributes {
        add_attribute(lines, word, attribute);
    }
    lines.end_list();
}
