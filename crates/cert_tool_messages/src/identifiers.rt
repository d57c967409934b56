//! Describes object identifiers and general names as members of their own.

use cert_tool_describe::add_general_name;
use cert_tool_describe::cert_general_names::GeneralName;
use cert_tool_describe::oid::ObjectIdentifier;
use cert_tool_describe::tool_lines::Lines;

/// Adds a line with an object identifier.
pub fn add_identifier(lines: &mut Lines, word: &str, key: &str, id: &ObjectIdentifier<39>) {
    lines.row(word, key);
    lines.brace();
    lines.members_of(id);
    lines.end_brace();
}

/// Adds the lines of a general name.
pub fn add_named(lines: &mut Lines, word: &str, key: &str, name: &GeneralName) {
    lines.row(word, key);
    lines.brace();
    add_general_name(lines, name);
    lines.end_brace();
}
