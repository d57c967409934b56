//! Prints the contents of extensions for which the library has no type: nsCertType,
//! msCertificateTemplate, and the resources of RFC 3779.

use crate::resources::{add_descriptions, add_systems};
use crate::values::{any_in, noted};
use cert_tool_lines::Lines;
use cert_tool_lines::types::{Any, BitString};
use x509_cert_lists::der::making::leaf_from_der;
use x509_cert_lists::oid::ObjectIdentifier;

// The names of the bits of nsCertType, in order.
const TYPES: [&str; 8] = [
    "SSL client",
    "SSL server",
    "S/MIME",
    "object signing",
    "reserved",
    "SSL CA",
    "S/MIME CA",
    "object signing CA",
];

// Adds a line for each bit that is set.
fn add_types(lines: &mut Lines, bits: &BitString) {
    lines.list("types");
    for (place, name) in TYPES.iter().enumerate() {
        if bits.get(place).unwrap_or(false) {
            lines.item("");
            lines.text(name);
        }
    }
    lines.end_list();
}

// Adds the lines of nsCertType. Returns whether the bytes can be decoded.
fn add_cert_type(lines: &mut Lines, octets: &[u8]) -> bool {
    let bits = leaf_from_der::<BitString>(lines.alloc, octets);
    match noted(lines, bits) {
        Some(bits) if bits.bit_len() <= 8 => {
            add_types(lines, &bits);
            true
        }
        _ => false,
    }
}

// Adds a line with the object identifier of a template. Returns whether the value is one.
fn add_template_id(lines: &mut Lines, value: &Any) -> bool {
    let identifier = value.decode_as::<ObjectIdentifier<39>>(lines.alloc);
    let Some(identifier) = noted(lines, identifier) else {
        return false;
    };
    lines.node("template", "templateID");
    lines.members_of(&identifier);
    lines.close();
    true
}

// Adds a line with a version of a template. Returns whether the value is a number.
fn add_version(lines: &mut Lines, word: &str, key: &str, value: &Any) -> bool {
    let number = value.decode_as::<u32>(lines.alloc);
    let Some(number) = noted(lines, number) else {
        return false;
    };
    lines.count_row(word, key, u64::from(number));
    true
}

// Adds the lines of a template: its identifier, and optionally its versions ([MS-WCCE] 2.2.2.7.7).
// Returns whether the values are a template.
fn add_template(lines: &mut Lines, values: &[Any]) -> bool {
    let (identifier, versions) = match values {
        [identifier, versions @ ..] => (identifier, versions),
        [] => return false,
    };
    if !add_template_id(lines, identifier) {
        return false;
    }
    let (major, minor) = ("templateMajorVersion", "templateMinorVersion");
    match versions {
        [] => true,
        [first] => add_version(lines, "major version", major, first),
        [first, second] => {
            add_version(lines, "major version", major, first)
                && add_version(lines, "minor version", minor, second)
        }
        _ => false,
    }
}

/// Adds the lines of the content of an extension of one of these kinds. Returns whether it is one
/// and can be decoded.
pub fn add_other_content(lines: &mut Lines, identifier: &[u8], octets: &[u8]) -> bool {
    match identifier {
        [0x60, 0x86, 0x48, 1, 0x86, 0xf8, 0x42, 1, 1] => add_cert_type(lines, octets),
        [0x2b, 6, 1, 4, 1, 0x82, 0x37, 21, 7] => {
            match any_in(lines, octets) {
                Some(values) => add_template(lines, values.as_slice()),
                None => false,
            }
        }
        [0x2b, 6, 1, 5, 5, 7, 1, 7 | 28] => add_descriptions(lines, octets),
        [0x2b, 6, 1, 5, 5, 7, 1, 8 | 29] => add_systems(lines, octets),
        _ => false,
    }
}
