//! Remarks on attributes of names whose texts have the wrong string type, or are too short or too
//! long.

use crate::remark_lines::{Subject, begin_remark, end_at};
use cert_tool_describe::cert_names::{AttributeTypeAndValue, Name};
use cert_tool_describe::der::Tag;
use cert_tool_describe::oid::ObjectIdentifier;
use cert_tool_describe::tool_lines::Lines;
use cert_tool_describe::{Inside, Node};
use std::str;

// Returns whether PrintableString allows this byte (X.680 41.4).
fn is_of_printable(octet: u8) -> bool {
    octet.is_ascii_alphanumeric()
        || matches!(octet, b' ' | b'\'' | b'('..=b')' | b'+'..=b'/' | b':' | b'=' | b'?')
}

// Returns whether the bytes are valid in this string type (X.680 41). For other types the result is
// `true`.
fn is_text_of(tag: Tag, octets: &[u8]) -> bool {
    match tag {
        Tag::Utf8String => str::from_utf8(octets).is_ok(),
        Tag::PrintableString => octets.iter().all(|octet| is_of_printable(*octet)),
        Tag::Ia5String => octets.iter().all(|octet| octet.is_ascii()),
        Tag::BmpString => is_wide(octets),
        _ => true,
    }
}

// Returns whether the bytes are a BMPString: two bytes for each character, without surrogates
// (X.690 8.23.8).
fn is_wide(octets: &[u8]) -> bool {
    let mut is_first = true;
    for octet in octets {
        if is_first && (0xd8..=0xdf).contains(octet) {
            return false;
        }
        is_first = !is_first;
    }
    is_first
}

// The string types that an attribute allows.
#[derive(Clone, Copy)]
enum Syntax {
    Directory,
    Printable,
    Ia5,
}

impl Syntax {
    // Returns the name with its article.
    fn name(self) -> &'static str {
        match self {
            Syntax::Directory => "a DirectoryString",
            Syntax::Printable => "a PrintableString",
            Syntax::Ia5 => "an IA5String",
        }
    }

    // Returns whether the string type is allowed (RFC 5280 A.1). UniversalString isn't supported.
    fn has(self, tag: Tag) -> bool {
        match self {
            Syntax::Directory => matches!(
                tag,
                Tag::TeletexString | Tag::PrintableString | Tag::Utf8String | Tag::BmpString
            ),
            Syntax::Printable => matches!(tag, Tag::PrintableString),
            Syntax::Ia5 => matches!(tag, Tag::Ia5String),
        }
    }
}

// The object identifier of domainComponent, 0.9.2342.19200300.100.1.25.
const DOMAIN_COMPONENT: &[u8] = &[9, 0x92, 0x26, 0x89, 0x93, 0xf2, 0x2c, 0x64, 1, 25];

// Returns the string types that an attribute allows (RFC 5280 A.1).
fn syntax_of(kind: &ObjectIdentifier<39>) -> Option<Syntax> {
    match kind.as_bytes() {
        [0x55, 4, number] => match *number {
            5 | 6 | 46 => Some(Syntax::Printable),
            3 | 4 | 7 | 8 | 10..=12 | 41..=44 | 65 => Some(Syntax::Directory),
            _ => None,
        },
        octets if octets == EMAIL_ADDRESS || octets == DOMAIN_COMPONENT => Some(Syntax::Ia5),
        _ => None,
    }
}

// Returns the number of characters of a text with this string type.
fn length_of(tag: Tag, octets: &[u8]) -> usize {
    match (tag, str::from_utf8(octets)) {
        (Tag::Utf8String, Ok(text)) => text.chars().count(),
        (Tag::BmpString, _) => octets.len() / 2,
        _ => octets.len(),
    }
}

// The object identifier of emailAddress, 1.2.840.113549.1.9.1.
const EMAIL_ADDRESS: &[u8] = &[0x2a, 0x86, 0x48, 0x86, 0xf7, 0x0d, 1, 9, 1];

// Returns the minimum and maximum number of characters of an attribute (RFC 5280 A.1).
fn lengths_of(kind: &ObjectIdentifier<39>) -> Option<(usize, usize)> {
    match kind.as_bytes() {
        [0x55, 4, number] => match *number {
            6 => Some((2, 2)),
            3 | 5 | 10..=12 => Some((1, 64)),
            7 | 8 | 65 => Some((1, 128)),
            4 | 41..=44 => Some((1, 32768)),
            _ => None,
        },
        octets if octets == EMAIL_ADDRESS => Some((1, 255)),
        _ => None,
    }
}

// Adds a remark if the attribute doesn't allow the string type.
fn add_syntax_remark(lines: &mut Lines, subject: &Subject<'_>, attribute: &AttributeTypeAndValue) {
    let Some(syntax) = syntax_of(&attribute.oid) else {
        return;
    };
    let tag = attribute.value.tag();
    if !syntax.has(tag) {
        begin_remark(lines);
        lines.identifier("", &attribute.oid, " isn't ");
        lines.push(syntax.name());
        lines.show(", but ", tag, "");
        end_at(lines, "RFC 5280 A.1", "attribute-type", subject, "");
    }
}

// Adds a remark if the text isn't valid in its string type.
fn add_type_remark(lines: &mut Lines, subject: &Subject<'_>, attribute: &AttributeTypeAndValue) {
    let tag = attribute.value.tag();
    if !is_text_of(tag, attribute.value.value()) {
        begin_remark(lines);
        lines.identifier("", &attribute.oid, " isn't a text of its type, ");
        lines.show("", tag, "");
        end_at(lines, "RFC 5280 4.1.2.4", "attribute-text", subject, "");
    }
}

// Adds a remark if the text is too short or too long.
fn add_length_remark(lines: &mut Lines, subject: &Subject<'_>, attribute: &AttributeTypeAndValue) {
    let Some((fewest, most)) = lengths_of(&attribute.oid) else {
        return;
    };
    let length = length_of(attribute.value.tag(), attribute.value.value());
    if length < fewest || length > most {
        begin_remark(lines);
        lines.identifier("", &attribute.oid, " isn't a text of ");
        if most > fewest {
            lines.show("", fewest as u64, " to ");
        }
        lines.show("", most as u64, " characters");
        end_at(lines, "RFC 5280 A.1", "attribute-length", subject, "");
    }
}

// Adds the remarks on an attribute that begins at this offset.
fn add_remarks_of<'a>(
    lines: &mut Lines,
    subject: &Subject<'a>,
    place: usize,
    path: &'static str,
    attribute: &'a AttributeTypeAndValue,
) {
    let part = Subject {
        identifier: Some(&attribute.oid),
        ..subject.at(place, Node::TypeAndValue, path)
    };
    add_syntax_remark(lines, &part, attribute);
    add_type_remark(lines, &part, attribute);
    add_length_remark(lines, &part, attribute);
}

// Adds the remarks on the attributes of a name, which is at the end of a path of fields.
pub fn add_attribute_remarks<'a>(
    lines: &mut Lines,
    subject: &Subject<'a>,
    path: &'static str,
    name: &'a Name,
) {
    let octets = subject.octets;
    let mut relatives = Inside::of(octets, subject.place_of(path));
    let mut places = Inside::of(octets, relatives.next());
    for attribute in name.iter() {
        for _ in 0..octets.len() {
            if !places.is_ended() || relatives.is_ended() {
                break;
            }
            places = Inside::of(octets, relatives.next());
        }
        add_remarks_of(lines, subject, places.next(), path, attribute);
    }
}
