//! Prints values of any type: their texts, or their bytes.

use cert_tool_lines::Lines;
use cert_tool_lines::types::Any;
use std::alloc::Global;
use std::str;
use x509_cert_lists::cert_names::{AttributeTypeAndValue, Name};
use x509_cert_lists::der::describing::{DecodeWay, Described};
use x509_cert_lists::der::making::read_whole;
use x509_cert_lists::der::{Error, FixedTag, SliceReader, Tag};
use x509_cert_lists::oid::ObjectIdentifier;

// Returns the character that two bytes encode, if they encode one (X.690 8.23.8).
fn wide_letter(high: u8, low: u8) -> Option<char> {
    char::from_u32(u32::from(high) * 256 + u32::from(low))
}

// Returns whether the bytes of a BMPString are characters.
fn is_wide(octets: &[u8]) -> bool {
    for place in 0..octets.len() / 2 {
        if wide_letter(octets[2 * place], octets[2 * place + 1]).is_none() {
            return false;
        }
    }
    octets.len() % 2 == 0
}

// Adds the text of a BMPString, in which two bytes encode a character. Bytes that don't encode one
// are printed after `\u`.
fn add_wide(lines: &mut Lines, octets: &[u8]) {
    for place in 0..octets.len() / 2 {
        let (high, low) = (octets[2 * place], octets[2 * place + 1]);
        match wide_letter(high, low) {
            Some(letter) => lines.letter(letter),
            None => lines.pairs("\\u", &[high, low], None),
        }
    }
    if octets.len() % 2 == 1 {
        lines.pairs("\\u", &octets[octets.len() - 1..], None);
    }
}

// Adds the text of a TeletexString. Most programs write Latin-1, in which each byte is a character.
fn add_latin(lines: &mut Lines, octets: &[u8]) {
    for octet in octets {
        lines.letter(char::from(*octet));
    }
}

// Adds the text that bytes encode in ASCII. Other bytes are printed after a backslash.
fn add_ascii(lines: &mut Lines, octets: &[u8]) {
    for octet in octets {
        if octet.is_ascii() {
            lines.letter(char::from(*octet));
        } else {
            lines.pairs("\\", &[*octet], None);
        }
    }
}

// Adds the text of a string of this type. Bytes that the type doesn't allow are printed after a
// backslash.
fn add_narrow(lines: &mut Lines, tag: Tag, octets: &[u8]) {
    match (tag, str::from_utf8(octets)) {
        (Tag::Utf8String, Ok(text)) => lines.plain(text),
        (Tag::Utf8String, Err(_)) => lines.pairs("\\", octets, Some(b'\\')),
        (Tag::TeletexString, _) => add_latin(lines, octets),
        (_, Ok(text)) if text.is_ascii() => lines.plain(text),
        _ => add_ascii(lines, octets),
    }
}

// Returns whether a type is a string type.
fn is_string(tag: Tag) -> bool {
    matches!(
        tag,
        Tag::BmpString
            | Tag::Utf8String
            | Tag::NumericString
            | Tag::PrintableString
            | Tag::TeletexString
            | Tag::Ia5String
            | Tag::VisibleString
            | Tag::GeneralString
    )
}

// Returns whether a value can be printed as text: its bytes encode characters.
fn is_spelled(value: &Any) -> bool {
    match (value.tag(), str::from_utf8(value.value())) {
        (Tag::BmpString, _) => is_wide(value.value()),
        (Tag::TeletexString, _) => true,
        (Tag::Utf8String, text) => text.is_ok(),
        (_, Ok(text)) => text.is_ascii(),
        (_, Err(_)) => false,
    }
}

/// Adds the members of a value: its type, and its text if it is a string of characters, else its
/// bytes.
pub fn add_value(lines: &mut Lines, value: &Any) {
    lines.key("type");
    lines.value(value.tag());
    if is_string(value.tag()) && (!lines.is_json || is_spelled(value)) {
        lines.key("text");
        lines.begin();
        match value.tag() {
            Tag::BmpString => add_wide(lines, value.value()),
            tag => add_narrow(lines, tag, value.value()),
        }
        lines.end();
    } else {
        lines.tail(", ");
        lines.word("octets");
        lines.key("octets");
        lines.octets(value.value());
    }
}

// Adds a line with a value, if it is a text or an object identifier.
fn add_plain_value(lines: &mut Lines, value: &Any) {
    if is_string(value.tag()) && is_spelled(value) {
        lines.row("", "value");
        lines.brace();
        add_value(lines, value);
        lines.end_brace();
    } else if value.tag() == Tag::ObjectIdentifier {
        let identifier = value.decode_as::<ObjectIdentifier<39>>(lines.alloc);
        if let Some(identifier) = noted(lines, identifier) {
            lines.row("", "value");
            lines.brace();
            lines.members_of(&identifier);
            lines.end_brace();
        }
    }
}

// Adds a line with the text or the object identifier that the bytes encode, if they encode one.
pub fn add_value_of(lines: &mut Lines, octets: &[u8]) {
    let value = read_whole::<Any>(lines.alloc, octets);
    if let Some(value) = noted(lines, value) {
        add_plain_value(lines, &value);
    }
}

/// Decodes a value of a type that implements `Described`. The function is generic so that the
/// decoder is checked here, and not in each caller.
pub fn read<'a, T: Described + FixedTag + Drop>(alloc: Global, octets: &'a [u8]) -> Result<T, Error>
where
    T::By: DecodeWay<'a, SliceReader<'a>, T>,
{
    read_whole(alloc, octets)
}

/// Decodes a list of values of a type that implements `Described`.
pub fn read_members<'a, T: Described + FixedTag + Drop>(
    alloc: Global,
    octets: &'a [u8],
) -> Result<Vec<T>, Error>
where
    T::By: DecodeWay<'a, SliceReader<'a>, T>,
{
    read_whole(alloc, octets)
}

// Returns the values inside a SEQUENCE.
pub fn values_in(alloc: Global, value: &Any) -> Result<Vec<Any>, Error> {
    value.decode_as(alloc)
}

/// Returns a value that was decoded, or `None` if it can't be. If memory has run out, `lines`
/// fails.
pub fn noted<T: Drop>(lines: &mut Lines, decoded: Result<T, Error>) -> Option<T> {
    match decoded {
        Ok(value) => Some(value),
        Err(error) => {
            lines.note(error.kind);
            None
        }
    }
}

/// Returns the values inside a SEQUENCE; `None` if the value isn't one.
pub fn sequence_in(lines: &mut Lines, value: &Any) -> Option<Vec<Any>> {
    let values = values_in(lines.alloc, value);
    noted(lines, values)
}

// Returns the values inside a SEQUENCE; empty if the value isn't one.
pub fn inside(lines: &mut Lines, value: &Any) -> Vec<Any> {
    match sequence_in(lines, value) {
        Some(values) => values,
        None => Vec::new(lines.alloc),
    }
}

/// Decodes a SEQUENCE, and returns the values inside it; `None` if the bytes can't be decoded.
pub fn any_in(lines: &mut Lines, octets: &[u8]) -> Option<Vec<Any>> {
    let values = read_whole::<Vec<Any>>(lines.alloc, octets);
    noted(lines, values)
}

// Returns whether values are fields with explicit tags, whose numbers ascend and are below a bound.
pub fn are_tagged(fields: &[Any], bound: u32) -> bool {
    let mut next = 0u32;
    for field in fields {
        let tag = field.tag();
        let number = tag.number().value;
        let is_next = next <= number && number < bound;
        if !tag.is_context_specific() || !tag.is_constructed() || !is_next {
            return false;
        }
        next = number.saturating_add(1);
    }
    true
}

/// Decodes the values of a type that implements `Described`, which are inside a SEQUENCE.
pub fn list_in<'a, T: Described + FixedTag + Drop>(
    alloc: Global,
    value: &'a Any,
) -> Result<Vec<T>, Error>
where
    T::By: DecodeWay<'a, SliceReader<'a>, T>,
{
    value.decode_as(alloc)
}

// Returns whether the text of an attribute has its type as arcs and its value in hex (RFC 4514
// 2.4): the type has no short name, or the value isn't a string that can be printed.
fn is_bare(text: &str) -> bool {
    matches!(text.as_bytes(), [b'0'..=b'9', ..])
}

// Returns whether a line with this attribute says more than the line of its name.
fn is_told(lines: &mut Lines, attribute: &AttributeTypeAndValue) -> bool {
    if lines.is_json {
        return true;
    }
    match attribute.to_string(lines.alloc) {
        Ok(text) => is_bare(text.as_str()),
        Err(_) => {
            lines.fail();
            false
        }
    }
}

// Adds the attributes of a name. As lines, only those are added that the line of the name prints
// with arcs and hex.
fn add_attributes(lines: &mut Lines, name: &Name) {
    for attribute in name.iter() {
        if is_told(lines, attribute) {
            lines.entry("");
            lines.members_of(&attribute.oid);
            add_value(lines, &attribute.value);
            lines.close();
        }
    }
}

/// Adds the members of a name: its text and its attributes. In the text, bytes follow `#` (RFC 4514
/// 2.4), so a text without `#` says everything.
pub fn add_name_members(lines: &mut Lines, name: &Name) {
    let text = match name.to_string(lines.alloc) {
        Ok(text) => text,
        Err(_) => {
            lines.fail();
            return;
        }
    };
    lines.key("text");
    lines.begin();
    lines.printed(text.as_str());
    lines.end();
    lines.list("attributes");
    if lines.is_json || text.as_bytes().contains(&b'#') {
        add_attributes(lines, name);
    }
    lines.end_list();
}

/// Adds the lines of a name.
pub fn add_name(lines: &mut Lines, word: &str, key: &str, name: &Name) {
    lines.node(word, key);
    add_name_members(lines, name);
    lines.close();
}
