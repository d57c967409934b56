//! Values that are valid, but that this program doesn't support.

use crate::dates::{has_fraction, is_early_generalized, is_early_utc};
use crate::parts::{Node, Part, parts_of};
use x509_cert_lists::der::{ErrorKind, Tag};
use x509_cert_lists::oid::ObjectIdentifier;

// Returns whether the field with this name is an INTEGER with an implicit tag.
pub fn is_number(name: &str) -> bool {
    matches!(
        name,
        "requireExplicitPolicy"
            | "inhibitPolicyMapping"
            | "minimum"
            | "maximum"
            | "pathLenConstraint"
            | "authorityCertSerialNumber"
    )
}

// Returns whether the field with this name is a BIT STRING of named bits with an implicit tag.
pub fn is_set_of_bits(name: &str) -> bool {
    matches!(name, "reasons" | "onlySomeReasons" | "policyFlags")
}

// Returns the bytes after the tag at their beginning (X.690 8.1.2).
pub fn after_tag(octets: &[u8]) -> &[u8] {
    let [first, rest @ ..] = octets else {
        return octets;
    };
    if *first & 0x1f != 0x1f {
        return rest;
    }
    let mut behind = rest;
    for _ in 0..rest.len() {
        let [digit, others @ ..] = behind else {
            return behind;
        };
        behind = others;
        if *digit < 0x80 {
            return behind;
        }
    }
    behind
}

// Returns whether the length of the TLV at the beginning of the bytes is encoded in the fewest
// bytes (X.690 10.1).
pub fn has_shortest_length(octets: &[u8]) -> bool {
    !matches!(
        after_tag(octets),
        [0x81, 0..=0x7f, ..] | [0x82..=0xfe, 0, ..]
    )
}

// Returns the description of a number that is too large for its type: the numbers of
// basicConstraints have 8 bits, those of tlsFeature 16, and the others 32.
fn number_words(tag: Tag, octets: &[u8], content: &[u8], name: &str) -> &'static str {
    match content {
        [0..=0x7f, ..] if has_shortest_length(octets) => match (tag, name) {
            (Tag::Integer, "pathLenConstraint") => "a number above 255",
            (Tag::Integer, "a feature") => "a number above 65535",
            (Tag::Integer, _) => "a number above 4294967295",
            (_, name) if is_number(name) => "a number above 4294967295",
            _ => "",
        },
        _ => "",
    }
}

// Returns whether the content of a BIT STRING has no trailing zero bit (X.690 8.6.2, 11.2.2).
fn ends_in_one(content: &[u8]) -> bool {
    match content {
        [unused @ 0..=7, .., last] => {
            let rest = *last >> (*unused & 7);
            last & !(0xffu8 << (*unused & 7)) == 0 && rest & 1 == 1
        }
        _ => false,
    }
}

// Returns the description of a value that is valid for its type and isn't supported.
fn value_words(tag: Tag, content: &[u8], name: &str) -> &'static str {
    let (is_early, is_bits) = match tag {
        Tag::UtcTime => (is_early_utc(content), false),
        Tag::GeneralizedTime if name == "genTime" && has_fraction(content) => {
            return "a date with a fraction of a second";
        }
        Tag::GeneralizedTime => (is_early_generalized(content), false),
        Tag::BitString => (false, true),
        Tag::TeletexString => return "a TeletexString with a byte above 7F",
        tag if tag.is_context_specific() && matches!(name, "notBefore" | "notAfter") => {
            (is_early_generalized(content), false)
        }
        tag => (false, tag.is_context_specific() && is_set_of_bits(name)),
    };
    if is_early {
        "a date before 1970"
    } else if is_bits && ends_in_one(content) {
        "a bit without a name"
    } else {
        ""
    }
}

// Returns whether content is one or more arcs, each in the fewest bytes (X.690 8.19.2).
fn is_arcs(content: &[u8]) -> bool {
    let mut begins_arc = true;
    for octet in content {
        if begins_arc && *octet == 0x80 {
            return false;
        }
        begins_arc = *octet < 0x80;
    }
    begins_arc && !content.is_empty()
}

// Returns the description of an object identifier that isn't supported. The first byte encodes the
// first two arcs if the second one is at most 39 (X.690 8.19.4).
fn identifier_words(content: &[u8]) -> &'static str {
    if !is_arcs(content) {
        ""
    } else if content.len() > ObjectIdentifier::<39>::MAX_SIZE {
        "an object identifier of more than 39 bytes"
    } else if matches!(content, [120..=0xff, ..]) {
        "an object identifier whose second arc is above 39"
    } else {
        "an object identifier with an arc of more than 128 bits"
    }
}

// Returns the name of the unsupported type whose tag begins the bytes, if there is one (X.680 8.6).
pub fn unsupported_type(octets: &[u8]) -> &'static str {
    match octets {
        [0x07, ..] => "ObjectDescriptor",
        [0x28, ..] => "EXTERNAL",
        [0x2b, ..] => "EMBEDDED PDV",
        [0x0e, ..] => "TIME",
        [0x19, ..] => "GraphicString",
        [0x1c, ..] => "UniversalString",
        [0x3d, ..] => "CHARACTER STRING",
        [0x1f, 31, ..] => "DATE",
        [0x1f, 32, ..] => "TIME-OF-DAY",
        [0x1f, 33, ..] => "DATE-TIME",
        [0x1f, 34, ..] => "DURATION",
        [0x1f, 35, ..] => "OID-IRI",
        [0x1f, 36, ..] => "RELATIVE-OID-IRI",
        _ => "",
    }
}

// Returns whether a field may be a value of any type.
pub fn is_any(part: &Part) -> bool {
    let (tag, _, _, node) = *part;
    tag.is_none() && parts_of(node).is_empty()
}

// Returns the description of a value with an unsupported type, if one of these fields allows the
// type: a field of any type, or a DirectoryString (RFC 5280 4.1.2.4).
fn type_words(octets: &[u8], allowed: &[Part]) -> &'static str {
    let words = unsupported_type(octets);
    for part in allowed {
        let (_, _, _, node) = *part;
        let is_string = matches!(node, Node::DirectoryString) && words == "UniversalString";
        if is_string || is_any(part) {
            return words;
        }
    }
    ""
}

// Returns the description of an alternative that its standard defines and that isn't supported: a
// kind of general name (RFC 5280 4.2.1.6), or a CRL without a version, which is version 1
// (5.1.2.1).
fn choice_words(octets: &[u8], around: Node, allowed: &[Part]) -> &'static str {
    for part in allowed {
        let (_, _, name, node) = *part;
        match (node, around, octets) {
            (Node::GeneralName, _, [0xa3, ..]) => return "x400Address",
            (_, Node::TbsCertList, [0x30, ..]) if name == "version" => {
                return "a CRL of version 1";
            }
            _ => {}
        }
    }
    ""
}

// Returns the description of a tag whose number is too large (X.690 8.1.2.4), if any tag is
// allowed.
fn tag_words(octets: &[u8], allowed: &[Part]) -> &'static str {
    let [_, digits @ ..] = octets else {
        return "";
    };
    let mut count = 0usize;
    for digit in digits {
        count = count.saturating_add(1);
        if *digit < 0x80 {
            break;
        }
    }
    for part in allowed {
        // A number of at most 32 bits has at most five digits.
        if is_any(part) && count > 4 && !matches!(digits, [0x80, ..]) {
            return "a tag number above 4294967295";
        }
    }
    ""
}

/// Returns the description of the value at the beginning of the bytes, if it is valid and an error
/// of this kind only means that it isn't supported; empty if it isn't valid. `content` is the
/// content of the value, `name` the name of the innermost field that has one, `around` the kind of
/// value that has the field, and `allowed` the fields that are allowed there.
pub fn unsupported_text(
    kind: ErrorKind,
    octets: &[u8],
    content: &[u8],
    name: &str,
    around: Node,
    allowed: &[Part],
) -> &'static str {
    match kind {
        ErrorKind::Length { tag } => number_words(tag, octets, content, name),
        ErrorKind::Value { tag } => value_words(tag, content, name),
        ErrorKind::OidMalformed => identifier_words(content),
        ErrorKind::TagUnknown => type_words(octets, allowed),
        ErrorKind::TagUnexpected => choice_words(octets, around, allowed),
        ErrorKind::TagNumberInvalid => tag_words(octets, allowed),
        _ => "",
    }
}
