//! Explains decoding errors with the requirements of the standards.

use cert_tool_describe::der::{ErrorKind, Tag};
use cert_tool_describe::{
    Node, after_tag, encodes, has_shortest_length, is_number, is_set_of_bits, two,
};

// A reason, and the section that specifies it or an empty text.
type Words = (&'static str, &'static str);

// Returns what is wrong with month, day, hour, minute and second, of two digits each.
fn clock_words(octets: &[u8]) -> Words {
    if !encodes(octets, 0, 1, 12) {
        (": the month is not in 01 to 12", "")
    } else if !encodes(octets, 2, 1, 31) {
        (": the day is not in 01 to 31", "")
    } else if !encodes(octets, 4, 0, 23) {
        (": the hour is not in 00 to 23", "")
    } else if !encodes(octets, 6, 0, 59) {
        (": the minute is not in 00 to 59", "")
    } else if !encodes(octets, 8, 0, 59) {
        (": the second is not in 00 to 59", "")
    } else {
        (": the month doesn't have that many days", "")
    }
}

// Returns what is wrong with a UTCTime (X.690 11.8).
fn utc_words(content: &[u8]) -> Words {
    match content {
        [.., b'Z'] => {}
        _ => return (": it doesn't end with Z", "X.690 11.8.1"),
    }
    match content {
        [_, _, rest @ ..] if rest.len() == 11 => {
            if two(content, 0).is_none() {
                return (": the year doesn't have two digits", "");
            }
            clock_words(rest)
        }
        [..] if content.len() == 11 => (": it has no seconds", "X.690 11.8.2"),
        _ => (": the form isn't YYMMDDHHMMSSZ", "X.690 11.8"),
    }
}

// Returns what is wrong with a GeneralizedTime (X.690 11.7, RFC 5280 4.1.2.5.2).
fn generalized_words(content: &[u8]) -> Words {
    match content {
        [.., b'Z'] => {}
        _ => return (": it doesn't end with Z", "X.690 11.7.1"),
    }
    match content {
        [_, _, _, _, rest @ ..] if rest.len() == 11 => {
            if two(content, 0).is_none() || two(content, 2).is_none() {
                return (": the year doesn't have four digits", "");
            }
            clock_words(rest)
        }
        [_, _, _, _, _, _, _, _, _, _, _, _, _, _, b'.' | b',', ..] => {
            (
                ": fractions of a second aren't allowed",
                "RFC 5280 4.1.2.5.2",
            )
        }
        _ => (": the form isn't YYYYMMDDHHMMSSZ", "RFC 5280 4.1.2.5.2"),
    }
}

// Returns whether the field with this name is a BOOLEAN with an implicit tag.
fn is_flag(name: &str) -> bool {
    matches!(
        name,
        "onlyContainsUserCerts"
            | "onlyContainsCACerts"
            | "indirectCRL"
            | "onlyContainsAttributeCerts"
    )
}

// The reason for a default that is encoded.
const DEFAULT: Words = (": the default value must be omitted", "X.690 11.5");

// Returns what is wrong with a BOOLEAN.
fn boolean_words(content: &[u8]) -> Words {
    match content {
        [0 | 0xff] => DEFAULT,
        [_] => (": TRUE must be encoded as FF", "X.690 11.1"),
        _ => (": a BOOLEAN must have one byte", "X.690 8.2.1"),
    }
}

// Returns why a value of the field with this name isn't encoded in DER.
fn form_words(tag: Tag, content: &[u8], name: &str) -> Words {
    match tag {
        Tag::Boolean => boolean_words(content),
        Tag::Null => (": NULL must be empty", "X.690 8.8.2"),
        tag if tag.is_context_specific() && is_flag(name) => boolean_words(content),
        _ if matches!(name, "signedAttrs" | "unsignedAttrs") => (
            ": the set must have an attribute",
            "RFC 5652 5.3",
        ),
        tag if tag.is_constructed() => DEFAULT,
        _ => match content {
            [0, 0..=0x7f, ..] | [0xff, 0x80..=0xff, ..] => {
                (": the first byte is redundant", "X.690 8.3.2")
            }
            _ => DEFAULT,
        },
    }
}

// Returns what is wrong with a BIT STRING.
fn bits_words(content: &[u8]) -> Words {
    match content {
        [8..=0xff, ..] => (": more than 7 bits are unused", "X.690 8.6.2.2"),
        [_] => (
            ": unused bits are counted, but there are no bits",
            "X.690 8.6.2.3",
        ),
        [unused, .., last] if last & !(0xffu8 << (*unused & 7)) != 0 => {
            (": the unused bits must be zero", "X.690 11.2.1")
        }
        _ => (": trailing zero bits must be omitted", "X.690 11.2.2"),
    }
}

// The reason for a text that isn't ASCII.
const HIGH: Words = (": it has a byte above 7F, which isn't ASCII", "");

// Returns the reason for a version that a value of this kind doesn't allow.
fn version_words(around: Node) -> Words {
    match around {
        Node::TbsCertList => (": the version of a CRL must be 1 (v2)", "RFC 5280 5.1.2.1"),
        Node::RequestInfo => (": the version of a CSR must be 0 (v1)", "RFC 2986 4.1"),
        Node::AnchorInfo => (
            ": the version of a TrustAnchorInfo must be 1 (v1)",
            "RFC 5914 2.1",
        ),
        Node::OcspVersion => (
            ": the version of an OCSP request or response must be 0 (v1)",
            "RFC 6960 4.1.1",
        ),
        Node::SignedData | Node::SignerInfo => (
            ": the version must be 0, 1, 2, 3, 4 or 5 (v0 to v5)",
            "RFC 5652 10.2.5",
        ),
        Node::Key => (
            ": the version of a private key must be 0 or 1 (v1, v2)",
            "RFC 5958 2",
        ),
        Node::TimestampInfo => (
            ": the version of a TSTInfo must be 1 (v1)",
            "RFC 3161 2.4.2",
        ),
        _ => (
            ": the version must be 0, 1 or 2 (v1, v2, v3)",
            "RFC 5280 4.1.2.1",
        ),
    }
}

// Returns what is wrong with an INTEGER in the field with this name, in a value of this kind.
fn number_words(content: &[u8], name: &str, around: Node) -> Words {
    match content {
        _ if name == "version" => version_words(around),
        [0x80..=0xff, ..] => (": the number must not be negative", ""),
        _ => (": the number is not one of the allowed values", ""),
    }
}

// Returns why a value with an implicit tag is invalid, in the field with this name.
fn implied_words(content: &[u8], name: &str, around: Node) -> Words {
    match name {
        "rfc822Name" | "dNSName" | "uniformResourceIdentifier" => HIGH,
        "notBefore" | "notAfter" => generalized_words(content),
        "issuerUniqueID" | "subjectUniqueID" => bits_words(content),
        name if is_set_of_bits(name) => bits_words(content),
        name if is_number(name) => number_words(content, name, around),
        _ => ("", ""),
    }
}

// Returns why a value is invalid, in the field with this name, in a value of this kind.
fn value_words(tag: Tag, content: &[u8], name: &str, around: Node) -> Words {
    match tag {
        Tag::UtcTime => utc_words(content),
        Tag::GeneralizedTime => generalized_words(content),
        Tag::BitString => bits_words(content),
        Tag::Integer | Tag::Enumerated => number_words(content, name, around),
        Tag::OctetString => (
            ": its content isn't a SignedCertificateTimestampList",
            "RFC 6962 3.3",
        ),
        Tag::PrintableString => (
            ": it has a character that the string type doesn't allow",
            "X.680 41.4",
        ),
        Tag::Ia5String => HIGH,
        Tag::BmpString if content.len() % 2 == 1 => { (": its length is odd", "X.690 8.23.8") }
        Tag::BmpString => (": two of its bytes aren't a character", "X.690 8.23.8"),
        _ => implied_words(content, name, around),
    }
}

// Returns what is wrong with an object identifier (X.690 8.19).
fn identifier_words(content: &[u8]) -> Words {
    let mut begins_arc = true;
    for octet in content {
        if begins_arc && *octet == 0x80 {
            return (": an arc begins with the byte 80", "X.690 8.19.2");
        }
        begins_arc = *octet < 0x80;
    }
    if content.is_empty() {
        (": it is empty", "X.690 8.19.2")
    } else if begins_arc {
        ("", "")
    } else {
        (": its last arc is truncated", "X.690 8.19.2")
    }
}

// Returns why these bytes don't begin with the tag of a type (X.680 8.6).
fn tag_words(octets: &[u8]) -> Words {
    match octets {
        [0x00, ..] => (
            ": tag 0 ends an indefinite length, which DER doesn't allow",
            "X.690 8.1.5",
        ),
        [0x10 | 0x11, ..] => (
            ": a SEQUENCE or SET must have a constructed tag",
            "X.690 8.9.1, 8.11.1",
        ),
        [
            0x21..=0x27 | 0x29 | 0x2a | 0x2c..=0x2f | 0x32..=0x3c | 0x3e,
            ..
        ] => {
            (
                ": the value is split into segments, which DER doesn't allow",
                "X.690 10.2",
            )
        }
        [0x08 | 0x0b | 0x1d, ..] => (
            ": EXTERNAL, EMBEDDED PDV and CHARACTER STRING must have a constructed tag",
            "",
        ),
        [0x0f | 0x20, ..] => (": the tag is reserved", "X.680 8.6"),
        _ => ("", ""),
    }
}

// Returns what is wrong with a tag number that is encoded in more than one byte.
fn tag_number_words(octets: &[u8]) -> Words {
    match octets {
        [_, 0x80, ..] => (": it isn't encoded in the fewest bytes", "X.690 8.1.2.4.2"),
        [_, 0..=30, ..] => (
            ": a tag number below 31 must be in the first byte",
            "X.690 8.1.2.2",
        ),
        _ => (": it exceeds 4294967295", ""),
    }
}

// Returns why a length is invalid for its type, or isn't encoded in DER, in the field with this
// name.
fn length_words(tag: Tag, octets: &[u8], name: &str) -> Words {
    let is_bits = matches!(tag, Tag::BitString)
        || is_set_of_bits(name)
        || matches!(name, "issuerUniqueID" | "subjectUniqueID");
    if !has_shortest_length(octets) {
        (": it isn't encoded in the fewest bytes", "X.690 10.1")
    } else if is_bits {
        (
            ": the byte with the number of unused bits is missing",
            "X.690 8.6.2.1",
        )
    } else if matches!(tag, Tag::Integer | Tag::Enumerated) || is_number(name) {
        (": its content can't be empty", "X.690 8.3.1")
    } else {
        ("", "")
    }
}

// Returns what is wrong with a length that is encoded in more than four bytes.
fn wide_length_words(octets: &[u8]) -> Words {
    match after_tag(octets) {
        [0xff, ..] => (": a length can't begin with FF", "X.690 8.1.3.5"),
        [_, 0, ..] => (": it isn't encoded in the fewest bytes", "X.690 10.1"),
        _ => (
            ": the length exceeds 4294967295, and fewer bytes follow",
            "",
        ),
    }
}

// Returns the reason for a decoding error of this kind at the beginning of these bytes, in the
// words of the standards; empty if the kind says everything. `content` is the content of the value,
// `name` its field, and `around` the kind of value that has the field.
pub fn words_of(kind: ErrorKind, octets: &[u8], content: &[u8], name: &str, around: Node) -> Words {
    match kind {
        ErrorKind::Noncanonical { tag } => form_words(tag, content, name),
        ErrorKind::Value { tag } => value_words(tag, content, name, around),
        ErrorKind::Length { tag } => length_words(tag, octets, name),
        ErrorKind::OidMalformed => identifier_words(content),
        ErrorKind::TagUnknown => tag_words(octets),
        ErrorKind::TagNumberInvalid => tag_number_words(octets),
        ErrorKind::Overlength => wide_length_words(octets),
        ErrorKind::SetOrdering | ErrorKind::SetDuplicate => (
            ": the elements of a SET OF must be in ascending order",
            "X.690 11.6",
        ),
        ErrorKind::IndefiniteLength => ("", "X.690 10.1"),
        _ => ("", ""),
    }
}
