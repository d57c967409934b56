//! Prints algorithms, and the parameters of RSASSA-PSS (RFC 4055 3.1).

use crate::values::{add_value, are_tagged, noted, read, values_in};
use cert_tool_lines::cert_parts::AlgorithmIdentifier;
use cert_tool_lines::types::{Any, BitString, Uint};
use cert_tool_lines::{Lines, known_name};
use std::alloc::Global;
use x509_cert_lists::der::making::leaf_from_der;
use x509_cert_lists::der::{Error, ErrorKind};

// Decodes an AlgorithmIdentifier.
fn algorithm_in(alloc: Global, octets: &[u8]) -> Result<AlgorithmIdentifier, Error> {
    read(alloc, octets)
}

// Adds the name of an encoded algorithm, and of the algorithm that is its parameter.
fn add_named(lines: &mut Lines, octets: &[u8]) {
    match algorithm_in(lines.alloc, octets) {
        Ok(algorithm) => {
            lines.members_of(&algorithm.oid);
            if let Some(inner) = &algorithm.parameters {
                add_inner(lines, inner);
            }
        }
        Err(error) => lines.malformed("malformed", error.kind),
    }
}

// Returns whether an algorithm has no parameters, or NULL.
fn is_plain(algorithm: &AlgorithmIdentifier) -> bool {
    match &algorithm.parameters {
        Some(parameters) => parameters.is_null(),
        None => true,
    }
}

// Adds the parameters of an algorithm that is itself a parameter: the name of an algorithm, or a
// value of any type. NULL isn't printed.
fn add_inner(lines: &mut Lines, parameters: &Any) {
    let inner = parameters.decode_as::<AlgorithmIdentifier>(lines.alloc);
    match noted(lines, inner) {
        Some(inner) if is_plain(&inner) => {
            lines.word("with");
            lines.key("parameters");
            lines.open();
            lines.members_of(&inner.oid);
            lines.close();
        }
        _ if parameters.is_null() => {}
        _ => add_parameters(lines, parameters),
    }
}

// Returns the bytes in the field with this tag number.
fn field(fields: &[Any], number: u32) -> Option<&[u8]> {
    for field in fields {
        if field.tag().number().value == number {
            return Some(field.value());
        }
    }
    None
}

// Returns whether the bytes in a field are an algorithm, for the tag numbers 0 and 1, or a natural
// number, for the others.
fn is_in_field(lines: &mut Lines, number: u32, octets: &[u8]) -> bool {
    if number < 2 {
        let algorithm = algorithm_in(lines.alloc, octets);
        noted(lines, algorithm).is_some()
    } else {
        let number = leaf_from_der::<Uint>(lines.alloc, octets);
        noted(lines, number).is_some()
    }
}

// Returns whether values are RSASSA-PSS-params: fields with the tag numbers 0 to 3, in order (RFC
// 4055 3.1).
fn are_fields(lines: &mut Lines, fields: &[Any]) -> bool {
    if !are_tagged(fields, 4) {
        return false;
    }
    for field in fields {
        if !is_in_field(lines, field.tag().number().value, field.value()) {
            return false;
        }
    }
    true
}

// Adds a line with an algorithm, or with its default if it is absent.
fn add_choice(lines: &mut Lines, words: [&str; 3], octets: Option<&[u8]>) {
    let [word, key, default] = words;
    lines.node(word, key);
    match octets {
        Some(octets) => add_named(lines, octets),
        None => {
            lines.text_member("default", default);
            lines.word("by default");
        }
    }
    lines.close();
}

// Adds a line with a number, or with its default if it is absent. A number of more than 32 bits is
// printed in hex.
fn add_number(lines: &mut Lines, word: &str, key: &str, octets: Option<&[u8]>, default: u64) {
    let Some(octets) = octets else {
        lines.count_row(word, key, default);
        lines.word("by default");
        return;
    };
    match leaf_from_der::<u32>(lines.alloc, octets) {
        Ok(number) => {
            lines.count_row(word, key, u64::from(number));
        }
        Err(_) => match leaf_from_der::<Uint>(lines.alloc, octets) {
            Ok(number) => lines.number_row(word, key, number.as_bytes()),
            Err(error) => lines.note(error.kind),
        },
    }
}

// Adds the lines of the parameters, each of which has a default.
fn add_fields(lines: &mut Lines, fields: &[Any]) {
    add_choice(
        lines,
        ["digest", "hashAlgorithm", "SHA-1"],
        field(fields, 0),
    );
    let mask = ["mask", "maskGenAlgorithm", "MGF1 with SHA-1"];
    add_choice(lines, mask, field(fields, 1));
    add_number(lines, "salt", "saltLength", field(fields, 2), 20);
    add_number(lines, "trailer", "trailerField", field(fields, 3), 1);
}

/// Adds a line with the parameters as a value of any type.
pub fn add_parameters(lines: &mut Lines, parameters: &Any) {
    lines.row("parameters", "parameters");
    lines.brace();
    add_value(lines, parameters);
    lines.end_brace();
}

/// Adds the lines of malformed parameters.
pub fn add_malformed_parameters(lines: &mut Lines, parameters: &Any, kind: ErrorKind) {
    lines.malformed("malformedParameters", kind);
    add_parameters(lines, parameters);
}

// Adds the lines of the parameters of RSASSA-PSS.
fn add_padding(lines: &mut Lines, parameters: &Any) {
    match values_in(lines.alloc, parameters) {
        Ok(fields) => {
            if are_fields(lines, fields.as_slice()) {
                add_fields(lines, fields.as_slice());
            } else {
                add_malformed_parameters(lines, parameters, ErrorKind::Failed);
            }
        }
        Err(error) => add_malformed_parameters(lines, parameters, error.kind),
    }
}

// Adds the lines of the parameters of the algorithm with this name. The parameters of keys are
// printed with the key, and NULL, which most known algorithms have, isn't printed.
fn add_parameters_of(lines: &mut Lines, name: &str, parameters: &Any) {
    match name {
        "id-RSASSA-PSS" => add_padding(lines, parameters),
        "id-ecPublicKey" | "id-dsa" => {}
        "" => add_parameters(lines, parameters),
        _ if parameters.is_null() => {}
        _ => add_parameters(lines, parameters),
    }
}

/// Adds the members of an algorithm.
pub fn add_algorithm_members(lines: &mut Lines, algorithm: &AlgorithmIdentifier) {
    lines.members_of(&algorithm.oid);
    if let Some(parameters) = &algorithm.parameters {
        let name = known_name(algorithm.oid.as_bytes()).unwrap_or("");
        add_parameters_of(lines, name, parameters);
    }
}

/// Adds a line with the bits of a signature or a key, and the number of unused bits if it isn't 0.
pub fn add_bit_row(lines: &mut Lines, word: &str, key: &str, bits: &BitString) {
    lines.octets_row(word, key, bits.raw_bytes());
    if bits.has_unused_bits() {
        lines.count_row("unused bits", "unusedBits", u64::from(bits.unused_bits()));
    }
}

/// Adds the lines of an algorithm.
pub fn add_algorithm(lines: &mut Lines, word: &str, key: &str, algorithm: &AlgorithmIdentifier) {
    lines.node(word, key);
    add_algorithm_members(lines, algorithm);
    lines.close();
}

/// Adds the lines of a signature: its algorithm and its bits.
pub fn add_signature(lines: &mut Lines, algorithm: &AlgorithmIdentifier, signature: &BitString) {
    add_algorithm(lines, "signature", "signatureAlgorithm", algorithm);
    add_bit_row(lines, "  bits", "signatureValue", signature);
}
