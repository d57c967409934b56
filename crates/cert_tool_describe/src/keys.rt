//! Prints keys and digests.

use crate::algorithms::{add_algorithm_members, add_bit_row, add_malformed_parameters};
use crate::curves::curve_bits;
use crate::values::{add_value, inside, list_in, noted, read_members};
use base64::engine::general_purpose::STANDARD;
use cert_tool_lines::cert_parts::{AlgorithmIdentifier, SubjectPublicKeyInfo};
use cert_tool_lines::types::{Any, BitString, Uint};
use cert_tool_lines::{Lines, known_name};
use sha1::Sha1;
use sha2::{Digest, Sha256};
use x509_cert_lists::der::making::leaf_from_der;
use x509_cert_lists::der::{ErrorKind, Tag, ToDer};
use x509_cert_lists::oid::ObjectIdentifier;

/// Returns the number of bits of a big-endian number.
pub fn bit_len(octets: &[u8]) -> usize {
    match octets {
        [] => 0,
        [first, ..] => {
            let unused = first.leading_zeros() as usize;
            octets.len().saturating_mul(8).saturating_sub(unused)
        }
    }
}

/// Adds a line with a number of bits.
pub fn add_bits(lines: &mut Lines, bits: u64) {
    lines.count_row("", "bits", bits);
    lines.word("bits");
}

// Adds a line with a number of a key.
fn add_natural(lines: &mut Lines, name: &str, octets: &[u8]) {
    lines.row(name, name);
    lines.natural(octets);
}

// Adds a line with bytes of a key.
fn add_octets(lines: &mut Lines, name: &str, octets: &[u8]) {
    lines.octets_row(name, name, octets);
}

// Adds that a key is malformed, and its bits.
fn add_malformed_key(lines: &mut Lines, bits: &BitString, kind: ErrorKind) {
    lines.malformed("malformed", kind);
    add_bit_row(lines, "octets", "octets", bits);
}

// Returns whether a value is an INTEGER that isn't negative.
fn is_natural(lines: &mut Lines, value: &Any) -> bool {
    let number = value.decode_as::<Uint>(lines.alloc);
    noted(lines, number).is_some()
}

// The field type prime-field (X9.62 6.1).
const PRIME_FIELD: &[u8] = &[0x2a, 0x86, 0x48, 0xce, 0x3d, 1, 1];

// Returns whether values are the type and the parameters of a field.
fn is_field(lines: &mut Lines, field: &[Any]) -> bool {
    let [kind, parameters] = field else {
        return false;
    };
    let kind = kind.decode_as::<ObjectIdentifier<39>>(lines.alloc);
    match noted(lines, kind) {
        Some(kind) => kind.as_bytes() != PRIME_FIELD || is_natural(lines, parameters),
        None => false,
    }
}

// Returns the seed of an equation.
fn seed_in(lines: &mut Lines, value: &Any) -> Option<BitString> {
    let seed = value.decode_as::<BitString>(lines.alloc);
    noted(lines, seed)
}

// Returns whether values are the coefficients of an equation, with or without a seed.
fn are_coefficients(lines: &mut Lines, curve: &[Any]) -> bool {
    let seed = match curve {
        [a, b, seed @ ..] if is_string(a) && is_string(b) => seed,
        _ => return false,
    };
    match seed {
        [] => true,
        [seed] => seed_in(lines, seed).is_some(),
        _ => false,
    }
}

// Returns whether a value is an OCTET STRING.
fn is_string(value: &Any) -> bool {
    value.tag() == Tag::OctetString
}

// Returns whether values are a cofactor and a hash, both of them optional.
fn is_rest(lines: &mut Lines, rest: &[Any]) -> bool {
    match rest {
        [] => true,
        [one] => one.tag() == Tag::Sequence || is_natural(lines, one),
        [cofactor, hash] => hash.tag() == Tag::Sequence && is_natural(lines, cofactor),
        _ => false,
    }
}

// Returns whether values are ECParameters: version, field, coefficients, base point, order, and
// optionally a cofactor and a hash (RFC 3279 2.3.5, X9.62 6.4).
fn is_equation(lines: &mut Lines, parameters: &[Any]) -> bool {
    let [version, field, curve, base, order, rest @ ..] = parameters else {
        return false;
    };
    if !is_string(base) || !is_rest(lines, rest) {
        return false;
    }
    let field = inside(lines, field);
    let curve = inside(lines, curve);
    is_natural(lines, version)
        && is_natural(lines, order)
        && is_field(lines, field.as_slice())
        && are_coefficients(lines, curve.as_slice())
}

// Adds a line with the field of a curve: its prime, or its type and parameters.
fn add_field(lines: &mut Lines, field: &[Any]) {
    match field {
        [_, prime] if prime.tag() == Tag::Integer => {
            lines.number_row("prime", "prime", prime.value());
        }
        [_, other] => {
            lines.node("field", "field");
            add_value(lines, other);
            lines.close();
        }
        _ => {}
    }
}

// Adds the lines of the two coefficients of an equation, and of its seed.
fn add_coefficients(lines: &mut Lines, curve: &[Any]) {
    let [a, b, rest @ ..] = curve else {
        return;
    };
    add_octets(lines, "a", a.value());
    add_octets(lines, "b", b.value());
    for value in rest {
        if let Some(seed) = seed_in(lines, value) {
            add_octets(lines, "seed", seed.raw_bytes());
        }
    }
}

// Adds a line with the cofactor of a curve, or with a hash.
fn add_rest(lines: &mut Lines, value: &Any) {
    if value.tag() == Tag::Integer {
        lines.number_row("cofactor", "cofactor", value.value());
    } else {
        lines.node("hash", "hash");
        add_value(lines, value);
        lines.close();
    }
}

// Adds the lines of a curve that is specified by its equation (RFC 3279 2.3.5).
fn add_equation(lines: &mut Lines, parameters: &[Any]) {
    lines.word("given by its parameters");
    if let [_, field, curve, generator, order, rest @ ..] = parameters {
        let field = inside(lines, field);
        add_field(lines, field.as_slice());
        let curve = inside(lines, curve);
        add_coefficients(lines, curve.as_slice());
        add_octets(lines, "generator", generator.value());
        lines.number_row("order", "order", order.value());
        for value in rest {
            add_rest(lines, value);
        }
    }
}

// Adds the name of a curve, or the type and the bytes of parameters that aren't a name.
fn add_curve_name(lines: &mut Lines, parameters: &Any) {
    let curve = parameters.decode_as::<ObjectIdentifier<39>>(lines.alloc);
    match noted(lines, curve) {
        Some(curve) => lines.members_of(&curve),
        None => add_value(lines, parameters),
    }
}

// Adds the lines of a curve.
fn add_curve(lines: &mut Lines, parameters: &Any, values: &[Any]) {
    lines.node("curve", "curve");
    if is_equation(lines, values) {
        add_equation(lines, values);
    } else {
        add_curve_name(lines, parameters);
        if parameters.tag() == Tag::Sequence {
            lines.malformed("malformed", ErrorKind::Failed);
        }
    }
    lines.close();
}

// Returns the size of the curve that the parameters name or specify, or 0 if it isn't known.
fn bits_of(lines: &mut Lines, parameters: &Any, values: &[Any]) -> u64 {
    if parameters.tag() == Tag::ObjectIdentifier {
        return curve_bits(parameters.value());
    }
    match values {
        [_, _, _, _, order, ..] if is_equation(lines, values) => {
            let order = order.decode_as::<Uint>(lines.alloc);
            match noted(lines, order) {
                Some(order) => bit_len(order.as_bytes()) as u64,
                None => 0,
            }
        }
        _ => 0,
    }
}

// Adds the lines of the size of a curve, if it is known, and of the curve.
fn add_curve_of(lines: &mut Lines, parameters: &Any) {
    let values = if parameters.tag() == Tag::Sequence {
        inside(lines, parameters)
    } else {
        Vec::new(lines.alloc)
    };
    let bits = bits_of(lines, parameters, values.as_slice());
    if bits > 0 {
        add_bits(lines, bits);
    }
    add_curve(lines, parameters, values.as_slice());
}

// Adds the lines of the parameters of a DSA key: p, q and g (RFC 3279 2.3.2).
fn add_group(lines: &mut Lines, parameters: &Any) {
    match list_in::<Uint>(lines.alloc, parameters) {
        Ok(numbers) => match numbers.as_slice() {
            [p, q, g] => {
                add_bits(lines, bit_len(p.as_bytes()) as u64);
                add_natural(lines, "p", p.as_bytes());
                add_natural(lines, "q", q.as_bytes());
                add_natural(lines, "g", g.as_bytes());
            }
            _ => add_malformed_parameters(lines, parameters, ErrorKind::Failed),
        },
        Err(error) => add_malformed_parameters(lines, parameters, error.kind),
    }
}

/// Adds the lines of the parameters of a key: its curve (RFC 3279 2.3.5), or the numbers of DSA
/// (2.3.2).
pub fn add_key_parameters(lines: &mut Lines, algorithm: &AlgorithmIdentifier) {
    let Some(parameters) = &algorithm.parameters else {
        return;
    };
    match known_name(algorithm.oid.as_bytes()).unwrap_or("") {
        "id-ecPublicKey" => add_curve_of(lines, parameters),
        "id-dsa" => add_group(lines, parameters),
        _ => {}
    }
}

// Adds a line with the number of a DSA key.
fn add_dsa(lines: &mut Lines, bits: &BitString) {
    match leaf_from_der::<Uint>(lines.alloc, bits.raw_bytes()) {
        Ok(number) if bits.unused_bits() == 0 => add_natural(lines, "public", number.as_bytes()),
        Ok(_) => add_malformed_key(lines, bits, ErrorKind::Failed),
        Err(error) => add_malformed_key(lines, bits, error.kind),
    }
}

// Adds the lines of the modulus and the exponent of an RSA key, or that it is malformed.
fn add_numbers(lines: &mut Lines, numbers: &[Uint], bits: &BitString) {
    match numbers {
        [modulus, exponent] if bits.unused_bits() == 0 => {
            add_bits(lines, bit_len(modulus.as_bytes()) as u64);
            add_natural(lines, "modulus", modulus.as_bytes());
            add_natural(lines, "exponent", exponent.as_bytes());
        }
        _ => add_malformed_key(lines, bits, ErrorKind::Failed),
    }
}

// Adds the lines of an RSA key, which is a SEQUENCE of two numbers (RFC 3279 2.3.1).
fn add_rsa(lines: &mut Lines, bits: &BitString) {
    match read_members::<Uint>(lines.alloc, bits.raw_bytes()) {
        Ok(numbers) => add_numbers(lines, numbers.as_slice(), bits),
        Err(error) => add_malformed_key(lines, bits, error.kind),
    }
}

// Adds the lines of the key's bits, by the name of its algorithm.
fn add_key_bits(lines: &mut Lines, key: &SubjectPublicKeyInfo) {
    add_key_parameters(lines, &key.algorithm);
    match known_name(key.algorithm.oid.as_bytes()).unwrap_or("") {
        "rsaEncryption" | "id-RSASSA-PSS" => add_rsa(lines, &key.subject_public_key),
        "id-dsa" => add_dsa(lines, &key.subject_public_key),
        "id-ecPublicKey" => add_bit_row(lines, "point", "point", &key.subject_public_key),
        "id-X25519" | "id-X448" | "id-Ed25519" | "id-Ed448" => {
            add_bits(lines, key.subject_public_key.bit_len() as u64);
            add_bit_row(lines, "octets", "octets", &key.subject_public_key);
        }
        _ => add_bit_row(lines, "octets", "octets", &key.subject_public_key),
    }
}

// Adds the lines of a key.
pub fn add_key(lines: &mut Lines, key: &SubjectPublicKeyInfo) {
    lines.node("key", "subjectPublicKeyInfo");
    add_algorithm_members(lines, &key.algorithm);
    add_key_bits(lines, key);
    lines.close();
}

/// Adds the lines of the digests of bytes, if digests are printed.
pub fn add_digests(lines: &mut Lines, names: [&str; 2], octets: &[u8]) {
    if !lines.has_digests {
        return;
    }
    let [first, second] = names;
    add_octets(lines, first, Sha1::digest(octets).as_slice());
    add_octets(lines, second, Sha256::digest(octets).as_slice());
}

// Adds a line with the pin of a key: the base64 of the SHA-256 digest of its encoding (RFC 7469
// 2.4).
fn add_pin(lines: &mut Lines, octets: &[u8]) {
    match STANDARD.encode(lines.alloc, Sha256::digest(octets).as_slice()) {
        Ok(pin) => lines.text_row("key-pin-sha256", "key-pin-sha256", pin.as_str()),
        Err(_) => lines.fail(),
    }
}

// Adds the lines of the digests of a key, if digests are printed: of its encoding, and of its bits,
// from which most key identifiers are made (RFC 5280 4.2.1.2).
pub fn add_key_digests(lines: &mut Lines, key: &SubjectPublicKeyInfo) {
    if !lines.has_digests {
        return;
    }
    match key.to_der(lines.alloc) {
        Ok(octets) => {
            add_digests(lines, ["key-sha1", "key-sha256"], octets.as_slice());
            add_pin(lines, octets.as_slice());
        }
        Err(_) => lines.fail(),
    }
    let bits = Sha1::digest(key.subject_public_key.raw_bytes());
    add_octets(lines, "key-bits-sha1", bits.as_slice());
}
