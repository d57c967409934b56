//! Describes algorithms that encrypt with a password: PBES1 and PBES2 (RFC 8018 A), and those of
//! PKCS #12 (RFC 7292 C). Also describes the functions that derive a key for PBES2: PBKDF2 (RFC
//! 8018 A.2) and scrypt (RFC 7914 7).

use cert_tool_describe::cert_parts::AlgorithmIdentifier;
use cert_tool_describe::der::{ErrorKind, Tag};
use cert_tool_describe::tool_lines::{Lines, known_name};
use cert_tool_describe::types::{Any, Uint};
use cert_tool_describe::{
    add_algorithm, add_malformed_parameters, add_parameters, list_in, noted, sequence_in,
};

// Adds a line with a number, in hex if it has more than 64 bits.
fn add_number(lines: &mut Lines, word: &str, key: &str, value: &Any) {
    match value.decode_as::<u64>(lines.alloc) {
        Ok(number) => lines.count_row(word, key, number),
        Err(error) => {
            lines.note(error.kind);
            lines.number_row(word, key, value.value());
        }
    }
}

// The types of the parameters with which a key is derived from a password.
#[derive(Clone, Copy)]
enum DerivationType {
    // PBEParameter of PBES1 (RFC 8018 A.3) and pkcs-12PbeParams (RFC 7292 C): a salt and one cost.
    Pbe,
    // PBKDF2-params (RFC 8018 A.2): a salt, one cost, and optionally a key length and a
    // pseudorandom function.
    Pbkdf2,
    // scrypt-params (RFC 7914 7.1): a salt, three costs, and optionally a key length.
    Scrypt,
}

// The parameters with which a key is derived from a password.
#[derive(Clone, Copy)]
struct Derivation<'a> {
    salt: &'a Any,
    // The numbers that make the function slow.
    costs: &'a [Any],
    length: Option<&'a Any>,
    prf: Option<&'a Any>,
}

// Returns whether a value is an INTEGER that isn't negative.
fn is_natural(lines: &mut Lines, value: &Any) -> bool {
    let number = value.decode_as::<Uint>(lines.alloc);
    noted(lines, number).is_some()
}

// Returns whether all of the values are INTEGERs that aren't negative.
fn are_natural(lines: &mut Lines, values: &[Any]) -> bool {
    for value in values {
        if !is_natural(lines, value) {
            return false;
        }
    }
    true
}

// Returns the first value if it has this tag, and the values after it. Otherwise returns `None` and
// all values.
fn optional(values: &[Any], tag: Tag) -> (Option<&Any>, &[Any]) {
    match values {
        [first, rest @ ..] if first.tag() == tag => (Some(first), rest),
        _ => (None, values),
    }
}

// Returns the parameters of this type, or `None` if the values don't have the types of its fields.
// Numbers mustn't be negative; no other range and no size is checked. A salt is an OCTET STRING,
// because RFC 8018 A.2 has no algorithm for its other type, `otherSource`.
fn derivation_of<'a>(
    lines: &mut Lines,
    values: &'a [Any],
    kind: DerivationType,
) -> Option<Derivation<'a>> {
    let count = match kind {
        DerivationType::Pbe | DerivationType::Pbkdf2 => 1,
        DerivationType::Scrypt => 3,
    };
    let [salt, numbers @ ..] = values else {
        return None;
    };
    if salt.tag() != Tag::OctetString || numbers.len() < count {
        return None;
    }
    let (costs, rest) = (&numbers[..count], &numbers[count..]);
    let (length, rest) = match kind {
        DerivationType::Pbe => (None, rest),
        DerivationType::Pbkdf2 | DerivationType::Scrypt => optional(rest, Tag::Integer),
    };
    let (prf, rest) = match kind {
        DerivationType::Pbkdf2 => optional(rest, Tag::Sequence),
        DerivationType::Pbe | DerivationType::Scrypt => (None, rest),
    };
    let is_number = match length {
        Some(length) => is_natural(lines, length),
        None => true,
    };
    if !is_number || !are_natural(lines, costs) || !rest.is_empty() {
        return None;
    }
    Some(Derivation {
        salt,
        costs,
        length,
        prf,
    })
}

// Adds the lines of the costs.
fn add_costs(lines: &mut Lines, costs: &[Any]) {
    match costs {
        [count] => add_number(lines, "iterations", "iterationCount", count),
        [cost, size, parallel] => {
            add_number(lines, "cost", "costParameter", cost);
            add_number(lines, "block size", "blockSize", size);
            add_number(
                lines,
                "parallelization",
                "parallelizationParameter",
                parallel,
            );
        }
        _ => {}
    }
}

// Adds the lines of the parameters, except the pseudorandom function.
fn add_derivation(lines: &mut Lines, derivation: Derivation<'_>) {
    lines.octets_row("salt", "salt", derivation.salt.value());
    add_costs(lines, derivation.costs);
    if let Some(length) = derivation.length {
        add_number(lines, "key length", "keyLength", length);
    }
}

// Adds a line with the pseudorandom function of PBKDF2, which is HMAC with SHA-1 by default.
fn add_function(lines: &mut Lines, function: &Option<AlgorithmIdentifier>) {
    match function {
        Some(function) => add_algorithm(lines, "function", "prf", function),
        None => {
            lines.node("function", "prf");
            lines.text_member("default", "id-hmacWithSHA1");
            lines.word("by default");
            lines.close();
        }
    }
}

// Adds the lines of the parameters of PBKDF2. Returns whether the values are such parameters.
fn add_pbkdf2(lines: &mut Lines, values: &[Any]) -> bool {
    let Some(derivation) = derivation_of(lines, values, DerivationType::Pbkdf2) else {
        return false;
    };
    let function = match derivation.prf {
        Some(prf) => {
            let function = prf.decode_as::<AlgorithmIdentifier>(lines.alloc);
            let function = noted(lines, function);
            if function.is_none() {
                return false;
            }
            function
        }
        None => None,
    };
    add_derivation(lines, derivation);
    add_function(lines, &function);
    true
}

// Adds the lines of parameters without a pseudorandom function. Returns whether the values are
// parameters of this type.
fn add_salted(lines: &mut Lines, values: &[Any], kind: DerivationType) -> bool {
    match derivation_of(lines, values, kind) {
        Some(derivation) => {
            add_derivation(lines, derivation);
            true
        }
        None => false,
    }
}

// Adds the lines of the two algorithms of PBES2. Returns whether the value is its parameters.
fn add_pbes2(lines: &mut Lines, parameters: &Any) -> bool {
    let algorithms = list_in::<AlgorithmIdentifier>(lines.alloc, parameters);
    let Some(algorithms) = noted(lines, algorithms) else {
        return false;
    };
    let [derivation, scheme] = algorithms.as_slice() else {
        return false;
    };
    lines.node("derivation", "keyDerivationFunc");
    add_inner_members(lines, derivation);
    lines.close();
    add_algorithm(lines, "cipher", "encryptionScheme", scheme);
    true
}

// Adds the lines of the parameters of a function that derives a key, or of an algorithm of PBES1
// or PKCS #12. Returns whether the value is parameters of this type.
fn add_derivation_of(lines: &mut Lines, kind: DerivationType, parameters: &Any) -> bool {
    let Some(values) = sequence_in(lines, parameters) else {
        return false;
    };
    match kind {
        DerivationType::Pbkdf2 => add_pbkdf2(lines, values.as_slice()),
        DerivationType::Pbe | DerivationType::Scrypt => {
            add_salted(lines, values.as_slice(), kind)
        }
    }
}

// Adds the members of the algorithm that derives the key.
fn add_inner_members(lines: &mut Lines, algorithm: &AlgorithmIdentifier) {
    lines.members_of(&algorithm.oid);
    let Some(parameters) = &algorithm.parameters else {
        return;
    };
    let kind = match known_name(algorithm.oid.as_bytes()) {
        Some("id-PBKDF2") => DerivationType::Pbkdf2,
        Some("id-scrypt") => DerivationType::Scrypt,
        _ => {
            add_parameters(lines, parameters);
            return;
        }
    };
    if !add_derivation_of(lines, kind, parameters) {
        add_malformed_parameters(lines, parameters, ErrorKind::Failed);
    }
}

// Adds the lines of the parameters of the algorithm with this name. Returns whether the value is
// its parameters. Those of an algorithm that isn't known are added as they are, and count as valid.
fn add_parameters_of(lines: &mut Lines, name: &str, parameters: &Any) -> bool {
    if name == "id-PBES2" {
        return add_pbes2(lines, parameters);
    }
    if name.starts_with("pbe") {
        return add_derivation_of(lines, DerivationType::Pbe, parameters);
    }
    add_parameters(lines, parameters);
    true
}

/// Adds the lines of the algorithm that encrypts a private key.
pub fn add_encryption(lines: &mut Lines, algorithm: &AlgorithmIdentifier) {
    lines.node("algorithm", "encryptionAlgorithm");
    lines.members_of(&algorithm.oid);
    if let Some(parameters) = &algorithm.parameters {
        let name = known_name(algorithm.oid.as_bytes()).unwrap_or("");
        if !add_parameters_of(lines, name, parameters) {
            add_malformed_parameters(lines, parameters, ErrorKind::Failed);
        }
    }
    lines.close();
}
