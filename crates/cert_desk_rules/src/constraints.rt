//! Decodes basic constraints without allocating (RFC 5280 4.2.1.9).
ghost use Rattle.std.specs.Prelude.{◌≡◌, ◌≢◌, ℕ, List, ◌∷◌, ◌++◌, false, length, IfSome, IfNone};
ghost use Rattle.cert_desk_rules.specs.Findings.{weight_of};
ghost use Rattle.cert_desk_rules.specs.Weighing.{basic_constraints_in, ca_octets, constraints_of};
ghost use Rattle.cert_desk_rules.specs.Weighing.{meaning_of};

use crate::weight::Weight;
use cert_desk_bundle::der::making::leaf_from_der;
use std::alloc::Global;

// Decodes basic constraints and returns the facts that the rules need. `pathLenConstraint` fits in
// eight bits, so the length of the SEQUENCE has one byte.
pub fn weigh_constraints(alloc: Global, octets: &[u8]) -> Weight
    ensures { (purpose : List ℕ)
        → result ≡ weight_of purpose (meaning_of constraints_of (basic_constraints_in octets.now)) }
{
    let Some(fields) = fields_of(octets) else {
        return Weight::Malformed;
    };
    let (ca, rest) = split_ca(fields);
    if rest.is_empty() {
        return Weight::Constraints { ca, path_len: None };
    }
    match leaf_from_der::<u8>(alloc, rest) {
        Ok(most) => Weight::Constraints {
            ca,
            path_len: Some(most),
        },
        Err(_) => Weight::Malformed,
    }
}

// Returns the fields of a SEQUENCE whose length has one byte (X.690 8.1.3.4).
fn fields_of(octets: &[u8]) -> Option<&[u8]>
    ensures some { IfSome result (λ fields. octets.now ≡ 48 ∷ length fields.now ∷ fields.now) }
    ensures none { IfNone result ((fields : List ℕ)
        → octets.now ≢ 48 ∷ length fields ∷ fields) }
{
    let [0x30, len, fields @ ..] = octets else {
        return None;
    };
    if fields.len() != usize::from(*len) {
        return None;
    }
    Some(fields)
}

// Splits off `cA`. Returns its value and the bytes after it.
fn split_ca(fields: &[u8]) -> (bool, &[u8])
    ensures split { fields.now ≡ ca_octets result.0 ++ result.1.now }
    ensures spelled { result.0 ≡ false → (rest : List ℕ) → fields.now ≢ 1 ∷ 1 ∷ 255 ∷ rest }
{
    match fields.strip_prefix([1, 1, 0xff].as_slice()) {
        Some(rest) => (true, rest),
        None => (false, fields),
    }
}
