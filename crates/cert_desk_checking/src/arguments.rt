//! Numbers in the arguments of a program.
ghost use Rattle.std.specs.Prelude.{ℕ, ◌<◌, ◌≤◌, ◌^◌, IfSome, IfNone};
ghost use Rattle.cert_desk_checking.specs.Arguments.{IsNumber};

// The least size limit: a certificate has a header and some content.
const LEAST_LIMIT: u64 = 6;

/// Parses a number below 2^64 with one or more decimal digits. Leading zeros are allowed, a sign
/// isn't.
#[tactic(auto, unfolding(crate::specs::Arguments::IsNumber))]
pub fn number_in(text: &str) -> Option<u64>
    ensures read { IfSome result (λ n. IsNumber n text.now) }
    ensures refused { IfNone result ((n : ℕ) → IsNumber n text.now → n < 2 ^ 64 → ⊥) }
{
    if text.as_bytes().first() == Some(&b'+') {
        return None;
    }
    text.parse().ok()
}

/// Parses a size limit: a number from 6 to 2^32 - 1.
#[tactic(auto, unfolding(crate::specs::Arguments::IsNumber))]
pub fn limit_in(text: &str) -> Option<u32>
    ensures read { IfSome result (λ n. IsNumber n text.now) }
    ensures least { IfSome result (λ n. 6 ≤ n) }
    ensures refused { IfNone result ((n : ℕ) → IsNumber n text.now → 6 ≤ n → n < 2 ^ 32 → ⊥) }
{
    let Some(limit) = number_in(text) else {
        return None;
    };
    if limit < LEAST_LIMIT {
        return None;
    }
    if limit > u64::from(u32::MAX) {
        return None;
    }
    Some(limit as u32)
}
