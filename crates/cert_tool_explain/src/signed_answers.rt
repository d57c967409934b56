//! Finds out which signatures the answers are about.

use crate::reasons::begin_detail;
use cert_desk_checking::desk_rules::Answer;
use cert_tool_describe::oid::ObjectIdentifier;
use cert_tool_describe::tool_lines::Lines;
use std::alloc::{AllocError, Global};
use std::collections::BTreeMap;

/// The signed bytes of the answers.
#[derive(Drop)]
pub struct SignedAnswers {
    signed: BTreeMap<Vec<u8>, ()>,
    // The number of answers.
    count: usize,
}

impl SignedAnswers {
    /// Returns the signed bytes of these answers.
    pub fn of(alloc: Global, answers: &[Answer]) -> Result<SignedAnswers, AllocError> {
        let mut signed = BTreeMap::new(alloc);
        for answer in answers {
            let octets = answer.signed.as_slice().to_vec(alloc)?;
            if signed.insert(octets, ()).is_err() {
                return Err(AllocError);
            }
        }
        Ok(SignedAnswers {
            signed,
            count: answers.len(),
        })
    }

    // Adds whether any answer is about these signed bytes. `has_issuer` says whether there is a key
    // under which an answer was looked up.
    pub(crate) fn add(&self, lines: &mut Lines, octets: &[u8], has_issuer: bool) {
        begin_detail(lines);
        if self.count == 0 {
            lines.push("there are no answers");
        } else if !has_issuer {
            lines.push("no trust anchor has the issuer's name, so no answer was looked up");
        } else if self.signed.contains_key(octets) {
            lines.push("an answer has these signed bytes, but another key or signature");
        } else {
            let count = self.count as u64;
            lines.show("none of the ", count, " answers has these signed bytes");
        }
        lines.end();
    }
}

// The algorithms that `cert_tool_answer` (`examples/answer.py`) verifies: RSASSA-PKCS1-v1_5 and
// RSASSA-PSS (RFC 8017), ECDSA (RFC 5758), Ed25519 and Ed448 (RFC 8410).
const VERIFIED: [&[u8]; 13] = [
    &[0x2a, 0x86, 0x48, 0x86, 0xf7, 0x0d, 1, 1, 5],
    &[0x2a, 0x86, 0x48, 0x86, 0xf7, 0x0d, 1, 1, 10],
    &[0x2a, 0x86, 0x48, 0x86, 0xf7, 0x0d, 1, 1, 11],
    &[0x2a, 0x86, 0x48, 0x86, 0xf7, 0x0d, 1, 1, 12],
    &[0x2a, 0x86, 0x48, 0x86, 0xf7, 0x0d, 1, 1, 13],
    &[0x2a, 0x86, 0x48, 0x86, 0xf7, 0x0d, 1, 1, 14],
    &[0x2a, 0x86, 0x48, 0xce, 0x3d, 4, 1],
    &[0x2a, 0x86, 0x48, 0xce, 0x3d, 4, 3, 1],
    &[0x2a, 0x86, 0x48, 0xce, 0x3d, 4, 3, 2],
    &[0x2a, 0x86, 0x48, 0xce, 0x3d, 4, 3, 3],
    &[0x2a, 0x86, 0x48, 0xce, 0x3d, 4, 3, 4],
    &[0x2b, 0x65, 0x70],
    &[0x2b, 0x65, 0x71],
];

// Returns whether `cert_tool_answer` verifies this algorithm.
fn is_verified(algorithm: &ObjectIdentifier<39>) -> bool {
    for verified in &VERIFIED {
        if *verified == algorithm.as_bytes() {
            return true;
        }
    }
    false
}

// Adds the signature algorithm.
pub(crate) fn add_algorithm(lines: &mut Lines, algorithm: &ObjectIdentifier<39>) {
    begin_detail(lines);
    lines.identifier("the algorithm is ", algorithm, "");
    if !is_verified(algorithm) {
        lines.push(", which cert_tool_answer doesn't support");
    }
    lines.end();
}
