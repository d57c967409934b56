//! A signature verifier that compares digests. It takes the place of one with a real signature
//! algorithm.
ghost use Rattle.std.specs.Prelude.{◌≡◌};
ghost use Rattle.cert_desk_bundle.specs.CertParts.Views.{algorithm_plain};
ghost use Rattle.cert_desk_rules.specs.Digests.{digest_answers, is_digest};

use crate::signature_judge::SignatureJudge;
use cert_desk_bundle::cert_parts::{AlgorithmIdentifier, SubjectPublicKeyInfo};
use cert_desk_bundle::types::BitString;
use sha2::{Digest, Sha256};

// The content bytes of the OID 1.3.6.1.4.1.32473.2, which is under the arc for examples (RFC 5612).
const DIGEST_ALGORITHM: [u8; 9] = [0x2b, 0x06, 0x01, 0x04, 0x01, 0x81, 0xfd, 0x59, 0x02];

// Returns whether the algorithm is 1.3.6.1.4.1.32473.2, without parameters.
fn is_digest(algorithm: &AlgorithmIdentifier) -> bool
    ensures { result ≡ is_digest (algorithm_plain algorithm.now) }
{
    match &algorithm.parameters {
        Some(_) => false,
        None => algorithm.oid.as_bytes() == DIGEST_ALGORITHM.as_slice(),
    }
}

/// A signature verifier that accepts a signature exactly if two things are true: the algorithm is
/// 1.3.6.1.4.1.32473.2 without parameters, and the bits are the 32 bytes of the SHA-256 digest
/// (FIPS 180-4) over the bytes of the key's bit string followed by the signed bytes.
///
/// It protects nothing, because everyone who knows the public key can make such a signature.
#[derive(Debug, Drop)]
pub struct DigestJudge {
    questions: u64,
}

impl DigestJudge {
    /// Returns a verifier whose count of questions is 0.
    pub fn new() -> DigestJudge
        ensures answers { ⟦<DigestJudge as SignatureJudge>⟧.answers result ≡ digest_answers }
        ensures questions { ⟦<DigestJudge as SignatureJudge>⟧.questions result ≡ 0 }
    {
        DigestJudge { questions: 0 }
    }
}

impl SignatureJudge for DigestJudge {
    ghost answers = { λ _. digest_answers };

    ghost questions = { λ judge. judge.questions };

    fn accepts(
        &mut self,
        key: &SubjectPublicKeyInfo,
        algorithm: &AlgorithmIdentifier,
        signed: &[u8],
        bits: &BitString,
    ) -> bool {
        self.questions = self.questions.saturating_add(1);
        if !is_digest(algorithm) {
            return false;
        }
        if bits.unused_bits() != 0 {
            return false;
        }
        let mut hasher = Sha256::new();
        hasher.update(key.subject_public_key.raw_bytes());
        hasher.update(signed);
        let digest = hasher.finalize();
        bits.raw_bytes() == digest.as_slice()
    }
}
