//! Answers of a signature verifier.
ghost use Rattle.std.specs.Prelude.{◌≡◌};
ghost use Rattle.cert_desk_bundle.specs.CertParts.Views.{key_plain, algorithm_plain};
ghost use Rattle.cert_desk_rules.specs.Answers.{answer_plain, answer_rank, is_about, rank};
ghost use Rattle.cert_desk_rules.specs.Answers.{rank_cmp};

use cert_desk_bundle::cert_parts::{AlgorithmIdentifier, SubjectPublicKeyInfo};
use cert_desk_bundle::types::BitString;
use std::cmp::Ordering;

/// A signature that a verifier outside the program found valid: the key, the algorithm, the signed
/// bytes, and the bits.
#[derive(Debug, Drop)]
pub struct Answer {
    /// The public key.
    pub key: SubjectPublicKeyInfo,
    /// The signature algorithm.
    pub algorithm: AlgorithmIdentifier,
    /// The signed bytes.
    pub signed: Vec<u8>,
    /// The bits of the signature.
    pub bits: BitString,
}

impl Answer {
    /// Returns whether the answer is about this signature.
    #[tactic(auto, unfolding(crate::specs::Answers::is_about))]
    pub fn is_about(
        &self,
        key: &SubjectPublicKeyInfo,
        algorithm: &AlgorithmIdentifier,
        signed: &[u8],
        bits: &BitString,
    ) -> bool
        ensures { result ≡ is_about (key_plain key.now) (algorithm_plain algorithm.now)
            signed.now bits.now (answer_plain self.now) }
    {
        self.signed.as_slice() == signed
            && self.bits == *bits
            && self.algorithm == *algorithm
            && self.key == *key
    }

    /// Compares the answer with a signature in the order of answers: by the signed bytes, then by
    /// the bits of the signature, then by the bits of the key.
    pub fn ordering(&self, key: &SubjectPublicKeyInfo, signed: &[u8], bits: &BitString) -> Ordering
        ensures { result ≡ rank_cmp (answer_rank self.now) (rank (key_plain key.now) signed.now
            bits.now) }
    {
        let of_signed = self.signed.as_slice().cmp(signed);
        let of_bits = self.bits.raw_bytes().cmp(bits.raw_bytes());
        let key_bits = key.subject_public_key.raw_bytes();
        let of_key = self.key.subject_public_key.raw_bytes().cmp(key_bits);
        of_signed.then(of_bits.then(of_key))
    }
}
