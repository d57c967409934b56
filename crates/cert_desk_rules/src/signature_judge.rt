//! The trait of signature verifiers.
ghost use Rattle.std.specs.Prelude.{◌≡◌, ℕ};
ghost use Rattle.cert_desk_bundle.specs.CertParts.Views.{key_plain, algorithm_plain};
ghost use Rattle.cert_desk_rules.specs.Judging.{Answers};
ghost use Rattle.cert_desk_rules.specs.Verdicts.{raised};

use cert_desk_bundle::cert_parts::{AlgorithmIdentifier, SubjectPublicKeyInfo};
use cert_desk_bundle::types::BitString;

/// A signature verifier. Its answer depends only on the key, the algorithm, the signed bytes and
/// the bits of the signature, and no call changes it.
pub trait SignatureJudge {
    /// The answers: for each key, algorithm, signed bytes and signature, whether the verifier
    /// accepts it.
    ghost answers: { Self → Answers };

    /// The number of questions so far. The count stays at 2^64 - 1.
    ghost questions: { Self → ℕ };

    /// Returns whether the bits are a signature over the bytes, by this algorithm and under this
    /// key.
    ///
    /// `algorithm` is the `signatureAlgorithm` of the certificate. Its parameters aren't decoded. A
    /// verifier returns `false` for an algorithm, parameters or a key that it doesn't know.
    /// docs/GUIDE.md explains how to write a verifier.
    fn accepts(
        &mut self,
        key: &SubjectPublicKeyInfo,
        algorithm: &AlgorithmIdentifier,
        signed: &[u8],
        bits: &BitString,
    ) -> bool
        ensures answered { result
            ≡ answers self.old (key_plain key.now) (algorithm_plain algorithm.now) signed.now
            bits.now }
        ensures kept { answers self.new ≡ answers self.old }
        ensures counted { questions self.new ≡ raised (questions self.old) 1 };
}
