//! Signature verifiers other than the program's.

ghost use Rattle.std.specs.Prelude.{bytes_eq};
ghost use Rattle.std.specs.List.{list_any};
ghost use Rattle.cert_desk_checking.specs.CertParts.Grammar.{key_bits};

use cert_desk::{AlgorithmIdentifier, BitString, SignatureJudge, SubjectPublicKeyInfo};

/// A verifier that always gives the same answer.
#[derive(Drop)]
pub struct FixedJudge {
    pub answer: bool,
    pub questions: u64,
}

impl SignatureJudge for FixedJudge {
    ghost answers = { λ judge _ _ _ _. judge.answer };

    ghost questions = { λ judge. judge.questions };

    fn accepts(
        &mut self,
        _key: &SubjectPublicKeyInfo,
        _algorithm: &AlgorithmIdentifier,
        _signed: &[u8],
        _bits: &BitString,
    ) -> bool {
        self.questions = self.questions.saturating_add(1);
        self.answer
    }
}

/// A verifier that accepts a signature if the signed bytes are in this list.
#[derive(Drop)]
pub struct OctetsJudge<'a> {
    pub list: &'a [Vec<u8>],
    pub questions: u64,
}

impl SignatureJudge for OctetsJudge<'_> {
    ghost answers = { λ judge _ _ signed _.
        list_any (λ octets. bytes_eq octets.items signed) judge.list.now };

    ghost questions = { λ judge. judge.questions };

    fn accepts(
        &mut self,
        _key: &SubjectPublicKeyInfo,
        _algorithm: &AlgorithmIdentifier,
        signed: &[u8],
        _bits: &BitString,
    ) -> bool {
        self.questions = self.questions.saturating_add(1);
        self.list.iter().any(|octets| octets.as_slice() == signed)
    }
}

/// A verifier that accepts a signature if the key has these bytes.
#[derive(Drop)]
pub struct KeyJudge<'a> {
    pub octets: &'a [u8],
    pub questions: u64,
}

impl SignatureJudge for KeyJudge<'_> {
    ghost answers = { λ judge key _ _ _. bytes_eq (key_bits key).octets judge.octets.now };

    ghost questions = { λ judge. judge.questions };

    fn accepts(
        &mut self,
        key: &SubjectPublicKeyInfo,
        _algorithm: &AlgorithmIdentifier,
        _signed: &[u8],
        _bits: &BitString,
    ) -> bool {
        self.questions = self.questions.saturating_add(1);
        key.subject_public_key.raw_bytes() == self.octets
    }
}
