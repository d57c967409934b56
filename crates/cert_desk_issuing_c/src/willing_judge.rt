//! The signature verifier for chains that aren't signed yet.

use cert_desk_checking::desk_rules::SignatureJudge;
use cert_desk_orders::cert_parts::{AlgorithmIdentifier, SubjectPublicKeyInfo};
use cert_desk_orders::types::BitString;

/// A signature verifier that accepts each signature.
#[derive(Drop)]
pub(crate) struct WillingJudge {
    pub(crate) questions: u64,
}

impl SignatureJudge for WillingJudge {
    ghost use Rattle.cert_desk_issuing_c.specs.Auditing.{always};

    ghost answers = { λ _. always };

    ghost questions = { λ judge. judge.questions };

    fn accepts(
        &mut self,
        _key: &SubjectPublicKeyInfo,
        _algorithm: &AlgorithmIdentifier,
        _signed: &[u8],
        _bits: &BitString,
    ) -> bool {
        self.questions = self.questions.saturating_add(1);
        true
    }
}
