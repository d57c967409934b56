//! A signature verifier that accepts the signatures of a list.
ghost use Rattle.std.specs.Prelude.{◌≡◌, map};
ghost use Rattle.cert_desk_rules.specs.Answers.{answer_plain, only_yes_to};
ghost use Rattle.cert_desk_rules.specs.Judges.{judge_answers, judge_questions};

use crate::answer::Answer;
use crate::answer_table::AnswerTable;
use crate::signature_judge::SignatureJudge;
use cert_desk_bundle::cert_parts::{AlgorithmIdentifier, SubjectPublicKeyInfo};
use cert_desk_bundle::types::BitString;

/// A signature verifier that accepts exactly the signatures of a list, which a verifier outside the
/// program made. It finds them by binary search.
#[derive(Debug, Drop)]
pub struct AnswersJudge {
    answers: AnswerTable,
    questions: u64,
}

impl AnswersJudge {
    /// Returns a verifier that accepts exactly these signatures. Its count of questions is 0.
    pub fn new(answers: Vec<Answer>) -> AnswersJudge
        ensures answers { judge_answers result ≡ only_yes_to (map answer_plain answers.items) }
        ensures questions { judge_questions result ≡ 0 }
    {
        AnswersJudge {
            answers: AnswerTable::new(answers),
            questions: 0,
        }
    }
}

impl SignatureJudge for AnswersJudge {
    ghost answers = { judge_answers };

    ghost questions = { judge_questions };

    fn accepts(
        &mut self,
        key: &SubjectPublicKeyInfo,
        algorithm: &AlgorithmIdentifier,
        signed: &[u8],
        bits: &BitString,
    ) -> bool {
        self.questions = self.questions.saturating_add(1);
        self.answers.has(key, algorithm, signed, bits)
    }
}
