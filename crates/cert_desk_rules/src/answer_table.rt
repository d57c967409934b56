//! A table of answers with binary search.
ghost use Rattle.std.specs.Prelude.{◌≡◌, map};
ghost use Rattle.std.specs.List.{list_any};
ghost use Rattle.std.specs.List.Sorted.{IsSortedByKey};
ghost use Rattle.cert_desk_bundle.specs.CertParts.Views.{key_plain, algorithm_plain};
ghost use Rattle.cert_desk_rules.specs.Answers.{answer_plain, answer_rank, is_about, only_yes_to};
ghost use Rattle.cert_desk_rules.specs.Answers.{rank_cmp};

use crate::answer::Answer;
use cert_desk_bundle::cert_parts::{AlgorithmIdentifier, SubjectPublicKeyInfo};
use cert_desk_bundle::types::BitString;

/// Answers, sorted by `Answer::ordering`.
#[derive(Debug, Drop)]
pub struct AnswerTable {
    sorted: Vec<Answer>,
    ghost in_order: { IsSortedByKey answer_rank rank_cmp sorted.items },
}

impl AnswerTable {
    // Returns a table of these answers.
    pub fn new(mut answers: Vec<Answer>) -> AnswerTable
        ensures { only_yes_to (map answer_plain result.sorted.items)
            ≡ only_yes_to (map answer_plain answers.items) }
    {
        answers.sort_unstable_by(|a, b| a.ordering(&b.key, b.signed.as_slice(), &b.bits));
        AnswerTable { sorted: answers }
    }

    // Returns whether an answer is about this signature. Finds the answers that compare equal by
    // binary search, and compares only these in full.
    pub fn has(
        &self,
        key: &SubjectPublicKeyInfo,
        algorithm: &AlgorithmIdentifier,
        signed: &[u8],
        bits: &BitString,
    ) -> bool
        ensures { result ≡ only_yes_to (map answer_plain self.now.sorted.items) (key_plain key.now)
            (algorithm_plain algorithm.now) signed.now bits.now }
    {
        let answers = self.sorted.as_slice();
        let first = answers.partition_point(|answer| answer.ordering(key, signed, bits).is_lt());
        let (_, rest) = answers.split_at(first);
        let count = rest.partition_point(|answer| answer.ordering(key, signed, bits).is_le());
        let (of_rank, _) = rest.split_at(count);
        any_about(of_rank, key, algorithm, signed, bits)
    }
}

// Returns whether one of these answers is about this signature.
fn any_about(
    answers: &[Answer],
    key: &SubjectPublicKeyInfo,
    algorithm: &AlgorithmIdentifier,
    signed: &[u8],
    bits: &BitString,
) -> bool
    ensures { result ≡ list_any (λ a. is_about (key_plain key.now) (algorithm_plain algorithm.now)
        signed.now bits.now (answer_plain a)) answers.now }
{
    answers
        .iter()
        .any(|answer| answer.is_about(key, algorithm, signed, bits))
}
