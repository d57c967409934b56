//! Validates chains in memory, with a file of a verifier's answers.
ghost use Rattle.std.specs.Prelude.{◌≡◌, ◌≢◌, ◌≤◌, ◌<◌, ◌^◌, ◌⊎◌, List, length, map, IfOk, IfErr};
ghost use Rattle.std.specs.Prelude.{Ok};
ghost use Rattle.cert_desk_checking.specs.Oid.Bound.{Bound};
ghost use Rattle.cert_desk_checking.specs.DeskIo.declared.exit_status.ExitStatus.TheVariants.{Arguments};
ghost use Rattle.cert_desk_checking.specs.DeskIo.declared.exit_status.ExitStatus.TheVariants.{Memory};
ghost use Rattle.cert_desk_checking.specs.DeskBundle.declared.standing.Standing.{Standing};
ghost use Rattle.cert_desk_checking.specs.DeskBundle.Streams.{Reads};
ghost use Rattle.cert_desk_checking.specs.DeskRules.Answers.{only_yes_to};
ghost use Rattle.cert_desk_checking.specs.DeskRules.Judging.{PlainAnchor};
ghost use Rattle.cert_desk_checking.specs.DeskRules.Questions.{Question};
ghost use Rattle.cert_desk_checking.specs.DeskRules.Verdicts.{IsVerdict, Trusted};
ghost use Rattle.cert_desk_checking.specs.Anchors.{anchor_plain};
ghost use Rattle.cert_desk_checking.specs.AnchorFiles.{IsAnchorFile};
ghost use Rattle.cert_desk_checking.specs.Runs.{run_terms};
ghost use Rattle.cert_desk_answers.specs.AnswerLines.{file_says};
ghost use Rattle.cert_desk_answers.specs.Judged.{AreGiven, IsUnanswered, SaysTrusted, UnderGiven};

use crate::answer_lines::answers_in;
use crate::no_answers::NoAnswers;
use cert_desk_checking::desk_bundle::{Bundle, BundleError};
use cert_desk_checking::desk_io::ExitStatus;
use cert_desk_checking::desk_rules::{AnswersJudge, Verdict};
use cert_desk_checking::laws::one_anchor_file;
use cert_desk_checking::oid::ObjectIdentifier;
use cert_desk_checking::{Anchor, AnchorsError, anchors_in, check};
use std::alloc::Global;

/// Returns the trust anchors of a file (RFC 5914 2). Fails with the exit status `Arguments` or
/// `Memory`.
pub fn anchors_of(alloc: Global, octets: &[u8]) -> Result<Vec<Anchor>, ExitStatus>
    requires { length octets.now < 2 ^ 32 }
    ensures read { IfOk result
        (λ anchors. IsAnchorFile octets.now (map anchor_plain anchors.items)) }
    ensures other { IfErr result (λ status. (status ≡ Arguments) ⊎ (status ≡ Memory)) }
    ensures none { IfErr result
        (IsUnanswered ((given : List PlainAnchor) → IsAnchorFile octets.now given → ⊥)) }
{
    match anchors_in(alloc, octets) {
        Ok(anchors) => Ok(anchors),
        Err(AnchorsError::BadAnchors { .. }) => Err(ExitStatus::Arguments),
        Err(_) => Err(ExitStatus::Memory),
    }
}

/// Returns a bundle that has read these bytes, to their end or to an error in them. Fails with the
/// exit status `Memory`.
pub fn bundle_of(alloc: Global, limit: u32, octets: &[u8]) -> Result<Bundle, ExitStatus>
    requires { 6 ≤ limit }
    ensures limit { IfOk result (λ b. b.limit ≡ limit) }
    ensures ended { IfOk result (λ b. b.standing ≢ Standing.Open) }
    ensures reads { IfOk result (λ b. Reads Bound b octets.now) }
    ensures other { IfErr result (λ status. status ≡ Memory) }
{
    let mut bundle = Bundle::new(alloc, limit);
    match bundle.feed(octets) {
        Ok(()) => {}
        Err(BundleError::Fault { .. }) => return Ok(bundle),
        Err(_) => return Err(ExitStatus::Memory),
    }
    match bundle.finish() {
        Ok(()) => Ok(bundle),
        Err(BundleError::Fault { .. }) => Ok(bundle),
        Err(_) => Err(ExitStatus::Memory),
    }
}

/// Validates a chain under the trust anchors of a file, with a verifier that accepts exactly the
/// signatures that the answers list. Each certificate may have at most `limit` bytes. Fails with
/// the exit status `Arguments` or `Memory`.
pub fn verdict_of(
    alloc: Global,
    answers: &[u8],
    anchors: &[u8],
    chain: &[u8],
    moment: u64,
    purpose: &ObjectIdentifier<39>,
    limit: u32,
) -> Result<Verdict, ExitStatus>
    requires limit { 6 ≤ limit }
    requires short { length anchors.now < 2 ^ 32 }
    ensures judged { IfOk result (λ verdict. UnderGiven anchors.now answers.now moment purpose.now
        (λ t. IsVerdict t limit chain.now verdict)) }
    ensures other { IfErr result (λ status. (status ≡ Arguments) ⊎ (status ≡ Memory)) }
    ensures none { IfErr result (IsUnanswered (AreGiven anchors.now answers.now → ⊥)) }
    ensures only { (given : List PlainAnchor) (listing : List Question)
        → IsAnchorFile anchors.now given → file_says answers.now ≡ Ok listing
        → Trusted (run_terms given moment purpose.now (only_yes_to listing)) limit chain.now
        → SaysTrusted result }
{
    one_anchor_file();
    let answers = match answers_in(alloc, answers) {
        Ok(answers) => answers,
        Err(NoAnswers::OutOfMemory) => return Err(ExitStatus::Memory),
        Err(_) => return Err(ExitStatus::Arguments),
    };
    let anchors = anchors_of(alloc, anchors)?;
    let bundle = bundle_of(alloc, limit, chain)?;
    let mut judge = AnswersJudge::new(answers);
    match check(
        alloc,
        &bundle,
        anchors.as_slice(),
        moment,
        purpose,
        &mut judge,
    ) {
        Ok(checked) => Ok(checked.verdict),
        Err(_) => Err(ExitStatus::Memory),
    }
}
