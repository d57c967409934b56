//! The command `explain chain`: prints why a chain is rejected.

ghost use Rattle.std.specs.Prelude.{◌≡◌, ◌≤◌, length, map, true, false, IfOk};
ghost use Rattle.cert_tool_explain.specs.DeskIo.Devices.{sink, source};
ghost use Rattle.cert_tool_explain.specs.DeskIo.Whole.{most_octets};
ghost use Rattle.cert_tool_explain.specs.DeskChecking.Anchors.{anchor_plain};
ghost use Rattle.cert_tool_explain.specs.DeskRules.Answers.{answer_plain, only_yes_to};
ghost use Rattle.cert_tool_explain.specs.DeskRules.Judges.{judge_answers};
ghost use Rattle.cert_tool_explain.specs.KeptChains.{are_kept};
ghost use Rattle.cert_tool_limits.specs.DemandChecks.{are_made};
ghost use Rattle.cert_tool.specs.Explaining.{IsExplained, IsDemandResultIf, IsExplainedOf};
ghost use Rattle.cert_tool.specs.Explaining.{IsExplainedUnder, IsOutcomeExplained, IsStreamExplained};
ghost use Rattle.cert_tool.specs.Explaining.{IsChainTextWritten, IsDemandResultWritten, KeepsEachRule};

use crate::demand_lines::add_demand_result;
use crate::demand_reports::write_demand_result;
use crate::option_values::Terms;
use crate::reading::read_input;
use crate::status::Status;
use crate::stream_fault::stop_of;
use crate::verifying::{Opened, read_answers, report_none};
use cert_tool_explain::desk_bundle::Bundle;
use cert_tool_explain::desk_checking::{
    Anchor, Outcome, anchors_in, judge_each, read_stream, status_of,
};
use cert_tool_explain::desk_io::{
    ExitStatus, Input, Output, answer, complain, tell_device, tell_memory,
};
use cert_tool_explain::desk_rules::{Answer, AnswersJudge, Verdict};
use cert_tool_explain::tool_lines::Lines;
use cert_tool_explain::{Report, SignedAnswers, ValidatedChain, add_chain, are_kept};
use cert_tool_limits::{DemandResult, hold, needs_use};
use std::alloc::{AllocError, Global};

// Returns the explanation of a validated chain: the rules that each certificate breaks, and whether
// the chain meets the demands.
fn told(
    alloc: Global,
    bundle: &Bundle,
    judged: &ValidatedChain<'_>,
    held: DemandResult,
    is_json: bool,
) -> Result<Report, AllocError>
    ensures { IfOk result (λ explained. explained.has_remarks ≡ false
        → are_kept judged.now.kept.now ≡ true) }
{
    let mut lines = Lines::new(alloc, is_json);
    lines.list("findings");
    add_chain(&mut lines, bundle, judged);
    add_demand_result(&mut lines, held);
    lines.end_list();
    let explained = Report::of(lines, are_kept(judged.kept))?;
    Ok(explained)
}

// Returns whether a chain meets the demands, if any are made.
fn demand_result_if(
    alloc: Global,
    bundle: &Bundle,
    anchor_octets: &[u8],
    terms: &Terms<'_>,
    judge: &mut AnswersJudge,
) -> Result<DemandResult, AllocError>
    requires { length anchor_octets.now ≤ most_octets }
    ensures { IfOk result (IsDemandResultIf (are_made terms.now.demands) terms.now
        (judge_answers judge.old) anchor_octets.now bundle.now.certificates) }
{
    if !terms.demands.are_made() {
        return Ok(DemandResult::Met);
    }
    hold(
        alloc,
        anchor_octets,
        bundle,
        &terms.demands,
        terms.moment,
        &terms.purpose,
        judge,
    )
}

// Validates a chain with the answers and the trust anchors, and returns the explanation.
// `anchor_octets` are the bytes of the trust anchors.
#[tactic(auto, using(cert_tool_explain::proofs::KeptChains::keeps_each))]
fn explained(
    alloc: Global,
    bundle: &Bundle,
    anchors: &[Anchor],
    anchor_octets: &[u8],
    terms: &Terms<'_>,
    answers: Vec<Answer>,
) -> Result<(Report, DemandResult), AllocError>
    requires { length anchor_octets.now ≤ most_octets }
    ensures held { IfOk result (λ p. IsDemandResultIf (are_made terms.now.demands) terms.now
        (only_yes_to (map answer_plain answers.items)) anchor_octets.now bundle.now.certificates
        p.1) }
    ensures valid { IfOk result (λ p. p.0.has_remarks ≡ false → KeepsEachRule terms.now
        (only_yes_to (map answer_plain answers.items)) (map anchor_plain anchors.now)
        bundle.now.certificates) }
{
    let heard = SignedAnswers::of(alloc, answers.as_slice())?;
    let mut judge = AnswersJudge::new(answers);
    let (moment, purpose) = (terms.moment, &terms.purpose);
    let kept = judge_each(alloc, bundle, anchors, moment, purpose, &mut judge)?;
    let judged = ValidatedChain {
        kept: kept.as_slice(),
        anchors,
        anchor_octets,
        heard: &heard,
        purpose,
        is_strict: terms.demands.is_strict,
        checks_key_usage: terms.demands.is_strict && needs_use(purpose),
    };
    let held = demand_result_if(alloc, bundle, anchor_octets, terms, &mut judge)?;
    let explained = told(alloc, bundle, &judged, held, terms.is_json)?;
    Ok((explained, held))
}

// Reports why there is no chain to explain, and returns the status.
fn report_no_chain<E: Output>(err: &mut E, outcome: Outcome) -> ExitStatus
    ensures { IsOutcomeExplained (sink E.gives E.failures err.old err.new) outcome result }
{
    match outcome {
        Outcome::Checked(checked) => {
            let line = match checked.verdict {
                Verdict::Empty => "the stream is empty\n",
                _ => "the stream can't be decoded\n",
            };
            complain(err, line.as_bytes(), status_of(checked.verdict))
        }
        Outcome::BadAnchors { .. } => complain(
            err,
            b"the trust anchors can't be decoded\n",
            ExitStatus::Arguments,
        ),
        Outcome::Device => tell_device(err),
        Outcome::OutOfMemory => tell_memory(err),
    }
}

// Writes the explanation of a chain, and returns the exit status: that of the demands, or `Refused`
// if there are remarks and they are to fail the run.
fn write_explained_chain<O: Output, E: Output>(
    explained: &Report,
    held: DemandResult,
    fails: bool,
    out: &mut O,
    err: &mut E,
) -> Status
    ensures { IsDemandResultWritten fails (explained.now.has_remarks ≡ false)
        (sink O.gives O.failures out.old out.new) (sink E.gives E.failures err.old err.new) held
        result }
{
    let text = explained.text.as_slice();
    if fails && explained.has_remarks {
        return Status::Exit(answer(out, err, text, ExitStatus::Refused));
    }
    write_demand_result(held, text, out, err)
}

// Explains a chain that was read. The trust anchors were decoded from these bytes.
fn explain_bundle<O: Output, E: Output>(
    alloc: Global,
    answers: Vec<Answer>,
    anchors: &[Anchor],
    anchor_octets: &[u8],
    bundle: &Bundle,
    out: &mut O,
    err: &mut E,
    terms: &Terms<'_>,
) -> Status
    requires { length anchor_octets.now ≤ most_octets }
    ensures { IsChainTextWritten terms.now (only_yes_to (map answer_plain answers.items))
        anchor_octets.now (map anchor_plain anchors.now) bundle.now.certificates
        (sink O.gives O.failures out.old out.new) (sink E.gives E.failures err.old err.new) result }
{
    match explained(alloc, bundle, anchors, anchor_octets, terms, answers) {
        Ok((explained, held)) => {
            write_explained_chain(&explained, held, terms.fails_on_remark, out, err)
        }
        Err(_) => Status::Exit(tell_memory(err)),
    }
}

// Reads the chain from an input and explains it. The trust anchors were decoded from these bytes.
fn explain_stream_of<I: Input, O: Output, E: Output>(
    alloc: Global,
    answers: Vec<Answer>,
    anchors: &[Anchor],
    anchor_octets: &[u8],
    stream: &mut I,
    out: &mut O,
    err: &mut E,
    terms: &Terms<'_>,
) -> Status
    requires few { length anchor_octets.now ≤ most_octets }
    requires limit { 6 ≤ terms.now.limit }
    ensures { IsStreamExplained anchor_octets.now (map anchor_plain anchors.now)
        (source I.takes I.is_ended I.failures stream.old stream.new)
        (sink O.gives O.failures out.old out.new) (sink E.gives E.failures err.old err.new)
        terms.now (only_yes_to (map answer_plain answers.items)) result }
{
    let bundle = read_stream(alloc, terms.limit, stream);
    if let Some(outcome) = stop_of(&bundle) {
        return Status::Exit(report_no_chain(err, outcome));
    }
    explain_bundle(
        alloc,
        answers,
        anchors,
        anchor_octets,
        &bundle,
        out,
        err,
        terms,
    )
}

// Decodes the trust anchors and explains the chain.
fn explain_under<I: Input, O: Output, E: Output>(
    alloc: Global,
    answers: Vec<Answer>,
    octets: &[u8],
    stream: &mut I,
    out: &mut O,
    err: &mut E,
    terms: &Terms<'_>,
) -> Status
    requires few { length octets.now ≤ most_octets }
    requires limit { 6 ≤ terms.now.limit }
    ensures { IsExplainedOf octets.now (source I.takes I.is_ended I.failures stream.old stream.new)
        (sink O.gives O.failures out.old out.new) (sink E.gives E.failures err.old err.new)
        terms.now (only_yes_to (map answer_plain answers.items)) result }
{
    match anchors_in(alloc, octets) {
        Ok(anchors) => explain_stream_of(
            alloc,
            answers,
            anchors.as_slice(),
            octets,
            stream,
            out,
            err,
            terms,
        ),
        Err(error) => Status::Exit(report_no_chain(err, Outcome::from(error))),
    }
}

// Reads the trust anchors from an input and explains the chain.
fn explain_by<I: Input, O: Output, E: Output>(
    alloc: Global,
    answers: Vec<Answer>,
    anchors: &mut I,
    stream: &mut I,
    out: &mut O,
    err: &mut E,
    terms: &Terms<'_>,
) -> Status
    requires { 6 ≤ terms.now.limit }
    ensures { IsExplainedUnder (source I.takes I.is_ended I.failures anchors.old anchors.new)
        (source I.takes I.is_ended I.failures stream.old stream.new)
        (sink O.gives O.failures out.old out.new) (sink E.gives E.failures err.old err.new)
        terms.now (only_yes_to (map answer_plain answers.items)) result }
{
    match read_input(alloc, false, anchors, err) {
        Ok(octets) => explain_under(alloc, answers, octets.as_slice(), stream, out, err, terms),
        Err(status) => Status::Exit(status),
    }
}

// Explains a chain. The answers say which signatures are valid. Prints the rules that each
// certificate breaks, each with its first reason, and returns the exit status.
//
// The rules have the names that `verify` prints. Remarks report what no rule forbids: dates after
// those of the issuer, a serial number that an earlier certificate of the same issuer has, and
// violations of RFC 5280 that path validation doesn't check. The output begins with the fields of
// the issuing trust anchor that aren't checked, and ends with the demands that the chain doesn't
// meet.
//
// The answers are read first. If they can't be read, `explain_chain` reports that as `run_verify`
// does, and `are_read` becomes false (no clause states this; only a hint depends on it).
pub(crate) fn explain_chain<I: Input, O: Output, E: Output>(
    alloc: Global,
    inputs: &mut Opened<I>,
    out: &mut O,
    err: &mut E,
    terms: &Terms<'_>,
    are_read: &mut bool,
) -> Status
    requires { 6 ≤ terms.now.limit }
    ensures explained { IsExplained
        (source I.takes I.is_ended I.failures inputs.old.answers inputs.new.answers)
        (source I.takes I.is_ended I.failures inputs.old.anchors inputs.new.anchors)
        (source I.takes I.is_ended I.failures inputs.old.stream inputs.new.stream)
        (sink O.gives O.failures out.old out.new) (sink E.gives E.failures err.old err.new)
        terms.now result }
{
    match read_answers(alloc, &mut inputs.answers) {
        Ok(answers) => explain_by(
            alloc,
            answers,
            &mut inputs.anchors,
            &mut inputs.stream,
            out,
            err,
            terms,
        ),
        Err(none) => {
            *are_read = false;
            Status::Exit(report_none(alloc, none, err))
        }
    }
}
