//! The command `verify`: validates a chain with a verifier's answers.

ghost use Rattle.std.specs.Prelude.{◌≡◌, ◌≤◌, map, IfOk, IfErr, Ok, Err, string_bytes};
ghost use Rattle.cert_tool_explain.specs.DeskIo.Devices.{sink, source};
ghost use Rattle.cert_tool_explain.specs.DeskRules.Answers.{answer_plain};
ghost use Rattle.cert_tool.specs.TaskRuns.{IsValidated};
ghost use Rattle.cert_tool.specs.Verifying.{AreAnswers, IsMissingAnswersReported, IsVerdictReported, wrong_line};
ghost use Rattle.cert_tool.specs.Verifying.{verdict_json, verdict_line, verdict_text};

use crate::demand_reports::report_chain;
use crate::early_end::report_outcome;
use crate::end_entity::{end_entity_text, end_entity_with, trusted_text};
use crate::option_values::Terms;
use crate::status::Status;
use cert_desk_answers::{LineFault, NoAnswers, answers_in};
use cert_tool_explain::desk_bundle::Bundle;
use cert_tool_explain::desk_checking::{Outcome, find_validated, status_of, verdict_line};
use cert_tool_explain::desk_io::{
    ExitStatus, Input, Output, ReadAllError, answer, complain, read_all, tell_device, tell_memory,
};
use cert_tool_explain::desk_rules::{Answer, AnswersJudge, Checked, Verdict};
use std::alloc::{AllocError, Global};

/// The inputs of a chain that is validated.
#[derive(Drop)]
pub struct Opened<I> {
    pub answers: I,
    pub anchors: I,
    pub stream: I,
}

/// Reads the answers from an input, to its end.
///
/// # Errors
///
/// - `Line`: a line is wrong, as `answers_in` returns it.
/// - `TooMuch`: the input has 2^32 bytes or more.
/// - `Device`: a read fails.
/// - `OutOfMemory`: an allocation fails.
pub fn read_answers<N: Input>(alloc: Global, answers: &mut N) -> Result<Vec<Answer>, NoAnswers>
    ensures read { IfOk result (λ read. AreAnswers
        (source N.takes N.is_ended N.failures answers.old answers.new)
        (Ok (map answer_plain read.items))) }
    ensures refused { IfErr result (λ none. AreAnswers
        (source N.takes N.is_ended N.failures answers.old answers.new) (Err none)) }
{
    let octets = match read_all(alloc, answers, u32::MAX) {
        Ok(octets) => octets,
        Err(ReadAllError::TooMuch) => return Err(NoAnswers::TooMuch),
        Err(ReadAllError::Device) => return Err(NoAnswers::Device),
        Err(ReadAllError::OutOfMemory) => return Err(NoAnswers::OutOfMemory),
    };
    let answers = answers_in(alloc, octets.as_slice())?;
    Ok(answers)
}

// Returns the message for an error in the line of this number.
fn fault_line(alloc: Global, number: u64, fault: LineFault) -> Result<String, AllocError>
    ensures { IfOk result (λ text. string_bytes text ≡ wrong_line number fault) }
{
    format!(in alloc; "answers: line {number}: {fault}\n")
}

/// Reports why there are no answers, in one line, and returns the exit status.
pub fn report_none<E: Output>(alloc: Global, none: NoAnswers, err: &mut E) -> ExitStatus
    ensures { IsMissingAnswersReported (sink E.gives E.failures err.old err.new) none result }
{
    match none {
        NoAnswers::Line { number, fault } => match fault_line(alloc, number, fault) {
            Ok(text) => complain(err, text.as_bytes(), ExitStatus::Arguments),
            Err(_) => tell_memory(err),
        },
        NoAnswers::TooMuch => complain(
            err,
            b"answers: 2^32 octets or more\n",
            ExitStatus::Arguments,
        ),
        NoAnswers::Device => tell_device(err),
        NoAnswers::OutOfMemory => tell_memory(err),
    }
}

// Returns the JSON object of a verdict.
fn verdict_json(
    alloc: Global,
    bundle: &Bundle,
    checked: Checked,
    unjudged: &str,
) -> Result<String, AllocError>
    ensures { IfOk result (λ text. string_bytes text
        ≡ verdict_json unjudged.now bundle.now.certificates checked.verdict checked.calls) }
{
    let calls = checked.calls;
    match checked.verdict {
        Verdict::Trusted => {
            let whom = end_entity_with(alloc, bundle, true, unjudged)?;
            trusted_text(alloc, whom.as_str(), calls, true)
        }
        Verdict::Refused { place, rule } => format!(in alloc;
            "{{\"verdict\":\"refused\",\"place\":{place},\"rule\":\"{rule}\",\
            \"calls\":{calls}{unjudged}}}\n"
        ),
        Verdict::StreamFault {
            place,
            offset,
            kind,
        } => format!(in alloc;
            "{{\"verdict\":\"fault\",\"place\":{place},\"offset\":{offset},\"kind\":\"{kind}\"}}\n"
        ),
        Verdict::Empty => format!(in alloc; "{{\"verdict\":\"empty\"}}\n"),
    }
}

// Returns the line of a verdict.
fn line_of(alloc: Global, bundle: &Bundle, checked: Checked) -> Result<String, AllocError>
    ensures { IfOk result (λ text. string_bytes text
        ≡ verdict_line bundle.now.certificates checked.verdict checked.calls) }
{
    match checked.verdict {
        Verdict::Trusted => {
            let whom = end_entity_text(alloc, bundle, false)?;
            trusted_text(alloc, whom.as_str(), checked.calls, false)
        }
        Verdict::Refused { .. } => verdict_line(alloc, checked),
        Verdict::StreamFault { .. } => verdict_line(alloc, checked),
        Verdict::Empty => verdict_line(alloc, checked),
    }
}

// Returns the report on a verdict, as JSON or as a line.
fn verdict_text(
    alloc: Global,
    bundle: &Bundle,
    checked: Checked,
    json: bool,
    unjudged: &str,
) -> Result<String, AllocError>
    ensures { IfOk result (λ text. string_bytes text
        ≡ verdict_text json unjudged.now bundle.now.certificates checked.verdict checked.calls) }
{
    if json {
        verdict_json(alloc, bundle, checked, unjudged)
    } else {
        line_of(alloc, bundle, checked)
    }
}

// Reports a verdict, and returns the exit status. `unjudged` is the member of a JSON object with
// what no rule checks.
pub(crate) fn report_verdict<O: Output, E: Output>(
    alloc: Global,
    bundle: &Bundle,
    checked: Checked,
    json: bool,
    unjudged: &str,
    out: &mut O,
    err: &mut E,
) -> ExitStatus
    ensures { IsVerdictReported json unjudged.now bundle.now.certificates
        (sink O.gives O.failures out.old out.new) (sink E.gives E.failures err.old err.new) checked
        result }
{
    match verdict_text(alloc, bundle, checked, json, unjudged) {
        Ok(text) => answer(out, err, text.as_bytes(), status_of(checked.verdict)),
        Err(_) => tell_memory(err),
    }
}

/// Validates the stream of one input under the trust anchors of another, as `run_check` of
/// `cert_desk_checking` does. A signature is valid if a third input, the answers, says so. The
/// verdict is reported as a line, or as a JSON object. The object has a member for each part of the
/// line, and the member `unjudged`, which lists what no rule checks.
///
/// A trusted chain must then keep the limits of `--host` and `--strict`. If it breaks one, it is
/// reported as rejected, with the name of the limit instead of a rule. If it ends within the days
/// of `--warn-days`, a second line, or the member `ends`, says so.
///
/// The answers are read first, by `read_answers`. If they can't be read, the reason is reported,
/// and the other inputs aren't read.
///
/// `are_read` must be true before the call. It is set to false if the answers can't be read. No
/// clause states this, because only a hint depends on it.
pub fn run_verify<I: Input, O: Output, E: Output>(
    alloc: Global,
    inputs: &mut Opened<I>,
    out: &mut O,
    err: &mut E,
    terms: &Terms<'_>,
    are_read: &mut bool,
) -> Status
    requires { 6 ≤ terms.now.limit }
    ensures judged { IsValidated
        (source I.takes I.is_ended I.failures inputs.old.answers inputs.new.answers)
        (source I.takes I.is_ended I.failures inputs.old.anchors inputs.new.anchors)
        (source I.takes I.is_ended I.failures inputs.old.stream inputs.new.stream)
        (sink O.gives O.failures out.old out.new) (sink E.gives E.failures err.old err.new)
        terms.now result }
{
    let answers = match read_answers(alloc, &mut inputs.answers) {
        Ok(answers) => answers,
        Err(none) => {
            *are_read = false;
            return Status::Exit(report_none(alloc, none, err));
        }
    };
    let mut judge = AnswersJudge::new(answers);
    match find_validated(
        alloc,
        &mut inputs.anchors,
        &mut inputs.stream,
        terms.moment,
        &terms.purpose,
        terms.limit,
        &mut judge,
    ) {
        Ok((octets, bundle, checked)) => report_chain(
            alloc,
            octets.as_slice(),
            &bundle,
            checked,
            terms,
            &mut judge,
            out,
            err,
        ),
        Err(error) => Status::Exit(report_outcome(alloc, Outcome::from(error), err)),
    }
}
