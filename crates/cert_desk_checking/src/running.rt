//! A complete run, over any inputs and outputs.
ghost use Rattle.std.specs.Prelude.{◌≡◌, ◌≢◌, ℕ, ◌<◌, ◌≤◌, List, map, IfOk, IfErr};
ghost use Rattle.cert_desk_rules.specs.DeskIo.Devices.{sink, source};
ghost use Rattle.cert_desk_rules.specs.DeskIo.Whole.{IsWhole, most_octets};
ghost use Rattle.cert_desk_checking.specs.declared.outcome.Outcome.{Outcome};
ghost use Rattle.cert_desk_checking.specs.declared.outcome.Outcome.TheVariants as outcomes;
ghost use Rattle.cert_desk_rules.specs.DeskBundle.declared.standing.Standing.{Standing};
ghost use Rattle.cert_desk_checking.specs.AnchorFiles.{IsAnchorFile};
ghost use Rattle.cert_desk_checking.specs.Anchors.{anchor_plain, purpose_plain};
ghost use Rattle.cert_desk_checking.specs.Reading.{IsFed};
ghost use Rattle.cert_desk_checking.specs.Runs.{HasAnchors, HasNoAnchors, IsOutcome, IsTold};
ghost use Rattle.cert_desk_checking.specs.Runs.{judging, outcome_of, status_of};

use crate::anchor::Anchor;
use crate::anchor_fault::AnchorFault;
use crate::anchor_files::anchors_in;
use crate::anchors_error::AnchorsError;
use crate::checking::check;
use crate::outcome::Outcome;
use crate::verdict_lines::{anchors_line, verdict_line};
use cert_desk_rules::desk_bundle::Bundle;
use cert_desk_rules::desk_io::{
    ExitStatus, Input, Output, ReadAllError, answer, complain, read_all, tell_device, tell_memory,
};
use cert_desk_rules::{CheckError, Checked, SignatureJudge, Verdict};
use std::alloc::Global;
use x509_cert_anchors::oid::ObjectIdentifier;

/// Returns a bundle that has read an input to its end, to an error in it, or until an allocation or
/// a read failed.
pub fn read_stream<I: Input>(alloc: Global, limit: u32, input: &mut I) -> Bundle
    requires { 6 ≤ limit }
    ensures limit { result.limit ≡ limit }
    ensures ended { result.standing ≢ Standing.Open }
    ensures fed { IsFed (source I.takes I.is_ended I.failures input.old input.new) result }
{
    let mut bundle = Bundle::new(alloc, limit);
    let _ = bundle.read_from(input);
    bundle
}

// Reads all bytes of an input of trust anchors.
fn read_octets<A: Input>(alloc: Global, input: &mut A) -> Result<Vec<u8>, AnchorsError>
    ensures read { IfOk result (λ octets.
        IsWhole (source A.takes A.is_ended A.failures input.old input.new) most_octets
        octets.items) }
    ensures stopped { IfErr result
        (HasNoAnchors (source A.takes A.is_ended A.failures input.old input.new)) }
{
    match read_all(alloc, input, u32::MAX) {
        Ok(octets) => Ok(octets),
        Err(ReadAllError::TooMuch) => Err(AnchorsError::BadAnchors {
            offset: 0,
            fault: AnchorFault::Malformed,
        }),
        Err(ReadAllError::Device) => Err(AnchorsError::Device),
        Err(ReadAllError::OutOfMemory) => Err(AnchorsError::OutOfMemory),
    }
}

// Reads the trust anchors of an input, and returns them with its bytes.
fn read_both<A: Input>(alloc: Global, input: &mut A) -> Result<(Vec<u8>, Vec<Anchor>), AnchorsError>
    ensures read { IfOk result (λ p.
        IsWhole (source A.takes A.is_ended A.failures input.old input.new) most_octets p.0.items) }
    ensures anchors { IfOk result (λ p. IsAnchorFile p.0.items (map anchor_plain p.1.items)) }
    ensures stopped { IfErr result
        (HasNoAnchors (source A.takes A.is_ended A.failures input.old input.new)) }
{
    let octets = read_octets(alloc, input)?;
    match anchors_in(alloc, octets.as_slice()) {
        Ok(anchors) => Ok((octets, anchors)),
        Err(error) => Err(error),
    }
}

/// Reads the trust anchors of an input.
///
/// # Errors
///
/// - `BadAnchors`: a trust anchor is rejected. The first such one is reported. An input with 2^32
///   bytes or more is reported as malformed at offset 0.
/// - `Device`: a read failed.
/// - `OutOfMemory`: memory runs out.
pub fn read_anchors<A: Input>(alloc: Global, input: &mut A) -> Result<Vec<Anchor>, AnchorsError>
    ensures read { IfOk result (λ anchors. HasAnchors
        (source A.takes A.is_ended A.failures input.old input.new)
        (map anchor_plain anchors.items)) }
    ensures stopped { IfErr result
        (HasNoAnchors (source A.takes A.is_ended A.failures input.old input.new)) }
{
    let (_, anchors) = read_both(alloc, input)?;
    Ok(anchors)
}

/// Reads trust anchors from one input and a chain from another, and returns the verdict with the
/// bytes of the trust anchors and the certificates. If the trust anchors can't be read, the chain
/// isn't read. `limit` is the size limit of a certificate.
///
/// # Errors
///
/// The outcomes without a verdict: `BadAnchors`, `Device` and `OutOfMemory`.
pub fn find_validated<A: Input, S: Input, J: SignatureJudge>(
    alloc: Global,
    anchors: &mut A,
    stream: &mut S,
    moment: u64,
    purpose: &ObjectIdentifier<39>,
    limit: u32,
    judge: &mut J,
) -> Result<(Vec<u8>, Bundle, Checked), AnchorsError>
    requires { 6 ≤ limit }
    ensures octets { IfOk result (λ p.
        IsWhole (source A.takes A.is_ended A.failures anchors.old anchors.new) most_octets
        p.0.items) }
    ensures fed { IfOk result (λ p.
        IsFed (source S.takes S.is_ended S.failures stream.old stream.new) p.1) }
    ensures found { IfOk result (λ p.
        IsOutcome (source A.takes A.is_ended A.failures anchors.old anchors.new)
        (source S.takes S.is_ended S.failures stream.old stream.new)
        (judging J.answers J.questions judge.old judge.new) moment (purpose_plain purpose.now) limit
        (outcomes.Checked p.2)) }
    ensures stopped { IfErr result (λ error.
        IsOutcome (source A.takes A.is_ended A.failures anchors.old anchors.new)
        (source S.takes S.is_ended S.failures stream.old stream.new)
        (judging J.answers J.questions judge.old judge.new) moment (purpose_plain purpose.now) limit
        (outcome_of error)) }
    ensures kept { J.answers judge.new ≡ J.answers judge.old }
{
    let (octets, anchors) = match read_both(alloc, anchors) {
        Ok(both) => both,
        Err(error) => return Err(error),
    };
    let bundle = read_stream(alloc, limit, stream);
    match check(alloc, &bundle, &anchors, moment, purpose, judge) {
        Ok(checked) => Ok((octets, bundle, checked)),
        Err(CheckError::OutOfMemory) => Err(AnchorsError::OutOfMemory),
        Err(CheckError::Device) => Err(AnchorsError::Device),
    }
}

// Reads trust anchors from one input and a chain from another, and returns the outcome.
fn find_outcome<A: Input, S: Input, J: SignatureJudge>(
    alloc: Global,
    anchors: &mut A,
    stream: &mut S,
    moment: u64,
    purpose: &ObjectIdentifier<39>,
    limit: u32,
    judge: &mut J,
) -> Outcome
    requires { 6 ≤ limit }
    ensures found { IsOutcome (source A.takes A.is_ended A.failures anchors.old anchors.new)
        (source S.takes S.is_ended S.failures stream.old stream.new)
        (judging J.answers J.questions judge.old judge.new) moment (purpose_plain purpose.now) limit
        result }
    ensures kept { J.answers judge.new ≡ J.answers judge.old }
{
    match find_validated(alloc, anchors, stream, moment, purpose, limit, judge) {
        Ok((_, _, checked)) => Outcome::Checked(checked),
        Err(error) => Outcome::from(error),
    }
}

/// Returns the exit status for a verdict.
pub fn status_of(verdict: Verdict) -> ExitStatus
    ensures { result ≡ status_of verdict }
{
    match verdict {
        Verdict::Trusted => ExitStatus::Done,
        Verdict::Refused { .. } => ExitStatus::Refused,
        Verdict::StreamFault { .. } => ExitStatus::Faulty,
        Verdict::Empty => ExitStatus::Empty,
    }
}

// Prints an outcome in one line, and returns the exit status.
fn tell<O: Output, E: Output>(
    alloc: Global,
    outcome: Outcome,
    out: &mut O,
    err: &mut E,
) -> ExitStatus
    ensures { IsTold (sink O.gives O.failures out.old out.new)
        (sink E.gives E.failures err.old err.new) outcome result }
{
    match outcome {
        Outcome::Checked(checked) => match verdict_line(alloc, checked) {
            Ok(line) => answer(out, err, line.as_bytes(), status_of(checked.verdict)),
            Err(_) => tell_memory(err),
        },
        Outcome::BadAnchors { offset, fault } => match anchors_line(alloc, offset, fault) {
            Ok(line) => complain(err, line.as_bytes(), ExitStatus::Arguments),
            Err(_) => tell_memory(err),
        },
        Outcome::Device => tell_device(err),
        Outcome::OutOfMemory => tell_memory(err),
    }
}

/// Validates the chain of one input under the trust anchors of another, prints the verdict in one
/// line, and returns the exit status.
///
/// The first input is a concatenation of trust anchors (RFC 5914 2) with at most 2^32 - 1 bytes,
/// each of which needs a name and a key as `Anchor::from_choice` says. It is read first, to its
/// end, and the first wrong trust anchor is reported. `limit` is the size limit of each certificate
/// of the chain, and doesn't apply to the trust anchors.
///
/// `out` gets `trusted calls=N`, `refused PLACE RULE calls=N`, `fault PLACE OFFSET KIND` or
/// `empty`. `err` gets `anchors: malformed at OFFSET`, `anchors: no name at OFFSET`,
/// `anchors: path controls at OFFSET`, `device` or `memory`. If the text can't be written, the run
/// tries once to write `device` to `err`, and the status is `ExitStatus::Device`.
pub fn run_check<A: Input, S: Input, O: Output, E: Output, J: SignatureJudge>(
    alloc: Global,
    anchors: &mut A,
    stream: &mut S,
    out: &mut O,
    err: &mut E,
    moment: u64,
    purpose: &ObjectIdentifier<39>,
    limit: u32,
    judge: &mut J,
) -> ExitStatus
    requires { 6 ≤ limit }
    // The text and the status report the outcome for the bytes that were read.
    ensures told { (outcome : Outcome)
        × IsOutcome (source A.takes A.is_ended A.failures anchors.old anchors.new)
        (source S.takes S.is_ended S.failures stream.old stream.new)
        (judging J.answers J.questions judge.old judge.new) moment (purpose_plain purpose.now) limit
        outcome
        × IsTold (sink O.gives O.failures out.old out.new)
        (sink E.gives E.failures err.old err.new) outcome result }
    ensures kept { J.answers judge.new ≡ J.answers judge.old }
{
    let outcome = find_outcome(alloc, anchors, stream, moment, purpose, limit, judge);
    tell(alloc, outcome, out, err)
}
