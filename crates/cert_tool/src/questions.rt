//! The command `questions`: prints what a verifier must check in a chain.

ghost use Rattle.std.specs.Prelude.{ℕ, ◌≤◌, List, Result, IfOk, IfErr, Ok, Err, string_bytes};
ghost use Rattle.cert_tool_explain.specs.DeskIo.Devices.{sink, source};
ghost use Rattle.cert_tool_explain.specs.DeskChecking.declared.outcome.Outcome.{Outcome};
ghost use Rattle.cert_tool.specs.QuestionRuns.{AreQuestionsFound, AreQuestionsReported};

use crate::early_end::report_outcome;
use crate::stream_fault::stop_of;
use cert_tool_explain::desk_checking::{Outcome, chain_lines, read_anchors, read_stream};
use cert_tool_explain::desk_io::{ExitStatus, Input, Output, answer};
use std::alloc::Global;

// Returns the questions about the signatures of a chain, under these trust anchors.
fn find_questions<A: Input, S: Input>(
    alloc: Global,
    anchors: &mut A,
    stream: &mut S,
    limit: u32,
) -> Result<String, Outcome>
    requires { 6 ≤ limit }
    ensures found { IfOk result (λ text. AreQuestionsFound
        (source A.takes A.is_ended A.failures anchors.old anchors.new)
        (source S.takes S.is_ended S.failures stream.old stream.new) limit
        (Ok (string_bytes text))) }
    ensures stopped { IfErr result (λ outcome. AreQuestionsFound
        (source A.takes A.is_ended A.failures anchors.old anchors.new)
        (source S.takes S.is_ended S.failures stream.old stream.new) limit
        (Err outcome)) }
{
    let anchors = read_anchors(alloc, anchors)?;
    let bundle = read_stream(alloc, limit, stream);
    if let Some(outcome) = stop_of(&bundle) {
        return Err(outcome);
    }
    match chain_lines(alloc, anchors.as_slice(), &bundle) {
        Ok(text) => Ok(text),
        Err(_) => Err(Outcome::OutOfMemory),
    }
}

/// Prints the questions about the signatures of a chain, one per line:
/// `PLACE ANCHOR KEY ALGORITHM SIGNED BITS`.
///
/// - PLACE is the index of the certificate in the chain, in decimal, counted from 0.
/// - ANCHOR is the index of the trust anchor for the first certificate, and `-` for the others.
/// - KEY and ALGORITHM are the encodings of the issuer's key and of the signature algorithm, in
///   lowercase hex.
/// - SIGNED is the signed bytes, and BITS the encoding of the signature, in lowercase hex.
///
/// The first certificate has one line for each trust anchor with the issuer's name, in the order of
/// the anchors. The key of every other line is that of the certificate before it.
///
/// A malformed stream, an empty one, and trust anchors that can't be decoded are reported on the
/// error output, as `check` of `cert_desk_checking` reports them.
pub fn run_questions<A: Input, S: Input, O: Output, E: Output>(
    alloc: Global,
    anchors: &mut A,
    stream: &mut S,
    out: &mut O,
    err: &mut E,
    limit: u32,
) -> ExitStatus
    requires { 6 ≤ limit }
    // The report and the status are those for what was found in the bytes that were read.
    ensures told { (found : Result (List ℕ) Outcome)
        × AreQuestionsFound (source A.takes A.is_ended A.failures anchors.old anchors.new)
        (source S.takes S.is_ended S.failures stream.old stream.new) limit found
        × AreQuestionsReported (sink O.gives O.failures out.old out.new)
        (sink E.gives E.failures err.old err.new) found result }
{
    match find_questions(alloc, anchors, stream, limit) {
        Ok(text) => answer(out, err, text.as_bytes(), ExitStatus::Done),
        Err(outcome) => report_outcome(alloc, outcome, err),
    }
}
