//! The command `serve`: answers requests that arrive in frames.
ghost use Rattle.std.specs.Prelude.{◌≡◌, ◌≤◌, ◌^◌, ◌⊎◌, length, map, IfErr, IfOk, OnOk};
ghost use Rattle.cert_tool_explain.specs.DeskIo.Devices.{sink, source};
ghost use Rattle.cert_tool_explain.specs.DeskIo.declared.frame_error.FrameError.TheVariants as faults;
ghost use Rattle.cert_tool_explain.specs.DeskIo.Writers.{write_failures, writer_of};
ghost use Rattle.cert_tool.specs.EarlyEnds.{IsWriteTried};
ghost use Rattle.cert_tool.specs.Serving.{HasNoReply, IsNextServed, IsNextFailed, IsReply};
ghost use Rattle.cert_tool.specs.Serving.{IsRequestRun, IsServed, IsServingErrorReported};
ghost use Rattle.cert_tool.specs.Serving.{reply_frames, argument_lines, no_request_line};

use crate::clock::UnixClock;
use crate::request_inputs::RequestInputs;
use crate::several_files::obey_words;
use crate::status::Status;
use cert_tool_explain::desk_io::{
    ExitStatus, FrameError, Input, Output, ToWrite, append_frame, complain, read_frame,
    split_frame, tell_device, tell_memory, write_all,
};
use std::alloc::{AllocError, Global};
use std::str;

// The maximum number of bytes of a request.
const MOST: u32 = 64 << 20;

// Returns the lines of a text, which are the arguments of a request.
fn words_of(alloc: Global, text: &str) -> Result<Vec<&str>, AllocError>
    ensures { IfOk result (λ words. map (λ word. word.now) words.items ≡ argument_lines text.now) }
{
    text.split('\n').collect(alloc)
}

// Reports that bytes aren't a request.
fn report_no_request<E: Output>(err: &mut E) -> Status
    ensures told { IsWriteTried (sink E.gives E.failures err.old err.new) no_request_line }
    ensures status { result ≡ Status.Exit ExitStatus.Arguments }
{
    let _ = write_all(
        err,
        b"the request doesn't begin with a frame of arguments in UTF-8\n",
    );
    Status::Exit(ExitStatus::Arguments)
}

// Runs a request: a frame with the arguments, one per line, and then the inputs that they name. If
// the bytes aren't a request, that is reported with the status `Arguments`.
fn run_request<C: UnixClock, O: Output, E: Output>(
    alloc: Global,
    clock: &C,
    request: &[u8],
    out: &mut O,
    err: &mut E,
) -> Result<Status, AllocError>
    ensures { IfOk result (IsRequestRun (C.tells clock.now)
        (sink O.gives O.failures out.old out.new)
        (sink E.gives E.failures err.old err.new) request.now) }
{
    let Some((front, parts)) = split_frame(request) else {
        return Ok(report_no_request(err));
    };
    let Ok(text) = str::from_utf8(front) else {
        return Ok(report_no_request(err));
    };
    let words = words_of(alloc, text)?;
    let status = obey_words(
        alloc,
        clock,
        &RequestInputs { parts },
        words.as_slice(),
        out,
        err,
        false,
    );
    Ok(status)
}

// Returns the frames of a status, of the output and of the error output.
fn framed(
    alloc: Global,
    status: Status,
    output: &[u8],
    errors: &[u8],
) -> Result<Vec<u8>, FrameError>
    ensures framed { IfOk result
        (λ octets. octets.items ≡ reply_frames status output.now errors.now) }
    ensures refused { IfErr result (λ error. ((error ≡ faults.TooLong)
        × ((2 ^ 32 ≤ length output.now) ⊎ (2 ^ 32 ≤ length errors.now)))
        ⊎ (error ≡ faults.OutOfMemory)) }
{
    let mut octets = Vec::new(alloc);
    append_frame(&[status.code()], &mut octets)?;
    append_frame(output, &mut octets)?;
    append_frame(errors, &mut octets)?;
    Ok(octets)
}

// Returns the bytes that were written to a vector. A write fails only if memory runs out.
fn written(output: ToWrite<Vec<u8>>) -> Result<Vec<u8>, FrameError>
    ensures octets { IfOk result (λ octets. octets ≡ writer_of output) }
    ensures whole { OnOk result (write_failures output ≡ 0) }
    ensures refused { IfErr result (λ error. error ≡ faults.OutOfMemory) }
{
    if output.failures() > 0 {
        return Err(FrameError::OutOfMemory);
    }
    Ok(output.into_inner())
}

// Runs a request and returns its answer: frames of the status, of the output and of the error
// output.
fn answer<C: UnixClock>(alloc: Global, clock: &C, request: &[u8]) -> Result<Vec<u8>, FrameError>
    ensures answer { IfOk result (λ answer. IsReply (C.tells clock.now) request.now answer.items) }
    ensures none { IfErr result (HasNoReply (C.tells clock.now) request.now) }
{
    let mut out = ToWrite::new(Vec::new(alloc));
    let mut err = ToWrite::new(Vec::new(alloc));
    let Ok(status) = run_request(alloc, clock, request, &mut out, &mut err) else {
        return Err(FrameError::OutOfMemory);
    };
    let output = written(out)?;
    let errors = written(err)?;
    framed(alloc, status, output.as_slice(), errors.as_slice())
}

// Reads and answers the next request. Returns `false` if the input ended before it.
fn answer_next<C: UnixClock, I: Input, O: Output>(
    alloc: Global,
    clock: &C,
    input: &mut I,
    output: &mut O,
) -> Result<bool, FrameError>
    ensures answered { IfOk result
        (IsNextServed (C.tells clock.now)
        (source I.takes I.is_ended I.failures input.old input.new)
        (sink O.gives O.failures output.old output.new)) }
    ensures unanswered { IfErr result
        (IsNextFailed (C.tells clock.now)
        (source I.takes I.is_ended I.failures input.old input.new)
        (sink O.gives O.failures output.old output.new)) }
{
    let Some(request) = read_frame(alloc, input, MOST)? else {
        return Ok(false);
    };
    let answer = answer(alloc, clock, request.as_slice())?;
    match write_all(output, answer.as_slice()) {
        Ok(()) => Ok(true),
        Err(_) => Err(FrameError::Device),
    }
}

// Reports why a request isn't answered.
fn report_serving_error<E: Output>(err: &mut E, error: FrameError) -> ExitStatus
    ensures { IsServingErrorReported (sink E.gives E.failures err.old err.new) error result }
{
    match error {
        FrameError::TooLong => complain(err, b"too long\n", ExitStatus::Faulty),
        FrameError::Cut => complain(err, b"cut\n", ExitStatus::Faulty),
        FrameError::Device => tell_device(err),
        FrameError::OutOfMemory => tell_memory(err),
    }
}

/// Answers the requests of an input, up to its end or to the first request that can't be read or
/// answered.
pub fn serve<C: UnixClock, I: Input, O: Output, E: Output>(
    alloc: Global,
    clock: &C,
    input: &mut I,
    output: &mut O,
    err: &mut E,
) -> ExitStatus
    ensures served { IsServed (C.tells clock.now)
        (source I.takes I.is_ended I.failures input.old input.new)
        (sink O.gives O.failures output.old output.new)
        (sink E.gives E.failures err.old err.new) result }
{
    // An upper bound on the number of requests, with which the loop is proved to end.
    'requests: for _ in 0..u64::MAX {
        match answer_next(alloc, clock, input, output) {
            Ok(true) => {}
            Ok(false) => return ExitStatus::Done,
            Err(error) => return report_serving_error(err, error),
        }
    }
    report_serving_error(err, FrameError::OutOfMemory)
}
