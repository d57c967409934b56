//! The commands that read a stream of certificates: `split`, `reverse` and `describe stream`.

ghost use Rattle.std.specs.Prelude.{◌≤◌};
ghost use Rattle.cert_tool_explain.specs.DeskIo.Devices.{sink, source};
ghost use Rattle.cert_tool_explain.specs.DeskIo.NamedInputs.{inputs};
ghost use Rattle.cert_tool_explain.specs.DeskBundle.Streams.{Kept};
ghost use Rattle.cert_tool.specs.EarlyEnds.{FedWithin};
ghost use Rattle.cert_tool.specs.TaskRuns.{IsEachDescribed, IsSplitAt, IsSplit, IsStreamReversed};

use crate::each_certificate::{Form, run_describe};
use crate::files::{open, report_failure};
use crate::host_files::ErrorReasons;
use crate::messages::hint_at_stream;
use crate::splitting::{run_list, run_reverse, run_take};
use crate::tasks::Task;
use cert_tool_explain::desk_io::{ExitStatus, Input, NamedInputs, Output};
use cert_tool_pem::{FileInput, Wanted};
use std::alloc::Global;

// Lists the certificates of an input, or writes one of them.
fn split_input<I: Input, O: Output, E: Output>(
    alloc: Global,
    stream: &mut I,
    task: &Task<'_>,
    out: &mut O,
    err: &mut E,
) -> ExitStatus
    requires { 6 ≤ task.now.limit }
    ensures { (kept : Kept)
        × FedWithin (source I.takes I.is_ended I.failures stream.old stream.new)
        task.now.limit kept
        × IsSplitAt task.now.json task.now.place (sink O.gives O.failures out.old out.new)
        (sink E.gives E.failures err.old err.new) kept result }
{
    match task.place {
        None => run_list(alloc, stream, out, err, task.limit, task.json),
        Some(place) => run_take(alloc, stream, out, err, task.limit, place as usize),
    }
}

// Names the file in which a read failed, and prints a hint. `split --place` names it even if the
// certificate was read and written before.
fn report_after<I: Input, F: NamedInputs<I> + ErrorReasons, E: Output>(
    alloc: Global,
    files: &F,
    stream: &FileInput<I>,
    task: &Task<'_>,
    status: ExitStatus,
    err: &mut E,
) {
    report_failure(alloc, files, stream, task.file, err);
    hint_at_stream(alloc, task, status, err);
}

// Runs `split`.
pub(crate) fn split<I: Input + Drop, F: NamedInputs<I> + ErrorReasons, O: Output, E: Output>(
    alloc: Global,
    files: &F,
    task: &Task<'_>,
    out: &mut O,
    err: &mut E,
) -> ExitStatus
    requires { 6 ≤ task.now.limit }
    ensures told { IsSplit
        (inputs I.takes I.is_ended I.failures (F.is_opened files.now) (F.is_unopened files.now))
        (sink O.gives O.failures out.old out.new) (sink E.gives E.failures err.old err.new)
        task.now result }
{
    let mut stream = match open(alloc, files, Wanted::Certificates, task.file, err) {
        Ok(stream) => stream,
        Err(status) => return status,
    };
    let status = split_input(alloc, &mut stream, task, out, err);
    report_after(alloc, files, &stream, task, status, err);
    status
}

// Runs `reverse`.
pub(crate) fn reverse<I: Input + Drop, F: NamedInputs<I> + ErrorReasons, O: Output, E: Output>(
    alloc: Global,
    files: &F,
    task: &Task<'_>,
    out: &mut O,
    err: &mut E,
) -> ExitStatus
    requires { 6 ≤ task.now.limit }
    ensures told { IsStreamReversed
        (inputs I.takes I.is_ended I.failures (F.is_opened files.now) (F.is_unopened files.now))
        (sink O.gives O.failures out.old out.new) (sink E.gives E.failures err.old err.new)
        task.now result }
{
    let mut stream = match open(alloc, files, Wanted::Certificates, task.file, err) {
        Ok(stream) => stream,
        Err(status) => return status,
    };
    let status = run_reverse(alloc, &mut stream, out, err, task.limit);
    report_after(alloc, files, &stream, task, status, err);
    status
}

// Runs `describe stream`. An error of the stream or of a read is reported if it ended the
// descriptions.
pub(crate) fn describe_each<
    I: Input + Drop,
    F: NamedInputs<I> + ErrorReasons,
    O: Output,
    E: Output,
>(
    alloc: Global,
    files: &F,
    task: &Task<'_>,
    out: &mut O,
    err: &mut E,
    is_watched: bool,
) -> ExitStatus
    requires { 6 ≤ task.now.limit }
    ensures told { IsEachDescribed
        (inputs I.takes I.is_ended I.failures (F.is_opened files.now) (F.is_unopened files.now))
        (sink O.gives O.failures out.old out.new) (sink E.gives E.failures err.old err.new)
        task.now result }
{
    let mut stream = match open(alloc, files, Wanted::Certificates, task.file, err) {
        Ok(stream) => stream,
        Err(status) => return status,
    };
    let form = Form {
        alloc,
        is_json: task.json,
        has_digests: task.digests,
        is_watched,
    };
    let status = run_describe(&form, &mut stream, out, err, task.limit);
    report_after(alloc, files, &stream, task, status, err);
    status
}
