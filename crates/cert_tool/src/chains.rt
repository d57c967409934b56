//! The commands that read trust anchors and a chain.

ghost use Rattle.std.specs.Prelude.{◌≡◌, ◌≤◌, IfOk, IfErr, IfSome, IfNone, OnOk};
ghost use Rattle.cert_tool_explain.specs.DeskIo.Devices.{sink, source};
ghost use Rattle.cert_tool_explain.specs.DeskIo.NamedInputs.{inputs};
ghost use Rattle.cert_tool.specs.EarlyEnds.{IsWriteTried};
ghost use Rattle.cert_tool.specs.TaskRuns.{IsValidationTime, IsClockUnreadable, IsUnusableReported, answers_file};
ghost use Rattle.cert_tool.specs.TaskRuns.{IsVerified, IsChainExplained, AreQuestionsListed};
ghost use Rattle.cert_tool.specs.TaskRuns.{anchors_file, chain_file, chain_wanted, clock_line};
ghost use Rattle.cert_tool.specs.TaskRuns.{chain_files};
ghost use Rattle.cert_tool.specs.NamedFiles.{IsOpenedAs};

use crate::clock::UnixClock;
use crate::explaining::explain_chain;
use crate::files::{open, report_failure, report_no_anchors};
use crate::host_files::ErrorReasons;
use crate::messages::{hint_at_files, hint_at_verdict};
use crate::option_values::{Moment, Terms};
use crate::questions::run_questions;
use crate::status::Status;
use crate::tasks::Task;
use crate::verifying::{Opened, run_verify};
use cert_tool_explain::desk_io::{ExitStatus, Input, NamedInputs, Output, write_all};
use cert_tool_pem::{FileInput, Wanted};
use std::alloc::Global;

// Returns the validation time in seconds, or `None` if it is `now` and the clock can't be read.
fn seconds_of<C: UnixClock>(clock: &C, moment: Moment) -> Option<u64>
    ensures meant { IfSome result (IsValidationTime (C.tells clock.now) moment) }
    ensures untimed { IfNone result (IsClockUnreadable (C.tells clock.now) moment) }
{
    match moment {
        Moment::Seconds(seconds) => Some(seconds),
        Moment::Now => clock.seconds(),
    }
}

// Reports that the clock can't be read.
fn report_unreadable_clock<E: Output>(err: &mut E) -> ExitStatus
    ensures told { IsWriteTried (sink E.gives E.failures err.old err.new) clock_line }
    ensures status { result ≡ ExitStatus.Device }
{
    let _ = write_all(err, b"cannot read the clock\n");
    ExitStatus::Device
}

// Returns what the file of a chain must contain.
fn chain_wanted(leaf_first: bool) -> Wanted
    ensures { result ≡ chain_wanted leaf_first }
{
    if leaf_first {
        Wanted::LeafFirst
    } else {
        Wanted::Certificates
    }
}

// Opens the files of a chain: the answers, the trust anchors and the certificates.
fn open_all<I: Input + Drop, F: NamedInputs<I> + ErrorReasons, E: Output>(
    alloc: Global,
    files: &F,
    task: &Task<'_>,
    err: &mut E,
) -> Result<Opened<FileInput<I>>, ExitStatus>
    ensures answers { IfOk result (λ opened.
        IsOpenedAs (inputs I.takes I.is_ended I.failures (F.is_opened files.now)
        (F.is_unopened files.now)) (answers_file task.now) opened.answers) }
    ensures anchors { IfOk result (λ opened.
        IsOpenedAs (inputs I.takes I.is_ended I.failures (F.is_opened files.now)
        (F.is_unopened files.now)) (anchors_file task.now) opened.anchors) }
    ensures stream { IfOk result (λ opened.
        IsOpenedAs (inputs I.takes I.is_ended I.failures (F.is_opened files.now)
        (F.is_unopened files.now)) (chain_file task.now) opened.stream) }
    ensures untold { OnOk result (err.new ≡ err.old) }
    ensures stopped { IfErr result (IsUnusableReported
        (inputs I.takes I.is_ended I.failures (F.is_opened files.now) (F.is_unopened files.now))
        (chain_files task.now) (sink E.gives E.failures err.old err.new)) }
{
    let answers = open(alloc, files, Wanted::Lines, task.answers, err)?;
    let anchors = open(alloc, files, Wanted::Anchors, task.anchors, err)?;
    let stream = open(alloc, files, chain_wanted(task.leaf_first), task.file, err)?;
    Ok(Opened {
        answers,
        anchors,
        stream,
    })
}

// Runs `verify`.
pub(crate) fn verify<
    C: UnixClock,
    I: Input + Drop,
    F: NamedInputs<I> + ErrorReasons,
    O: Output,
    E: Output,
>(alloc: Global, clock: &C, files: &F, task: &Task<'_>, out: &mut O, err: &mut E) -> Status
    requires { 6 ≤ task.now.limit }
    ensures told { IsVerified (C.tells clock.now)
        (inputs I.takes I.is_ended I.failures (F.is_opened files.now) (F.is_unopened files.now))
        (sink O.gives O.failures out.old out.new) (sink E.gives E.failures err.old err.new)
        task.now result }
{
    let Some(seconds) = seconds_of(clock, task.moment) else {
        return Status::Exit(report_unreadable_clock(err));
    };
    let mut opened = match open_all(alloc, files, task, err) {
        Ok(opened) => opened,
        Err(status) => return Status::Exit(status),
    };
    let terms = Terms {
        moment: seconds,
        purpose: task.purpose,
        limit: task.limit,
        is_json: task.json,
        demands: task.demands,
        fails_on_remark: task.fails_on_remark,
    };
    let mut are_read = true;
    let status = run_verify(alloc, &mut opened, out, err, &terms, &mut are_read);
    report_failure(alloc, files, &opened.answers, task.answers, err);
    report_failure(alloc, files, &opened.anchors, task.anchors, err);
    report_failure(alloc, files, &opened.stream, task.file, err);
    report_no_anchors(alloc, &opened.anchors, task.anchors, status, err);
    hint_at_verdict(alloc, task, are_read, status, err);
    status
}

// Runs `explain chain`.
pub(crate) fn explain<
    C: UnixClock,
    I: Input + Drop,
    F: NamedInputs<I> + ErrorReasons,
    O: Output,
    E: Output,
>(alloc: Global, clock: &C, files: &F, task: &Task<'_>, out: &mut O, err: &mut E) -> Status
    requires { 6 ≤ task.now.limit }
    ensures told { IsChainExplained (C.tells clock.now)
        (inputs I.takes I.is_ended I.failures (F.is_opened files.now) (F.is_unopened files.now))
        (sink O.gives O.failures out.old out.new) (sink E.gives E.failures err.old err.new)
        task.now result }
{
    let Some(moment) = seconds_of(clock, task.moment) else {
        return Status::Exit(report_unreadable_clock(err));
    };
    let mut opened = match open_all(alloc, files, task, err) {
        Ok(opened) => opened,
        Err(status) => return Status::Exit(status),
    };
    let terms = Terms {
        moment,
        purpose: task.purpose,
        limit: task.limit,
        is_json: task.json,
        demands: task.demands,
        fails_on_remark: task.fails_on_remark,
    };
    let mut are_read = true;
    let status = explain_chain(alloc, &mut opened, out, err, &terms, &mut are_read);
    report_failure(alloc, files, &opened.answers, task.answers, err);
    report_failure(alloc, files, &opened.anchors, task.anchors, err);
    report_failure(alloc, files, &opened.stream, task.file, err);
    hint_at_files(alloc, task, are_read, status, err);
    status
}

// Runs `questions`.
pub(crate) fn ask<I: Input + Drop, F: NamedInputs<I> + ErrorReasons, O: Output, E: Output>(
    alloc: Global,
    files: &F,
    task: &Task<'_>,
    out: &mut O,
    err: &mut E,
) -> ExitStatus
    requires { 6 ≤ task.now.limit }
    ensures told { AreQuestionsListed
        (inputs I.takes I.is_ended I.failures (F.is_opened files.now) (F.is_unopened files.now))
        (sink O.gives O.failures out.old out.new) (sink E.gives E.failures err.old err.new)
        task.now result }
{
    let mut anchors = match open(alloc, files, Wanted::Anchors, task.anchors, err) {
        Ok(anchors) => anchors,
        Err(status) => return status,
    };
    let mut stream = match open(alloc, files, chain_wanted(task.leaf_first), task.file, err) {
        Ok(stream) => stream,
        Err(status) => return status,
    };
    let status = run_questions(alloc, &mut anchors, &mut stream, out, err, task.limit);
    report_failure(alloc, files, &anchors, task.anchors, err);
    report_failure(alloc, files, &stream, task.file, err);
    report_no_anchors(alloc, &anchors, task.anchors, Status::Exit(status), err);
    hint_at_files(alloc, task, true, Status::Exit(status), err);
    status
}
