//! The commands that read one file before they write anything: `describe KIND` and `explain`.

ghost use Rattle.std.specs.Prelude.{◌≡◌, ◌≤◌, false, IfOk, IfErr, OnOk};
ghost use Rattle.cert_tool_explain.specs.DeskIo.Devices.{sink, source};
ghost use Rattle.cert_tool_explain.specs.DeskIo.NamedInputs.{inputs};
ghost use Rattle.cert_tool.specs.Describing.{IsDescribed};
ghost use Rattle.cert_tool.specs.Explaining.{IsUnreadReported, IsTextWritten, IsStatusBy};
ghost use Rattle.cert_tool.specs.Kinds.{IsOfKind};
ghost use Rattle.cert_tool.specs.NamedFiles.{OnNamedFile};
ghost use Rattle.cert_tool.specs.OneValue.{IsReadIf};
ghost use Rattle.cert_tool.specs.TaskRuns.{IsFileDescribed, IsFileExplained, IsUnreadable};
ghost use Rattle.cert_tool.specs.TaskRuns.{IsValidFile, takes_one, wanted_of, whole_file};

use crate::file_reports::report_on_kind;
use crate::files::{open, report_failure};
use crate::host_files::ErrorReasons;
use crate::kinds::Kind;
use crate::one_value::read_if;
use crate::tasks::{Command, Task};
use cert_tool_explain::desk_io::{
    ExitStatus, Input, NamedInputs, Output, ReadAllError, answer, complain, tell_device,
    tell_memory,
};
use cert_tool_explain::{Contents, Report, explain_anchors, explain_stream};
use cert_tool_pem::Wanted;
use std::alloc::{AllocError, Global};

// Reads an input to its end. If `is_one`, it should contain one value, and reading also ends when
// many bytes follow it. If a read fails, `read_input` reports the reason and returns the exit
// status as its error.
pub(crate) fn read_input<I: Input, E: Output>(
    alloc: Global,
    is_one: bool,
    input: &mut I,
    err: &mut E,
) -> Result<Vec<u8>, ExitStatus>
    ensures read { IfOk result (λ octets. IsReadIf is_one
        (source I.takes I.is_ended I.failures input.old input.new) octets.items) }
    ensures untold { OnOk result (err.new ≡ err.old) }
    ensures unread { IfErr result
        (IsUnreadReported (source I.takes I.is_ended I.failures input.old input.new)
        (sink E.gives E.failures err.old err.new)) }
{
    match read_if(alloc, is_one, input) {
        Ok(octets) => Ok(octets),
        Err(ReadAllError::TooMuch) => {
            Err(complain(err, b"more than 4294967295 bytes\n", ExitStatus::Faulty))
        }
        Err(ReadAllError::Device) => Err(tell_device(err)),
        Err(ReadAllError::OutOfMemory) => Err(tell_memory(err)),
    }
}

// Returns what the file of a command must contain.
fn wanted_of(command: Command) -> Wanted
    ensures { result ≡ wanted_of command }
{
    match command {
        Command::Describe(kind) => kind.wanted(),
        Command::Explain(kind) => kind.wanted(),
        Command::ExplainAnchors => Wanted::Anchors,
        _ => Wanted::Certificates,
    }
}

// Returns whether a command takes a file that should be one value.
fn takes_one(command: Command) -> bool
    ensures { result ≡ takes_one command }
{
    matches!(command, Command::Describe(_) | Command::Explain(_))
}

// Opens and reads the file of a task. If that fails, `read_file` reports the reason and returns the
// exit status as its error.
fn read_file<I: Input + Drop, F: NamedInputs<I> + ErrorReasons, E: Output>(
    alloc: Global,
    files: &F,
    task: &Task<'_>,
    err: &mut E,
) -> Result<Vec<u8>, ExitStatus>
    ensures read { IfOk result (λ octets. OnNamedFile
        (inputs I.takes I.is_ended I.failures (F.is_opened files.now) (F.is_unopened files.now))
        (whole_file task.now) (λ input. IsReadIf (takes_one task.now.command) input octets.items)) }
    ensures unread { IfErr result (IsUnreadable
        (inputs I.takes I.is_ended I.failures (F.is_opened files.now) (F.is_unopened files.now))
        (whole_file task.now) (sink E.gives E.failures err.old err.new)) }
{
    let is_one = takes_one(task.command);
    let mut input = open(alloc, files, wanted_of(task.command), task.file, err)?;
    let octets = read_input(alloc, is_one, &mut input, err);
    report_failure(alloc, files, &input, task.file, err);
    octets
}

// Returns the exit status of an explanation: `Refused` if it has remarks and they are to fail the
// run, else `Done`.
pub(crate) fn status_by(fails: bool, has_remarks: bool) -> ExitStatus
    ensures { IsStatusBy fails (has_remarks ≡ false) result }
{
    if fails && has_remarks {
        ExitStatus::Refused
    } else {
        ExitStatus::Done
    }
}

// Writes the description of a file of this kind, or reports why its bytes can't be decoded, and
// returns the exit status.
fn describe<O: Output, E: Output>(
    alloc: Global,
    kind: Kind,
    octets: &[u8],
    task: &Task<'_>,
    out: &mut O,
    err: &mut E,
) -> ExitStatus
    ensures described { IsDescribed (IsOfKind kind octets.now)
        (sink O.gives O.failures out.old out.new) (sink E.gives E.failures err.old err.new) result }
{
    let contents = Contents::Description {
        has_digests: task.digests,
    };
    match report_on_kind(alloc, kind, octets, contents, task.json) {
        Ok(report) => {
            let text = report.text.as_slice();
            if report.is_valid {
                answer(out, err, text, ExitStatus::Done)
            } else {
                complain(err, text, ExitStatus::Faulty)
            }
        }
        Err(_) => tell_memory(err),
    }
}

// Runs `describe KIND`.
pub(crate) fn describe_file<
    I: Input + Drop,
    F: NamedInputs<I> + ErrorReasons,
    O: Output,
    E: Output,
>(alloc: Global, files: &F, task: &Task<'_>, kind: Kind, out: &mut O, err: &mut E) -> ExitStatus
    ensures told { IsFileDescribed kind
        (inputs I.takes I.is_ended I.failures (F.is_opened files.now) (F.is_unopened files.now))
        (sink O.gives O.failures out.old out.new) (sink E.gives E.failures err.old err.new)
        task.now result }
{
    match read_file(alloc, files, task, err) {
        Ok(octets) => describe(alloc, kind, octets.as_slice(), task, out, err),
        Err(status) => status,
    }
}

// Returns the explanation of a file's bytes that the task asks for.
fn explanation(alloc: Global, octets: &[u8], task: &Task<'_>) -> Result<Report, AllocError>
    requires { 6 ≤ task.now.limit }
    ensures { IfOk result (λ report. report.has_remarks ≡ false
        → IsValidFile task.now.command octets.now) }
{
    match task.command {
        Command::Explain(kind) => {
            let report = report_on_kind(alloc, kind, octets, Contents::Remarks, task.json)?;
            Ok(report)
        }
        Command::ExplainAnchors => explain_anchors(alloc, octets, task.json),
        _ => explain_stream(alloc, octets, task.limit, task.json),
    }
}

// Writes this explanation, or reports that memory ran out, and returns the exit status.
fn write_explanation<O: Output, E: Output>(
    alloc: Global,
    octets: &[u8],
    task: &Task<'_>,
    out: &mut O,
    err: &mut E,
) -> ExitStatus
    requires { 6 ≤ task.now.limit }
    ensures { IsTextWritten task.now.fails_on_remark (IsValidFile task.now.command octets.now)
        (sink O.gives O.failures out.old out.new) (sink E.gives E.failures err.old err.new) result }
{
    match explanation(alloc, octets, task) {
        Ok(report) => {
            let status = status_by(task.fails_on_remark, report.has_remarks);
            answer(out, err, report.text.as_slice(), status)
        }
        Err(_) => tell_memory(err),
    }
}

// Runs `explain KIND`, `explain anchors` and `explain stream`.
pub(crate) fn explain_file<I: Input + Drop, F: NamedInputs<I> + ErrorReasons, O: Output, E: Output>(
    alloc: Global,
    files: &F,
    task: &Task<'_>,
    out: &mut O,
    err: &mut E,
) -> ExitStatus
    requires { 6 ≤ task.now.limit }
    ensures told { IsFileExplained
        (inputs I.takes I.is_ended I.failures (F.is_opened files.now) (F.is_unopened files.now))
        (sink O.gives O.failures out.old out.new) (sink E.gives E.failures err.old err.new)
        task.now result }
{
    match read_file(alloc, files, task, err) {
        Ok(octets) => write_explanation(alloc, octets.as_slice(), task, out, err),
        Err(status) => status,
    }
}
