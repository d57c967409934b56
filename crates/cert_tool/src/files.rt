//! Opening the files that the arguments name.

ghost use Rattle.std.specs.Prelude.{◌≡◌, IfOk, IfErr, OnErr, OnOk};
ghost use Rattle.cert_tool_explain.specs.DeskIo.Devices.{sink};
ghost use Rattle.cert_tool_explain.specs.DeskIo.NamedInputs.{inputs};
ghost use Rattle.cert_tool.specs.NamedFiles.{IsOpenedAs, IsUnusable, wrong_content_status, file_error_status};
ghost use Rattle.cert_tool.specs.EarlyEnds.{IsReasonReported};

use crate::host_files::ErrorReasons;
use crate::messages::{line_with, tell};
use crate::pem_texts::{not_text_line, refused_line, too_much_line};
use crate::status::Status;
use cert_tool_explain::desk_io::{ExitStatus, Input, NamedInputs, OpenError, Output, tell_memory};
use cert_tool_pem::{FileError, FileInput, Wanted, input_of};
use std::alloc::{AllocError, Global};
use std::io;

// Returns the exit status for a file that doesn't contain what the command needs.
fn wrong_content_status(wanted: Wanted) -> ExitStatus
    ensures { result ≡ wrong_content_status wanted }
{
    match wanted {
        Wanted::Anchors => ExitStatus::Arguments,
        _ => ExitStatus::Faulty,
    }
}

// Returns the message for a file that can't be opened or read, with the reason if it is known.
fn failure_line(
    alloc: Global,
    what: &str,
    name: &str,
    error: Option<io::Error>,
) -> Result<String, AllocError> {
    match error {
        Some(error) => format!(in alloc; "cannot {what} {name:?}: {error}"),
        None => format!(in alloc; "cannot {what} {name:?}"),
    }
}

// Reports why a file doesn't contain what the command needs, and returns the exit status.
fn report_file_error<E: Output>(
    alloc: Global,
    wanted: Wanted,
    name: &str,
    error: &FileError,
    last: Option<io::Error>,
    err: &mut E,
) -> ExitStatus
    ensures reason { IsReasonReported (sink E.gives E.failures err.old err.new) }
    ensures status { result ≡ file_error_status wanted error.now }
{
    match error {
        FileError::TooMuch => {
            tell(err, too_much_line(alloc, name));
            wrong_content_status(wanted)
        }
        FileError::Device => {
            tell(err, failure_line(alloc, "read", name, last));
            ExitStatus::Device
        }
        FileError::OutOfMemory => {
            let _ = tell_memory(err);
            ExitStatus::Memory
        }
        FileError::NotText => {
            tell(err, not_text_line(alloc, name));
            ExitStatus::Arguments
        }
        FileError::Refused {
            text,
            number,
            fault,
        } => {
            let line = refused_line(alloc, name, wanted, text.as_slice(), *number, *fault);
            tell(err, line);
            wrong_content_status(wanted)
        }
    }
}

// Opens a file by its name, and returns an input of the DER that the command needs, which PEM is
// decoded to. If that fails, `open` reports the reason and returns the exit status as its error.
pub(crate) fn open<I: Input + Drop, F: NamedInputs<I> + ErrorReasons, E: Output>(
    alloc: Global,
    files: &F,
    wanted: Wanted,
    name: &str,
    err: &mut E,
) -> Result<FileInput<I>, ExitStatus>
    ensures opened { IfOk result (IsOpenedAs
        (inputs I.takes I.is_ended I.failures (F.is_opened files.now) (F.is_unopened files.now))
        (wanted, name.now)) }
    ensures untold { OnOk result (err.new ≡ err.old) }
    ensures stopped { IfErr result (IsUnusable
        (inputs I.takes I.is_ended I.failures (F.is_opened files.now) (F.is_unopened files.now))
        (wanted, name.now)) }
    ensures reason { OnErr result (IsReasonReported (sink E.gives E.failures err.old err.new)) }
{
    let input = match files.open(name) {
        Ok(input) => input,
        Err(OpenError::OutOfMemory) => {
            let _ = tell_memory(err);
            return Err(ExitStatus::Memory);
        }
        Err(OpenError::Device) => {
            tell(err, failure_line(alloc, "open", name, files.last_error()));
            return Err(ExitStatus::Device);
        }
    };
    match input_of(alloc, wanted, input) {
        Ok(input) => Ok(input),
        Err(error) => {
            let last = files.last_error();
            Err(report_file_error(alloc, wanted, name, &error, last, err))
        },
    }
}

// Reports that the file of the trust anchors contains none, after a run that used them.
pub(crate) fn report_no_anchors<I, E: Output>(
    alloc: Global,
    anchors: &FileInput<I>,
    name: &str,
    status: Status,
    err: &mut E,
) {
    let is_used = matches!(
        status,
        Status::Exit(ExitStatus::Done) | Status::Exit(ExitStatus::Refused)
    );
    if is_used && anchors.is_empty() {
        tell(
            err,
            line_with(alloc, "(--anchors: ", name, " has no trust anchor)"),
        );
    }
}

// Names the file in which a read failed, if one did.
pub(crate) fn report_failure<I: Input, F: NamedInputs<I> + ErrorReasons, E: Output>(
    alloc: Global,
    files: &F,
    input: &FileInput<I>,
    name: &str,
    err: &mut E,
) {
    if let Some(rest) = input.rest() {
        if files.has_failed(rest) {
            tell(err, failure_line(alloc, "read", name, files.last_error()));
        }
    }
}
