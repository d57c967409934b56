//! Runs the command that the arguments of `cert_tool` ask for.

ghost use Rattle.std.specs.Prelude.{◌≡◌, ◌≤◌, ◌++◌, map, OnErr, OnOk};
ghost use Rattle.cert_tool_explain.specs.DeskIo.Devices.{IsCut, IsWritten, sink};
ghost use Rattle.cert_tool_explain.specs.DeskIo.NamedInputs.{inputs};
ghost use Rattle.cert_tool_explain.specs.DeskIo.Telling.{IsAnswer};
ghost use Rattle.cert_tool.specs.Help.{is_version, program_text};
ghost use Rattle.cert_tool.specs.ParsedArguments.{any_before_end};
ghost use Rattle.cert_tool.specs.TaskRuns.{AreArgumentsRun, IsTaskRun, any_help_or_version};
ghost use Rattle.cert_tool.specs.TaskRuns.{is_help_or_version};

use crate::chains::{ask, explain, verify};
use crate::clock::UnixClock;
use crate::help::{ARGUMENTS, VERSION, help_of};
use crate::host_files::ErrorReasons;
use crate::messages::report_misuse;
use crate::parsed_arguments::is_end;
use crate::reading::{describe_file, explain_file};
use crate::status::Status;
use crate::streams::{describe_each, reverse, split};
use crate::tasks::{Command, Task};
use cert_tool_explain::desk_io::{
    DeviceError, ExitStatus, Input, NamedInputs, Output, tell_device, write_all,
};
use std::alloc::Global;

// Returns whether an argument asks for help or for the version.
fn is_help_or_version(word: &str) -> bool
    ensures { result ≡ is_help_or_version word.now }
{
    word == "--help" || word == "-h" || word == "--version"
}

// Returns whether one of the arguments before `--` asks for help or for the version.
pub(crate) fn any_help_or_version(words: &[&str]) -> bool
    ensures { result ≡ any_help_or_version (map (λ word. word.now) words.now) }
{
    let [word, rest @ ..] = words else {
        return false;
    };
    if is_end(word) {
        return false;
    }
    is_help_or_version(word) || any_help_or_version(rest)
}

// Returns whether an argument asks for the version.
fn is_version(word: &str) -> bool
    ensures { result ≡ is_version word.now }
{
    word == "--version"
}

// Returns whether one of the arguments before `--` asks for the version.
fn any_version(words: &[&str]) -> bool
    ensures { result ≡ any_before_end is_version (map (λ word. word.now) words.now) }
{
    let [word, rest @ ..] = words else {
        return false;
    };
    if is_end(word) {
        return false;
    }
    is_version(word) || any_version(rest)
}

// Returns the text of `--help` or `--version`, in two parts that are written one after the other.
fn program_texts(words: &[&str]) -> (&'static str, &'static str)
    ensures { result.0.now ++ result.1.now ≡ program_text (map (λ word. word.now) words.now) }
{
    if any_version(words) {
        return (VERSION, "");
    }
    (help_of(words), ARGUMENTS)
}

// Writes two texts, one after the other.
fn write_both<O: Output>(out: &mut O, first: &[u8], second: &[u8]) -> Result<(), DeviceError>
    ensures written { OnOk result
        (IsWritten (sink O.gives O.failures out.old out.new) (first.now ++ second.now)) }
    ensures cut { OnErr result
        (IsCut (sink O.gives O.failures out.old out.new) (first.now ++ second.now)) }
{
    write_all(out, first)?;
    write_all(out, second)
}

// Writes the help or the version to `out`.
fn write_program_text<O: Output, E: Output>(words: &[&str], out: &mut O, err: &mut E) -> ExitStatus
    ensures { IsAnswer (sink O.gives O.failures out.old out.new)
        (sink E.gives E.failures err.old err.new)
        (program_text (map (λ word. word.now) words.now)) ExitStatus.Done result }
{
    let (first, second) = program_texts(words);
    match write_both(out, first.as_bytes(), second.as_bytes()) {
        Ok(()) => ExitStatus::Done,
        Err(_) => tell_device(err),
    }
}

// Runs a parsed command.
pub(crate) fn run_task<
    C: UnixClock,
    I: Input + Drop,
    F: NamedInputs<I> + ErrorReasons,
    O: Output,
    E: Output,
>(
    alloc: Global,
    clock: &C,
    files: &F,
    task: &Task<'_>,
    out: &mut O,
    err: &mut E,
    is_watched: bool,
) -> Status
    requires { 6 ≤ task.now.limit }
    ensures { IsTaskRun (C.tells clock.now)
        (inputs I.takes I.is_ended I.failures (F.is_opened files.now) (F.is_unopened files.now))
        (sink O.gives O.failures out.old out.new) (sink E.gives E.failures err.old err.new)
        task.now result }
{
    match task.command {
        Command::Questions => Status::Exit(ask(alloc, files, task, out, err)),
        Command::Verify => verify(alloc, clock, files, task, out, err),
        Command::Split => Status::Exit(split(alloc, files, task, out, err)),
        Command::Reverse => Status::Exit(reverse(alloc, files, task, out, err)),
        Command::ExplainChain => explain(alloc, clock, files, task, out, err),
        Command::Describe(kind) => {
            Status::Exit(describe_file(alloc, files, task, kind, out, err))
        },
        Command::DescribeStream => {
            Status::Exit(describe_each(alloc, files, task, out, err, is_watched))
        },
        Command::Explain(_) => Status::Exit(explain_file(alloc, files, task, out, err)),
        Command::ExplainAnchors => Status::Exit(explain_file(alloc, files, task, out, err)),
        Command::ExplainStream => Status::Exit(explain_file(alloc, files, task, out, err)),
    }
}

/// Runs the command that the arguments of `cert_tool` ask for; `words` are the arguments without
/// the program's name. `Task::parse` parses them, and the command opens the files that they name.
///
/// Results are written to `out`. Errors in the arguments, in the files and in their contents are
/// reported on `err`, with a hint that names the command to run next. If `is_watched`, as on a
/// terminal, `err` also shows the progress on a long stream.
///
/// The contract doesn't say what `describe` and `explain` print, nor what a terminal shows.
pub fn obey<C: UnixClock, I: Input + Drop, F: NamedInputs<I> + ErrorReasons, O: Output, E: Output>(
    alloc: Global,
    clock: &C,
    files: &F,
    words: &[&str],
    out: &mut O,
    err: &mut E,
    is_watched: bool,
) -> Status
    ensures obeyed { AreArgumentsRun (C.tells clock.now)
        (inputs I.takes I.is_ended I.failures (F.is_opened files.now) (F.is_unopened files.now))
        (sink O.gives O.failures out.old out.new) (sink E.gives E.failures err.old err.new)
        (map (λ word. word.now) words.now) result }
{
    if any_help_or_version(words) {
        return Status::Exit(write_program_text(words, out, err));
    }
    match Task::parse(words) {
        Ok(task) => run_task(alloc, clock, files, &task, out, err, is_watched),
        Err(misuse) => {
            report_misuse(alloc, words, misuse, err);
            Status::Exit(ExitStatus::Arguments)
        }
    }
}
