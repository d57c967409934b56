//! `describe` of several files: one run for each file.

ghost use Rattle.std.specs.Prelude.{◌≡◌, ◌≤◌, ◌++◌, [], map, option_map, is_some, IfOk, OnOk};
ghost use Rattle.std.specs.Prelude.{false};
ghost use Rattle.cert_tool_explain.specs.DeskIo.Devices.{sink};
ghost use Rattle.cert_tool_explain.specs.DeskIo.NamedInputs.{inputs};
ghost use Rattle.cert_tool.specs.ParsedArguments.{valued_key};
ghost use Rattle.cert_tool.specs.SeveralFiles.{AreFilesRun, AreKindRun, AreWordsRun, IsHeaded};
ghost use Rattle.cert_tool.specs.SeveralFiles.{IsOneRun, IsRunHeaded, first_error, for_file, is_misuse};
ghost use Rattle.cert_tool.specs.SeveralFiles.{is_describe, options_in, several_after, several_in};
ghost use Rattle.cert_tool.specs.SeveralFiles.{several_plain, with_files, words_in};

use crate::clock::UnixClock;
use crate::host_files::ErrorReasons;
use crate::messages::{line_with, report_misuse, tell};
use crate::parsed_arguments::{is_end, is_option, valued_key};
use crate::running::{any_help_or_version, obey, run_task};
use crate::status::Status;
use crate::tasks::Task;
use cert_tool_explain::desk_io::{ExitStatus, Input, NamedInputs, Output, answer, tell_memory};
use std::alloc::{AllocError, Global};

// The arguments after `describe`: the options with their values, and the other words, which are the
// kind and the files.
#[derive(Drop)]
pub(crate) struct Several<'a> {
    options: Vec<&'a str>,
    words: Vec<&'a str>,
}

// Returns whether an argument is an option whose value is the next argument.
fn awaits_value(word: &str) -> bool
    ensures { result ≡ is_some (valued_key word.now) }
{
    valued_key(word).is_some()
}

impl<'a> Several<'a> {
    // Returns no arguments.
    fn new(alloc: Global) -> Several<'a>
        ensures options { result.options.items ≡ [] }
        ensures words { result.words.items ≡ [] }
    {
        Several {
            options: Vec::new(alloc),
            words: Vec::new(alloc),
        }
    }

    // Adds these arguments. If `awaits`, the first one is the value of the option before it.
    fn add(&mut self, awaits: bool, words: &[&'a str]) -> Result<(), AllocError>
        ensures options { OnOk result (map (λ word. word.now) self.new.options.items
            ≡ map (λ word. word.now) self.old.options.items
            ++ options_in awaits (map (λ word. word.now) words.now)) }
        ensures words { OnOk result (map (λ word. word.now) self.new.words.items
            ≡ map (λ word. word.now) self.old.words.items
            ++ words_in awaits (map (λ word. word.now) words.now)) }
    {
        let [word, rest @ ..] = words else {
            return Ok(());
        };
        if awaits {
            self.options.push(word)?;
            self.add(false, rest)?;
            return Ok(());
        }
        if is_end(word) {
            self.words.extend_from_slice(rest)?;
            return Ok(());
        }
        if is_option(word) {
            self.options.push(word)?;
            self.add(awaits_value(word), rest)?;
            return Ok(());
        }
        self.words.push(word)?;
        self.add(false, rest)?;
        Ok(())
    }

    // Returns these arguments if there are at least two files.
    fn if_files(self) -> Option<Several<'a>>
        ensures { option_map several_plain result
            ≡ with_files (several_plain self.entry).0 (several_plain self.entry).1 }
    {
        if self.words.len() < 3 {
            return None;
        }
        Some(self)
    }
}

// Returns the arguments after `describe` if they name several files and don't ask for help.
fn several_after<'a>(alloc: Global, words: &[&'a str]) -> Result<Option<Several<'a>>, AllocError>
    ensures { IfOk result (λ found. option_map several_plain found
        ≡ several_after (map (λ word. word.now) words.now)) }
{
    if any_help_or_version(words) {
        return Ok(None);
    }
    let mut several = Several::new(alloc);
    several.add(false, words)?;
    Ok(several.if_files())
}

// Returns whether the word is `describe`.
fn is_describe(word: &str) -> bool
    ensures { result ≡ is_describe word.now }
{
    word == "describe"
}

// Returns the arguments of `describe` if they name several files and don't ask for help.
fn several_in<'a>(alloc: Global, words: &[&'a str]) -> Result<Option<Several<'a>>, AllocError>
    ensures { IfOk result (λ found. option_map several_plain found
        ≡ several_in (map (λ word. word.now) words.now)) }
{
    let [word, rest @ ..] = words else {
        return Ok(None);
    };
    if !is_describe(word) {
        return Ok(None);
    }
    several_after(alloc, rest)
}

// Returns the arguments for one of the files.
fn for_file<'a>(
    alloc: Global,
    options: &[&'a str],
    kind: &'a str,
    file: &'a str,
) -> Result<Vec<&'a str>, AllocError>
    ensures { IfOk result (λ words. map (λ word. word.now) words.items
        ≡ for_file (map (λ word. word.now) options.now) kind.now file.now) }
{
    let mut words = Vec::new(alloc);
    words.push("describe")?;
    words.extend_from_slice(options)?;
    words.push("--")?;
    words.push(kind)?;
    words.push(file)?;
    Ok(words)
}

// Writes the heading of a file, which JSON doesn't have.
fn write_heading<O: Output, E: Output>(
    alloc: Global,
    task: &Task<'_>,
    out: &mut O,
    err: &mut E,
) -> ExitStatus
    ensures { IsHeaded (sink O.gives O.failures out.old out.new)
        (sink E.gives E.failures err.old err.new) result }
{
    if task.json {
        return answer(out, err, b"", ExitStatus::Done);
    }
    let file = task.file;
    match format!(in alloc; "file {file:?}\n") {
        Ok(text) => answer(out, err, text.as_bytes(), ExitStatus::Done),
        Err(_) => tell_memory(err),
    }
}

// Names the file after the reports on it, unless all went well.
fn name_file<E: Output>(alloc: Global, task: &Task<'_>, status: Status, err: &mut E) {
    if status != Status::Exit(ExitStatus::Done) {
        tell(err, line_with(alloc, "(file ", task.file, ")"));
    }
}

// Runs a task after a heading, and names its file if an error was reported.
fn run_headed<
    C: UnixClock,
    I: Input + Drop,
    F: NamedInputs<I> + ErrorReasons,
    O: Output,
    E: Output,
>(
    alloc: Global,
    clock: &C,
    files: &F,
    task: &Task<'_>,
    out: &mut O,
    err: &mut E,
    is_watched: bool,
) -> Status
    requires { 6 ≤ task.now.limit }
    ensures { IsRunHeaded (C.tells clock.now)
        (inputs I.takes I.is_ended I.failures (F.is_opened files.now) (F.is_unopened files.now))
        (sink O.gives O.failures out.old out.new) (sink E.gives E.failures err.old err.new)
        task.now result }
{
    let status = write_heading(alloc, task, out, err);
    if status != ExitStatus::Done {
        return Status::Exit(status);
    }
    let status = run_task(alloc, clock, files, task, out, err, is_watched);
    name_file(alloc, task, status, err);
    status
}

// Describes one of the files.
fn run_one<C: UnixClock, I: Input + Drop, F: NamedInputs<I> + ErrorReasons, O: Output, E: Output>(
    alloc: Global,
    clock: &C,
    files: &F,
    options: &[&str],
    kind: &str,
    file: &str,
    out: &mut O,
    err: &mut E,
    is_watched: bool,
) -> Status
    ensures { IsOneRun (C.tells clock.now)
        (inputs I.takes I.is_ended I.failures (F.is_opened files.now) (F.is_unopened files.now))
        (sink O.gives O.failures out.old out.new) (sink E.gives E.failures err.old err.new)
        (for_file (map (λ word. word.now) options.now) kind.now file.now) result }
{
    let Ok(words) = for_file(alloc, options, kind, file) else {
        return Status::Exit(tell_memory(err));
    };
    match Task::parse(words.as_slice()) {
        Ok(task) => run_headed(alloc, clock, files, &task, out, err, is_watched),
        Err(misuse) => {
            report_misuse(alloc, words.as_slice(), misuse, err);
            Status::Exit(ExitStatus::Arguments)
        }
    }
}

// Returns the status of two runs: that of the first one, unless it is `Done`.
fn first_error(first: Status, second: Status) -> Status
    ensures { result ≡ first_error first second }
{
    match first {
        Status::Exit(ExitStatus::Done) => second,
        _ => first,
    }
}

// Returns whether this is the status of wrong arguments.
fn is_misuse(status: Status) -> bool
    ensures { result ≡ is_misuse status }
{
    matches!(status, Status::Exit(ExitStatus::Arguments))
}

// Describes files in turn.
fn run_each<C: UnixClock, I: Input + Drop, F: NamedInputs<I> + ErrorReasons, O: Output, E: Output>(
    alloc: Global,
    clock: &C,
    files: &F,
    options: &[&str],
    kind: &str,
    names: &[&str],
    out: &mut O,
    err: &mut E,
    is_watched: bool,
) -> Status
    ensures { AreFilesRun (C.tells clock.now)
        (inputs I.takes I.is_ended I.failures (F.is_opened files.now) (F.is_unopened files.now))
        (sink O.gives O.failures out.old out.new) (sink E.gives E.failures err.old err.new)
        (map (λ word. word.now) options.now) kind.now (map (λ word. word.now) names.now) result }
{
    let [name, rest @ ..] = names else {
        return Status::Exit(ExitStatus::Done);
    };
    let first = run_one(
        alloc, clock, files, options, kind, name, out, err, is_watched,
    );
    if is_misuse(first) {
        return first;
    }
    let second = run_each(
        alloc, clock, files, options, kind, rest, out, err, is_watched,
    );
    first_error(first, second)
}

// Describes several files.
fn run_several<
    C: UnixClock,
    I: Input + Drop,
    F: NamedInputs<I> + ErrorReasons,
    O: Output,
    E: Output,
>(
    alloc: Global,
    clock: &C,
    files: &F,
    several: &Several<'_>,
    out: &mut O,
    err: &mut E,
    is_watched: bool,
) -> Status
    ensures { AreKindRun (C.tells clock.now)
        (inputs I.takes I.is_ended I.failures (F.is_opened files.now) (F.is_unopened files.now))
        (sink O.gives O.failures out.old out.new) (sink E.gives E.failures err.old err.new)
        (several_plain several.now).0 (several_plain several.now).1 result }
{
    let [kind, names @ ..] = several.words.as_slice() else {
        return Status::Exit(ExitStatus::Done);
    };
    let options = several.options.as_slice();
    run_each(
        alloc, clock, files, options, kind, names, out, err, is_watched,
    )
}

/// Runs the command that the arguments of `cert_tool` ask for; `words` are the arguments without
/// the program's name. If `describe` names several files, they are described in turn, up to the
/// first one whose status is `Arguments`. Every other command is run by [`obey`].
///
/// Before the description of each of several files, the line `file "NAME"` is written, unless the
/// descriptions are JSON. After the errors of a file, it is named on the error output. The status
/// is the first one that isn't `Done`.
pub fn obey_words<
    C: UnixClock,
    I: Input + Drop,
    F: NamedInputs<I> + ErrorReasons,
    O: Output,
    E: Output,
>(
    alloc: Global,
    clock: &C,
    files: &F,
    words: &[&str],
    out: &mut O,
    err: &mut E,
    is_watched: bool,
) -> Status
    ensures obeyed { AreWordsRun (C.tells clock.now)
        (inputs I.takes I.is_ended I.failures (F.is_opened files.now) (F.is_unopened files.now))
        (sink O.gives O.failures out.old out.new) (sink E.gives E.failures err.old err.new)
        (map (λ word. word.now) words.now) result }
{
    match several_in(alloc, words) {
        Ok(None) => obey(alloc, clock, files, words, out, err, is_watched),
        Ok(Some(several)) => run_several(alloc, clock, files, &several, out, err, is_watched),
        Err(_) => Status::Exit(tell_memory(err)),
    }
}
