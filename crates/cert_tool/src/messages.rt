//! Messages on the error output.

ghost use Rattle.std.specs.Prelude.{◌<◌, length, IfOk, string_bytes};
ghost use Rattle.cert_tool_explain.specs.DeskIo.Devices.{sink};
ghost use Rattle.cert_tool.specs.EarlyEnds.{IsReasonReported};

use crate::help::{command_in, help_of};
use crate::no_command::no_command_line;
use crate::parsed_arguments::{ArgumentError, Key, is_option};
use crate::shell_words::shell_word;
use crate::status::Status;
use crate::tasks::{Misuse, Task};
use cert_tool_explain::desk_io::{ExitStatus, Output, write_all};
use std::alloc::{AllocError, Global};

// Appends a line feed.
fn ended(line: Result<String, AllocError>) -> Result<String, AllocError>
    ensures { IfOk result (λ text. 0 < length (string_bytes text)) }
{
    let mut text = line?;
    text.push_str("\n")?;
    Ok(text)
}

// Writes a line to the error output, or a constant line if it can't be allocated. The constant
// isn't `memory`, which is written only with the status `Memory`. An error of the error output is
// ignored, since nothing is left to report it on.
pub(crate) fn tell<E: Output>(err: &mut E, line: Result<String, AllocError>)
    ensures { IsReasonReported (sink E.gives E.failures err.old err.new) }
{
    match ended(line) {
        Ok(text) => {
            let _ = write_all(err, text.as_bytes());
        }
        Err(_) => {
            let _ = write_all(err, b"(no memory for this message)\n");
        }
    }
}

// Joins three texts.
pub(crate) fn line_of(
    alloc: Global,
    before: &str,
    word: &str,
    behind: &str,
) -> Result<String, AllocError> {
    format!(in alloc; "{before}{word}{behind}")
}

// Joins three texts, with the word in quotes.
pub(crate) fn line_with(
    alloc: Global,
    before: &str,
    word: &str,
    behind: &str,
) -> Result<String, AllocError> {
    format!(in alloc; "{before}{word:?}{behind}")
}

// Returns the name of an option.
fn word_of(key: Key) -> &'static str {
    match key {
        Key::Anchors => "--anchors",
        Key::Answers => "--answers",
        Key::At => "--at",
        Key::Purpose => "--purpose",
        Key::Limit => "--limit",
        Key::Place => "--place",
        Key::Json => "--json",
        Key::Digests => "--digests",
        Key::LeafFirst => "--leaf-first",
        Key::Strict => "--strict",
        Key::Host => "--host",
        Key::WarnDays => "--warn-days",
        Key::FailOnRemark => "--fail-on-remark",
    }
}

// Describes the values that an option may have.
fn values_of(key: Key) -> &'static str {
    match key {
        Key::Anchors => "a file of trust anchors",
        Key::Answers => "a file of the lines of `questions` that a verifier kept",
        Key::At => {
            "now, YYYY-MM-DDTHH:MM:SSZ, or seconds since 1970 (not milliseconds) up to the year \
            9999"
        }
        Key::Purpose => {
            "serverAuth, clientAuth, codeSigning, emailProtection, timeStamping, OCSPSigning, \
            anyExtendedKeyUsage, or an OID"
        }
        Key::Limit => "a number of bytes from 6 to 4294967295",
        Key::Place => "the index of a certificate, counted from 0",
        Key::Host => "a DNS name in ASCII, or an IPv4 or IPv6 address",
        Key::WarnDays => "a number of days up to 4294967295",
        Key::Json | Key::Digests | Key::LeafFirst | Key::Strict | Key::FailOnRemark => {
            "without a value"
        }
    }
}

// Describes an error in the options and the other arguments.
fn fault_line(alloc: Global, fault: ArgumentError<'_>) -> Result<String, AllocError> {
    match fault {
        ArgumentError::Unknown(word)
            if word.starts_with("--json=")
                || word.starts_with("--digests=")
                || word.starts_with("--leaf-first=")
                || word.starts_with("--strict=")
                || word.starts_with("--fail-on-remark=") => {
            line_with(alloc, "", word, ": this option takes no value")
        }
        ArgumentError::Unknown(word) => line_with(alloc, "unknown option ", word, ""),
        ArgumentError::Twice(key) => line_of(alloc, word_of(key), " is given twice", ""),
        ArgumentError::NoValue(key) => {
            line_of(alloc, word_of(key), " needs a value: ", values_of(key))
        }
        ArgumentError::Surplus(word) => line_with(alloc, "unexpected argument ", word, ""),
    }
}

// Describes an option's wrong value.
fn wrong_line(alloc: Global, key: Key, text: &str) -> Result<String, AllocError> {
    let (word, values) = (word_of(key), values_of(key));
    format!(in alloc; "{word}: {text:?} isn't {values}")
}

// Describes an error in the arguments.
fn misuse_line(alloc: Global, words: &[&str], misuse: Misuse<'_>) -> Result<String, AllocError> {
    match misuse {
        Misuse::Words(fault) => fault_line(alloc, fault),
        Misuse::NoCommand => no_command_line(alloc, words),
        Misuse::Missing(key) => {
            line_of(
                alloc,
                word_of(key),
                " is missing; its value is ",
                values_of(key),
            )
        }
        Misuse::Excess(key) => line_of(alloc, "this command doesn't take ", word_of(key), ""),
        Misuse::Wrong(key, text) => wrong_line(alloc, key, text),
        Misuse::BytesInJson => {
            line_of(
                alloc,
                "--place writes bytes, so --json can't be given with it",
                "",
                "",
            )
        }
        Misuse::SharedInput => line_of(alloc, "only one file can be standard input", "", ""),
    }
}

// Names the command that prints the help for these arguments.
fn help_line(alloc: Global, words: &[&str]) -> Result<String, AllocError> {
    line_of(
        alloc,
        "`cert_tool ",
        command_in(words),
        " --help` explains the command",
    )
}

// Writes what is wrong with the arguments, and then the help, or the command that prints it.
pub(crate) fn report_misuse<E: Output>(
    alloc: Global,
    words: &[&str],
    misuse: Misuse<'_>,
    err: &mut E,
)
    ensures { IsReasonReported (sink E.gives E.failures err.old err.new) }
{
    tell(err, misuse_line(alloc, words, misuse));
    match misuse {
        Misuse::NoCommand => {
            let _ = write_all(err, help_of(words).as_bytes());
        }
        _ => tell(err, help_line(alloc, words)),
    }
}

// Returns the end of the options before a file, if its name looks like an option.
fn end_before(file: &str) -> &'static str {
    if is_option(file) { "-- " } else { "" }
}

// Returns a hint: the command that explains why a stream can't be decoded.
fn stream_hint(alloc: Global, limit: u32, file: &str) -> Result<String, AllocError> {
    match shell_word(alloc, file)? {
        Some(word) => {
            let end = end_before(file);
            format!(in alloc; "(why: cert_tool explain stream --limit {limit} {end}{word})")
        }
        None => {
            format!(in alloc; "(why: cert_tool explain stream --limit {limit}, with this file)")
        }
    }
}

// Returns a hint: the command that explains why trust anchors can't be decoded.
fn anchors_hint(alloc: Global, file: &str) -> Result<String, AllocError> {
    match shell_word(alloc, file)? {
        Some(word) => {
            let end = end_before(file);
            format!(in alloc; "(why: cert_tool explain anchors {end}{word})")
        }
        None => format!(in alloc; "(why: cert_tool explain anchors, with this file)"),
    }
}

// Writes the hint for a stream that can't be decoded.
pub(crate) fn hint_at_stream<E: Output>(
    alloc: Global,
    task: &Task<'_>,
    status: ExitStatus,
    err: &mut E,
) {
    if status == ExitStatus::Faulty {
        tell(err, stream_hint(alloc, task.limit, task.file));
    }
}

// Writes the hint for trust anchors or a stream that can't be decoded. The trust anchors can be the
// reason only if `are_read`, that is, if the answers could be read.
pub(crate) fn hint_at_files<E: Output>(
    alloc: Global,
    task: &Task<'_>,
    are_read: bool,
    status: Status,
    err: &mut E,
) {
    match status {
        Status::Exit(ExitStatus::Arguments) if are_read => {
            tell(err, anchors_hint(alloc, task.anchors))
        }
        Status::Exit(status) => hint_at_stream(alloc, task, status, err),
        Status::EndsSoon => {}
    }
}

// Returns a hint: the command that explains why a chain is rejected. It doesn't take `--warn-days`.
fn refused_hint(task: &Task<'_>) -> &'static str {
    if task.demands.warn_days.is_some() {
        "(why: cert_tool explain chain, with this file and the same options except --warn-days)\n"
    } else {
        "(why: cert_tool explain chain, with the same options and file)\n"
    }
}

// Writes the hint after `verify`: for a chain that is rejected, or for files that can't be decoded.
pub(crate) fn hint_at_verdict<E: Output>(
    alloc: Global,
    task: &Task<'_>,
    are_read: bool,
    status: Status,
    err: &mut E,
) {
    match status {
        Status::Exit(ExitStatus::Refused) => {
            let _ = write_all(err, refused_hint(task).as_bytes());
        }
        _ => hint_at_files(alloc, task, are_read, status, err),
    }
}
