//! Validates certificate chains with signature results from another program, explains rejections,
//! describes certificates, and splits streams of certificates. `cert_tool --help` shows the usage.
//! `cert_tool serve` answers requests on standard input until the input ends.
#![tactic(auto)]

mod chains;
mod clock;
mod demand_lines;
mod demand_reports;
mod each_certificate;
mod early_end;
mod end_entity;
mod explaining;
mod file_reports;
mod files;
mod help;
mod host_files;
mod json_texts;
mod kinds;
mod messages;
mod no_command;
mod one_value;
mod option_values;
mod parsed_arguments;
mod pem_texts;
mod questions;
mod reading;
mod request_inputs;
mod running;
mod serving;
mod several_files;
mod shell_words;
mod splitting;
mod status;
mod stream_fault;
mod streams;
mod tasks;
mod verifying;

use crate::clock::HostClock;
use crate::host_files::{LastError, RecordedFiles, RecordedOutput, SilencedErrors};
use crate::serving::serve;
use crate::several_files::obey_words;
use crate::status::Status;
use cert_tool_explain::desk_io::{FromRead, Output, ToWrite, tell_memory, words_of, write_all};
use std::alloc::{AllocError, Global};
use std::io::IsTerminal;
use std::process::ExitCode;

// The message for an argument that isn't UTF-8. The kit opens files by texts alone.
const NOT_UTF8: &str =
    "an argument isn't UTF-8; to read a file with such a name, give `-`, and redirect standard input
";

fn main(rt: HostRuntime) -> ExitCode {
    ExitCode::from(run(&rt).code())
}

// Returns the arguments without the program's name.
fn texts_of(alloc: Global, words: &[String]) -> Result<Vec<&str>, AllocError> {
    let mut texts = Vec::with_capacity(alloc, words.len())?;
    if let [_, words @ ..] = words {
        for word in words {
            texts.push(word.as_str())?;
        }
    }
    Ok(texts)
}

// Names the error of a write to standard output, if a write failed.
fn report_write_error<E: Output>(alloc: Global, last: &LastError, err: &mut E) {
    let Some(error) = last.get() else {
        return;
    };
    if let Ok(line) = format!(in alloc; "cannot write: {error}\n") {
        let _ = write_all(err, line.as_bytes());
    }
}

// Runs the command that the arguments ask for, or `serve`, over these outputs.
fn run_words<O: Output, E: Output>(
    rt: &HostRuntime,
    words: &[&str],
    out: &mut O,
    err: &mut E,
) -> Status {
    if let ["serve"] = words {
        let mut input = FromRead::new(rt.stdin());
        let status = serve(rt.alloc(), &HostClock::new(rt), &mut input, out, err);
        return Status::Exit(status);
    }
    let last = LastError::new();
    obey_words(
        rt.alloc(),
        &HostClock::new(rt),
        &RecordedFiles::new(rt, &last),
        words,
        out,
        err,
        rt.stderr().is_terminal() && !rt.stdout().is_terminal(),
    )
}

// Runs the program.
fn run(rt: &HostRuntime) -> Status {
    let last = LastError::new();
    let mut err = ToWrite::new(SilencedErrors::new(rt, &last));
    let words = match words_of(rt, &mut err, NOT_UTF8.as_bytes()) {
        Ok(words) => words,
        Err(status) => return Status::Exit(status),
    };
    let Ok(texts) = texts_of(rt.alloc(), words.as_slice()) else {
        return Status::Exit(tell_memory(&mut err));
    };
    let mut out = ToWrite::new(RecordedOutput::new(rt, &last));
    let status = run_words(rt, texts.as_slice(), &mut out, &mut err);
    report_write_error(rt.alloc(), &last, &mut err);
    status
}
