//! The files of the operating system, and the arguments of the command line.

ghost use Rattle.std.specs.Prelude.{⊤, ◌≡◌, ◌⊎◌, IfErr, OnOk};
ghost use Rattle.cert_desk_io.specs.declared.exit_status.ExitStatus.TheVariants as statuses;
ghost use Rattle.cert_desk_io.specs.Devices.{sink};
ghost use Rattle.cert_desk_io.specs.Telling.{IsComplaint, IsMemoryTold};

use super::{ExitStatus, FromRead, NamedInputs, OpenError, Output, complain, tell_memory};
use std::fs::File;
use std::io::{Read, Stdin};
use std::{env, io};

/// An open file, or standard input.
#[derive(Drop)]
pub enum HostReader {
    /// A file.
    File(File),
    /// Standard input.
    Standard(Stdin),
}

impl Read for HostReader {
    fn read(&mut self, buffer: &mut [u8]) -> io::Result<usize> {
        match self {
            HostReader::File(file) => file.read(buffer),
            HostReader::Standard(input) => input.read(buffer),
        }
    }
}

/// The files of the operating system by their paths, and standard input under a name of its own.
#[derive(Drop)]
pub struct HostFiles<'a> {
    rt: &'a HostRuntime,
    standard: Option<&'a str>,
}

impl<'a> HostFiles<'a> {
    /// Returns the files of this system. Standard input is opened by the name `standard`, if there
    /// is one.
    pub fn new(rt: &'a HostRuntime, standard: Option<&'a str>) -> HostFiles<'a> {
        HostFiles { rt, standard }
    }
}

impl NamedInputs<FromRead<HostReader>> for HostFiles<'_> {
    ghost is_opened = { λ _ _ _. ⊤ };

    fn open(&self, name: &str) -> Result<FromRead<HostReader>, OpenError> {
        if self.standard == Some(name) {
            return Ok(FromRead::new(HostReader::Standard(self.rt.stdin())));
        }
        match File::open(self.rt, name) {
            Ok(file) => Ok(FromRead::new(HostReader::File(file))),
            Err(error) if is_out_of_memory(&error) => Err(OpenError::OutOfMemory),
            Err(_) => Err(OpenError::Device),
        }
    }

    fn has_failed(&self, input: &FromRead<HostReader>) -> bool {
        input.failures() > 0
    }
}

fn is_out_of_memory(error: &io::Error) -> bool {
    matches!(error.kind(), io::ErrorKind::OutOfMemory)
}

/// Returns the arguments of the command line, beginning with the program's name.
///
/// # Errors
///
/// The exit status of the run:
///
/// - If memory runs out, the line `memory` is written to the error output.
/// - If an argument isn't UTF-8, `text` is written to the error output, and the status is
///   `Arguments`.
pub fn words_of<E: Output>(
    rt: &HostRuntime,
    err: &mut E,
    text: &[u8],
) -> Result<Vec<String>, ExitStatus>
    ensures untold { OnOk result (err.new ≡ err.old) }
    ensures told { IfErr result (λ status.
        IsMemoryTold (sink E.gives E.failures err.old err.new) status
        ⊎ IsComplaint (sink E.gives E.failures err.old err.new) text.now
        statuses.Arguments status) }
{
    match env::args(rt) {
        Ok(words) => match words.collect(rt.alloc()) {
            Ok(words) => Ok(words),
            Err(_) => Err(tell_memory(err)),
        },
        Err(error) if is_out_of_memory(&error) => Err(tell_memory(err)),
        Err(_) => Err(complain(err, text, ExitStatus::Arguments)),
    }
}
