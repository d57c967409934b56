//! The files and the outputs of the operating system, with the error of the last call that failed.

ghost use Rattle.std.specs.Prelude.{⊤};

use cert_tool_explain::desk_io::{FromRead, NamedInputs, OpenError};
use std::cell::Cell;
use std::fs::File;
use std::io;
use std::io::{ErrorKind, Read, Stdin, Write};

/// Files that may say why the last open or read failed.
pub trait ErrorReasons {
    /// Returns the error of the last open or read that failed, if it is known.
    fn last_error(&self) -> Option<io::Error>;
}

/// The error of the last call of an input or an output that failed, if one did.
#[derive(Drop)]
pub struct LastError {
    error: Cell<Option<io::Error>>,
}

impl LastError {
    /// Returns a record without an error.
    pub fn new() -> LastError {
        LastError {
            error: Cell::new(None),
        }
    }

    /// Returns the last error, if there is one.
    pub fn get(&self) -> Option<io::Error> {
        self.error.get()
    }

    /// Returns whether the last error is that nobody reads a pipe any more.
    pub fn is_broken_pipe(&self) -> bool {
        match self.error.get() {
            Some(error) => matches!(error.kind(), ErrorKind::BrokenPipe),
            None => false,
        }
    }

    // Records an error and returns it.
    fn record(&self, error: io::Error) -> io::Error {
        self.error.set(Some(error));
        error
    }
}

// An open file, or standard input.
#[derive(Drop)]
enum Opened {
    File(File),
    Standard(Stdin),
}

/// A file or standard input, which records its errors.
#[derive(Drop)]
pub struct RecordedReader<'a> {
    opened: Opened,
    last: &'a LastError,
}

impl Read for RecordedReader<'_> {
    fn read(&mut self, buffer: &mut [u8]) -> io::Result<usize> {
        let result = match &mut self.opened {
            Opened::File(file) => file.read(buffer),
            Opened::Standard(input) => input.read(buffer),
        };
        match result {
            Ok(count) => Ok(count),
            Err(error) => Err(self.last.record(error)),
        }
    }
}

/// The files of the operating system by their paths, and standard input by the name `-`. They
/// record their errors.
#[derive(Drop)]
pub struct RecordedFiles<'a> {
    rt: &'a HostRuntime,
    last: &'a LastError,
}

impl<'a> RecordedFiles<'a> {
    /// Returns the files of this system.
    pub fn new(rt: &'a HostRuntime, last: &'a LastError) -> RecordedFiles<'a> {
        RecordedFiles { rt, last }
    }

    // Returns the input of an open file.
    fn input_of(&self, opened: Opened) -> FromRead<RecordedReader<'a>> {
        FromRead::new(RecordedReader {
            opened,
            last: self.last,
        })
    }
}

impl ErrorReasons for RecordedFiles<'_> {
    fn last_error(&self) -> Option<io::Error> {
        self.last.get()
    }
}

impl<'a> NamedInputs<FromRead<RecordedReader<'a>>> for RecordedFiles<'a> {
    ghost is_opened = { λ _ _ _. ⊤ };

    fn open(&self, name: &str) -> Result<FromRead<RecordedReader<'a>>, OpenError> {
        if name == "-" {
            return Ok(self.input_of(Opened::Standard(self.rt.stdin())));
        }
        match File::open(self.rt, name) {
            Ok(file) => Ok(self.input_of(Opened::File(file))),
            Err(error) if matches!(error.kind(), ErrorKind::OutOfMemory) => {
                Err(OpenError::OutOfMemory)
            }
            Err(error) => {
                let _ = self.last.record(error);
                Err(OpenError::Device)
            }
        }
    }

    fn has_failed(&self, input: &FromRead<RecordedReader<'a>>) -> bool {
        input.failures() > 0
    }
}

/// Standard output, which records its errors.
#[derive(Drop)]
pub struct RecordedOutput<'a> {
    rt: &'a HostRuntime,
    last: &'a LastError,
}

impl<'a> RecordedOutput<'a> {
    /// Returns the standard output of this system.
    pub fn new(rt: &'a HostRuntime, last: &'a LastError) -> RecordedOutput<'a> {
        RecordedOutput { rt, last }
    }
}

impl Write for RecordedOutput<'_> {
    fn write(&mut self, octets: &[u8]) -> io::Result<usize> {
        match io::writer(self.rt).write(octets) {
            Ok(count) => Ok(count),
            Err(error) => Err(self.last.record(error)),
        }
    }

    fn flush(&mut self) -> io::Result<()> {
        Ok(())
    }
}

/// Standard error. Once nobody reads standard output any more, it accepts every text and drops it,
/// so that a run whose output goes to a closed pipe ends in silence.
#[derive(Drop)]
pub struct SilencedErrors<'a> {
    rt: &'a HostRuntime,
    output: &'a LastError,
}

impl<'a> SilencedErrors<'a> {
    /// Returns the standard error of this system; `output` records the errors of standard output.
    pub fn new(rt: &'a HostRuntime, output: &'a LastError) -> SilencedErrors<'a> {
        SilencedErrors { rt, output }
    }
}

impl Write for SilencedErrors<'_> {
    fn write(&mut self, octets: &[u8]) -> io::Result<usize> {
        if self.output.is_broken_pipe() {
            return Ok(octets.len());
        }
        self.rt.stderr().write(octets)
    }

    fn flush(&mut self) -> io::Result<()> {
        Ok(())
    }
}
