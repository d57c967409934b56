//! The error of reading a whole input.

ghost use Rattle.std.specs.Prelude.{Some, codes};
ghost use Rattle.cert_desk_io.specs.Whole.{read_all_text};

use std::error::Error;
use std::fmt;

/// Why an input can't be read to its end.
#[derive(Clone, Copy, Debug, PartialEq, Eq)]
pub enum ReadAllError {
    /// The input has more bytes than the caller allows.
    TooMuch,
    /// A read failed.
    Device,
    /// Memory for the bytes ran out.
    OutOfMemory,
}

impl fmt::Display for ReadAllError {
    ghost output = { λ error. Some (read_all_text error) };

    fn fmt<W: fmt::Write>(&self, f: &mut fmt::Formatter<W>) -> fmt::Result {
        let text = match self {
            ReadAllError::TooMuch => "too many octets",
            ReadAllError::Device => "a device failed",
            ReadAllError::OutOfMemory => "out of memory",
        };
        f.write_str(text)
    }
}

impl Error for ReadAllError {}
