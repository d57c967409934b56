//! The error of an input or an output.

ghost use Rattle.std.specs.Prelude.{Some, codes};

use std::error::Error;
use std::fmt;

/// An I/O error: a reader or a writer returned an error, or a writer accepted no byte.
#[derive(Clone, Copy, Debug, PartialEq, Eq)]
pub struct DeviceError;

impl fmt::Display for DeviceError {
    ghost output = { λ _. Some (codes "a device failed") };

    fn fmt<W: fmt::Write>(&self, f: &mut fmt::Formatter<W>) -> fmt::Result {
        write!(f, "a device failed")
    }
}

impl Error for DeviceError {}
