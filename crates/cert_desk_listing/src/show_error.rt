//! The errors of writing a listing.
ghost use Rattle.std.specs.Prelude.{Some};
ghost use Rattle.cert_desk_listing.specs.Shown.{show_error_text};

use std::alloc::AllocError;
use std::error::Error;
use std::fmt;

/// Why a listing can't be written.
#[derive(Clone, Copy, Debug, PartialEq, Eq)]
pub enum ShowError {
    /// A write failed. A prefix of the listing was written.
    Device,
    /// Memory ran out. Nothing was written.
    OutOfMemory,
}

impl fmt::Display for ShowError {
    ghost output = { λ error. Some (show_error_text error) };

    fn fmt<W: fmt::Write>(&self, f: &mut fmt::Formatter<W>) -> fmt::Result {
        let text = match self {
            ShowError::Device => "a device failed",
            ShowError::OutOfMemory => "out of memory",
        };
        f.write_str(text)
    }
}

impl Error for ShowError {}
