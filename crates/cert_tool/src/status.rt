//! The exit status of the program.

ghost use Rattle.std.specs.Prelude.{◌≡◌};
ghost use Rattle.cert_tool.specs.Statuses.{status_code, warned};

use cert_tool_explain::desk_io::ExitStatus;

/// The exit status of a run of `cert_tool`.
#[derive(Clone, Copy, Debug, PartialEq, Eq)]
pub enum Status {
    /// A status that both programs use.
    Exit(ExitStatus),
    /// The chain is trusted, but it ends within the days of `--warn-days`.
    EndsSoon,
}

impl Status {
    /// Returns the number of this status, from 0 to 7.
    pub fn code(self) -> u8
        ensures number { result ≡ status_code self }
    {
        match self {
            Status::Exit(status) => status.code(),
            Status::EndsSoon => 7,
        }
    }

    // Returns the status of a run that reported that a trusted chain ends soon.
    pub(crate) fn warned(status: ExitStatus) -> Status
        ensures { result ≡ warned status }
    {
        match status {
            ExitStatus::Done => Status::EndsSoon,
            _ => Status::Exit(status),
        }
    }
}
