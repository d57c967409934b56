//! The exit statuses of the programs.

ghost use Rattle.std.specs.Prelude.{◌≡◌};
ghost use Rattle.std.specs.Process.{exit_status};
ghost use Rattle.cert_desk_io.specs.Statuses.{code_of};

use std::process::ExitCode;

/// The exit status of a run.
#[derive(Clone, Copy, Debug, PartialEq, Eq)]
pub enum ExitStatus {
    /// The run did what was asked for. If it validated a chain, the chain is trusted.
    Done = 0,
    /// A certificate breaks a rule, or orders are rejected.
    Refused = 1,
    /// The input isn't in the expected format.
    Faulty = 2,
    /// The chain has no certificate.
    Empty = 3,
    /// An argument, a trust anchor or a line of an orders file is wrong.
    Arguments = 4,
    /// An I/O error: an input or an output failed.
    Device = 5,
    /// Memory ran out.
    Memory = 6,
}

impl ExitStatus {
    /// Returns the number of this status, from 0 to 6.
    pub fn code(self) -> u8
        ensures number { result ≡ code_of self }
    {
        self as u8
    }
}

impl From<ExitStatus> for ExitCode {
    ghost from_gives = { λ status code. exit_status code ≡ code_of status };

    /// Returns the exit code of a process for this status, which is its number.
    fn from(status: ExitStatus) -> ExitCode {
        ExitCode::from(status.code())
    }
}
