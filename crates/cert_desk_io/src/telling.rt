//! Messages that every run writes, and the exit status that follows.

ghost use Rattle.std.specs.Prelude.{◌≡◌};
ghost use Rattle.cert_desk_io.specs.Devices.{sink};
ghost use Rattle.cert_desk_io.specs.Telling.{IsDeviceTold, IsComplaint, IsAnswer, IsMemoryTold};
ghost use Rattle.cert_desk_io.specs.NamedInputs.{IsUnopenedTold};

use super::{ExitStatus, OpenError, Output, write_all};

/// Reports an I/O error: tries once to write the line `device`, and returns `Device`.
pub fn tell_device<E: Output>(err: &mut E) -> ExitStatus
    ensures told { IsDeviceTold (sink E.gives E.failures err.old err.new) result }
{
    let _ = write_all(err, b"device\n");
    ExitStatus::Device
}

/// Writes a text to the error output and returns this status. If the text can't be written, reports
/// the I/O error and returns `Device`.
pub fn complain<E: Output>(err: &mut E, text: &[u8], status: ExitStatus) -> ExitStatus
    ensures told { IsComplaint (sink E.gives E.failures err.old err.new) text.now status result }
{
    if write_all(err, text).is_ok() {
        return status;
    }
    tell_device(err)
}

/// Writes a text to the output and returns this status. If the text can't be written, reports the
/// I/O error on the error output and returns `Device`.
pub fn answer<O: Output, E: Output>(
    out: &mut O,
    err: &mut E,
    text: &[u8],
    status: ExitStatus,
) -> ExitStatus
    ensures told { IsAnswer (sink O.gives O.failures out.old out.new)
        (sink E.gives E.failures err.old err.new) text.now status result }
{
    if write_all(out, text).is_ok() {
        return status;
    }
    tell_device(err)
}

/// Reports that memory ran out, with the line `memory`.
pub fn tell_memory<E: Output>(err: &mut E) -> ExitStatus
    ensures told { IsMemoryTold (sink E.gives E.failures err.old err.new) result }
{
    complain(err, b"memory\n", ExitStatus::Memory)
}

/// Reports why an input can't be opened, with the line `device` or `memory`.
pub fn tell_unopened<E: Output>(err: &mut E, error: OpenError) -> ExitStatus
    ensures told { IsUnopenedTold (sink E.gives E.failures err.old err.new) error result }
{
    match error {
        OpenError::Device => tell_device(err),
        OpenError::OutOfMemory => tell_memory(err),
    }
}
