//! Reports of runs that end early.
ghost use Rattle.cert_tool_explain.specs.DeskIo.Devices.{sink};
ghost use Rattle.cert_tool.specs.EarlyEnds.{IsOutcomeReported};

use cert_tool_explain::desk_checking::{Outcome, anchors_line, status_of, verdict_line};
use cert_tool_explain::desk_io::{ExitStatus, Output, complain, tell_device, tell_memory};
use std::alloc::Global;

// Reports on the error output what ended a run, and returns the exit status.
pub(crate) fn report_outcome<E: Output>(alloc: Global, outcome: Outcome, err: &mut E) -> ExitStatus
    ensures { IsOutcomeReported (sink E.gives E.failures err.old err.new) outcome result }
{
    match outcome {
        Outcome::Checked(checked) => match verdict_line(alloc, checked) {
            Ok(line) => complain(err, line.as_bytes(), status_of(checked.verdict)),
            Err(_) => tell_memory(err),
        },
        Outcome::BadAnchors { offset, fault } => match anchors_line(alloc, offset, fault) {
            Ok(line) => complain(err, line.as_bytes(), ExitStatus::Arguments),
            Err(_) => tell_memory(err),
        },
        Outcome::Device => tell_device(err),
        Outcome::OutOfMemory => tell_memory(err),
    }
}
