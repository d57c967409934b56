//! The numbers of the reasons why orders are rejected, and of the rules that their chain breaks.
ghost use Rattle.std.specs.Prelude.{◌≡◌, ◌≢◌};
ghost use Rattle.cert_desk_checking.specs.DeskIo.declared.exit_status.ExitStatus.TheVariants.{Refused};
ghost use Rattle.cert_desk_issuing_c.specs.Reasons.{TellsVerdict, place_of, reason_number};
ghost use Rattle.cert_desk_issuing_c.specs.Reasons.{status_of};

use cert_desk::IssueError;
use cert_desk_checking::desk_io::ExitStatus;
use cert_desk_checking::desk_rules::{Verdict, rule_number};

/// The index at which orders are rejected or their chain breaks a rule, and the reason.
#[repr(C)]
pub struct WdReason {
    /// The index of the order, counted from 0.
    pub place: u64,
    /// The number of the reason or rule.
    pub number: u64,
}

/// Returns the status of orders for which no chain is issued.
pub(crate) fn status_of(error: &IssueError) -> ExitStatus
    ensures { result ≡ status_of error.now }
{
    match error {
        IssueError::OutOfMemory => ExitStatus::Memory,
        _ => ExitStatus::Refused,
    }
}

// Returns the index of the rejected order, or 0 if all are rejected.
fn place_of(error: &IssueError) -> usize
    ensures { result ≡ place_of error.now }
{
    match error {
        IssueError::Name { place } => *place,
        IssueError::RootName { place, .. } => *place,
        IssueError::SubscriberName { place } => *place,
        IssueError::Serial { place } => *place,
        IssueError::Dates { place } => *place,
        IssueError::DnsName { place } => *place,
        IssueError::TooLong { place } => *place,
        _ => 0,
    }
}

// Returns the number of the reason, or 0 for one that can't occur if the orders' own keys sign.
fn reason_number(error: &IssueError) -> u64
    ensures { result ≡ reason_number error.now }
{
    match error {
        IssueError::NoOrders => 21,
        IssueError::Name { .. } => 22,
        IssueError::RootName { .. } => 23,
        IssueError::SubscriberName { .. } => 24,
        IssueError::Serial { .. } => 25,
        IssueError::Dates { .. } => 26,
        IssueError::DnsName { .. } => 27,
        IssueError::TooLong { .. } => 28,
        _ => 0,
    }
}

/// Stores why no chain is issued, unless an allocation failed, and returns the status.
pub(crate) fn tell_error(error: &IssueError, told: &mut WdReason) -> ExitStatus
    ensures tells { error.now ≢ IssueError.OutOfMemory → (told.new.place ≡ place_of error.now)
        × (told.new.number ≡ reason_number error.now) }
    ensures status { result ≡ status_of error.now }
    ensures untouched { result ≢ Refused → told.new ≡ told.old }
{
    if let IssueError::OutOfMemory = error {
        return ExitStatus::Memory;
    }
    told.place = place_of(error) as u64;
    told.number = reason_number(error);
    ExitStatus::Refused
}

/// Stores the index at which a chain breaks a rule, and the rule, and returns the status.
pub(crate) fn tell_verdict(verdict: Verdict, told: &mut WdReason) -> ExitStatus
    ensures tells { TellsVerdict verdict told.new.place told.new.number result }
    ensures untouched { result ≢ Refused → told.new ≡ told.old }
{
    if let Verdict::Refused { place, rule } = verdict {
        told.place = place as u64;
        told.number = rule_number(rule);
        return ExitStatus::Refused;
    }
    ExitStatus::Done
}
