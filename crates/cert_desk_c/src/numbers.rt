//! A verdict as numbers.
ghost use Rattle.std.specs.Prelude.{◌≡◌};
ghost use Rattle.cert_desk_listing.specs.DeskIo.Statuses.{code_of};
ghost use Rattle.cert_desk_answers.specs.DeskBundle.Faults.{rank};
ghost use Rattle.cert_desk_answers.specs.DeskChecking.Runs.{status_of};
ghost use Rattle.cert_desk_c.specs.Judged.{Tells};

use cert_desk_answers::desk_bundle::FaultKind;
use cert_desk_answers::desk_checking::status_of;
use cert_desk_answers::desk_rules::{Verdict, code, rule_number};

/// The position at which a chain is rejected or has an error, and the reason.
#[repr(C)]
pub struct WdPlace {
    /// The index of the certificate, counted from 0.
    pub place: u64,
    /// The offset of the error.
    pub offset: u64,
    /// The number of the rule, or of the kind of error.
    pub number: u64,
}

// Returns the number of a kind of error.
fn kind_number(kind: FaultKind) -> u64
    ensures { result ≡ rank kind }
{
    match kind {
        FaultKind::NoCertificate => 1,
        FaultKind::Indefinite => 2,
        FaultKind::LengthTooWide => 3,
        FaultKind::LengthNotShortest => 4,
        FaultKind::TooLarge => 5,
        FaultKind::Malformed => 6,
        FaultKind::Truncated => 7,
    }
}

/// Stores the position at which a chain is rejected or has an error, and the reason. Returns the
/// status.
pub(crate) fn tell(verdict: Verdict, told: &mut WdPlace) -> u32
    ensures status { result ≡ code_of (status_of verdict) }
    ensures tells { Tells verdict told.old told.new }
{
    match verdict {
        Verdict::Trusted | Verdict::Empty => {}
        Verdict::Refused { place, rule } => {
            told.place = place as u64;
            told.number = rule_number(rule);
        }
        Verdict::StreamFault {
            place,
            offset,
            kind,
        } => {
            told.place = place as u64;
            told.offset = offset;
            told.number = kind_number(kind);
        }
    }
    code(status_of(verdict))
}
