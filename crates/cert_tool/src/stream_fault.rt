//! The errors of a stream that isn't a chain.
ghost use Rattle.std.specs.Prelude.{◌≡◌, ◌≢◌};
ghost use Rattle.cert_tool.specs.EarlyEnds.{stop_of};

use cert_tool_explain::desk_bundle::{Bundle, Standing};
use cert_tool_explain::desk_checking::Outcome;
use cert_tool_explain::desk_rules::{Checked, Verdict};

// Returns the reason why a bundle isn't a complete stream with at least one certificate, if it
// isn't.
pub(crate) fn stop_of(bundle: &Bundle) -> Option<Outcome>
    requires { bundle.now.standing ≢ Standing.Open }
    ensures { result ≡ stop_of bundle.now }
{
    match bundle.standing() {
        Standing::Open => unreachable!(),
        Standing::NoMemory => Some(Outcome::OutOfMemory),
        Standing::NoDevice => Some(Outcome::Device),
        Standing::Faulted(kind) => Some(Outcome::Checked(Checked {
            verdict: Verdict::StreamFault {
                place: bundle.len(),
                offset: bundle.end_offset(),
                kind,
            },
            calls: 0,
        })),
        Standing::Ended => {
            if bundle.is_empty() {
                return Some(Outcome::Checked(Checked {
                    verdict: Verdict::Empty,
                    calls: 0,
                }));
            }
            None
        }
    }
}
