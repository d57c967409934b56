//! The values of the command's options.

ghost use Rattle.std.specs.Prelude.{◌≡◌, ◌≢◌, ℕ, ◌≤◌, true, IfSome, IfNone};
ghost use Rattle.cert_tool_explain.specs.Oid.Bound.{Bound, max_size};
ghost use Rattle.cert_tool_explain.specs.Oid.TextReading.{read_text};
ghost use Rattle.cert_tool_explain.specs.Der.Dates.{Civil, is_civil};
ghost use Rattle.cert_tool_explain.specs.Types.DateTexts.{date_text};
ghost use Rattle.cert_tool_explain.specs.Types.Seconds.{last_second};
ghost use Rattle.cert_tool_explain.specs.DeskChecking.Arguments.{IsNumber};
ghost use Rattle.cert_tool.specs.Tasks.{IsTimeText, IsNoValidationTime, arcs_of};

use cert_tool_explain::desk_checking::number_in;
use cert_tool_explain::oid::{Error, ObjectIdentifier};
use cert_tool_explain::types::DateTime;
use cert_tool_limits::Demands;

/// The validation time: the time at which the validity periods of a chain are checked.
#[derive(Clone, Copy)]
pub enum Moment {
    /// The time at which the program runs.
    Now,
    /// Seconds since 1970-01-01T00:00:00Z.
    Seconds(u64),
}

/// The arguments of path validation, without the trust anchors.
#[derive(Clone, Copy)]
pub struct Terms<'a> {
    /// Seconds since 1970-01-01T00:00:00Z.
    pub moment: u64,
    /// The key purpose that the end-entity certificate must allow (RFC 5280 4.2.1.12).
    pub purpose: ObjectIdentifier<39>,
    /// The maximum number of bytes of a certificate.
    pub limit: u32,
    /// Whether the program prints JSON.
    pub is_json: bool,
    /// What a trusted chain must meet beyond the rules of path validation.
    pub demands: Demands<'a>,
    /// Whether the exit status is 1 if there is a remark.
    pub fails_on_remark: bool,
}

// Parses a validation time that isn't `now`: a date, or a number of seconds.
#[tactic(auto, unfolding(crate::specs::Opened::IsNumber))]
fn seconds_in(text: &str) -> Option<u64>
    ensures read { IfSome result (λ n. IsTimeText (Moment.Seconds n) text.now) }
    ensures refused { IfNone result (
        ((n : ℕ) → IsNumber n text.now → n ≤ last_second → ⊥)
        × ((c : Civil) → is_civil c ≡ true → text.now ≢ date_text c)) }
{
    if let Ok(date) = text.parse::<DateTime>() {
        return Some(date.unix_seconds());
    }
    let Some(seconds) = number_in(text) else {
        return None;
    };
    if DateTime::from_unix_seconds(seconds).is_err() {
        return None;
    }
    Some(seconds)
}

// Parses a validation time: a number of seconds, a date, or `now`.
pub(crate) fn parse_time(text: &str) -> Option<Moment>
    ensures read { IfSome result (λ moment. IsTimeText moment text.now) }
    ensures refused { IfNone result (IsNoValidationTime text.now) }
{
    if text == "now" {
        return Some(Moment::Now);
    }
    let Some(seconds) = seconds_in(text) else {
        return None;
    };
    Some(Moment::Seconds(seconds))
}

// Returns the dotted arcs of a key purpose that is given by name (RFC 5280 4.2.1.12), and any other
// text unchanged.
fn arcs_of(text: &str) -> &str
    ensures { result.now ≡ arcs_of text.now }
{
    match text {
        "serverAuth" => "1.3.6.1.5.5.7.3.1",
        "clientAuth" => "1.3.6.1.5.5.7.3.2",
        "codeSigning" => "1.3.6.1.5.5.7.3.3",
        "emailProtection" => "1.3.6.1.5.5.7.3.4",
        "timeStamping" => "1.3.6.1.5.5.7.3.8",
        "OCSPSigning" => "1.3.6.1.5.5.7.3.9",
        "anyExtendedKeyUsage" => "2.5.29.37.0",
        _ => text,
    }
}

// Parses a key purpose: a name, or an object identifier in dotted arcs.
pub(crate) fn purpose_in(text: &str) -> Result<ObjectIdentifier<39>, Error>
    ensures { result ≡ read_text Bound max_size (arcs_of text.now) }
{
    ObjectIdentifier::<39>::new(arcs_of(text))
}
