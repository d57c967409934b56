//! The lines that say why an orders file is wrong, or an order is rejected.
ghost use Rattle.std.specs.Prelude.{◌≡◌, false, IfErr, IfOk, IfSome, IsSomeAnd, IsTrue};
ghost use Rattle.std.specs.Prelude.{string_bytes};
ghost use Rattle.cert_desk_listing.specs.Der.Dates.{Civil};
ghost use Rattle.cert_desk_listing.specs.Der.Grammar.{plain_option};
ghost use Rattle.cert_desk.specs.Acceptance.{IsTextOf};
ghost use Rattle.cert_desk.specs.Reasons.{SaysDates, SaysReason, SaysRefusal, names_reason};
ghost use Rattle.cert_desk.specs.Reasons.{order_reason, reason_at, root_reason, value_at};
ghost use Rattle.cert_desk.specs.Reasons.{wrong_reason};
ghost use Rattle.cert_desk.specs.Refusals.{IsNoDate};

use crate::accepting::date_of;
use crate::issue_error::IssueError;
use crate::outcome::Outcome;
use cert_desk_orders::{line_at, reason_line, wrong_line};
use std::alloc::{AllocError, Global};
use x509_cert_builders::Error;

/// Returns the line that says what is wrong with an orders file, if a line is wrong.
fn wrong_reason(alloc: Global, octets: &[u8]) -> Result<Option<String>, AllocError>
    ensures { IfOk result (λ text. plain_option string_bytes text ≡ wrong_reason octets.now) }
{
    let Some(wrong) = wrong_line(alloc, octets)? else {
        return Ok(None);
    };
    let text = reason_line(alloc, &wrong)?;
    Ok(Some(text))
}

/// Returns the line that says this about the word of a line of an order.
fn order_reason(
    alloc: Global,
    place: usize,
    number: u64,
    word: &str,
    reason: &str,
) -> Result<String, AllocError>
    ensures { IfOk result
        (λ text. string_bytes text ≡ order_reason place number word.now reason.now) }
{
    let mut text = format!(in alloc; "order {place} line {number} ")?;
    text.push_str(word)?;
    text.push_str(": ")?;
    text.push_str(reason)?;
    text.push_str("\n")?;
    Ok(text)
}

/// Returns the line that says why the word of an order is wrong, if the order has the word.
fn reason_at(
    alloc: Global,
    octets: &[u8],
    place: usize,
    word: &str,
    reason: &str,
) -> Result<Option<String>, AllocError>
    ensures { IfOk result (λ text. plain_option string_bytes text
        ≡ reason_at octets.now place word.now reason.now) }
{
    let Some(line) = line_at(alloc, octets, place, word)? else {
        return Ok(None);
    };
    let text = order_reason(alloc, place, line.number, word, reason)?;
    Ok(Some(text))
}

/// Returns why a name isn't allowed for a root.
fn root_reason(error: &Error) -> &'static str
    ensures { result.now ≡ root_reason error.now }
{
    match error {
        Error::NonUniqueRdn => "an RDN must have one attribute",
        Error::NonUniqueATV => "an attribute occurs twice",
        Error::InvalidAttribute { .. } => "an attribute isn't allowed, or not in this order",
        Error::MissingAttributes => "C, O or CN is missing",
        _ => "not allowed for a root",
    }
}

/// Returns whether the text is a date.
fn is_date(text: &str) -> bool
    ensures date { IsTrue result → (c : Civil) × IsTextOf text.now c }
    ensures none { result ≡ false → IsNoDate text.now }
{
    date_of(text).is_some()
}

/// Returns whether the value of a word of an order is a date. If the order lacks the word, the
/// result has no meaning.
fn is_dated(alloc: Global, octets: &[u8], place: usize, word: &str) -> Result<bool, AllocError>
    ensures date { IfOk result (λ dated. IsTrue dated
        → IfSome (value_at octets.now place word.now) (λ text. (c : Civil) × IsTextOf text c)) }
    ensures none { IfOk result (λ dated. dated ≡ false
        → IfSome (value_at octets.now place word.now) (λ text. IsNoDate text)) }
{
    let Some(line) = line_at(alloc, octets, place, word)? else {
        return Ok(true);
    };
    let Some(text) = line.value else {
        return Ok(true);
    };
    Ok(is_date(text))
}

/// Returns the line that says what is wrong with the dates of an order that is rejected for them.
fn dates_reason(alloc: Global, octets: &[u8], place: usize) -> Result<Option<String>, AllocError>
    ensures { IfOk result
        (λ text. SaysDates octets.now place (plain_option string_bytes text)) }
{
    if !is_dated(alloc, octets, place, "from")? {
        return reason_at(alloc, octets, place, "from", "not a date");
    }
    if !is_dated(alloc, octets, place, "until")? {
        return reason_at(alloc, octets, place, "until", "not a date");
    }
    reason_at(alloc, octets, place, "until", "before from")
}

/// Returns the line that says what is wrong with the DNS names of an order that is rejected for
/// them.
fn names_reason(alloc: Global, octets: &[u8], place: usize) -> Result<Option<String>, AllocError>
    ensures { IfOk result
        (λ text. plain_option string_bytes text ≡ names_reason octets.now place) }
{
    if let Some(text) = reason_at(alloc, octets, place, "dns", "not ASCII")? {
        return Ok(Some(text));
    }
    reason_at(alloc, octets, place, "order", "no line \"dns\"")
}

/// Returns the line that says why an order is rejected, or `None` if the error says it.
fn refusal_reason(
    alloc: Global,
    octets: &[u8],
    error: &IssueError,
) -> Result<Option<String>, AllocError>
    ensures { IfOk result
        (λ text. SaysRefusal octets.now error.now (plain_option string_bytes text)) }
{
    match error {
        IssueError::NoOrders => {
            let text = format!(in alloc; "orders: no line \"order\"\n")?;
            Ok(Some(text))
        }
        IssueError::Name { place } => reason_at(alloc, octets, *place, "name", "not a name"),
        IssueError::RootName { place, error } => {
            reason_at(alloc, octets, *place, "name", root_reason(error))
        }
        IssueError::SubscriberName { place } => {
            reason_at(alloc, octets, *place, "name", "only C and CN are allowed")
        }
        IssueError::Serial { place } => {
            reason_at(alloc, octets, *place, "serial", "not 1 to 20 bytes in DER")
        }
        IssueError::Dates { place } => dates_reason(alloc, octets, *place),
        IssueError::DnsName { place } => names_reason(alloc, octets, *place),
        _ => Ok(None),
    }
}

/// Returns the line that says why an orders file is wrong or its orders are rejected, or `None` if
/// the line of `run_orders` says all.
pub(crate) fn reason_of(
    alloc: Global,
    octets: &[u8],
    outcome: &Outcome,
) -> Result<Option<String>, AllocError>
    ensures { IfOk result
        (λ text. SaysReason octets.now outcome.now (plain_option string_bytes text)) }
{
    match outcome {
        Outcome::BadLine(_) => wrong_reason(alloc, octets),
        Outcome::Refused(error) => refusal_reason(alloc, octets, error),
        _ => Ok(None),
    }
}
