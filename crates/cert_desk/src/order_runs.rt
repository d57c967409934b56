//! Complete runs of `issue`, over any input and outputs.
ghost use Rattle.std.specs.Prelude.{◌≡◌, length, map, take, IfErr, IfOk};
ghost use Rattle.cert_desk_listing.specs.DeskIo.Devices.{sink, source};
ghost use Rattle.cert_desk.specs.declared.outcome.Outcome.{Outcome};
ghost use Rattle.cert_desk.specs.Roles.{signers_for};
ghost use Rattle.cert_desk.specs.Runs.{signer_key, signing_keys, OrdersBecome, FileBecomes};
ghost use Rattle.cert_desk.specs.Runs.{IsTold, OctetsBecome};
ghost use Rattle.cert_desk.specs.Explaining.{IsExplained, IsExplainedAfter, IsFileExplained};
ghost use Rattle.cert_desk.specs.Explaining.{IsTried};
ghost use Rattle.cert_desk_listing.specs.DeskIo.Whole.{IsUnread, IsWhole, most_octets};

use crate::digest_signer::DigestSigner;
use crate::issue_error::IssueError;
use crate::issue_lines::{fault_line, refusal_line};
use crate::issuing::issue;
use crate::order_reasons::reason_of;
use crate::outcome::Outcome;
use cert_desk_listing::desk_io::{
    ExitStatus, Input, Output, ReadAllError, answer, complain, read_all, tell_device, tell_memory,
    write_all,
};
use cert_desk_orders::{Order, OrdersError, orders_in};
use std::alloc::{AllocError, AllocFailed, Global};

/// Returns the orders whose keys sign: a single order, or all but the last.
fn signing(orders: &[Order]) -> &[Order]
    ensures { result.now ≡ take (signers_for (length orders.now)) orders.now }
{
    if orders.len() < 2 {
        return orders;
    }
    &orders[..orders.len() - 1]
}

/// Returns signers of digests with the keys of the orders that sign.
fn signers_of(alloc: Global, orders: &[Order]) -> Result<Vec<DigestSigner>, AllocError>
    ensures { IfOk result (λ signers. map signer_key signers.items ≡ signing_keys orders.now) }
{
    let signing = signing(orders);
    let mut signers = Vec::new(alloc);
    for order in signing {
        let key = order.key.clone(alloc)?;
        signers.push(DigestSigner::new(key))?;
    }
    Ok(signers)
}

/// Issues the chain that the orders ask for, signed with digests of their own keys, and returns the
/// outcome.
fn find_issued(alloc: Global, orders: &[Order]) -> Outcome
    ensures { OrdersBecome orders.now result }
{
    let Ok(signers) = signers_of(alloc, orders) else {
        return Outcome::OutOfMemory;
    };
    match issue(alloc, orders, signers.as_slice()) {
        Ok(issued) => Outcome::Issued(issued),
        Err(error) => match error {
            IssueError::OutOfMemory => Outcome::OutOfMemory,
            _ => Outcome::Refused(error),
        },
    }
}

/// Reads an orders file. If it can't be read, returns the outcome.
fn read<I: Input>(alloc: Global, input: &mut I) -> Result<Vec<u8>, Outcome>
    ensures whole { IfOk result (λ octets. IsWhole
        (source I.takes I.is_ended I.failures input.old input.new) most_octets octets.items) }
    ensures unread { IfErr result (λ outcome. FileBecomes
        (source I.takes I.is_ended I.failures input.old input.new) outcome) }
    ensures unwhole { IfErr result (λ outcome. (error : ReadAllError)
        × IsUnread (source I.takes I.is_ended I.failures input.old input.new) most_octets error) }
{
    match read_all(alloc, input, u32::MAX) {
        Ok(octets) => Ok(octets),
        Err(ReadAllError::TooMuch) => Err(Outcome::BadLine(1)),
        Err(ReadAllError::Device) => Err(Outcome::Device),
        Err(ReadAllError::OutOfMemory) => Err(Outcome::OutOfMemory),
    }
}

/// Issues the chain that the bytes of an orders file ask for, and returns the outcome.
fn find_in(alloc: Global, octets: &[u8]) -> Outcome
    ensures { OctetsBecome octets.now result }
{
    match orders_in(alloc, octets) {
        Ok(orders) => find_issued(alloc, orders.as_slice()),
        Err(OrdersError::Line(line)) => Outcome::BadLine(line),
        Err(OrdersError::OutOfMemory) => Outcome::OutOfMemory,
    }
}

/// Reads an orders file, issues its chain, and returns the outcome.
fn find<I: Input>(alloc: Global, input: &mut I) -> Outcome
    ensures { FileBecomes (source I.takes I.is_ended I.failures input.old input.new) result }
{
    match read(alloc, input) {
        Ok(octets) => find_in(alloc, octets.as_slice()),
        Err(outcome) => outcome,
    }
}

/// Prints an outcome, and returns the exit status.
fn tell<O: Output, E: Output>(
    alloc: Global,
    outcome: &Outcome,
    out: &mut O,
    err: &mut E,
) -> ExitStatus
    ensures { IsTold (sink O.gives O.failures out.old out.new)
        (sink E.gives E.failures err.old err.new) outcome.now result }
{
    match outcome {
        Outcome::Issued(issued) => answer(out, err, issued.stream(), ExitStatus::Done),
        Outcome::Refused(error) => match refusal_line(alloc, error) {
            Ok(line) => complain(err, line.as_bytes(), ExitStatus::Refused),
            Err(_) => tell_memory(err),
        },
        Outcome::BadLine(line) => match fault_line(alloc, *line) {
            Ok(line) => complain(err, line.as_bytes(), ExitStatus::Arguments),
            Err(_) => tell_memory(err),
        },
        Outcome::Device => tell_device(err),
        Outcome::OutOfMemory => tell_memory(err),
    }
}

/// Issues the chain that the orders ask for, writes it, and returns the exit status.
///
/// A `DigestSigner` signs each certificate, with the key of the order above it, and the first
/// certificate with the key of its own order.
///
/// The certificates go to `out`, one after another. `err` gets one of the lines
/// `order PLACE REASON`, `orders REASON`, `device` and `memory`, where REASON is the name of an
/// `IssueError` and PLACE is the index of the order, counted from 0. If the text can't be written,
/// the run tries once to write `device` to `err`, and the status is `ExitStatus::Device`.
pub fn run_issue<O: Output, E: Output>(
    alloc: Global,
    orders: &[Order],
    out: &mut O,
    err: &mut E,
) -> ExitStatus
    // The text and the status report the outcome for these orders.
    ensures { (outcome : Outcome)
        × OrdersBecome orders.now outcome
        × IsTold (sink O.gives O.failures out.old out.new)
        (sink E.gives E.failures err.old err.new) outcome result }
{
    let outcome = find_issued(alloc, orders);
    tell(alloc, &outcome, out, err)
}

/// Issues the chain that an orders file asks for, as `run_issue` does.
///
/// The file is read to its end, and parsed by `orders_in`. The first wrong line is reported as
/// `orders: line N`. A file with more than 2^32 - 1 bytes is wrong in its first line, and only one
/// byte more than these is read.
pub fn run_orders<I: Input, O: Output, E: Output>(
    alloc: Global,
    input: &mut I,
    out: &mut O,
    err: &mut E,
) -> ExitStatus
    // The text and the status report the outcome for the bytes that were read.
    ensures { (outcome : Outcome)
        × FileBecomes (source I.takes I.is_ended I.failures input.old input.new) outcome
        × IsTold (sink O.gives O.failures out.old out.new)
        (sink E.gives E.failures err.old err.new) outcome result }
{
    let outcome = find(alloc, input);
    tell(alloc, &outcome, out, err)
}

/// Writes a text that follows the line of a run. If it can't be written, that isn't reported.
pub(crate) fn add<E: Output>(err: &mut E, text: &[u8])
    ensures { IsTried (sink E.gives E.failures err.old err.new) text.now }
{
    let _ = write_all(err, text);
}

/// Writes the line that says why an orders file is wrong or its orders are rejected, if there is
/// more to say, or that memory ran out.
fn explain<E: Output>(alloc: Global, octets: &[u8], outcome: &Outcome, err: &mut E)
    ensures { IsExplained (sink E.gives E.failures err.old err.new) octets.now outcome.now }
{
    match reason_of(alloc, octets, outcome) {
        Ok(Some(text)) => add(err, text.as_bytes()),
        Ok(None) => {}
        Err(_) => add(err, b"memory\n"),
    }
}

/// Explains an outcome if the run ends with the status of a wrong file or of a rejected order.
fn explain_after<E: Output>(
    alloc: Global,
    octets: &[u8],
    outcome: &Outcome,
    status: ExitStatus,
    err: &mut E,
)
    ensures { IsExplainedAfter status (sink E.gives E.failures err.old err.new) octets.now
        outcome.now }
{
    match status {
        ExitStatus::Refused => explain(alloc, octets, outcome, err),
        ExitStatus::Arguments => explain(alloc, octets, outcome, err),
        _ => {}
    }
}

/// Issues the chain that an orders file asks for, as `run_orders` does, and says why if it can't.
///
/// After the line of `run_orders`, `err` gets one more line if there is more to say: for a wrong
/// file, that of `reason_line`, and for a rejected order, `order PLACE line N WORD: ..`. If memory
/// runs out for that line, it is `memory`. The status is that of `run_orders`, also if that line
/// can't be written.
pub fn run_orders_with_reasons<I: Input, O: Output, E: Output>(
    alloc: Global,
    input: &mut I,
    out: &mut O,
    err: &mut E,
) -> ExitStatus
    // The first line and the status report the outcome for the bytes that were read, and the second
    // line says why.
    ensures { (outcome : Outcome) × (told : E)
        × FileBecomes (source I.takes I.is_ended I.failures input.old input.new) outcome
        × IsTold (sink O.gives O.failures out.old out.new)
        (sink E.gives E.failures err.old told) outcome result
        × IsFileExplained (source I.takes I.is_ended I.failures input.old input.new)
        (sink E.gives E.failures told err.new) outcome result }
{
    let octets = match read(alloc, input) {
        Ok(octets) => octets,
        Err(outcome) => return tell(alloc, &outcome, out, err),
    };
    let outcome = find_in(alloc, octets.as_slice());
    let status = tell(alloc, &outcome, out, err);
    explain_after(alloc, octets.as_slice(), &outcome, status, err);
    status
}
