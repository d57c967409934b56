//! Issues the chain that orders ask for.

ghost use Rattle.std.specs.Prelude.{◌≡◌, ◌<◌, ◌-◌, List, length, map, slice_get, IfOk, IfErr};
ghost use Rattle.cert_desk_listing.specs.Der.Grammar.{plain_option};
ghost use Rattle.cert_desk_orders.specs.CertParts.Views.{key_plain};
ghost use Rattle.cert_desk.specs.Acceptance.{AcceptedOrders, AcceptsFront, IsAcceptedAt};
ghost use Rattle.cert_desk.specs.Chains.{AreSigned, HoldsOrders, IssuedChain};
ghost use Rattle.cert_desk.specs.Issuable.{AreIssuable, AreSignable, IsMemoryOrLong};
ghost use Rattle.cert_desk.specs.Making.{MakesAt};
ghost use Rattle.cert_desk.specs.PlainOrders.{AreKeys, AreReady, accepted_plain};
ghost use Rattle.cert_desk.specs.PlainOrders.{orders_plain};
ghost use Rattle.cert_desk.specs.Refusals.{IsRefusedAt, Refuses};
ghost use Rattle.cert_desk.specs.Roles.{signers_for};

use crate::accepted::Accepted;
use crate::accepting::accept_one;
use crate::fault::Fault;
use crate::issue_error::IssueError;
use crate::issued::Issued;
use crate::making::{Made, certificate_for};
use crate::role::{place_above, role_at};
use crate::stop::Stop;
use cert_desk_orders::Order;
use cert_desk_orders::cert_parts::SubjectPublicKeyInfo;
use std::alloc::Global;
use x509_cert_builders::Signer;

/// Issues the chain that these orders ask for. The first order is for the root, the last of two or
/// more for an end entity, and those between are for CAs. Each certificate is issued by the subject
/// of the one before it.
///
/// There is a signer for each order but the last, and one signer for a single order. The signer at
/// index 0 signs the root and the certificate at index 1, and the signer at index `i` signs the
/// certificate at index `i + 1`.
///
/// # Errors
///
/// The first error is returned, and no certificate. An error of an order has its index.
///
/// - `NoOrders`: there are no orders.
/// - `SignerCount`: the number of signers is wrong.
/// - `OutOfMemory`: memory runs out, at any time.
///
/// For each order, in turn:
///
/// - `Name`: the name isn't in the form of RFC 4514.
/// - `RootName`: the name isn't allowed for a root.
/// - `SubscriberName`: the name of an end entity has an attribute other than countryName and
///   commonName.
/// - `Serial`: the serial number has no bytes, or its DER content more than 20.
/// - `Dates`: a text isn't a date, or the validity period ends before it begins.
/// - `DnsName`: the order for an end entity has no DNS name, or one that isn't ASCII.
/// - `KeyMismatch`: the key isn't that of the signer at the same index.
///
/// Then for each certificate, in turn:
///
/// - `Signer`: the signer refuses to sign.
/// - `TooLong`: a length exceeds 2^32 - 1.
pub fn issue<S: Signer>(
    alloc: Global,
    orders: &[Order],
    signers: &[S],
) -> Result<Issued, IssueError>
    ensures issued { IfOk result
        (λ i. IssuedChain S.public_key S.signs_by S.signs orders.now signers.now
        i.stream) }
    ensures refused { IfErr result
        (λ e. Refuses S.public_key S.signs_by S.signs S.may_refuse orders.now
        signers.now e) }
    // If the orders are accepted, no signer may refuse to sign, and all lengths fit, a chain is
    // issued unless memory runs out.
    ensures complete { AreIssuable S.public_key S.signs_by S.signs S.may_refuse orders.now
        signers.now
        → IfErr result (λ e. e ≡ IssueError.OutOfMemory) }
    // If the lengths fit without the signatures, the only errors are that memory runs out, and
    // `TooLong` if the signer may return a signature with which the certificate has no encoding.
    ensures signable { (h : AreSignable S.public_key S.signs_by S.may_refuse orders.now signers.now)
        → IfErr result (IsMemoryOrLong S.signs_by S.signs h.asked signers.now) }
{
    if orders.is_empty() {
        return Err(IssueError::NoOrders);
    }
    if signers.len() != signers_for(orders.len()) {
        return Err(IssueError::SignerCount);
    }
    let accepted = accept_all(alloc, orders, signers)?;
    let issued = issue_all(alloc, accepted.as_slice(), signers)?;
    Ok(issued)
}

/// Returns the number of signers that this many orders need.
fn signers_for(count: usize) -> usize
    ensures { result ≡ signers_for count }
{
    if count < 2 {
        return 1;
    }
    count - 1
}

/// Returns the key of the signer at an index, if there is one.
fn key_at<S: Signer>(signers: &[S], place: usize) -> Option<&SubjectPublicKeyInfo>
    ensures { plain_option (λ k. key_plain k.now) result ≡ slice_get (map S.public_key signers.now)
        place }
{
    if place < signers.len() {
        return Some(signers[place].key_info());
    }
    None
}

/// Validates the order at an index, or returns why it isn't accepted.
fn accept_at<'a, S: Signer>(
    alloc: Global,
    orders: &'a [Order],
    signers: &[S],
    place: usize,
) -> Result<Accepted<'a>, Fault>
    requires { place < length orders.now }
    ensures accepted { IfOk result
        (λ a. IsAcceptedAt orders.now (map S.public_key signers.now) place (accepted_plain a)) }
    ensures refused { IfErr result
        (λ f. IsRefusedAt orders.now (map S.public_key signers.now) place f) }
{
    let role = role_at(orders.len(), place);
    let key = key_at(signers, place);
    accept_one(alloc, role, &orders[place], key)
}

/// Validates all orders, or returns the first error.
fn accept_all<'a, S: Signer>(
    alloc: Global,
    orders: &'a [Order],
    signers: &[S],
) -> Result<Vec<Accepted<'a>>, IssueError>
    requires { length signers.now ≡ signers_for (length orders.now) }
    ensures all { IfOk result (λ v. length v.items ≡ length orders.now) }
    ensures accepted { IfOk result
        (λ v. AcceptsFront orders.now (map S.public_key signers.now) (orders_plain v.items)) }
    ensures refused { IfErr result
        (λ e. Refuses S.public_key S.signs_by S.signs S.may_refuse orders.now
        signers.now e) }
{
    let mut all = Vec::new(alloc);
    for place in 0..orders.len() {
        let accepted = match accept_at(alloc, orders, signers, place) {
            Ok(accepted) => accepted,
            Err(fault) => return Err(fault.at(place)),
        };
        let Ok(()) = all.push(accepted) else {
            return Err(IssueError::OutOfMemory);
        };
    }
    Ok(all)
}

/// Issues the certificate at an index.
fn issue_at<S: Signer>(
    alloc: Global,
    accepted: &[Accepted<'_>],
    signers: &[S],
    place: usize,
) -> Result<Made, Stop>
    requires within { place < length accepted.now }
    requires signers { length signers.now ≡ signers_for (length accepted.now) }
    requires ready { AreReady (orders_plain accepted.now) }
    requires keys { AreKeys (map S.public_key signers.now) (orders_plain accepted.now) }
    ensures { MakesAt S.signs_by S.signs S.may_refuse (orders_plain accepted.now) signers.now place
        result }
{
    let role = role_at(accepted.len(), place);
    let above = place_above(place);
    certificate_for(
        alloc,
        role,
        &accepted[place],
        &accepted[above],
        &signers[above],
    )
}

/// Issues the certificates of accepted orders, one after another.
fn issue_all<S: Signer>(
    alloc: Global,
    accepted: &[Accepted<'_>],
    signers: &[S],
) -> Result<Issued, IssueError>
    requires signers { length signers.now ≡ signers_for (length accepted.now) }
    requires ready { AreReady (orders_plain accepted.now) }
    requires keys { AreKeys (map S.public_key signers.now) (orders_plain accepted.now) }
    ensures holds { IfOk result
        (λ i. HoldsOrders (orders_plain accepted.now) i.certificates i.stream) }
    ensures signed { IfOk result (λ i. AreSigned S.signs_by S.signs signers.now i.certificates) }
    ensures stopped { (orders : List Order) → AcceptedOrders orders (map S.public_key signers.now)
        (orders_plain accepted.now)
        → IfErr result (λ e. Refuses S.public_key S.signs_by S.signs S.may_refuse orders signers.now
        e) }
{
    let mut certificates = Vec::new(alloc);
    let mut stream = Vec::new(alloc);
    for place in 0..accepted.len() {
        let made = match issue_at(alloc, accepted, signers, place) {
            Ok(made) => made,
            Err(stop) => return Err(stop.at(place)),
        };
        let Made {
            certificate,
            mut octets,
        } = made;
        let Ok(()) = stream.append(&mut octets) else {
            return Err(IssueError::OutOfMemory);
        };
        let Ok(()) = certificates.push(certificate) else {
            return Err(IssueError::OutOfMemory);
        };
    }
    Ok(Issued {
        certificates,
        stream,
    })
}
