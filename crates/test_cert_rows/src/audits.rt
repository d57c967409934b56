//! Chains that several kinds of signers issue, and their audits.

ghost use Rattle.std.specs.Prelude.{◌≤◌};

use crate::bundles::limit_of;
use crate::files::file_of;
use crate::odd_signer::{OddSigner, Oddity};
use crate::refusal::Refusal;
use crate::words::{Judged, key_of, number_of, octets_of, purpose_of};
use cert_desk::{
    DigestJudge, DigestSigner, IssueError, Issued, Order, SubjectPublicKeyInfo, issue, orders_in,
};
use const_oid::ObjectIdentifier;
use std::alloc::Global;

/// A key that no order has: its bit string has no bytes.
const STRANGER: &str = "3008300306012A030100";

/// The signers of a question.
#[derive(Drop)]
struct Signers {
    /// The way in which they differ from good signers.
    oddity: Oddity,
    /// The index of the signer with another key.
    stranger: Option<usize>,
    /// The number of signers, if it isn't the required one.
    count: Option<usize>,
}

impl Signers {
    /// Parses the signers of a question.
    fn parse(alloc: Global, word: &str) -> Result<Signers, Refusal> {
        let (word, more) = word.split_once(':').unwrap_or((word, "-"));
        let (stranger, count) = match word {
            "stranger" => (Some(number_of(more)? as usize), None),
            "count" => (None, Some(number_of(more)? as usize)),
            _ => (None, None),
        };
        Ok(Signers {
            oddity: oddity_of(alloc, word, more)?,
            stranger,
            count,
        })
    }

    /// Returns the key of the signer at an index.
    fn key_at(
        &self,
        alloc: Global,
        orders: &[Order],
        place: usize,
    ) -> Result<SubjectPublicKeyInfo, Refusal> {
        match orders.get(place) {
            Some(order) if self.stranger != Some(place) => Ok(order.key.clone(alloc)?),
            _ => key_of(alloc, STRANGER),
        }
    }

    /// Returns the signers for these orders.
    fn for_orders(&self, alloc: Global, orders: &[Order]) -> Result<Vec<OddSigner<'_>>, Refusal> {
        let needed = orders.len().saturating_sub(1).max(1);
        let mut signers = Vec::new(alloc);
        for place in 0..self.count.unwrap_or(needed) {
            let key = self.key_at(alloc, orders, place)?;
            signers.push(OddSigner {
                signer: DigestSigner::new(key),
                oddity: &self.oddity,
            })?;
        }
        Ok(signers)
    }
}

/// Returns the way in which signers with these words differ from good ones.
fn oddity_of(alloc: Global, word: &str, more: &str) -> Result<Oddity, Refusal> {
    match word {
        "digest" | "stranger" | "count" => Ok(Oddity::None),
        "refuses" => Ok(Oddity::Refuses(octets_of(alloc, more)?)),
        "memory" => Ok(Oddity::Forgets(octets_of(alloc, more)?)),
        "empty" => Ok(Oddity::IsEmpty),
        _ => Err(Refusal::Unread),
    }
}

/// Returns the verdict on the chain of a file's orders, or why there is none.
pub fn answer(alloc: Global, rest: &str) -> Result<String, Refusal> {
    let (signer, rest) = rest.split_once(' ').ok_or(Refusal::Unread)?;
    let (limit, rest) = rest.split_once(' ').ok_or(Refusal::Unread)?;
    let (moment, rest) = rest.split_once(' ').ok_or(Refusal::Unread)?;
    let (purpose, file) = rest.split_once(' ').ok_or(Refusal::Unread)?;
    let limit = limit_of(limit)?;
    let moment = moment.parse().ok().ok_or(Refusal::Unread)?;
    audit_of(alloc, signer, file, limit, moment, &purpose_of(purpose)?)
}

/// Returns the verdict on the chain of a file's orders with these signers, or why there is none.
fn audit_of(
    alloc: Global,
    signers: &str,
    file: &str,
    limit: u32,
    moment: u64,
    purpose: &ObjectIdentifier<39>,
) -> Result<String, Refusal>
    requires { 6 ≤ limit }
{
    match chain_of(alloc, signers, file)? {
        Ok(issued) => audit(alloc, &issued, limit, moment, purpose),
        Err(IssueError::OutOfMemory) => Err(Refusal::Memory),
        Err(error) => Ok(format!(in alloc; "{error:?}")?),
    }
}

/// Returns the bytes of the chain of a file's orders. If memory runs out, the chain is issued
/// again.
pub fn answer_again(alloc: Global, rest: &str) -> Result<String, Refusal> {
    let (signer, file) = rest.split_once(' ').ok_or(Refusal::Unread)?;
    let mut issued = chain_of(alloc, signer, file)?;
    if let Err(IssueError::OutOfMemory) = issued {
        issued = chain_of(alloc, signer, file)?;
    }
    match issued {
        Ok(issued) => Ok(hex::encode(alloc, issued.stream())?),
        Err(IssueError::OutOfMemory) => Err(Refusal::Memory),
        Err(error) => Ok(format!(in alloc; "{error:?}")?),
    }
}

/// Issues the chain of a file's orders with these signers.
fn chain_of(
    alloc: Global,
    signers: &str,
    file: &str,
) -> Result<Result<Issued, IssueError>, Refusal> {
    let signers = Signers::parse(alloc, signers)?;
    let file = file_of(alloc, file)?;
    let orders = orders_in(alloc, file.as_slice())?;
    chain_by(alloc, &signers, orders.as_slice())
}

/// Issues the chain of these orders with these signers.
fn chain_by(
    alloc: Global,
    signers: &Signers,
    orders: &[Order],
) -> Result<Result<Issued, IssueError>, Refusal> {
    let signers = signers.for_orders(alloc, orders)?;
    Ok(issue(alloc, orders, signers.as_slice()))
}

/// Returns the verdict of an audit, with the digest verifier.
fn audit(
    alloc: Global,
    issued: &Issued,
    limit: u32,
    moment: u64,
    purpose: &ObjectIdentifier<39>,
) -> Result<String, Refusal>
    requires { 6 ≤ limit }
{
    let mut judge = DigestJudge::new();
    let Ok(checked) = issued.audit(alloc, limit, moment, purpose, &mut judge) else {
        return Err(Refusal::Memory);
    };
    let places = issued.certificates().len();
    Ok(format!(in alloc; "{places}: {}", Judged(checked))?)
}
