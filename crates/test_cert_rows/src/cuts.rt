//! Chains that are cut, and prefixes of chains.

ghost use Rattle.std.specs.Prelude.{◌<◌, ◌≤◌, length};

use crate::bundles::{limit_of, write_standing};
use crate::checks::{Asked, How, judged};
use crate::refusal::Refusal;
use crate::words::{Judged, key_of, octets_of, purpose_of};
use cert_desk::{Anchor, Bundle, BundleError, CheckError, DigestJudge, SignatureJudge, check};
use der_core::FromDer;
use std::alloc::Global;
use std::fmt::Write;

/// The trust anchor's name, which has no attributes, and its key.
const NAME: &[u8] = b"\x30\x00";

const KEY: &str = "3009300306012a03020000";

/// 2002-01-01T12:01:00Z, the first second in which the certificates of the table are valid.
const MOMENT: u64 = 1_009_886_460;

/// The key purpose of servers.
pub const SERVERS: &str = "1.3.6.1.5.5.7.3.1";

/// Returns the verdict on a chain in one piece, and the number of cuts that change nothing.
pub fn answer(alloc: Global, rest: &str) -> Result<String, Refusal> {
    let (limit, rest) = rest.split_once(' ').ok_or(Refusal::Unread)?;
    let (judge, octets) = rest.split_once(' ').ok_or(Refusal::Unread)?;
    let limit = limit_of(limit)?;
    let stream = octets_of(alloc, octets)?;
    let asked = Asked {
        anchors: &[],
        stream: stream.as_slice(),
        moment: MOMENT,
        purpose: &purpose_of(SERVERS)?,
        limit,
    };
    judged(alloc, How::Cut, judge, &asked)
}

/// Returns the verdict on a chain in one piece, and the number of cuts that give the same
/// certificates and the same verdict. The chain is cut in two at each position, and byte by byte.
pub fn told<J: SignatureJudge>(
    alloc: Global,
    asked: &Asked<'_>,
    judge: &mut J,
) -> Result<String, Refusal>
    requires { 6 ≤ asked.now.limit }
{
    let len = asked.stream.len();
    let whole = in_pieces(alloc, asked, len, 1);
    let verdict = verdict_on(alloc, &whole, judge)?;
    for place in 0..len {
        if !is_same_cut(alloc, asked, judge, &whole, verdict.as_str(), place)? {
            return Ok(format!(in alloc; "{verdict}, not cut at {place}")?);
        }
    }
    Ok(format!(in alloc; "{verdict} cuts={len}")?)
}

/// Returns whether a chain that is cut in two at a position, and byte by byte at the first one,
/// gives the same certificates and the same verdict.
fn is_same_cut<J: SignatureJudge>(
    alloc: Global,
    asked: &Asked<'_>,
    judge: &mut J,
    whole: &Bundle,
    verdict: &str,
    place: usize,
) -> Result<bool, Refusal>
    requires limit { 6 ≤ asked.now.limit }
    requires place { place < length asked.now.stream.now }
{
    let size = if place == 0 { 1 } else { asked.stream.len() };
    let cut = in_pieces(alloc, asked, place, size);
    Ok(verdict_on(alloc, &cut, judge)?.as_str() == verdict && are_alike(&cut, whole))
}

/// Returns the bundle that has read that many bytes of a chain first, and the others in pieces of a
/// size.
fn in_pieces(alloc: Global, asked: &Asked<'_>, front: usize, size: usize) -> Bundle
    requires limit { 6 ≤ asked.now.limit }
    requires front { front ≤ length asked.now.stream.now }
    requires size { 0 < size }
{
    let mut bundle = Bundle::new(alloc, asked.limit);
    let _ = bundle.feed(&asked.stream[..front]);
    for piece in asked.stream[front..].chunks(size) {
        let _ = bundle.feed(piece);
    }
    let _ = bundle.finish();
    bundle
}

/// Returns whether two bundles have the same state and the same certificates.
fn are_alike(one: &Bundle, other: &Bundle) -> bool {
    one.standing() == other.standing() && one.len() == other.len() && is_front(one, other)
}

/// Returns whether the certificates of a bundle are in another one, at the same indexes.
fn is_front(one: &Bundle, other: &Bundle) -> bool {
    for place in 0..one.len() {
        let (Some(one), Some(other)) = (one.get(place), other.get(place)) else {
            return false;
        };
        if one.offset != other.offset || one.octets != other.octets || one.signed != other.signed {
            return false;
        }
    }
    true
}

/// Returns the state of a bundle that has read a chain, and the verdict on it. If memory runs out
/// for the bundle, another one reads the chain. If it runs out for the verdict, the chain is
/// validated again.
pub fn answer_again(alloc: Global, rest: &str) -> Result<String, Refusal> {
    let (limit, octets) = rest.split_once(' ').ok_or(Refusal::Unread)?;
    let limit = limit_of(limit)?;
    let stream = octets_of(alloc, octets)?;
    let bundle = fed_again(alloc, limit, stream.as_slice())?;
    let mut text = String::new(alloc);
    write_standing(&mut text, &bundle)?;
    text.push_str(verdict_again(alloc, &bundle)?.as_str())?;
    Ok(text)
}

/// Returns a bundle that has read a chain to its end. It is a second one if memory runs out for the
/// first.
fn fed_again(alloc: Global, limit: u32, stream: &[u8]) -> Result<Bundle, Refusal>
    requires { 6 ≤ limit }
{
    let mut bundle = Bundle::new(alloc, limit);
    if let Err(BundleError::OutOfMemory) = bundle.feed(stream) {
        let mut failed = bundle;
        bundle = Bundle::new(alloc, limit);
        let _ = bundle.feed(stream);
        if !is_kept(alloc, &mut failed, &bundle) {
            return Err(Refusal::Changed);
        }
    }
    let _ = bundle.finish();
    Ok(bundle)
}

/// Returns the verdict on a bundle, which is validated again if memory runs out.
fn verdict_again(alloc: Global, bundle: &Bundle) -> Result<String, Refusal> {
    let judge = &mut DigestJudge::new();
    match verdict_on(alloc, bundle, judge) {
        Err(Refusal::Memory) => verdict_on(alloc, bundle, judge),
        verdict => verdict,
    }
}

/// Returns whether a bundle that ran out of memory keeps the certificates that it had read, and
/// rejects all further calls.
fn is_kept(alloc: Global, failed: &mut Bundle, whole: &Bundle) -> bool {
    let refused = Err(BundleError::Failed);
    let takes_nothing = failed.feed(&[]) == refused && failed.finish() == refused;
    let verdict = verdict_on(alloc, failed, &mut DigestJudge::new());
    takes_nothing && is_front(failed, whole) && matches!(verdict, Err(Refusal::Memory))
}

/// Returns the number of certificates, and the verdict of `check` on them under the trust anchor.
pub fn verdict_on<J: SignatureJudge>(
    alloc: Global,
    bundle: &Bundle,
    judge: &mut J,
) -> Result<String, Refusal> {
    if !bundle.is_ended() {
        return Err(Refusal::Unread);
    }
    let anchors = [Anchor::new(FromDer::from_der(alloc, NAME)?, key_of(alloc, KEY)?)];
    let purpose = purpose_of(SERVERS)?;
    match check(alloc, bundle, &anchors, MOMENT, &purpose, judge) {
        Ok(checked) => Ok(format!(in alloc; "{}: {}", bundle.len(), Judged(checked))?),
        Err(CheckError::OutOfMemory) => Err(Refusal::Memory),
        Err(CheckError::Device) => Ok(format!(in alloc; "device")?),
    }
}

/// Returns the end of each prefix of a chain. Consecutive prefixes with the same end are combined.
pub fn answer_of_fronts(alloc: Global, rest: &str) -> Result<String, Refusal> {
    let (limit, octets) = rest.split_once(' ').ok_or(Refusal::Unread)?;
    let limit = limit_of(limit)?;
    let stream = octets_of(alloc, octets)?;
    ends_of(alloc, limit, stream.as_slice())
}

/// Returns the end of each prefix of these bytes.
fn ends_of(alloc: Global, limit: u32, stream: &[u8]) -> Result<String, Refusal>
    requires { 6 ≤ limit }
{
    let mut text = String::new(alloc);
    let mut first = 0;
    let mut end = end_of(alloc, limit, &[])?;
    for len in 1..=stream.len() {
        let next = end_of(alloc, limit, &stream[..len])?;
        if next != end {
            write!(text, "{first}-{} {end:?}; ", len - 1)?;
            first = len;
            end = next;
        }
    }
    write!(text, "{first}-{} {end:?}", stream.len())?;
    Ok(text)
}

/// Returns the result of reading a chain in one piece.
fn end_of(alloc: Global, limit: u32, stream: &[u8]) -> Result<Result<(), BundleError>, Refusal>
    requires { 6 ≤ limit }
{
    let mut bundle = Bundle::new(alloc, limit);
    let end = match bundle.feed(stream) {
        Ok(()) => bundle.finish(),
        Err(error) => Err(error),
    };
    match end {
        Err(BundleError::OutOfMemory) => Err(Refusal::Memory),
        end => Ok(end),
    }
}
