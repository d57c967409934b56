//! Other runs over a chain that a run of `issue` wrote.

ghost use Rattle.std.specs.Prelude.{◌≤◌};

use crate::bundles::limit_of;
use crate::files::file_of;
use crate::refusal::Refusal;
use crate::words::{number_of, purpose_of};
use crate::{checks, issues, listings};
use cert_desk::{Bundle, DigestJudge, FileKind};
use std::alloc::Global;

/// Returns the chain that a run writes for a file, if it succeeds.
fn stream_of(alloc: Global, file: &str) -> Result<Vec<u8>, Refusal> {
    let file = file_of(alloc, file)?;
    let told = issues::run(alloc, "-/-/-", false, file.as_slice())?;
    match told.status {
        0 => Ok(told.out),
        6 => Err(Refusal::Memory),
        _ => Err(Refusal::Unread),
    }
}

/// Returns the bytes of the certificate at an index of a chain.
fn certificate_of(alloc: Global, stream: &[u8], place: usize) -> Result<Vec<u8>, Refusal> {
    let mut bundle = Bundle::new(alloc, u32::MAX);
    bundle.feed(stream)?;
    let entry = bundle.get(place).ok_or(Refusal::Unread)?;
    Ok(entry.octets.to_vec(alloc)?)
}

/// Returns the output of a run of `check`.
pub fn answer_of_check(alloc: Global, rest: &str) -> Result<String, Refusal> {
    let (limit, rest) = rest.split_once(' ').ok_or(Refusal::Unread)?;
    let (moment, rest) = rest.split_once(' ').ok_or(Refusal::Unread)?;
    let (purpose, file) = rest.split_once(' ').ok_or(Refusal::Unread)?;
    let limit = limit_of(limit)?;
    let moment = moment.parse().ok().ok_or(Refusal::Unread)?;
    let purpose = purpose_of(purpose)?;
    let stream = stream_of(alloc, file)?;
    let asked = checks::Asked {
        anchors: &[],
        stream: stream.as_slice(),
        moment,
        purpose: &purpose,
        limit,
    };
    check_under_root(alloc, &asked)
}

/// Returns the output of a run of `check` over a chain, under its first certificate.
fn check_under_root(alloc: Global, asked: &checks::Asked<'_>) -> Result<String, Refusal>
    requires { 6 ≤ asked.now.limit }
{
    let root = certificate_of(alloc, asked.stream, 0)?;
    let asked = checks::Asked {
        anchors: root.as_slice(),
        stream: asked.stream,
        moment: asked.moment,
        purpose: asked.purpose,
        limit: asked.limit,
    };
    checks::run(alloc, "-/-/-/-", &asked, &mut DigestJudge::new())
}

/// Returns the output of a run of `show`.
pub fn answer_of_show(alloc: Global, rest: &str) -> Result<String, Refusal> {
    let (place, file) = rest.split_once(' ').ok_or(Refusal::Unread)?;
    let place = number_of(place)? as usize;
    let stream = stream_of(alloc, file)?;
    let certificate = certificate_of(alloc, stream.as_slice(), place)?;
    listings::run(
        alloc,
        "-/-/-",
        FileKind::Certificate,
        certificate.as_slice(),
    )
}
