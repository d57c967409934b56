//! Descriptions of the certificates of a stream, one at a time, in constant memory.

ghost use Rattle.std.specs.Prelude.{◌≡◌, ℕ, ◌<◌, ◌≤◌, List, [], ◌++◌, Some, Option};
ghost use Rattle.std.specs.Prelude.{IfSome, IfNone, IfErr, IfOk, OnOk};
ghost use Rattle.cert_tool_explain.specs.DeskIo.Devices.{Fails, sink, source};
ghost use Rattle.cert_tool_explain.specs.DeskChecking.declared.outcome.Outcome.{Outcome};
ghost use Rattle.cert_tool.specs.DescribedStreams.{HasMoved, HasTaken, AreCountsAfter, HasDecoded, IsDescribedStream, IsRead};
ghost use Rattle.cert_tool.specs.DescribedStreams.{IsUnwritten, stop_after};
ghost use Rattle.cert_tool.specs.Splitting.{IsEarlyEndReported};
ghost use Rattle.cert_tool.specs.EarlyEnds.{without_questions};
ghost use Rattle.cert_tool.specs.TaskRuns.{OnLastPart};

use crate::early_end::report_outcome;
use cert_tool_explain::desk_bundle::{Bundle, BundleError, Standing};
use cert_tool_explain::desk_checking::Outcome;
use cert_tool_explain::desk_io::{ExitStatus, Input, Output, write_all};
use cert_tool_explain::desk_rules::{Checked, Verdict};
use cert_tool_explain::tool_describe::add_certificate;
use cert_tool_explain::tool_lines::Lines;
use std::alloc::{AllocError, Global};

// The certificates of a stream that were described and dropped: their number, and their total
// number of bytes.
#[derive(Clone, Copy)]
struct DescribedSoFar {
    count: usize,
    octets: u64,
}

impl DescribedSoFar {
    // Returns the counts with the certificates of a bundle added, or `None` if they, and one more
    // certificate, can't be counted.
    fn with(self, bundle: &Bundle) -> Option<DescribedSoFar>
        ensures { IfSome result (λ next. AreCountsAfter self bundle.now next) }
    {
        let Some(count) = self.count.checked_add(bundle.len()) else {
            return None;
        };
        let Some(octets) = self.octets.checked_add(bundle.end_offset()) else {
            return None;
        };
        if octets.checked_add(u64::from(bundle.limit())).is_none() {
            return None;
        }
        Some(DescribedSoFar { count, octets })
    }

    // Returns the error for the end of the stream, if no certificate was described.
    fn end(self) -> Option<Outcome>
        ensures none { self.count ≡ 0 → result ≡ Some (without_questions Verdict.Empty) }
        ensures some { 0 < self.count → result ≡ None }
    {
        if self.count > 0 {
            return None;
        }
        Some(told(Verdict::Empty))
    }

    // Returns the outcome for an error of the bundle after these certificates.
    fn stop(self, error: BundleError) -> Outcome
        ensures { result ≡ stop_after self error }
    {
        match error {
            BundleError::Fault { kind, .. } => told(Verdict::StreamFault {
                place: self.count,
                offset: self.octets,
                kind,
            }),
            BundleError::OutOfMemory | BundleError::Failed => Outcome::OutOfMemory,
        }
    }
}

// Returns the outcome with a verdict that needed no signature.
fn told(verdict: Verdict) -> Outcome
    ensures { result ≡ without_questions verdict }
{
    Outcome::Checked(Checked { verdict, calls: 0 })
}

// How certificates are described: as lines or as JSON, with or without digests, and with or without
// a progress line on the error output.
#[derive(Drop)]
pub(crate) struct Form {
    pub(crate) alloc: Global,
    pub(crate) is_json: bool,
    pub(crate) has_digests: bool,
    pub(crate) is_watched: bool,
}

// The progress line is updated after this many certificates.
const STEP: usize = 1000;

impl Form {
    // Returns the description of the certificate at this index, which begins at this offset of the
    // stream.
    fn block(&self, place: usize, octet: u64, octets: &[u8]) -> Result<Vec<u8>, AllocError> {
        let mut lines = Lines::new(self.alloc, self.is_json);
        lines.has_digests = self.has_digests;
        if place > 0 {
            lines.tail("\n");
        }
        lines.word("certificate");
        lines.count_member("place", place as u64);
        lines.tail(" (");
        lines.word("octet");
        lines.count_member("offset", octet);
        lines.tail("):");
        lines.key("certificate");
        lines.brace();
        if add_certificate(&mut lines, octets).is_some() {
            lines.fail();
        }
        lines.end_brace();
        lines.finish()
    }

    // Appends the descriptions of a bundle's certificates, which come after those of `passed`.
    fn add_descriptions(
        &self,
        text: &mut Vec<u8>,
        bundle: &Bundle,
        passed: DescribedSoFar,
    ) -> Result<(), AllocError> {
        for number in 0..bundle.len() {
            let entry = bundle.get(number).unwrap();
            let place = passed.count.saturating_add(number);
            let octet = passed.octets.saturating_add(entry.offset);
            let block = self.block(place, octet, entry.octets)?;
            text.extend_from_slice(&block)?;
        }
        Ok(())
    }

    // Updates the progress line, if there is one and at least `STEP` certificates were described
    // since the last update. Returns the number that the line shows now. The next text on the error
    // output overwrites the line.
    fn show_count<E: Output>(&self, last: usize, count: usize, err: &mut E) -> usize {
        if !self.is_watched || count.saturating_sub(last) < STEP {
            return last;
        }
        if let Ok(text) = format!(in self.alloc; "{count} certificates\r") {
            let _ = write_all(err, text.as_bytes());
        }
        count
    }

    // Erases the progress line (ECMA-48 8.3.41).
    fn erase_count<E: Output>(&self, err: &mut E) {
        if self.is_watched {
            let _ = write_all(err, b"\x1b[K");
        }
    }
}

// The part of a stream that was read after the certificates that were dropped: its bytes, and the
// bundle that decodes them.
#[derive(Drop)]
struct ReadAhead {
    bundle: Bundle,
    octets: Vec<u8>,
}

impl ReadAhead {
    // Returns the empty part.
    fn new(alloc: Global, limit: u32) -> ReadAhead
        requires { 6 ≤ limit }
        ensures nothing { result.octets.items ≡ [] }
        ensures held { HasDecoded limit result.bundle Standing.Open [] }
    {
        ReadAhead {
            bundle: Bundle::new(alloc, limit),
            octets: Vec::new(alloc),
        }
    }

    // Decodes the next piece of a stream; an empty piece is the end of the stream. Returns whether
    // more may follow.
    fn take(&mut self, piece: &[u8]) -> Result<bool, BundleError>
        requires { HasDecoded self.old.bundle.limit self.old.bundle Standing.Open
            self.old.octets.items }
        ensures octets { OnOk result (self.new.octets.items ≡ self.old.octets.items ++ piece.now) }
        ensures taken { HasTaken self.old.bundle.limit self.new.bundle self.old.octets.items
            piece.now result }
    {
        if piece.is_empty() {
            return match self.bundle.finish() {
                Ok(_) => Ok(false),
                Err(error) => Err(error),
            };
        }
        if self.octets.extend_from_slice(piece).is_err() {
            return Err(BundleError::OutOfMemory);
        }
        match self.bundle.feed(piece) {
            Ok(()) => Ok(true),
            Err(error) => Err(error),
        }
    }

    // Reads and decodes the next piece of a stream, or returns `None` if the read failed.
    fn feed<S: Input>(&mut self, stream: &mut S) -> Option<Result<bool, BundleError>>
        requires { HasDecoded self.old.bundle.limit self.old.bundle Standing.Open
            self.old.octets.items }
        ensures fed { IfSome result (λ fed. (piece : List ℕ)
            × IsRead (source S.takes S.is_ended S.failures stream.old stream.new) piece
            × HasTaken self.old.bundle.limit self.new.bundle self.old.octets.items piece fed
            × OnOk fed (self.new.octets.items ≡ self.old.octets.items ++ piece)) }
        ensures failed { IfNone result
            (Fails (source S.takes S.is_ended S.failures stream.old stream.new) []) }
    {
        let mut buffer = [0; 4096];
        let Ok(count) = stream.read(&mut buffer) else {
            return None;
        };
        Some(self.take(&buffer[..count]))
    }

    // Drops the certificates of the bundle.
    fn forget(&mut self, alloc: Global, limit: u32) -> Result<(), AllocError>
        requires limit { 6 ≤ limit }
        requires held { HasDecoded limit self.old.bundle Standing.Open self.old.octets.items }
        ensures rest { OnOk result (self.new.octets.items ≡ self.old.bundle.rest) }
        ensures held { OnOk result
            (HasDecoded limit self.new.bundle Standing.Open self.old.bundle.rest) }
    {
        if self.bundle.is_empty() {
            return Ok(());
        }
        let rest = self.octets.len().saturating_sub(self.bundle.unfinished());
        self.octets = Vec::from_slice(alloc, &self.octets[rest..])?;
        self.bundle = Bundle::new(alloc, limit);
        match self.bundle.feed(&self.octets) {
            Ok(()) => Ok(()),
            Err(_) => Err(AllocError),
        }
    }
}

// Writes the descriptions of a bundle's certificates, which come after those of `passed`, and
// returns the new counts.
fn write_descriptions<O: Output>(
    form: &Form,
    bundle: &Bundle,
    passed: DescribedSoFar,
    out: &mut O,
) -> Result<DescribedSoFar, Outcome>
    ensures behind { IfOk result (AreCountsAfter passed bundle.now) }
    ensures written { OnOk result (HasMoved (sink O.gives O.failures out.old out.new)) }
    ensures unwritten { IfErr result (IsUnwritten (sink O.gives O.failures out.old out.new)) }
{
    // Certificates that can't be counted don't fit in memory.
    let Some(next) = passed.with(bundle) else {
        return Err(Outcome::OutOfMemory);
    };
    let mut text = Vec::new(form.alloc);
    if form.add_descriptions(&mut text, bundle, passed).is_err() {
        return Err(Outcome::OutOfMemory);
    }
    if write_all(out, &text).is_err() {
        return Err(Outcome::Device);
    }
    Ok(next)
}

// Describes each certificate of a stream in turn and drops it. Returns what ended the stream early,
// if anything did.
fn write_each<S: Input, O: Output, E: Output>(
    form: &Form,
    ahead: &mut ReadAhead,
    stream: &mut S,
    out: &mut O,
    err: &mut E,
    limit: u32,
) -> Option<Outcome>
    requires limit { 6 ≤ limit }
    requires nothing { ahead.old.octets.items ≡ [] }
    requires held { HasDecoded limit ahead.old.bundle Standing.Open [] }
    ensures { IsDescribedStream (source S.takes S.is_ended S.failures stream.old stream.new)
        (sink O.gives O.failures out.old out.new) limit result }
{
    let mut passed = DescribedSoFar {
        count: 0,
        octets: 0,
    };
    let mut counted = 0;
    // Each piece has at least one byte, and the total is less than 2^64.
    'pieces: for _ in 0..u64::MAX {
        let Some(fed) = ahead.feed(stream) else {
            return Some(Outcome::Device);
        };
        passed = match write_descriptions(form, &ahead.bundle, passed, out) {
            Ok(next) => next,
            Err(outcome) => return Some(outcome),
        };
        match fed {
            Ok(true) => {}
            Ok(false) => return passed.end(),
            Err(error) => return Some(passed.stop(error)),
        }
        counted = form.show_count(counted, passed.count, err);
        match ahead.forget(form.alloc, limit) {
            Ok(()) => {}
            Err(_) => return Some(Outcome::OutOfMemory),
        }
    }
    Some(Outcome::OutOfMemory)
}

// Describes each certificate of a stream in turn, and then reports what ended the stream early, if
// anything did. If the form asks for it, a progress line on the error output shows the number of
// certificates.
pub(crate) fn run_describe<S: Input, O: Output, E: Output>(
    form: &Form,
    stream: &mut S,
    out: &mut O,
    err: &mut E,
    limit: u32,
) -> ExitStatus
    requires { 6 ≤ limit }
    ensures told { (ended : Option Outcome)
        × IsDescribedStream (source S.takes S.is_ended S.failures stream.old stream.new)
        (sink O.gives O.failures out.old out.new) limit ended
        × OnLastPart (sink E.gives E.failures err.old err.new)
        (λ last. IsEarlyEndReported last ended result) }
{
    let mut ahead = ReadAhead::new(form.alloc, limit);
    let ended = write_each(form, &mut ahead, stream, out, err, limit);
    form.erase_count(err);
    match ended {
        None => ExitStatus::Done,
        Some(outcome) => report_outcome(form.alloc, outcome, err),
    }
}
