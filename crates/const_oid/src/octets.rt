//! Decoding an object identifier (X.690 8.19) in one pass.

ghost use Rattle.std.specs.Prelude.{◌≡◌, ℕ, ◌+◌, ◌<◌, ◌≤◌, Ok, Err, MatchResult, IsTrue, length};
ghost use Rattle.std.specs.Prelude.{slice_index, take};
ghost use Rattle.const_oid.specs.Bound.{Bound};
ghost use Rattle.const_oid.specs.IdentifierOctets.{arc_octets, read_arcs, read_identifier};
ghost use Rattle.const_oid.specs.Outcome.{outcome};
ghost use Rattle.const_oid.specs.Arcs.{later_arcs, arcs_of};
ghost use Rattle.const_oid.specs.LastArcs.{KnowsLast, last_from};

use crate::error::{Arc, Error, Result};

/// The facts about an encoding that one pass finds.
#[derive(Clone, Copy)]
pub(crate) struct Found {
    /// The number of arcs.
    pub(crate) arc_count: usize,
    /// The position of the last arc, or 0 if there are two arcs.
    pub(crate) last_start: usize,
}

/// Checks an encoding of any length, and returns its first error.
pub(crate) fn check(octets: &[u8]) -> Result<()>
    ensures { result ≡ outcome (read_identifier Bound (length octets.now) octets.now) }
{
    let _found = find(octets)?;
    Ok(())
}

/// Returns the number of arcs of an encoding of any length and the position of the last one, or the
/// first error.
pub(crate) fn find(octets: &[u8]) -> Result<Found>
    ensures { MatchResult result
        (λ found. (outcome (read_identifier Bound (length octets.now) octets.now) ≡ Ok tt)
        × KnowsLast (arcs_of octets.now) found.arc_count found.last_start)
        (λ e. outcome (read_identifier Bound (length octets.now) octets.now) ≡ Err e) }
{
    let Some((root, later)) = octets.split_first() else {
        return Err(Error::Empty);
    };
    if *root >= 120 {
        return Err(Error::ArcInvalid {
            arc: Arc::from(*root / 40),
        });
    }
    find_arcs(later)
}

/// Returns the length of the arc with which the bytes begin, or its error.
#[inline]
fn first_arc_len(octets: &[u8]) -> Result<usize>
    requires { 0 < length octets.now }
    ensures { MatchResult result
        (λ len. (len ≤ length octets.now)
        × ((arc : ℕ) × (arc < Bound) × (take len octets.now ≡ arc_octets arc)))
        (λ e. read_arcs Bound 0 octets.now ≡ Err e) }
{
    let first = octets[0];
    if first < 0x80 {
        return Ok(1);
    }
    if first == 0x80 {
        return Err(Error::Base128);
    }
    // Most arcs of more than one byte have two or three.
    if octets.len() > 2 {
        if octets[1] < 0x80 {
            return Ok(2);
        }
        if octets[2] < 0x80 {
            return Ok(3);
        }
    }
    // An arc has at most 18 bytes (126 bits), or 19 if its first byte has at most two significant
    // bits.
    let most = if first > 0x83 { 18 } else { 19 };
    for i in 1..octets.len() {
        if i >= most {
            return Err(Error::ArcTooBig);
        }
        if octets[i] < 0x80 {
            return Ok(i + 1);
        }
    }
    Err(Error::Base128)
}

/// Returns true if there are two bytes, each of which is an arc.
#[inline]
fn are_two_arcs(octets: &[u8]) -> bool
    ensures { IsTrue result → (length octets.now ≡ 2) × (slice_index octets.now 0 < 128)
        × (slice_index octets.now 1 < 128) }
{
    let [one, other] = octets else {
        return false;
    };
    if *one >= 0x80 || *other >= 0x80 {
        return false;
    }
    true
}

/// Returns the number of arcs and the position of the last one, or the first error of the bytes
/// after the first one.
fn find_arcs(octets: &[u8]) -> Result<Found>
    ensures { MatchResult result
        (λ found. (outcome (read_arcs Bound 0 octets.now) ≡ Ok tt)
        × (found.arc_count ≡ 2 + length (later_arcs 0 octets.now))
        × (found.last_start ≡ last_from 0 1 1 octets.now))
        (λ e. outcome (read_arcs Bound 0 octets.now) ≡ Err e) }
{
    // Most identifiers of attributes and extensions have two bytes after the first one.
    if are_two_arcs(octets) {
        return Ok(Found {
            arc_count: 4,
            last_start: 2,
        });
    }
    let mut arc_count = 2;
    let mut last_start = 0;
    let mut begun = 0;
    while begun < octets.len() {
        let len = first_arc_len(&octets[begun..])?;
        arc_count += 1;
        last_start = begun + 1;
        begun += len;
    }
    Ok(Found {
        arc_count,
        last_start,
    })
}
