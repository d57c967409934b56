//! Iterating over the arcs of an object identifier.

ghost use Rattle.std.specs.Prelude.{◌≡◌, ℕ, ◌∷◌, [], true, is_ok, Option, MatchOption, ◌<◌, length};
ghost use Rattle.std.specs.Prelude.{slice_get, count_by, nat_lt, ◌≤◌, ◌-◌};
ghost use Rattle.const_oid.specs.Bound.{Bound};
ghost use Rattle.const_oid.specs.IdentifierOctets.{read_arcs, read_identifier};
ghost use Rattle.const_oid.specs.Arcs.{later_arcs, arcs_of, SpellsIdentifier};
ghost use Rattle.const_oid.specs.Digits.{digits};
ghost use Rattle.const_oid.specs.LastArcs.{place_of_last};

use crate::error::Arc;

/// An iterator over the arcs of an object identifier, in their order.
#[derive(Clone, Copy, Drop)]
pub struct Arcs<'a> {
    first: Option<u8>,
    second: Option<u8>,
    later: &'a [u8],
    ghost whole_arcs: { is_ok (read_arcs Bound 0 later.now) ≡ true },
}

impl<'a> Arcs<'a> {
    ghost use Rattle.const_oid.specs.References.{remaining_arcs};

    /// Returns an iterator over the arcs of an encoding, which the caller has checked.
    #[inline]
    pub(crate) fn of(octets: &'a [u8]) -> Self
        requires { is_ok (read_identifier Bound (length octets.now) octets.now) ≡ true }
        ensures { remaining_arcs result ≡ arcs_of octets.now }
    {
        let Some((root, later)) = octets.split_first() else {
            return Arcs {
                first: None,
                second: None,
                later: octets,
            };
        };
        Arcs {
            first: Some(*root / 40),
            second: Some(*root % 40),
            later,
        }
    }
}

impl<'a> Iterator for Arcs<'a> {
    ghost use Rattle.std.specs.Iterator.{YieldsFirst, item_count};
    ghost use Rattle.const_oid.specs.References.{remaining_arcs};

    type Item = Arc;

    ghost next_gives = { YieldsFirst remaining_arcs };

    ghost remaining = { item_count remaining_arcs };

    fn next(&mut self) -> Option<Arc> {
        if let Some(first) = self.first {
            self.first = None;
            return Some(Arc::from(first));
        }
        if let Some(second) = self.second {
            self.second = None;
            return Some(Arc::from(second));
        }
        let Some((arc, later)) = first_arc(self.later) else {
            return None;
        };
        self.later = later;
        Some(arc)
    }
}

/// Returns the first arc of bytes that are whole arcs, and the bytes after it.
fn first_arc(octets: &[u8]) -> Option<(Arc, &[u8])>
    requires { is_ok (read_arcs Bound 0 octets.now) ≡ true }
    ensures { MatchOption result (octets.now ≡ [])
        (λ p. (later_arcs 0 octets.now ≡ p.0 ∷ later_arcs 0 p.1.now)
        × (is_ok (read_arcs Bound 0 p.1.now) ≡ true)) }
{
    let mut value: Arc = 0;
    for (i, octet) in octets.iter().enumerate() {
        value = value * 128 + Arc::from(*octet % 128);
        if *octet < 0x80 {
            return Some((value, octets.split_at(i + 1).1));
        }
    }
    None
}

/// Returns the number of bytes with a clear high bit, which is the number of arcs that end in them.
fn unmarked(octets: &[u8]) -> usize
    ensures value { result ≡ count_by (λ o. nat_lt o 128) octets.now }
    ensures bound { result ≤ length octets.now }
{
    octets.iter().filter(|octet| **octet < 0x80).count()
}

/// Returns the number of arcs of an encoding. Each byte with a clear high bit ends an arc, and the
/// first byte has one arc more.
pub(crate) fn count(octets: &[u8]) -> usize
    requires { is_ok (read_identifier Bound (length octets.now) octets.now) ≡ true }
    ensures { result ≡ length (arcs_of octets.now) }
{
    unmarked(octets) + 1
}

/// Returns the arc at an index of an encoding, or `None` if there are fewer arcs.
pub(crate) fn arc_at(octets: &[u8], index: usize) -> Option<Arc>
    requires { is_ok (read_identifier Bound (length octets.now) octets.now) ≡ true }
    ensures { result ≡ slice_get (arcs_of octets.now) index }
{
    let mut arcs = Arcs::of(octets);
    for _before in 0..index {
        let Some(_) = arcs.next() else {
            return None;
        };
    }
    arcs.next()
}

/// Returns the position of the last arc, or 0 if there are only two arcs, and the number of bytes
/// whose high bit was tested.
pub(crate) fn last_start(octets: &[u8]) -> (usize, u32)
    requires { SpellsIdentifier Bound (length octets.now) octets.now }
    ensures start { result.0 ≡ place_of_last (arcs_of octets.now) }
    ensures tests { result.1 ≤ length (digits 128 (Bound - 1)) }
{
    let mut start = octets.len() - 1;
    let mut tests = 0;
    while start > 0 {
        tests += 1;
        if octets[start - 1] < 0x80 {
            return (start, tests);
        }
        start -= 1;
    }
    (start, tests)
}
