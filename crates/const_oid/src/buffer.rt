//! A list of at most `SIZE` bytes, stored inline.

ghost use Rattle.std.specs.Prelude.{◌≡◌, ℕ, ◌+◌, ◌<◌, ◌≤◌, ◌==◌, List, [], ◌∷◌, ◌++◌, length, take};
ghost use Rattle.std.specs.Prelude.{nat_eq, refl, Some, MatchResult};
ghost use Rattle.const_oid.specs.Orders.{sized_cmp, sized_cmp_total, sized_cmp_ties};
ghost use Rattle.std.specs.Cmp.{po, partial_equiv_from_equiv};
ghost use Rattle.std.specs.Cmp.Lexicographic.{pointwise, nat_list_eq_equiv};
ghost use Rattle.std.specs.Cmp.Rules.{hashing};
ghost use Rattle.std.specs.Hash as fed;
ghost use Rattle.std.proofs.Common.{rules};

use std::cmp::Ordering;
use std::convert::AsSlice;
use std::fmt;
use std::hash::{Hash, Hasher};
use std::marker::Model;

/// A list of at most `SIZE` bytes, stored inline, so it needs no allocator.
///
/// In contracts, its value is the list. The array is zero after the end of the list.
#[derive(Clone, Copy)]
pub struct Buffer<const SIZE: usize> {
    bytes: [u8; SIZE],
    count: usize,
}

impl<const SIZE: usize> Model for Buffer<SIZE> {
    ghost use Rattle.std.specs.Prelude.{◌≡◌, ℕ, ◌-◌, ◌≤◌, ◌++◌, List, length, take, drop};
    ghost use Rattle.std.specs.Prelude.{replicate};
    ghost use Rattle.const_oid.specs.Buffers.{padded, length_front};

    ghost Value = { List ℕ };

    ghost view = { λ b. take b.count b.bytes };

    ghost invariant = { λ b. (b.count ≤ SIZE) × (length b.bytes ≡ SIZE)
        × (drop b.count b.bytes ≡ replicate (SIZE - b.count) 0) };

    ghost inverse = { λ octets. record {
      bytes = octets ++ replicate (SIZE - length octets) 0;
      count = length octets;
    } };

    ghost inverse_ok = { λ b h i. record {
      bytes = padded SIZE b.count b.bytes h.0 h.1 h.2 i;
      count = length_front SIZE b.count b.bytes h.0 h.1 i;
    } };
}

impl<const SIZE: usize> Buffer<SIZE> {
    /// Returns the empty list.
    #[inline]
    pub fn new() -> Self
        ensures { result ≡ [] }
    {
        Buffer {
            bytes: [0; SIZE],
            count: 0,
        }
    }

    /// Returns a copy of `octets`. The caller proves that there are at most `SIZE` bytes.
    #[inline]
    pub fn from_slice(octets: &[u8]) -> Self
        requires { length octets.now ≤ SIZE }
        ensures { result ≡ octets.now }
    {
        let mut bytes = [0; SIZE];
        bytes[..octets.len()].copy_from_slice(octets);
        Buffer {
            bytes,
            count: octets.len(),
        }
    }

    /// Returns the bytes.
    #[inline]
    pub fn as_bytes(&self) -> &[u8]
        ensures octets { result.now ≡ self.now }
        ensures fits { length self.now ≤ SIZE }
    {
        &self.bytes[..self.count]
    }

    /// Returns the number of bytes.
    #[inline]
    pub fn len(&self) -> usize
        ensures { result ≡ length self.now }
    {
        self.count
    }

    /// Returns whether the list is empty.
    #[inline]
    pub fn is_empty(&self) -> bool
        ensures { result ≡ (length self.now == 0) }
    {
        self.count == 0
    }
}

impl<const SIZE: usize> AsSlice<u8> for Buffer<SIZE> {
    ghost items = { λ b. b };

    fn as_slice(&self) -> &[u8] {
        self.as_bytes()
    }
}

impl<const SIZE: usize> PartialEq for Buffer<SIZE> {
    ghost eq = { pointwise nat_eq };

    ghost laws = { partial_equiv_from_equiv nat_list_eq_equiv };

    fn eq(&self, other: &Self) -> bool {
        self.as_bytes() == other.as_bytes()
    }
}

impl<const SIZE: usize> Eq for Buffer<SIZE> {
    ghost laws = { nat_list_eq_equiv };
}

/// Compares the lengths, then the bytes.
impl<const SIZE: usize> PartialOrd for Buffer<SIZE> {
    ghost partial_cmp = { λ a b. Some (sized_cmp a b) };

    ghost laws = { po sized_cmp_total sized_cmp_ties };

    fn partial_cmp(&self, other: &Self) -> Option<Ordering> {
        Some(self.cmp(other))
    }
}

/// Compares the lengths, then the bytes.
impl<const SIZE: usize> Ord for Buffer<SIZE> {
    ghost cmp = { sized_cmp };

    ghost total = { sized_cmp_total };

    ghost matches_partial_cmp = { λ a b. refl };

    ghost matches_eq = { sized_cmp_ties };

    fn cmp(&self, other: &Self) -> Ordering {
        let (mine, others) = (self.as_bytes(), other.as_bytes());
        match mine.len().cmp(&others.len()) {
            Ordering::Equal => mine.cmp(&others),
            by_length => by_length,
        }
    }
}

impl<const SIZE: usize> Hash for Buffer<SIZE> {
    ghost hash_input = { fed.slice fed.u8 };

    ghost respects_eq = { Prim.search (hashing, rules) };

    fn hash<H: Hasher>(&self, state: &mut H) {
        self.as_bytes().hash(state);
    }
}

impl<const SIZE: usize> fmt::Debug for Buffer<SIZE> {
    fn fmt<W: fmt::Write>(&self, f: &mut fmt::Formatter<W>) -> fmt::Result {
        fmt::Debug::fmt(&self.as_bytes(), f)
    }
}
