//! The encoding of an object identifier, stored inline, with its length in one byte.

ghost use Rattle.std.specs.Prelude.{◌≡◌, ◌+◌, ◌<◌, ◌≤◌, ◌++◌, length, min, take, MatchResult};
ghost use Rattle.std.specs.Prelude.{nat_eq};
ghost use Rattle.std.specs.Cmp.{partial_equiv_from_equiv};
ghost use Rattle.std.specs.Cmp.Lexicographic.{pointwise, nat_list_eq_equiv};
ghost use Rattle.const_oid.specs.IdentifierOctets.{arc_octets};
ghost use Rattle.const_oid.specs.declared.error.Error.TheVariants as errors;
ghost use Rattle.const_oid.specs.PackedOctets.{unmarked_front};

use crate::arc_octets::{octet_count, write_arc};
use crate::error::{Arc, Error, Result};
use std::marker::Model;

/// A list of at most `SIZE` bytes whose last byte has its high bit clear, stored inline.
///
/// In contracts, its value is the list. After its end, each byte of the array is `0x80`.
#[derive(Clone, Copy)]
pub(crate) struct Packed<const SIZE: usize> {
    bytes: [u8; SIZE],
    // The number of bytes, or 255 for 255 and more.
    count: u8,
    // Empty. It aligns the bytes to words, so that they are moved word by word.
    words: [u64; 0],
}

impl<const SIZE: usize> Model for Packed<SIZE> {
    ghost use Rattle.std.specs.Prelude.{◌≡◌, ℕ, ◌-◌, ◌++◌, List, [], length, min, replicate};
    ghost use Rattle.std.proofs.Common.{sym};
    ghost use Rattle.const_oid.specs.PackedOctets.{unmarked_front, IsPacked};

    ghost Value = { List ℕ };

    ghost view = { λ p. unmarked_front p.bytes };

    ghost invariant = { λ p. IsPacked SIZE p.bytes p.count × (p.words ≡ []) };

    ghost inverse = { λ octets. record {
      bytes = octets ++ replicate (SIZE - length octets) 128;
      count = min 255 (length octets);
      words = [];
    } };

    ghost inverse_ok = { λ p h i. record {
      bytes = sym h.0.padded i;
      count = sym h.0.counted i;
      words = sym h.1 i;
    } };
}

impl<const SIZE: usize> Packed<SIZE> {
    /// Returns a copy of `octets`. The caller proves that they fit. It isn't inlined, so that the
    /// copy is made where the caller needs it.
    #[inline(never)]
    pub(crate) fn from_slice(octets: &[u8]) -> Self
        requires fits { length octets.now ≤ SIZE }
        requires whole { unmarked_front octets.now ≡ octets.now }
        ensures { result ≡ octets.now }
    {
        // Most identifiers of attributes and extensions have three bytes, and need no call here.
        if let [first, second, third] = octets {
            let mut bytes = [0x80; SIZE];
            bytes[0] = *first;
            bytes[1] = *second;
            bytes[2] = *third;
            return Packed {
                bytes,
                count: 3,
                words: [],
            };
        }
        let mut bytes = [0x80; SIZE];
        bytes[..octets.len()].copy_from_slice(octets);
        let count = counted(octets.len());
        Packed {
            bytes,
            count,
            words: [],
        }
    }

    /// Returns the bytes.
    #[inline]
    pub(crate) fn as_bytes(&self) -> &[u8]
        ensures octets { result.now ≡ self.now }
        ensures fits { length self.now ≤ SIZE }
    {
        // Below this capacity the count is always the number of bytes, so no search is compiled in.
        let count = if SIZE < 255 || self.count < 255 {
            self.count as usize
        } else {
            front_len(&self.bytes)
        };
        &self.bytes[..count]
    }

    /// Returns the first `len` bytes, without reading them.
    #[inline]
    pub(crate) fn front(&self, len: usize) -> &[u8]
        requires { len ≤ length self.now }
        ensures octets { result.now ≡ take len self.now }
        ensures fits { length self.now ≤ SIZE }
    {
        &self.bytes[..len]
    }

    /// Appends the encoding of an arc, and returns the index at which it begins.
    ///
    /// # Errors
    ///
    /// - `Length`: there isn't enough capacity.
    pub(crate) fn push_arc(&mut self, arc: Arc) -> Result<usize>
        ensures { MatchResult result
            (λ start. (start ≡ length self.old) × (self.new ≡ self.old ++ arc_octets arc)
            × (length self.old + length (arc_octets arc) ≤ SIZE))
            (λ e. (e ≡ errors.Length) × (SIZE < length self.old + length (arc_octets arc))
            × (self.new ≡ self.old)) }
    {
        let start = self.as_bytes().len();
        let count = octet_count(arc);
        if count > SIZE - start {
            return Err(Error::Length);
        }
        let end = start + count;
        write_arc(&mut self.bytes, end, arc);
        self.count = counted(end);
        Ok(start)
    }
}

/// Compares the bytes. For most identifiers, the length and the first eight bytes decide.
impl<const SIZE: usize> PartialEq for Packed<SIZE> {
    ghost eq = { pointwise nat_eq };

    ghost laws = { partial_equiv_from_equiv nat_list_eq_equiv };

    #[inline]
    fn eq(&self, other: &Self) -> bool {
        if self.count != other.count {
            return false;
        }
        let fronts = (
            self.bytes.first_chunk::<8>(),
            other.bytes.first_chunk::<8>(),
        );
        if let (Some(front), Some(other_front)) = fronts {
            if front != other_front {
                return false;
            }
            if self.count <= 8 {
                return true;
            }
        }
        self.as_bytes() == other.as_bytes()
    }
}

/// Returns the number of bytes, or 255 for 255 and more.
fn counted(len: usize) -> u8
    ensures { result ≡ min 255 len }
{
    if len < 255 { len as u8 } else { 255 }
}

/// Returns the number of bytes up to the last one whose high bit is clear.
fn front_len(bytes: &[u8]) -> usize
    ensures { result ≡ length (unmarked_front bytes.now) }
{
    let mut end = bytes.len();
    while end > 0 && bytes[end - 1] >= 0x80 {
        end -= 1;
    }
    end
}
