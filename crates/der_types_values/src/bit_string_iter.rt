//! Iterating over the bits of a bit string.

ghost use Rattle.std.specs.Prelude.{◌≡◌, ◌<◌, ◌≤◌, ◌+◌, ◌*◌, ◌^◌, length};
ghost use Rattle.der_core.specs.Heads.{Fits};

use crate::bits::bit_of;
use std::iter::FusedIterator;

/// An iterator over the bits of a bit string. The most significant bit of each byte comes first.
#[derive(Clone, Copy, Debug)]
pub struct BitStringIter<'a> {
    bytes: &'a [u8],
    position: usize,
    left: usize,
    ghost inside: { position + left ≤ 8 * length bytes.now },
    ghost short: { Fits bytes.now },
}

impl<'a> BitStringIter<'a> {
    ghost use Rattle.der_types_values.specs.Bits.{bit_at};
    ghost use Rattle.std.specs.Prelude.{map};
    ghost use Rattle.std.specs.List.{range_with_len};
    ghost use Rattle.der_types_values.specs.BitStrings.{bits_left};

    /// Returns an iterator over the first `left` bits of the bytes.
    pub(crate) fn of(bytes: &'a [u8], left: usize) -> BitStringIter<'a>
        requires inside { left ≤ 8 * length bytes.now }
        requires short { Fits bytes.now }
        ensures { bits_left result ≡ map (bit_at bytes.now) (range_with_len 0 left) }
    {
        BitStringIter {
            bytes,
            position: 0,
            left,
        }
    }
}

impl<'a> Iterator for BitStringIter<'a> {
    ghost use Rattle.std.specs.Prelude.{length, IfSome};
    ghost use Rattle.std.specs.Iterator.{YieldsFirst, item_count, at_most, UpTo};
    ghost use Rattle.std.specs.Iterator.SizeHint.{IsExactHint, IsWithinCount};
    ghost use Rattle.der_types_values.specs.BitStrings.{bits_left};

    type Item = bool;

    ghost next_gives = { YieldsFirst bits_left };

    ghost remaining = { item_count bits_left };

    fn next(&mut self) -> Option<bool> {
        if self.left == 0 {
            return None;
        }
        let bit = bit_of(self.bytes, self.position);
        self.position += 1;
        self.left -= 1;
        Some(bit)
    }

    fn size_hint(&self) -> (usize, Option<usize>)
        ensures lower { IsWithinCount result.0 (at_most (length (bits_left self.now))) }
        ensures upper { IfSome result.1 (UpTo (at_most (length (bits_left self.now)))) }
        ensures exact { IsExactHint result (length (bits_left self.now)) }
    {
        let len = self.len();
        (len, Some(len))
    }
}

impl<'a> ExactSizeIterator for BitStringIter<'a> {
    /// Returns the number of remaining bits.
    #[tactic(auto, using(crate::proofs::NamedSteps::runs))]
    fn len(&self) -> usize {
        self.left
    }
}

impl<'a> FusedIterator for BitStringIter<'a> {}
