//! BIT STRING, borrowed.

ghost use Rattle.std.specs.Prelude.{◌≡◌, ◌≢◌, ◌<◌, ◌≤◌, ◌↔◌, [], length, true, false, Some};
ghost use Rattle.std.specs.Prelude.{None, IsTrue, IsOk, IfOk, IfErr, IfSome, IfNone, MatchResult};
ghost use Rattle.der_core.specs.Limits.{length_max};
ghost use Rattle.der_core.specs.Heads.{Fits};
ghost use Rattle.der_core.specs.TagTypes.Tag.TheVariants.{BitString as BitStringTag};
ghost use Rattle.der_core.specs.BitStrings.{Bits, are_bits};
ghost use Rattle.der_core.specs.Leaves.{bits, leaf_read};
ghost use Rattle.der_core.specs.Reading.{GivesNow};
ghost use Rattle.der_types_values.specs.Bits.{bit_at, bit_count, bit_list};

use crate::bit_string::BitString;
use crate::bit_string_iter::BitStringIter;
use crate::bits::{bit_of, check_bits, may_be_unused};
use der_core::describing::{AsLeaf, Described, EncodeLeaf, Primitive};
use der_core::making::{encode_behind, len_behind};
use der_core::{Error, ErrorKind, FixedTag, Leaf, Length, Tag, Writer};
use std::alloc::{AllocError, Global};

/// A borrowed BIT STRING (X.690 8.6, 11.2): fewer than 2^32 bytes. Up to seven bits of the last one
/// are unused, and these are zero.
#[derive(Clone, Copy, Debug, PartialEq, Eq, PartialOrd, Ord, Hash)]
pub struct BitStringRef<'a> {
    unused_bits: u8,
    bytes: &'a [u8],
    ghost unused: { are_bits unused_bits bytes.now ≡ true },
    ghost short: { Fits bytes.now },
}

impl<'a> BitStringRef<'a> {
    ghost use Rattle.der_types_values.specs.BitStrings.{bits_lent, bits_left};

    /// The greatest number of unused bits.
    pub const MAX_UNUSED_BITS: u8 = 7;

    /// Returns the bit string of these bytes, without the unused bits at the end.
    ///
    /// # Errors
    ///
    /// - `Value`: more than seven bits are unused, or some are although there are no bytes, or an
    ///   unused bit isn't zero.
    /// - `Overflow`: there are 2^32 bytes or more.
    pub fn new(unused_bits: u8, bytes: &'a [u8]) -> Result<BitStringRef<'a>, Error>
        ensures bits { IsOk result ↔ ((are_bits unused_bits bytes.now ≡ true) × (Fits bytes.now)) }
        ensures ok { IfOk result
            (λ b. bits_lent b ≡ record { unused = unused_bits; octets = bytes.now }) }
        ensures value { are_bits unused_bits bytes.now ≡ false
            → IfErr result (λ e. e.kind ≡ ErrorKind.Value Tag.BitString) }
        ensures long { are_bits unused_bits bytes.now ≡ true
            → IfErr result (λ e. e.kind ≡ ErrorKind.Overflow) }
    {
        check_bits(unused_bits, bytes)?;
        Ok(BitStringRef { unused_bits, bytes })
    }

    /// Returns the bit string of all bits of these bytes.
    ///
    /// # Errors
    ///
    /// - `Overflow`: there are 2^32 bytes or more.
    #[tactic(auto, using(crate::proofs::NamedSteps::all_bits))]
    pub fn from_bytes(bytes: &'a [u8]) -> Result<BitStringRef<'a>, Error>
        ensures ok { IfOk result
            (λ b. Fits bytes.now × (bits_lent b ≡ record { unused = 0; octets = bytes.now })) }
        ensures err { IfErr result (λ e. (length_max < length bytes.now)
            × (e.kind ≡ ErrorKind.Overflow)) }
    {
        if bytes.len() > Length::MAX.value as usize {
            return Err(Error::from(ErrorKind::Overflow));
        }
        Ok(BitStringRef {
            unused_bits: 0,
            bytes,
        })
    }

    /// Returns the number of unused bits, from 0 to 7.
    pub fn unused_bits(&self) -> u8
        ensures { result ≡ (bits_lent self.now).unused }
    {
        self.unused_bits
    }

    /// Returns whether any bit is unused.
    pub fn has_unused_bits(&self) -> bool
        ensures { IsTrue result ↔ ((bits_lent self.now).unused ≢ 0) }
    {
        self.unused_bits != 0
    }

    /// Returns the number of bits, without the unused ones.
    #[tactic(auto, using(crate::proofs::NamedSteps::few_unused))]
    pub fn bit_len(&self) -> usize
        ensures { result ≡ bit_count (bits_lent self.now) }
    {
        8 * self.bytes.len() - usize::from(self.unused_bits)
    }

    /// Returns the number of bytes.
    pub fn byte_len(&self) -> Length
        ensures { result.value ≡ length (bits_lent self.now).octets }
    {
        Length::new(self.bytes.len() as u32)
    }

    /// Returns whether there are no bits.
    pub fn is_empty(&self) -> bool
        ensures { IsTrue result ↔ ((bits_lent self.now).octets ≡ []) }
    {
        self.bytes.is_empty()
    }

    /// Returns the bytes, or `None` if any bit is unused.
    pub fn as_bytes(&self) -> Option<&'a [u8]>
        ensures some { IfSome result (λ w. ((bits_lent self.now).unused ≡ 0)
            × (w.now ≡ (bits_lent self.now).octets)) }
        ensures none { IfNone result ((bits_lent self.now).unused ≢ 0) }
    {
        if self.has_unused_bits() {
            None
        } else {
            Some(self.bytes)
        }
    }

    /// Returns the bytes, whose unused bits are zero.
    pub fn raw_bytes(&self) -> &'a [u8]
        ensures octets { result.now ≡ (bits_lent self.now).octets }
        ensures bits { are_bits (bits_lent self.now).unused result.now ≡ true }
        ensures short { Fits result.now }
    {
        self.bytes
    }

    /// Returns an iterator over the bits, in order.
    pub fn bits(&self) -> BitStringIter<'a>
        ensures { bits_left result ≡ bit_list (bits_lent self.now) }
    {
        BitStringIter::of(self.bytes, self.bit_len())
    }

    /// Returns the bit at an index, or `None` if there are fewer bits.
    pub fn get(&self, index: usize) -> Option<bool>
        ensures inside { index < bit_count (bits_lent self.now)
            → result ≡ Some (bit_at (bits_lent self.now).octets index) }
        ensures outside { bit_count (bits_lent self.now) ≤ index → result ≡ None }
    {
        if index < self.bit_len() {
            Some(bit_of(self.bytes, index))
        } else {
            None
        }
    }

    /// Returns an owned copy of the bit string.
    ///
    /// # Errors
    ///
    /// - `AllocError`: memory runs out.
    pub fn ref_to_owned(&self, alloc: Global) -> Result<BitString, AllocError>
        ensures { IfOk result (λ b. b ≡ bits_lent self.now) }
    {
        BitString::copy_of(alloc, self)
    }

    /// Decodes the content of a bit string, after its tag.
    ///
    /// # Errors
    ///
    /// - `Length`: there are no bytes.
    /// - `Value`: the unused bits are invalid.
    #[tactic(auto, unfolding(crate::specs::Opened::bits_read))]
    pub fn of_content(tag: Tag, octets: &'a [u8]) -> Result<BitStringRef<'a>, Error>
        requires { Fits octets.now }
        ensures { GivesNow bits_lent result (leaf_read bits tag octets.now) }
    {
        let [unused_bits, bytes @ ..] = octets else {
            return Err(Error::from(ErrorKind::Length { tag }));
        };
        let unused_bits = *unused_bits;
        if !may_be_unused(unused_bits, bytes) {
            return Err(Error::from(ErrorKind::Value { tag }));
        }
        Ok(BitStringRef { unused_bits, bytes })
    }

    /// Wraps bytes whose unused bits are known to be zero.
    pub(crate) fn trusted(unused_bits: u8, bytes: &'a [u8]) -> BitStringRef<'a>
        requires unused { are_bits unused_bits bytes.now ≡ true }
        requires short { Fits bytes.now }
        ensures { bits_lent result ≡ record { unused = unused_bits; octets = bytes.now } }
    {
        BitStringRef { unused_bits, bytes }
    }
}

/// Wraps all bits of a slice of fewer than 2^32 bytes.
impl<'a> TryFrom<&'a [u8]> for BitStringRef<'a> {
    ghost use Rattle.std.specs.Prelude.{◌≡◌, ◌<◌, length, MatchResult};
    ghost use Rattle.der_core.specs.Limits.{length_max};
    ghost use Rattle.der_core.specs.ErrorTypes.ErrorKind.TheVariants as kinds;
    ghost use Rattle.der_types_values.specs.BitStrings.{bits_lent};

    type Error = Error;

    ghost try_from_gives = { λ bytes r. MatchResult r
        (λ b. bits_lent b ≡ record { unused = 0; octets = bytes.now })
        (λ e. (length_max < length bytes.now) × (e.kind ≡ kinds.Overflow)) };

    fn try_from(bytes: &'a [u8]) -> Result<BitStringRef<'a>, Error> {
        BitStringRef::from_bytes(bytes)
    }
}

impl<'a> FixedTag for BitStringRef<'a> {
    ghost fixed_tag = { BitStringTag };

    fn tag() -> Tag
        ensures { result ≡ BitStringTag }
    {
        Tag::BitString
    }
}

impl<'a> Described for BitStringRef<'a> {
    type By = AsLeaf;
}

impl<'a> Primitive for BitStringRef<'a> {
    ghost use Rattle.der_types_values.specs.BitStrings.{bits_lent};

    ghost kind = { bits };

    ghost leaf_plain = { bits_lent };
}

/// The content is the number of unused bits, followed by the bytes.
impl<'a> Leaf<'a> for BitStringRef<'a> {
    ghost takes_memory = { false };

    fn from_content(_alloc: Global, tag: Tag, octets: &'a [u8]) -> Result<BitStringRef<'a>, Error> {
        Ok(BitStringRef::of_content(tag, octets)?)
    }
}

impl<'a> EncodeLeaf for BitStringRef<'a> {
    fn leaf_len(&self) -> Result<Length, Error> {
        len_behind(self.byte_len())
    }

    #[tactic(auto, unfolding(crate::specs::Opened::contents))]
    fn encode_leaf<W: Writer>(&self, writer: &mut W) -> Result<(), Error> {
        encode_behind(writer, self.unused_bits, self.bytes)
    }
}

/// A type that can be borrowed as a bit string.
pub trait AsBitStringRef {
    /// Maps a value to its bit string.
    ghost as_bits: { Self → Bits };

    ghost use Rattle.der_types_values.specs.BitStrings.{bits_lent};

    /// Returns the borrowed bit string.
    fn as_bit_string_ref(&self) -> BitStringRef<'_>
        ensures { bits_lent result ≡ as_bits self.now };
}

impl<'a> AsBitStringRef for BitStringRef<'a> {
    ghost use Rattle.der_types_values.specs.BitStrings.{bits_lent};

    ghost as_bits = { bits_lent };

    fn as_bit_string_ref(&self) -> BitStringRef<'_> {
        *self
    }
}
