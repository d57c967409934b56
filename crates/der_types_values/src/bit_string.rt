//! BIT STRING.

ghost use Rattle.std.specs.Prelude.{◌≡◌, ◌≢◌, ◌<◌, ◌≤◌, ◌↔◌, [], vec_len, true, false, Some, None};
ghost use Rattle.std.specs.Prelude.{IsTrue, IsOk, IfOk, IfErr, IfSome, IfNone};
ghost use Rattle.der_core.specs.Limits.{IsLength, length_max};
ghost use Rattle.der_core.specs.BitStrings.{are_bits};
ghost use Rattle.der_core.specs.TagTypes.Tag.TheVariants.{BitString as BitStringTag};
ghost use Rattle.der_core.specs.Leaves.{bits};
ghost use Rattle.der_types_values.specs.Bits.{bit_at, bit_count, bit_list};
ghost use Rattle.der_types_values.specs.BitStrings.{bits_lent, bits_left};

use crate::bit_string_iter::BitStringIter;
use crate::bit_string_ref::{AsBitStringRef, BitStringRef};
use crate::bits::check_bits;
use der_core::describing::{AsLeaf, Described, EncodeLeaf, Primitive};
use der_core::{BytesOwned, EncodeValue, Error, ErrorKind, FixedTag, Leaf, Length, Tag, Writer};
use std::alloc::{AllocError, Global};
use std::marker::Model;

/// BIT STRING (X.690 8.6, 11.2): fewer than 2^32 bytes. Up to seven bits of the last one are
/// unused, and these are zero.
///
/// In contracts, its value is the number of unused bits and the bytes.
#[derive(Debug, Drop, PartialEq, Eq, PartialOrd, Ord, Hash)]
pub struct BitString {
    unused_bits: u8,
    bytes: BytesOwned,
}

impl Model for BitString {
    ghost use Rattle.der_core.specs.BitStrings.{Bits};

    ghost Value = { Bits };

    ghost use Rattle.der_types_values.specs.BitStrings.{bits_kept, IsBitString};

    ghost view = { bits_kept };

    ghost inverse = { λ b. record { unused_bits = b.unused; bytes = b.octets } };

    ghost invariant = { IsBitString };
}

impl BitString {
    /// The greatest number of unused bits.
    pub const MAX_UNUSED_BITS: u8 = BitStringRef::MAX_UNUSED_BITS;

    /// Returns the bit string of these bytes, without the unused bits at the end.
    ///
    /// # Errors
    ///
    /// - `Value`: more than seven bits are unused, or some are although there are no bytes, or an
    ///   unused bit isn't zero.
    /// - `Overflow`: there are 2^32 bytes or more.
    pub fn new(unused_bits: u8, bytes: Vec<u8>) -> Result<BitString, Error>
        ensures bits { IsOk result
            ↔ ((are_bits unused_bits bytes.items ≡ true) × IsLength (vec_len bytes)) }
        ensures ok { IfOk result (λ b. b ≡ record { unused = unused_bits; octets = bytes.items }) }
        ensures value { are_bits unused_bits bytes.items ≡ false
            → IfErr result (λ e. e.kind ≡ ErrorKind.Value Tag.BitString) }
        ensures long { are_bits unused_bits bytes.items ≡ true
            → IfErr result (λ e. e.kind ≡ ErrorKind.Overflow) }
    {
        check_bits(unused_bits, bytes.as_slice())?;
        let bytes = BytesOwned::new(bytes)?;
        Ok(BitString { unused_bits, bytes })
    }

    /// Returns the bit string of all bits of these bytes.
    ///
    /// # Errors
    ///
    /// - `Overflow`: there are 2^32 bytes or more.
    #[tactic(auto, using(crate::proofs::NamedSteps::all_bits))]
    pub fn from_bytes(bytes: Vec<u8>) -> Result<BitString, Error>
        ensures ok { IfOk result (λ b. IsLength (vec_len bytes)
            × (b ≡ record { unused = 0; octets = bytes.items })) }
        ensures err { IfErr result (λ e. (length_max < vec_len bytes)
            × (e.kind ≡ ErrorKind.Overflow)) }
    {
        let bytes = BytesOwned::new(bytes)?;
        Ok(BitString {
            unused_bits: 0,
            bytes,
        })
    }

    /// Returns an owned copy of a borrowed bit string.
    pub(crate) fn copy_of(alloc: Global, lent: &BitStringRef<'_>) -> Result<BitString, AllocError>
        ensures { IfOk result (λ b. b ≡ bits_lent lent.now) }
    {
        let bytes = BytesOwned::copy_of(alloc, lent.raw_bytes())?;
        Ok(BitString {
            unused_bits: lent.unused_bits(),
            bytes,
        })
    }

    /// Returns a copy.
    ///
    /// # Errors
    ///
    /// - `AllocError`: memory runs out.
    pub fn clone(&self, alloc: Global) -> Result<BitString, AllocError>
        ensures { IfOk result (λ b. b ≡ self.now) }
    {
        BitString::copy_of(alloc, &self.owned_to_ref())
    }

    /// Returns the number of unused bits, from 0 to 7.
    pub fn unused_bits(&self) -> u8
        ensures { result ≡ self.now.unused }
    {
        self.unused_bits
    }

    /// Returns whether any bit is unused.
    pub fn has_unused_bits(&self) -> bool
        ensures { IsTrue result ↔ (self.now.unused ≢ 0) }
    {
        self.owned_to_ref().has_unused_bits()
    }

    /// Returns the number of bits, without the unused ones.
    pub fn bit_len(&self) -> usize
        ensures { result ≡ bit_count self.now }
    {
        self.owned_to_ref().bit_len()
    }

    /// Returns whether there are no bits.
    pub fn is_empty(&self) -> bool
        ensures { IsTrue result ↔ (self.now.octets ≡ []) }
    {
        self.bytes.is_empty()
    }

    /// Returns the bytes, or `None` if any bit is unused.
    pub fn as_bytes(&self) -> Option<&[u8]>
        ensures some { IfSome result (λ w. (self.now.unused ≡ 0) × (w.now ≡ self.now.octets)) }
        ensures none { IfNone result (self.now.unused ≢ 0) }
    {
        self.owned_to_ref().as_bytes()
    }

    /// Returns the bytes, whose unused bits are zero.
    pub fn raw_bytes(&self) -> &[u8]
        ensures { result.now ≡ self.now.octets }
    {
        self.bytes.as_slice()
    }

    /// Returns an iterator over the bits, in order.
    pub fn bits(&self) -> BitStringIter<'_>
        ensures { bits_left result ≡ bit_list self.now }
    {
        self.owned_to_ref().bits()
    }

    /// Returns the bit at an index, or `None` if there are fewer bits.
    pub fn get(&self, index: usize) -> Option<bool>
        ensures inside { index < bit_count self.now → result ≡ Some (bit_at self.now.octets index) }
        ensures outside { bit_count self.now ≤ index → result ≡ None }
    {
        self.owned_to_ref().get(index)
    }

    /// Returns the borrowed form of the bit string.
    pub fn owned_to_ref(&self) -> BitStringRef<'_>
        ensures { bits_lent result ≡ self.now }
    {
        BitStringRef::trusted(self.unused_bits, self.bytes.as_slice())
    }
}

/// Copies the value with its own allocator.
impl Clone for BitString {
    ghost is_clone = { λ x y. y ≡ x };

    fn clone(&self) -> Result<BitString, AllocError> {
        let bytes = Clone::clone(&self.bytes)?;
        Ok(BitString {
            unused_bits: self.unused_bits,
            bytes,
        })
    }
}

impl FixedTag for BitString {
    ghost fixed_tag = { BitStringTag };

    fn tag() -> Tag {
        Tag::BitString
    }
}

impl Described for BitString {
    type By = AsLeaf;
}

impl Primitive for BitString {
    ghost kind = { bits };

    ghost leaf_plain = { λ x. x };
}

/// The content is the number of unused bits, followed by the bytes.
impl<'a> Leaf<'a> for BitString {
    fn from_content(alloc: Global, tag: Tag, octets: &'a [u8]) -> Result<BitString, Error> {
        let lent = BitStringRef::from_content(alloc, tag, octets)?;
        Ok(BitString::copy_of(alloc, &lent)?)
    }
}

impl EncodeLeaf for BitString {
    fn leaf_len(&self) -> Result<Length, Error> {
        self.owned_to_ref().value_len()
    }

    fn encode_leaf<W: Writer>(&self, writer: &mut W) -> Result<(), Error> {
        self.owned_to_ref().encode_value(writer)
    }
}

impl AsBitStringRef for BitString {
    ghost as_bits = { λ b. b };

    fn as_bit_string_ref(&self) -> BitStringRef<'_> {
        self.owned_to_ref()
    }
}
