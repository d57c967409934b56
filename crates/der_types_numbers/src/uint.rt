//! INTEGER of any size that isn't negative.

ghost use Rattle.std.specs.Prelude.{◌≡◌, ◌<◌, ◌^◌, pos, false, length, nat_eq, Some, IfOk};
ghost use Rattle.std.proofs.Common.{refl, ap};
ghost use Rattle.std.specs.Cmp.{po, partial_equiv_from_equiv, on_equiv, on_per, nat_cmp_total};
ghost use Rattle.std.specs.Cmp.Lexicographic.{pointwise, bytes_decides, nat_list_eq_equiv};
ghost use Rattle.std.specs.Hash as fed;
ghost use Rattle.std.specs.Ordering.{nat_cmp};
ghost use Rattle.der_core.specs.Oid.Digits.{digits};
ghost use Rattle.der_core.specs.Heads.{Fits};
ghost use Rattle.der_core.specs.Integers.{natural, integer_octets};
ghost use Rattle.der_core.specs.TagTypes.Tag.TheVariants.{Integer};
ghost use Rattle.der_core.specs.Leaves.{integer};
ghost use Rattle.der_core.specs.Reading.{Gives};
ghost use Rattle.der_types_numbers.specs.Ints.{natural_lent};
ghost use Rattle.der_types_numbers.specs.NumberOrders.{digits_ties};
ghost use Rattle.der_types_numbers.specs.Numbers.{unsigned_number};

use crate::fewest::{content_of, fewest_unsigned, sized_cmp};
use crate::uint_ref::{AsUintRef, UintRef};
use der_core::describing::{AsOctets, Described, Octets, Ordered, Primitive};
use der_core::{Error, FixedTag, Leaf, Length, Tag};
use std::alloc::{AllocError, Global};
use std::cmp::Ordering;
use std::hash::{Hash, Hasher};
use std::marker::Model;

/// INTEGER of any size that isn't negative (X.690 8.3), as two's complement in the fewest bytes,
/// fewer than 2^32.
///
/// In contracts, its value is the number.
#[derive(Debug, Drop)]
pub struct Uint {
    bytes: Vec<u8>,
}

impl Model for Uint {
    ghost use Rattle.std.specs.Prelude.{ℕ};

    ghost Value = { ℕ };

    ghost use Rattle.der_types_numbers.specs.Ints.{natural_kept, IsUint};

    ghost view = { natural_kept };

    ghost invariant = { IsUint };
}

impl Uint {
    /// Returns the number with these digits in base 256, the most significant first. Leading zeros
    /// are dropped.
    ///
    /// # Errors
    ///
    /// - `Length`: there are no bytes.
    /// - `Overflow`: the content would have 2^32 bytes or more.
    /// - `OutOfMemory`: memory runs out.
    pub fn new(alloc: Global, bytes: &[u8]) -> Result<Uint, Error>
        ensures { Gives (λ n. n) result (unsigned_number bytes.now) }
    {
        let lent = UintRef::new(bytes)?;
        Ok(Uint::copy_of(alloc, &lent)?)
    }

    /// Returns an owned copy of a borrowed number.
    #[tactic(auto, using(crate::proofs::Naturals::contents))]
    pub(crate) fn copy_of(alloc: Global, lent: &UintRef<'_>) -> Result<Uint, AllocError>
        ensures { IfOk result (λ n. n ≡ natural_lent lent.now) }
    {
        let bytes = content_of(alloc, lent.as_bytes())?;
        Ok(Uint { bytes })
    }

    /// Returns a copy.
    ///
    /// # Errors
    ///
    /// - `AllocError`: memory runs out.
    pub fn clone(&self, alloc: Global) -> Result<Uint, AllocError>
        ensures { IfOk result (λ n. n ≡ self.now) }
    {
        Uint::copy_of(alloc, &self.owned_to_ref())
    }

    /// Returns the digits in base 256, the most significant first, without leading zeros.
    pub fn as_bytes(&self) -> &[u8]
        ensures { result.now ≡ digits 256 self.now }
    {
        self.owned_to_ref().as_bytes()
    }

    /// Returns the number of these digits.
    pub fn len(&self) -> Length
        ensures { result.value ≡ length (digits 256 self.now) }
    {
        self.owned_to_ref().len()
    }

    /// Returns whether there are no digits, which is never the case.
    pub fn is_empty(&self) -> bool
        ensures { result ≡ false }
    {
        self.bytes.is_empty()
    }

    /// Returns the borrowed form of the number.
    pub fn owned_to_ref(&self) -> UintRef<'_>
        ensures { natural_lent result ≡ self.now }
    {
        UintRef::trusted(fewest_unsigned(self.bytes.as_slice()))
    }

    /// Returns the content bytes, and consumes the value.
    pub(crate) fn into_content(self) -> Vec<u8>
        ensures octets { result.items ≡ integer_octets (pos self) }
        ensures short { Fits result.items }
    {
        let Uint { bytes } = self;
        bytes
    }
}

impl AsUintRef for Uint {
    ghost as_natural = { λ n. n };

    fn as_uint_ref(&self) -> UintRef<'_> {
        self.owned_to_ref()
    }
}

/// Copies the value with its own allocator.
impl Clone for Uint {
    ghost is_clone = { λ x y. y ≡ x };

    fn clone(&self) -> Result<Uint, AllocError> {
        Uint::copy_of(*self.bytes.allocator(), &self.owned_to_ref())
    }
}

/// Compares the numbers.
impl PartialEq for Uint {
    ghost eq = { λ a b. pointwise nat_eq (digits 256 a) (digits 256 b) };

    ghost laws = { on_per (digits 256) (partial_equiv_from_equiv nat_list_eq_equiv) };

    fn eq(&self, other: &Self) -> bool {
        self.as_bytes() == other.as_bytes()
    }
}

impl Eq for Uint {
    ghost laws = { on_equiv (digits 256) nat_list_eq_equiv };
}

/// Compares the numbers.
impl PartialOrd for Uint {
    ghost partial_cmp = { λ a b. Some (nat_cmp a b) };

    ghost laws = { po nat_cmp_total digits_ties };

    fn partial_cmp(&self, other: &Self) -> Option<Ordering> {
        Some(self.cmp(other))
    }
}

impl Ord for Uint {
    ghost cmp = { nat_cmp };

    ghost total = { nat_cmp_total };

    ghost matches_partial_cmp = { λ a b. refl };

    ghost matches_eq = { digits_ties };

    #[tactic(auto, using(crate::specs::NumberOrders::digits_cmp))]
    fn cmp(&self, other: &Self) -> Ordering {
        sized_cmp(self.as_bytes(), other.as_bytes())
    }
}

/// Hashes the digits in base 256.
impl Hash for Uint {
    ghost hash_input = { λ n. fed.slice fed.u8 (digits 256 n) };

    ghost respects_eq = { λ a b e. ap (fed.slice fed.u8)
        ((bytes_decides (digits 256 a) (digits 256 b)).0 e) };

    fn hash<H: Hasher>(&self, state: &mut H) {
        self.as_bytes().hash(state);
    }
}

impl FixedTag for Uint {
    ghost fixed_tag = { Integer };

    fn tag() -> Tag {
        Tag::Integer
    }
}

impl Described for Uint {
    type By = AsOctets;
}

impl Primitive for Uint {
    ghost kind = { integer natural };

    ghost leaf_plain = { λ n. pos n };
}

/// The content is two's complement in the fewest bytes, of a number that isn't negative.
impl<'a> Leaf<'a> for Uint {
    fn from_content(alloc: Global, tag: Tag, octets: &'a [u8]) -> Result<Uint, Error> {
        let lent = UintRef::from_content(alloc, tag, octets)?;
        Ok(Uint::copy_of(alloc, &lent)?)
    }
}

impl Octets for Uint {
    fn content(&self) -> &[u8] {
        self.bytes.as_slice()
    }
}

/// Compares the contents, which are the digits, after a zero if their first bit is one (X.690 8.3).
impl Ordered for Uint {}
