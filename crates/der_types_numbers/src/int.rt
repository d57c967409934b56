//! INTEGER of any size.

ghost use Rattle.std.specs.Prelude.{◌≡◌, ◌<◌, pos, false, length, vec_len, nat_eq, Some, IfOk};
ghost use Rattle.std.proofs.Common.{refl, ap};
ghost use Rattle.std.specs.Cmp.{po, partial_equiv_from_equiv, on_equiv, on_per};
ghost use Rattle.std.specs.Cmp.Lexicographic.{pointwise, bytes_decides, nat_list_eq_equiv};
ghost use Rattle.std.specs.Hash as fed;
ghost use Rattle.der_core.specs.Limits.{IsLength};
ghost use Rattle.der_core.specs.Integers.{every, integer_of, integer_octets, is_redundant};
ghost use Rattle.der_core.specs.TagTypes.Tag.TheVariants.{Integer};
ghost use Rattle.der_core.specs.Leaves.{integer};
ghost use Rattle.der_core.specs.Reading.{Gives};
ghost use Rattle.der_types_numbers.specs.Ints.{integer_lent};
ghost use Rattle.der_types_numbers.specs.NumberOrders.{integer_cmp, integer_cmp_total};
ghost use Rattle.der_types_numbers.specs.NumberOrders.{integer_cmp_ties};
ghost use Rattle.der_types_numbers.specs.Numbers.{signed_number};

use crate::fewest::sized_cmp;
use crate::int_ref::{AsIntRef, IntRef};
use crate::kept_octets::KeptOctets;
use crate::uint::Uint;
use der_core::describing::{AsLeaf, Described, EncodeLeaf, Primitive};
use der_core::{EncodeValue, Error, FixedTag, Leaf, Length, Tag, Writer};
use std::alloc::{AllocError, Global};
use std::cmp::Ordering;
use std::hash::{Hash, Hasher};
use std::marker::Model;

/// INTEGER of any size (X.690 8.3), as two's complement in the fewest bytes, fewer than 2^32.
///
/// In contracts, its value is the integer.
#[derive(Debug, Drop)]
pub struct Int {
    bytes: KeptOctets,
}

impl Model for Int {
    ghost use Rattle.std.specs.Prelude.{ℤ};

    ghost Value = { ℤ };

    ghost use Rattle.der_types_numbers.specs.Ints.{integer_kept, IsInt};

    ghost view = { integer_kept };

    ghost invariant = { IsInt };
}

impl Int {
    /// Returns the integer that bytes are in two's complement, the most significant byte first.
    /// Redundant leading bytes are dropped.
    ///
    /// # Errors
    ///
    /// - `Length`: there are no bytes.
    /// - `Overflow`: 2^32 bytes or more are left.
    /// - `OutOfMemory`: memory runs out.
    pub fn new(alloc: Global, bytes: &[u8]) -> Result<Int, Error>
        ensures { Gives (λ n. n) result (signed_number bytes.now) }
    {
        let lent = IntRef::new(bytes)?;
        Ok(Int::copy_of(alloc, &lent)?)
    }

    /// Returns an owned copy of a borrowed integer.
    pub(crate) fn copy_of(alloc: Global, lent: &IntRef<'_>) -> Result<Int, AllocError>
        ensures { IfOk result (λ n. n ≡ integer_lent lent.now) }
    {
        let bytes = KeptOctets::copy_of(alloc, lent.as_bytes())?;
        Ok(Int { bytes })
    }

    /// Returns a copy.
    ///
    /// # Errors
    ///
    /// - `AllocError`: memory runs out.
    pub fn clone(&self, alloc: Global) -> Result<Int, AllocError>
        ensures { IfOk result (λ n. n ≡ self.now) }
    {
        Int::copy_of(alloc, &self.owned_to_ref())
    }

    /// Returns the content bytes: two's complement, the most significant byte first.
    pub fn as_bytes(&self) -> &[u8]
        ensures octets { result.now ≡ integer_octets self.now }
        ensures number { integer_of result.now ≡ self.now }
    {
        self.owned_to_ref().as_bytes()
    }

    /// Returns the number of content bytes.
    pub fn len(&self) -> Length
        ensures { result.value ≡ length (integer_octets self.now) }
    {
        self.owned_to_ref().len()
    }

    /// Returns whether there are no content bytes, which is never the case.
    pub fn is_empty(&self) -> bool
        ensures { result ≡ false }
    {
        self.bytes.as_slice().is_empty()
    }

    /// Returns the borrowed form of the integer.
    pub fn owned_to_ref(&self) -> IntRef<'_>
        ensures { integer_lent result ≡ self.now }
    {
        IntRef::trusted(self.bytes.as_slice())
    }

    /// Wraps bytes that are known to be the content of an integer.
    fn trusted(bytes: Vec<u8>) -> Int
        requires content { bytes.items ≡ integer_octets (integer_of bytes.items) }
        requires some { 0 < vec_len bytes }
        requires shortest { is_redundant bytes.items ≡ false }
        requires short { IsLength (vec_len bytes) }
        ensures { result ≡ integer_of bytes.items }
    {
        let bytes = KeptOctets::of(bytes);
        Int { bytes }
    }
}

impl AsIntRef for Int {
    ghost as_integer = { λ n. n };

    fn as_int_ref(&self) -> IntRef<'_> {
        self.owned_to_ref()
    }
}

/// Converts an integer that isn't negative, without changing it.
impl From<Uint> for Int {
    ghost from_gives = { λ n z. z ≡ pos n };

    #[tactic(auto, using(crate::proofs::Naturals::contents))]
    fn from(number: Uint) -> Int {
        Int::trusted(number.into_content())
    }
}

/// Copies the value with its own allocator.
impl Clone for Int {
    ghost is_clone = { λ x y. y ≡ x };

    fn clone(&self) -> Result<Int, AllocError> {
        Int::copy_of(*self.bytes.allocator(), &self.owned_to_ref())
    }
}

/// Compares the integers.
impl PartialEq for Int {
    ghost eq = { λ a b. pointwise nat_eq (integer_octets a) (integer_octets b) };

    ghost laws = { on_per integer_octets (partial_equiv_from_equiv nat_list_eq_equiv) };

    fn eq(&self, other: &Self) -> bool {
        self.as_bytes() == other.as_bytes()
    }
}

impl Eq for Int {
    ghost laws = { on_equiv integer_octets nat_list_eq_equiv };
}

/// Compares the lengths of the contents, and then the contents.
impl PartialOrd for Int {
    ghost partial_cmp = { λ a b. Some (integer_cmp a b) };

    ghost laws = { po integer_cmp_total integer_cmp_ties };

    fn partial_cmp(&self, other: &Self) -> Option<Ordering> {
        Some(self.cmp(other))
    }
}

impl Ord for Int {
    ghost cmp = { integer_cmp };

    ghost total = { integer_cmp_total };

    ghost matches_partial_cmp = { λ a b. refl };

    ghost matches_eq = { integer_cmp_ties };

    fn cmp(&self, other: &Self) -> Ordering {
        sized_cmp(self.as_bytes(), other.as_bytes())
    }
}

/// Hashes the content bytes.
impl Hash for Int {
    ghost hash_input = { λ n. fed.slice fed.u8 (integer_octets n) };

    ghost respects_eq = { λ a b e. ap (fed.slice fed.u8)
        ((bytes_decides (integer_octets a) (integer_octets b)).0 e) };

    fn hash<H: Hasher>(&self, state: &mut H) {
        self.as_bytes().hash(state);
    }
}

impl FixedTag for Int {
    ghost fixed_tag = { Integer };

    fn tag() -> Tag {
        Tag::Integer
    }
}

impl Described for Int {
    type By = AsLeaf;
}

impl Primitive for Int {
    ghost kind = { integer every };

    ghost leaf_plain = { λ x. x };
}

/// The content is two's complement in the fewest bytes.
impl<'a> Leaf<'a> for Int {
    fn from_content(alloc: Global, tag: Tag, octets: &'a [u8]) -> Result<Int, Error> {
        let lent = IntRef::from_content(alloc, tag, octets)?;
        Ok(Int::copy_of(alloc, &lent)?)
    }
}

impl EncodeLeaf for Int {
    fn leaf_len(&self) -> Result<Length, Error> {
        self.owned_to_ref().value_len()
    }

    fn encode_leaf<W: Writer>(&self, writer: &mut W) -> Result<(), Error> {
        self.owned_to_ref().encode_value(writer)
    }
}
