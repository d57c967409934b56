//! INTEGER of any size, borrowed.

ghost use Rattle.std.specs.Prelude.{◌≡◌, ◌<◌, ◌^◌, ◌↔◌, ℤ, length, nat_eq, true, false, Some};
ghost use Rattle.std.specs.Prelude.{IsTrue, IfOk};
ghost use Rattle.std.proofs.Common.{refl, ap};
ghost use Rattle.std.specs.Cmp.{po, partial_equiv_from_equiv, on_equiv, on_per, on_total};
ghost use Rattle.std.specs.Cmp.Lexicographic.{pointwise, bytes_decides, nat_list_eq_equiv};
ghost use Rattle.std.specs.Hash as fed;
ghost use Rattle.der_core.specs.Heads.{Fits};
ghost use Rattle.der_core.specs.TagTypes.Tag.TheVariants.{Integer as IntegerTag};
ghost use Rattle.der_core.specs.Integers.{every, integer_of, integer_octets, is_redundant};
ghost use Rattle.der_core.specs.Leaves.{integer, leaf_read};
ghost use Rattle.der_core.specs.Reading.{GivesNow};
ghost use Rattle.der_types_numbers.specs.NumberOrders.{integer_cmp, integer_cmp_total};
ghost use Rattle.der_types_numbers.specs.NumberOrders.{integer_cmp_ties};
ghost use Rattle.der_types_numbers.specs.Numbers.{signed_number};

use crate::fewest::{fewest_signed, sized_cmp};
use crate::int::Int;
use der_core::describing::{AsOctets, Described, Octets, Ordered, Primitive};
use der_core::making::has_redundant_octet;
use der_core::{Error, ErrorKind, FixedTag, Leaf, Length, Tag};
use std::alloc::{AllocError, Global};
use std::cmp::Ordering;
use std::hash::{Hash, Hasher};

/// A borrowed INTEGER of any size (X.690 8.3), as two's complement in the fewest bytes, fewer than
/// 2^32.
#[derive(Clone, Copy, Debug)]
pub struct IntRef<'a> {
    bytes: &'a [u8],
    ghost content: { bytes.now ≡ integer_octets (integer_of bytes.now) },
    ghost some: { 0 < length bytes.now },
    ghost shortest: { is_redundant bytes.now ≡ false },
    ghost short: { Fits bytes.now },
}

impl<'a> IntRef<'a> {
    ghost use Rattle.der_types_numbers.specs.Ints.{integer_lent};

    /// Returns the integer that bytes are in two's complement, the most significant byte first.
    /// Redundant leading bytes are dropped.
    ///
    /// # Errors
    ///
    /// - `Length`: there are no bytes.
    /// - `Overflow`: 2^32 bytes or more are left.
    #[tactic(auto, unfolding(crate::specs::Numbers::signed_number, crate::specs::Numbers::if_countable))]
    pub fn new(bytes: &'a [u8]) -> Result<IntRef<'a>, Error>
        ensures { GivesNow integer_lent result (signed_number bytes.now) }
    {
        if bytes.is_empty() {
            return Err(Error::from(ErrorKind::Length { tag: Tag::Integer }));
        }
        let bytes = fewest_signed(bytes);
        if bytes.len() > Length::MAX.value as usize {
            return Err(Error::from(ErrorKind::Overflow));
        }
        Ok(IntRef { bytes })
    }

    /// Returns the content bytes: two's complement, the most significant byte first.
    pub fn as_bytes(&self) -> &'a [u8]
        ensures octets { result.now ≡ integer_octets (integer_lent self.now) }
        ensures number { integer_of result.now ≡ integer_lent self.now }
        ensures some { 0 < length result.now }
        ensures shortest { is_redundant result.now ≡ false }
        ensures short { Fits result.now }
    {
        self.bytes
    }

    /// Returns the number of content bytes.
    pub fn len(&self) -> Length
        ensures { result.value ≡ length (integer_octets (integer_lent self.now)) }
    {
        Length::new(self.as_bytes().len() as u32)
    }

    /// Returns whether there are no content bytes, which is never the case.
    pub fn is_empty(&self) -> bool
        ensures { result ≡ false }
    {
        self.bytes.is_empty()
    }

    /// Returns an owned copy of the integer.
    ///
    /// # Errors
    ///
    /// - `AllocError`: memory runs out.
    pub fn ref_to_owned(&self, alloc: Global) -> Result<Int, AllocError>
        ensures { IfOk result (λ n. n ≡ integer_lent self.now) }
    {
        Int::copy_of(alloc, self)
    }

    /// Decodes the content of an integer, after its tag.
    ///
    /// # Errors
    ///
    /// - `Length`: there are no bytes.
    /// - `Noncanonical`: fewer bytes would be enough.
    #[tactic(auto, unfolding(crate::specs::Opened::shortest_integer))]
    pub fn of_content(tag: Tag, octets: &'a [u8]) -> Result<IntRef<'a>, Error>
        requires { Fits octets.now }
        ensures { GivesNow integer_lent result (leaf_read (integer every) tag octets.now) }
    {
        if octets.is_empty() {
            return Err(Error::from(ErrorKind::Length { tag }));
        }
        if has_redundant_octet(octets) {
            return Err(Error::from(ErrorKind::Noncanonical { tag }));
        }
        Ok(IntRef { bytes: octets })
    }

    /// Wraps bytes that are known to be the content of an integer.
    pub(crate) fn trusted(bytes: &'a [u8]) -> IntRef<'a>
        requires content { bytes.now ≡ integer_octets (integer_of bytes.now) }
        requires some { 0 < length bytes.now }
        requires shortest { is_redundant bytes.now ≡ false }
        requires short { Fits bytes.now }
        ensures { integer_lent result ≡ integer_of bytes.now }
    {
        IntRef { bytes }
    }
}

/// A type that can be borrowed as an integer.
pub trait AsIntRef {
    /// Maps a value to its integer.
    ghost as_integer: { Self → ℤ };

    ghost use Rattle.der_types_numbers.specs.Ints.{integer_lent};

    /// Returns the borrowed integer.
    fn as_int_ref(&self) -> IntRef<'_>
        ensures { integer_lent result ≡ as_integer self.now };
}

impl<'a> AsIntRef for IntRef<'a> {
    ghost use Rattle.der_types_numbers.specs.Ints.{integer_lent};

    ghost as_integer = { integer_lent };

    fn as_int_ref(&self) -> IntRef<'_> {
        *self
    }
}

/// Compares the integers.
impl<'a> PartialEq for IntRef<'a> {
    ghost use Rattle.der_types_numbers.specs.Ints.{content_lent};

    ghost eq = { λ a b. pointwise nat_eq (content_lent a) (content_lent b) };

    ghost laws = { on_per content_lent (partial_equiv_from_equiv nat_list_eq_equiv) };

    fn eq(&self, other: &Self) -> bool {
        self.as_bytes() == other.as_bytes()
    }
}

impl<'a> Eq for IntRef<'a> {
    ghost use Rattle.der_types_numbers.specs.Ints.{content_lent};

    ghost laws = { on_equiv content_lent nat_list_eq_equiv };
}

/// Compares the lengths of the contents, and then the contents.
impl<'a> PartialOrd for IntRef<'a> {
    ghost use Rattle.der_types_numbers.specs.Ints.{integer_lent};

    ghost partial_cmp = { λ a b. Some (integer_cmp (integer_lent a) (integer_lent b)) };

    ghost laws = { po (on_total integer_lent integer_cmp_total)
        (λ a b. integer_cmp_ties (integer_lent a) (integer_lent b)) };

    fn partial_cmp(&self, other: &Self) -> Option<Ordering> {
        Some(self.cmp(other))
    }
}

impl<'a> Ord for IntRef<'a> {
    ghost use Rattle.der_types_numbers.specs.Ints.{integer_lent};

    ghost cmp = { λ a b. integer_cmp (integer_lent a) (integer_lent b) };

    ghost total = { on_total integer_lent integer_cmp_total };

    ghost matches_partial_cmp = { λ a b. refl };

    ghost matches_eq = { λ a b. integer_cmp_ties (integer_lent a) (integer_lent b) };

    fn cmp(&self, other: &Self) -> Ordering {
        sized_cmp(self.as_bytes(), other.as_bytes())
    }
}

/// Hashes the content bytes.
impl<'a> Hash for IntRef<'a> {
    ghost use Rattle.der_types_numbers.specs.Ints.{content_lent};

    ghost hash_input = { λ n. fed.slice fed.u8 (content_lent n) };

    ghost respects_eq = { λ a b e. ap (fed.slice fed.u8)
        ((bytes_decides (content_lent a) (content_lent b)).0 e) };

    fn hash<H: Hasher>(&self, state: &mut H) {
        self.as_bytes().hash(state);
    }
}

impl<'a> FixedTag for IntRef<'a> {
    ghost fixed_tag = { IntegerTag };

    fn tag() -> Tag
        ensures { result ≡ IntegerTag }
    {
        Tag::Integer
    }
}

impl<'a> Described for IntRef<'a> {
    type By = AsOctets;
}

impl<'a> Primitive for IntRef<'a> {
    ghost use Rattle.der_types_numbers.specs.Ints.{integer_lent};

    ghost kind = { integer every };

    ghost leaf_plain = { integer_lent };
}

/// The content is two's complement in the fewest bytes.
impl<'a> Leaf<'a> for IntRef<'a> {
    ghost takes_memory = { false };

    fn from_content(_alloc: Global, tag: Tag, octets: &'a [u8]) -> Result<IntRef<'a>, Error> {
        Ok(IntRef::of_content(tag, octets)?)
    }
}

impl<'a> Octets for IntRef<'a> {
    fn content(&self) -> &[u8] {
        self.as_bytes()
    }
}

/// Compares the contents, two's complement in the fewest bytes (X.690 8.3), as lists of bytes. For
/// example, 128 (`00 80`) is less than 127 (`7F`).
impl<'a> Ordered for IntRef<'a> {}
