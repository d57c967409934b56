//! INTEGER of any size that isn't negative, borrowed.

ghost use Rattle.std.specs.Prelude.{◌≡◌, ◌<◌, ◌+◌, ℕ, pos, length, nat_eq, true, false, Some, IfOk};
ghost use Rattle.std.proofs.Common.{refl, ap};
ghost use Rattle.std.specs.Cmp.{po, partial_equiv_from_equiv, on_equiv, on_per, on_total};
ghost use Rattle.std.specs.Cmp.{nat_cmp_total};
ghost use Rattle.std.specs.Cmp.Lexicographic.{pointwise, bytes_decides, nat_list_eq_equiv};
ghost use Rattle.std.specs.Hash as fed;
ghost use Rattle.std.specs.Ordering.{nat_cmp};
ghost use Rattle.std.specs.Int.Digits.{number_from_digits};
ghost use Rattle.der_core.specs.Oid.Digits.{digits};
ghost use Rattle.der_core.specs.Heads.{Fits};
ghost use Rattle.der_core.specs.TagTypes.Tag.TheVariants.{Integer as IntegerTag};
ghost use Rattle.der_core.specs.Integers.{natural, integer_of, integer_octets};
ghost use Rattle.der_core.specs.Leaves.{integer, leaf_read};
ghost use Rattle.der_core.specs.Reading.{GivesNow};
ghost use Rattle.der_types_numbers.specs.NumberOrders.{digits_ties};
ghost use Rattle.der_types_numbers.specs.Numbers.{unsigned_number};

use crate::fewest::{begins_with_one_bit, content_len, encode_natural, fewest_unsigned, sized_cmp};
use crate::uint::Uint;
use der_core::describing::{AsLeaf, Described, EncodeLeaf, Primitive};
use der_core::making::has_redundant_octet;
use der_core::{Error, ErrorKind, FixedTag, Leaf, Length, Tag, Writer};
use std::alloc::{AllocError, Global};
use std::cmp::Ordering;
use std::hash::{Hash, Hasher};

/// A borrowed INTEGER of any size that isn't negative (X.690 8.3): its digits in base 256, without
/// leading zeros. The content begins with a zero byte if the first digit is 128 or more, and has
/// fewer than 2^32 bytes.
#[derive(Clone, Copy, Debug)]
pub struct UintRef<'a> {
    bytes: &'a [u8],
    ghost digits: { bytes.now ≡ digits 256 (number_from_digits 256 bytes.now) },
    ghost some: { 0 < length bytes.now },
    ghost few: { Fits bytes.now },
    ghost short: { Fits (integer_octets (pos (number_from_digits 256 bytes.now))) },
}

impl<'a> UintRef<'a> {
    ghost use Rattle.der_types_numbers.specs.Ints.{natural_lent};

    /// Returns the number with these digits in base 256, the most significant first. Leading zeros
    /// are dropped.
    ///
    /// # Errors
    ///
    /// - `Length`: there are no bytes.
    /// - `Overflow`: the content would have 2^32 bytes or more.
    #[tactic(auto, unfolding(crate::specs::Numbers::unsigned_number, crate::specs::Numbers::if_countable))]
    pub fn new(bytes: &'a [u8]) -> Result<UintRef<'a>, Error>
        ensures { GivesNow natural_lent result (unsigned_number bytes.now) }
    {
        if bytes.is_empty() {
            return Err(Error::from(ErrorKind::Length { tag: Tag::Integer }));
        }
        let digits = fewest_unsigned(bytes);
        if content_len(digits) > Length::MAX.value as usize {
            return Err(Error::from(ErrorKind::Overflow));
        }
        Ok(UintRef::trusted(digits))
    }

    /// Returns the digits in base 256, the most significant first, without leading zeros.
    pub fn as_bytes(&self) -> &'a [u8]
        ensures digits { result.now ≡ digits 256 (natural_lent self.now) }
        ensures number { number_from_digits 256 result.now ≡ natural_lent self.now }
        ensures some { 0 < length result.now }
        ensures short { Fits (integer_octets (pos (natural_lent self.now))) }
    {
        self.bytes
    }

    /// Returns the number of these digits.
    pub fn len(&self) -> Length
        ensures { result.value ≡ length (digits 256 (natural_lent self.now)) }
    {
        Length::new(self.bytes.len() as u32)
    }

    /// Returns whether there are no digits, which is never the case.
    pub fn is_empty(&self) -> bool
        ensures { result ≡ false }
    {
        self.bytes.is_empty()
    }

    /// Returns an owned copy of the number.
    ///
    /// # Errors
    ///
    /// - `AllocError`: memory runs out.
    pub fn ref_to_owned(&self, alloc: Global) -> Result<Uint, AllocError>
        ensures { IfOk result (λ n. n ≡ natural_lent self.now) }
    {
        Uint::copy_of(alloc, self)
    }

    /// Decodes the content of a number, after its tag.
    ///
    /// # Errors
    ///
    /// - `Length`: there are no bytes.
    /// - `Noncanonical`: fewer bytes would be enough.
    /// - `Value`: the number is negative.
    #[tactic(auto, using(crate::proofs::Naturals::natural_reads))]
    pub fn of_content(tag: Tag, octets: &'a [u8]) -> Result<UintRef<'a>, Error>
        requires { Fits octets.now }
        ensures { GivesNow (λ n. pos (natural_lent n)) result
            (leaf_read (integer natural) tag octets.now) }
    {
        if octets.is_empty() {
            return Err(Error::from(ErrorKind::Length { tag }));
        }
        if has_redundant_octet(octets) {
            return Err(Error::from(ErrorKind::Noncanonical { tag }));
        }
        if begins_with_one_bit(octets) {
            return Err(Error::from(ErrorKind::Value { tag }));
        }
        Ok(UintRef::trusted(fewest_unsigned(octets)))
    }

    /// Wraps digits that are known to be those of a number.
    pub(crate) fn trusted(bytes: &'a [u8]) -> UintRef<'a>
        requires some { 0 < length bytes.now }
        requires digits { bytes.now ≡ digits 256 (number_from_digits 256 bytes.now) }
        requires short { Fits (integer_octets (pos (number_from_digits 256 bytes.now))) }
        ensures { natural_lent result ≡ number_from_digits 256 bytes.now }
    {
        UintRef { bytes }
    }
}

/// A type that can be borrowed as an integer that isn't negative.
pub trait AsUintRef {
    /// Maps a value to its number.
    ghost as_natural: { Self → ℕ };

    ghost use Rattle.der_types_numbers.specs.Ints.{natural_lent};

    /// Returns the borrowed number.
    fn as_uint_ref(&self) -> UintRef<'_>
        ensures { natural_lent result ≡ as_natural self.now };
}

impl<'a> AsUintRef for UintRef<'a> {
    ghost use Rattle.der_types_numbers.specs.Ints.{natural_lent};

    ghost as_natural = { natural_lent };

    fn as_uint_ref(&self) -> UintRef<'_> {
        *self
    }
}

/// Compares the numbers.
impl<'a> PartialEq for UintRef<'a> {
    ghost use Rattle.der_types_numbers.specs.Ints.{digits_lent};

    ghost eq = { λ a b. pointwise nat_eq (digits_lent a) (digits_lent b) };

    ghost laws = { on_per digits_lent (partial_equiv_from_equiv nat_list_eq_equiv) };

    fn eq(&self, other: &Self) -> bool {
        self.as_bytes() == other.as_bytes()
    }
}

impl<'a> Eq for UintRef<'a> {
    ghost use Rattle.der_types_numbers.specs.Ints.{digits_lent};

    ghost laws = { on_equiv digits_lent nat_list_eq_equiv };
}

/// Compares the numbers.
impl<'a> PartialOrd for UintRef<'a> {
    ghost use Rattle.der_types_numbers.specs.Ints.{natural_lent};

    ghost partial_cmp = { λ a b. Some (nat_cmp (natural_lent a) (natural_lent b)) };

    ghost laws = { po (on_total natural_lent nat_cmp_total)
        (λ a b. digits_ties (natural_lent a) (natural_lent b)) };

    fn partial_cmp(&self, other: &Self) -> Option<Ordering> {
        Some(self.cmp(other))
    }
}

impl<'a> Ord for UintRef<'a> {
    ghost use Rattle.der_types_numbers.specs.Ints.{natural_lent};

    ghost cmp = { λ a b. nat_cmp (natural_lent a) (natural_lent b) };

    ghost total = { on_total natural_lent nat_cmp_total };

    ghost matches_partial_cmp = { λ a b. refl };

    ghost matches_eq = { λ a b. digits_ties (natural_lent a) (natural_lent b) };

    #[tactic(auto, using(crate::specs::NumberOrders::digits_cmp))]
    fn cmp(&self, other: &Self) -> Ordering {
        sized_cmp(self.as_bytes(), other.as_bytes())
    }
}

/// Hashes the digits in base 256.
impl<'a> Hash for UintRef<'a> {
    ghost use Rattle.der_types_numbers.specs.Ints.{digits_lent};

    ghost hash_input = { λ n. fed.slice fed.u8 (digits_lent n) };

    ghost respects_eq = { λ a b e. ap (fed.slice fed.u8)
        ((bytes_decides (digits_lent a) (digits_lent b)).0 e) };

    fn hash<H: Hasher>(&self, state: &mut H) {
        self.as_bytes().hash(state);
    }
}

impl<'a> FixedTag for UintRef<'a> {
    ghost fixed_tag = { IntegerTag };

    fn tag() -> Tag
        ensures { result ≡ IntegerTag }
    {
        Tag::Integer
    }
}

impl<'a> Described for UintRef<'a> {
    type By = AsLeaf;
}

impl<'a> Primitive for UintRef<'a> {
    ghost use Rattle.std.specs.Prelude.{pos};
    ghost use Rattle.der_types_numbers.specs.Ints.{natural_lent};

    ghost kind = { integer natural };

    ghost leaf_plain = { λ n. pos (natural_lent n) };
}

/// The content is two's complement in the fewest bytes, of a number that isn't negative.
impl<'a> Leaf<'a> for UintRef<'a> {
    ghost takes_memory = { false };

    fn from_content(_alloc: Global, tag: Tag, octets: &'a [u8]) -> Result<UintRef<'a>, Error> {
        Ok(UintRef::of_content(tag, octets)?)
    }
}

impl<'a> EncodeLeaf for UintRef<'a> {
    fn leaf_len(&self) -> Result<Length, Error> {
        Ok(Length::try_from(content_len(self.bytes))?)
    }

    #[tactic(auto, unfolding(crate::specs::Opened::contents))]
    fn encode_leaf<W: Writer>(&self, writer: &mut W) -> Result<(), Error> {
        encode_natural(writer, self.bytes)
    }
}
