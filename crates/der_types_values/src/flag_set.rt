//! Sets of named bits.

ghost use Rattle.std.specs.Prelude.{⊤, nat_eq, ◌≡◌, ◌==◌, ◌<◌, ◌≤◌, ◌-◌, ◌^◌, ℕ, length, take};
ghost use Rattle.std.specs.Prelude.{IfOk, false, bit_and, bit_or};
ghost use Rattle.std.specs.Cmp.{on_per, on_equiv, nat_eq_equiv, partial_equiv_from_equiv};
ghost use Rattle.bitflags.specs.Sets.{known_bits};
ghost use Rattle.der_core.specs.TagTypes.Tag.TheVariants.{BitString};
ghost use Rattle.der_core.specs.Leaves.{named};
ghost use Rattle.der_core.specs.NamedBits.{ends_in_one, spelled_set, named_octets, named_read};
ghost use Rattle.der_core.specs.Reading.{GivesNow};

use bitflags::Flags;
use der_core::describing::{AsLeaf, Described, EncodeLeaf, Primitive};
use der_core::{Error, ErrorKind, FixedTag, Leaf, Length, Tag, ValueOrd, Writer};
use std::alloc::{AllocError, Global};
use std::cmp::Ordering;

/// A type of sets of named bits (X.680 22.2). The first bits have a name each, and there are at
/// most 64 names.
pub trait NamedBits: Flags + Copy {
    /// The number of names.
    ghost names: { ℕ };

    /// Returns the number of names, from 0 to 64.
    fn names() -> u32
        ensures value { result ≡ names }
        ensures few { result ≤ 64 };

    /// Returns the number of which bit `i` says whether name `i` is in the set.
    fn to_number(&self) -> u64
        ensures { result ≡ Self.set_of self.now };

    /// Returns the set of a number. Bit `i` says whether name `i` is in the set.
    fn from_number(number: u64) -> Self
        requires { number < 2 ^ names }
        ensures { Self.set_of result ≡ number };

    /// The contracts of `Flags` are exact for the type.
    ghost stated: { Self.exact };

    /// The bits of the flags in the table are exactly those with a name.
    ghost known: { known_bits Self.table ≡ 2 ^ names - 1 };
}

/// A set of named bits: a BIT STRING without trailing zero bits (X.680 22.7; X.690 11.2.2).
#[derive(Debug)]
pub struct FlagSet<F: NamedBits> {
    /// The bits, each of which has a name.
    flags: F,
    ghost named: { F.set_of flags < 2 ^ F.names },
}

impl<F: NamedBits> Clone for FlagSet<F> {
    ghost is_clone = { λ x y. y ≡ x };

    ghost is_infallible = { λ _. ⊤ };

    fn clone(&self) -> Result<FlagSet<F>, AllocError> {
        Ok(*self)
    }
}

impl<F: NamedBits> Copy for FlagSet<F> {}

/// Compares the sets.
impl<F: NamedBits> PartialEq for FlagSet<F> {
    ghost eq = { λ x y. nat_eq (F.set_of x.flags) (F.set_of y.flags) };

    ghost laws = { on_per (λ x. F.set_of x.flags) {E = nat_eq}
        (partial_equiv_from_equiv nat_eq_equiv) };

    fn eq(&self, other: &FlagSet<F>) -> bool {
        self.flags.to_number() == other.flags.to_number()
    }
}

impl<F: NamedBits> Eq for FlagSet<F> {
    ghost laws = { on_equiv (λ x. F.set_of x.flags) nat_eq_equiv };
}

/// Returns whether the last used bit is one. If there are no bytes, no bit may be unused.
#[tactic(auto, using(crate::proofs::NamedSteps::ends))]
fn ends_in_one(unused: u8, octets: &[u8]) -> bool
    ensures { result ≡ ends_in_one unused octets.now }
{
    match octets {
        [] => unused == 0,
        [.., last] => *last != 0 && u32::from(unused) == last.trailing_zeros(),
    }
}

/// Returns the number of a set. Name 0 is the highest bit of the first byte.
fn number_of(octets: &[u8]) -> u64
    requires { length octets.now ≤ 8 }
    ensures { result ≡ spelled_set octets.now }
{
    let mut number = 0u64;
    for count in 0..octets.len() {
        let octet = octets[octets.len() - 1 - count];
        number = number * 256 + u64::from(octet.reverse_bits());
    }
    number
}

/// Decodes the content of a set of named bits, with this many names.
///
/// # Errors
///
/// - `Length`: there are no bytes.
/// - `Value`: the last bit isn't one, or a bit has no name.
#[tactic(auto, unfolding(crate::specs::Opened::named_read))]
fn read_named(tag: Tag, octets: &[u8], names: u32) -> Result<u64, Error>
    requires { names ≤ 64 }
    ensures exact { GivesNow (λ n. n) result (named_read names tag octets.now) }
    ensures small { IfOk result (λ n. n < 2 ^ names) }
{
    let [unused, octets @ ..] = octets else {
        return Err(Error::from(ErrorKind::Length { tag }));
    };
    if !ends_in_one(*unused, octets) {
        return Err(Error::from(ErrorKind::Value { tag }));
    }
    if octets.len() > 8 {
        return Err(Error::from(ErrorKind::Value { tag }));
    }
    let number = number_of(octets);
    if names < 64 && number >= 1 << names {
        return Err(Error::from(ErrorKind::Value { tag }));
    }
    Ok(number)
}

/// Returns the content of a set: an array, and the number of bytes in it.
fn named_octets_of(number: u64) -> ([u8; 9], usize)
    ensures octets { take result.1 result.0 ≡ named_octets number }
    ensures few { result.1 ≤ 9 }
{
    let mut octets = [0; 9];
    let mut len = 1;
    let mut left = number;
    while left > 0 {
        octets[len] = ((left % 256) as u8).reverse_bits();
        len += 1;
        left /= 256;
    }
    if len > 1 {
        octets[0] = octets[len - 1].trailing_zeros() as u8;
    }
    (octets, len)
}

impl<F: NamedBits> FlagSet<F> {
    /// Returns the set without names.
    pub fn empty() -> FlagSet<F>
        ensures { F.set_of result.flags ≡ 0 }
    {
        FlagSet { flags: F::empty() }
    }

    /// Returns the set of all names.
    pub fn full() -> FlagSet<F>
        ensures { F.set_of result.flags ≡ 2 ^ F.names - 1 }
    {
        FlagSet { flags: F::all() }
    }

    /// Returns the set of the names of a flag, whose bits all have names.
    pub fn from_flag(flag: F) -> FlagSet<F>
        requires { F.set_of flag < 2 ^ F.names }
        ensures { result.flags ≡ flag }
    {
        FlagSet { flags: flag }
    }

    /// Returns whether the set contains each name of a flag.
    pub fn contains(&self, flag: F) -> bool
        ensures { result ≡ (bit_and (F.set_of self.now.flags) (F.set_of flag) == F.set_of flag) }
    {
        self.flags.contains(flag)
    }

    /// Returns the set of the names that are in either set.
    pub fn union(self, other: FlagSet<F>) -> FlagSet<F>
        ensures { F.set_of result.flags ≡ bit_or (F.set_of self.flags) (F.set_of other.flags) }
    {
        FlagSet {
            flags: self.flags.union(other.flags),
        }
    }
}

impl<F: NamedBits> FixedTag for FlagSet<F> {
    ghost fixed_tag = { BitString };

    fn tag() -> Tag {
        Tag::BitString
    }
}

impl<F: NamedBits> Described for FlagSet<F> {
    type By = AsLeaf;
}

impl<F: NamedBits> Primitive for FlagSet<F> {
    ghost kind = { named F.names };

    ghost leaf_plain = { λ s. F.set_of s.flags };
}

/// The content is the number of unused bits of the last byte, followed by the bits up to the last
/// one bit.
impl<'a, F: NamedBits> Leaf<'a> for FlagSet<F> {
    ghost takes_memory = { false };

    fn from_content(_alloc: Global, tag: Tag, octets: &'a [u8]) -> Result<FlagSet<F>, Error> {
        let number = read_named(tag, octets, F::names())?;
        Ok(FlagSet {
            flags: F::from_number(number),
        })
    }
}

impl<F: NamedBits> EncodeLeaf for FlagSet<F> {
    fn leaf_len(&self) -> Result<Length, Error> {
        let (_, len) = named_octets_of(self.flags.to_number());
        Ok(Length { value: len as u32 })
    }

    #[tactic(auto, using(crate::proofs::Cited::write_adds), unfolding(crate::specs::Opened::contents))]
    fn encode_leaf<W: Writer>(&self, writer: &mut W) -> Result<(), Error> {
        let (octets, len) = named_octets_of(self.flags.to_number());
        writer.write(&octets[..len])
    }
}

/// Compares the numbers of unused bits, and then the bytes.
impl<F: NamedBits> ValueOrd for FlagSet<F> {
    #[tactic(auto, using(der_core::proofs::OrderLaws::leaf_contents))]
    fn value_cmp(&self, other: &Self) -> Result<Ordering, Error> {
        let (octets, len) = named_octets_of(self.flags.to_number());
        let (others, other_len) = named_octets_of(other.flags.to_number());
        Ok(octets[..len].cmp(&others[..other_len]))
    }
}
