ghost use Rattle.std.specs.Prelude.{◌≡◌, ◌++◌, [], pos, Some, Ok, IfOk, flat_map, length, None};
ghost use Rattle.std.specs.Prelude.{true, false};
ghost use Rattle.std.specs.Fmt.{WritesOnOk};
ghost use Rattle.der_core.specs.TagTypes.Tag.TheVariants.{Integer};
ghost use Rattle.der_core.specs.Integers.{integer_of, integer_octets};
ghost use Rattle.der_core.specs.Leaves.{integer};
ghost use Rattle.der_core.specs.Reading.{Gives};
ghost use Rattle.x509_cert_parts.specs.Drawing.{drawn_serial, begins_with_zero, first_fill};
ghost use Rattle.x509_cert_parts.specs.Grammar.{numbers_within};
ghost use Rattle.x509_cert_parts.specs.SerialNumbers.{new_serial, hex_pair, colon_pair};
ghost use Rattle.x509_cert_parts.specs.SerialNumbers.{colon_pairs};

use crate::profile::{Profile, Rfc5280};
use der_core::describing::{AsLeaf, Described, EncodeLeaf, Primitive};
use der_core::making::{integer_octets_of, value_cmp_by_contents};
use der_core::{EncodeValue, Error, ErrorKind, FixedTag, Leaf, Length, Tag, ValueOrd, Writer};
use der_types::{Int, Uint};
use rand_core::CryptoRng;
use std::alloc::{AllocError, Global};
use std::cmp::Ordering;
use std::fmt;
use std::marker::{Model, PhantomData};

/// The serial number of a certificate (RFC 5280 4.1.2.2). The profile limits its length. Numbers
/// that are negative or zero are accepted.
///
/// In contracts, its value is the number. Serial numbers are ordered by the length of their content
/// first, then by its bytes.
///
/// ```text
/// CertificateSerialNumber ::= INTEGER
/// ```
#[derive(Drop)]
#[derive_where(Debug, PartialEq, Eq, PartialOrd, Ord)]
pub struct SerialNumber<P = Rfc5280> {
    inner: Int,
    #[derive_where(skip(EqHashOrd))]
    profile: PhantomData<P>,
}

impl<P> Model for SerialNumber<P> {
    ghost use Rattle.std.specs.Prelude.{ℤ};

    ghost Value = { ℤ };

    ghost use Rattle.x509_cert_parts.specs.SerialNumbers.{serial_kept};

    ghost view = { serial_kept };

    ghost inverse = { λ n. record { inner = n; profile = record {} } };
}

impl<P> SerialNumber<P> {
    /// The greatest length of a new serial number, in content bytes.
    pub const MAX_LEN: Length = Length { value: 20 };

    /// Returns the serial number with these bytes as an unsigned number, the most significant byte
    /// first. Leading zeros are dropped.
    ///
    /// # Errors
    ///
    /// - `Length`: there are no bytes.
    /// - `Overlength`: the number has more than 20 content bytes.
    /// - `Overflow`: there are 2^32 bytes or more.
    /// - `OutOfMemory`: memory runs out.
    #[tactic(auto, unfolding(crate::specs::SerialNumbers::new_serial))]
    pub fn new(alloc: Global, bytes: &[u8]) -> Result<SerialNumber<P>, Error>
        ensures { Gives (λ n. n) result (new_serial bytes.now) }
    {
        let inner = Int::from(Uint::new(alloc, bytes)?);
        if inner.len().value > 20 {
            return Err(Error::from(ErrorKind::Overlength));
        }
        Ok(SerialNumber {
            inner,
            profile: PhantomData,
        })
    }

    /// Returns the serial number with this value.
    ///
    /// # Errors
    ///
    /// - `OutOfMemory`: memory runs out.
    pub fn from_u64(alloc: Global, number: u64) -> Result<SerialNumber<P>, Error>
        ensures { Gives (λ n. n) result (Ok (pos number)) }
    {
        let (octets, start) = integer_octets_of(false, u128::from(number));
        let inner = Int::from_content(alloc, Tag::Integer, &octets[start..])?;
        Ok(SerialNumber {
            inner,
            profile: PhantomData,
        })
    }

    /// Returns a serial number of 17 random bytes, the first of which isn't 0.
    ///
    /// # Errors
    ///
    /// The state of the generator is the one after the draws, also if the call fails.
    ///
    /// - `Failed`: sixteen draws in a row began with 0.
    /// - `OutOfMemory`: memory runs out.
    pub fn generate<R: CryptoRng>(alloc: Global, rng: &mut R) -> Result<SerialNumber<P>, Error>
        ensures number { Gives (λ n. n) result (drawn_serial [] 17 (R.stream rng.old)).0 }
        ensures left { R.stream rng.new ≡ (drawn_serial [] 17 (R.stream rng.old)).1 }
    {
        Ok(SerialNumber::generate_with_prefix(alloc, &[], 17, rng)?)
    }

    /// Returns a serial number of a prefix and random bytes, the first of which isn't 0. A draw
    /// that begins with 0 is repeated in full.
    ///
    /// # Errors
    ///
    /// The state of the generator is the one after the draws, also if the call fails.
    ///
    /// - `Failed`: `rand_len` is less than 8, there are more than 19 bytes in all, or sixteen draws
    ///   in a row began with 0.
    /// - `OutOfMemory`: memory runs out.
    #[tactic(auto, unfolding(crate::specs::Drawing::drawn_serial))]
    pub fn generate_with_prefix<R: CryptoRng>(
        alloc: Global,
        prefix: &[u8],
        rand_len: usize,
        rng: &mut R,
    ) -> Result<SerialNumber<P>, Error>
        ensures number { Gives (λ n. n) result
            (drawn_serial prefix.now rand_len (R.stream rng.old)).0 }
        ensures left { R.stream rng.new ≡ (drawn_serial prefix.now rand_len (R.stream rng.old)).1 }
    {
        if rand_len < 8 {
            return Err(Error::from(ErrorKind::Failed));
        }
        if prefix.len() > 19 {
            return Err(Error::from(ErrorKind::Failed));
        }
        if rand_len > 19 - prefix.len() {
            return Err(Error::from(ErrorKind::Failed));
        }
        let mut octets = [0; 19];
        let random = &mut octets[..rand_len];
        if !fill_without_zero(rng, random) {
            return Err(Error::from(ErrorKind::Failed));
        }
        Ok(SerialNumber::of_parts(alloc, prefix, random)?)
    }

    /// Returns the serial number with the bytes of both slices, one after the other.
    ///
    /// # Errors
    ///
    /// - The errors of `SerialNumber::new`.
    fn of_parts(alloc: Global, first: &[u8], last: &[u8]) -> Result<SerialNumber<P>, Error>
        ensures { Gives (λ n. n) result (new_serial (first.now ++ last.now)) }
    {
        let mut octets = Vec::new(alloc);
        octets.extend_from_slice(first)?;
        octets.extend_from_slice(last)?;
        Ok(SerialNumber::new(alloc, octets.as_slice())?)
    }

    /// Returns a copy.
    ///
    /// # Errors
    ///
    /// - `AllocError`: memory runs out.
    pub fn clone(&self, alloc: Global) -> Result<SerialNumber<P>, AllocError>
        ensures { IfOk result (λ n. n ≡ self.now) }
    {
        let inner = self.inner.clone(alloc)?;
        Ok(SerialNumber {
            inner,
            profile: PhantomData,
        })
    }

    /// Returns the content bytes: the number in two's complement, the most significant byte first.
    pub fn as_bytes(&self) -> &[u8]
        ensures octets { result.now ≡ integer_octets self.now }
        ensures number { integer_of result.now ≡ self.now }
    {
        self.inner.as_bytes()
    }
}

/// Copies the value with its own allocator.
impl<P> Clone for SerialNumber<P> {
    ghost is_clone = { λ x y. y ≡ x };

    fn clone(&self) -> Result<SerialNumber<P>, AllocError> {
        let inner = Clone::clone(&self.inner)?;
        Ok(SerialNumber {
            inner,
            profile: PhantomData,
        })
    }
}

impl<P> FixedTag for SerialNumber<P> {
    ghost fixed_tag = { Integer };

    fn tag() -> Tag {
        Tag::Integer
    }
}

impl<P: Profile> Described for SerialNumber<P> {
    type By = AsLeaf;
}

impl<P: Profile> Primitive for SerialNumber<P> {
    ghost kind = { integer (numbers_within P.serial_limit) };

    ghost leaf_plain = { λ n. n };
}

/// The content is the number in two's complement in as few bytes as possible. The profile limits
/// their number.
impl<'a, P: Profile> Leaf<'a> for SerialNumber<P> {
    fn from_content(alloc: Global, tag: Tag, octets: &'a [u8]) -> Result<SerialNumber<P>, Error> {
        let serial = SerialNumber {
            inner: Int::from_content(alloc, tag, octets)?,
            profile: PhantomData,
        };
        match P::check_serial_number(&serial) {
            Ok(()) => Ok(serial),
            Err(_) => Err(Error::from(ErrorKind::Value { tag })),
        }
    }
}

impl<P: Profile> EncodeLeaf for SerialNumber<P> {
    fn leaf_len(&self) -> Result<Length, Error> {
        self.inner.value_len()
    }

    #[tactic(auto, unfolding(crate::specs::Opened::contents))]
    fn encode_leaf<W: Writer>(&self, writer: &mut W) -> Result<(), Error> {
        self.inner.encode_value(writer)
    }
}

/// Writes the content bytes as pairs of uppercase hexadecimal digits, joined by colons.
impl<P> fmt::Display for SerialNumber<P> {
    ghost use Rattle.x509_cert_parts.specs.SerialNumbers.{colon_pairs};

    ghost output = { λ n. Some (colon_pairs (integer_octets n)) };

    fn fmt<W: fmt::Write>(&self, f: &mut fmt::Formatter<W>) -> fmt::Result {
        write_octets(self.as_bytes(), f)
    }
}

/// Compares the content bytes.
impl<P: Profile> ValueOrd for SerialNumber<P> {
    #[tactic(auto, using(der_core::proofs::OrderLaws::leaf_contents))]
    fn value_cmp(&self, other: &Self) -> Result<Ordering, Error> {
        Ok(value_cmp_by_contents(self.as_bytes(), other.as_bytes()))
    }
}

/// Writes the two uppercase hexadecimal digits of a byte.
#[tactic(auto, using(std::proofs::lemmas::Fmt::hex_byte))]
fn write_pair<W: fmt::Write>(octet: u8, f: &mut fmt::Formatter<W>) -> fmt::Result
    ensures { WritesOnOk W.write_str_gives f.old result (hex_pair octet) f.new }
{
    write!(f, "{octet:02X}")
}

/// Writes a colon and the two uppercase hexadecimal digits of a byte.
#[tactic(auto, using(std::proofs::lemmas::Fmt::hex_byte))]
fn write_colon_pair<W: fmt::Write>(octet: u8, f: &mut fmt::Formatter<W>) -> fmt::Result
    ensures { WritesOnOk W.write_str_gives f.old result (colon_pair octet) f.new }
{
    write!(f, ":{octet:02X}")
}

/// Writes a colon and two digits for each byte.
fn write_later<W: fmt::Write>(octets: &[u8], f: &mut fmt::Formatter<W>) -> fmt::Result
    ensures { WritesOnOk W.write_str_gives f.old result (flat_map colon_pair octets.now) f.new }
{
    for octet in octets {
        write_colon_pair(*octet, f)?;
    }
    Ok(())
}

/// Writes bytes as pairs of uppercase hexadecimal digits, joined by colons.
pub(crate) fn write_octets<W: fmt::Write>(octets: &[u8], f: &mut fmt::Formatter<W>) -> fmt::Result
    ensures { WritesOnOk W.write_str_gives f.old result (colon_pairs octets.now) f.new }
{
    match octets {
        [] => Ok(()),
        [first, rest @ ..] => {
            write_pair(*first, f)?;
            write_later(rest, f)
        }
    }
}

/// Returns whether the slice is empty or begins with 0.
fn begins_with_zero(octets: &[u8]) -> bool
    ensures { result ≡ begins_with_zero octets.now }
{
    match octets {
        [] => true,
        [first, ..] => *first == 0,
    }
}

/// Fills a slice with random bytes until it doesn't begin with 0, at most sixteen times. Returns
/// whether it succeeded.
#[tactic(auto, using(crate::proofs::Texts::next_fill, crate::proofs::Texts::no_fill))]
pub(crate) fn fill_without_zero<R: CryptoRng>(rng: &mut R, random: &mut [u8]) -> bool
    ensures found { result ≡ true → (first_fill 16 (length random.old) (R.stream rng.old)).0
        ≡ Some random.new }
    ensures none { result ≡ false → (first_fill 16 (length random.old) (R.stream rng.old)).0
        ≡ None }
    ensures left { R.stream rng.new ≡ (first_fill 16 (length random.old) (R.stream rng.old)).1 }
    ensures length { length random.new ≡ length random.old }
{
    for _turn in 0..16u32 {
        rng.fill_bytes(random);
        if !begins_with_zero(random) {
            return true;
        }
    }
    false
}
