//! INTEGER: two's complement in the fewest bytes (X.690 8.3).

ghost use Rattle.std.specs.Prelude.{◌≡◌, ℤ, pos, false, refl};
ghost use Rattle.der_core_octets.specs.CoreHead.declared.tag.Tag.TheVariants as tags;
ghost use Rattle.der_core_octets.specs.CoreHead.Shapes.{leaf};
ghost use Rattle.der_core_octets.specs.CoreHead.Integers.{Numbers, IsNumber, unsigned, signed};
ghost use Rattle.der_core_octets.specs.CoreHead.Integers.{integer_read};
ghost use Rattle.der_core_octets.specs.CoreHead.Leaves.{integer};
ghost use Rattle.der_core_octets.specs.CoreHead.Reading.{GivesNow};
ghost use Rattle.der_core_octets.specs.Numbers.{with_sign};

use crate::leaves::{Leaf, Primitive, decode_leaf};
use crate::ways::{AsReadWay, DecodeWay, Described, RangeWay, TagWay, Way};
use der_core_octets::core_head::{Error, Length, Tag};
use der_core_octets::{Header, Reader, Writer, integer_octets_of, signed_of, unsigned_of};
use std::alloc::Global;

/// A type of integers.
pub trait Integer: Drop {
    /// The numbers of the type.
    ghost numbers: { Numbers };

    /// Maps a value to its integer.
    ghost number: { Self → ℤ };

    /// Returns the number that a content encodes.
    ///
    /// # Errors
    ///
    /// - `Length`: there are no bytes, or the number is too large for the type.
    /// - `Noncanonical`: fewer bytes would be enough.
    /// - `Value`: the type doesn't have the number.
    fn from_integer(tag: Tag, octets: &[u8]) -> Result<Self, Error>
        ensures { GivesNow number result (integer_read numbers tag octets.now) };

    /// Returns whether the integer is negative, and the number n such that the integer is n, or -(n
    /// + 1) if it is negative.
    fn sign_and_bits(&self) -> (bool, u128)
        ensures value { number self.now ≡ with_sign result.0 result.1 }
        // The integer is one that the type has.
        ensures has { IsNumber numbers (number self.now) };
}

impl<T: Integer> Primitive for T {
    ghost kind = { integer T.numbers };

    ghost leaf_plain = { T.number };
}

impl<'a, T: Integer> Leaf<'a> for T {
    ghost takes_memory = { false };

    fn from_content(_alloc: Global, tag: Tag, octets: &'a [u8]) -> Result<T, Error> {
        T::from_integer(tag, octets)
    }
}

/// Describes a type as an INTEGER, in two's complement and in the fewest bytes (X.690 8.3).
pub struct AsInteger;

impl<T: Integer> Way<T> for AsInteger {
    ghost content_by = { leaf (integer T.numbers) };

    ghost plain_by = { T.number };

    ghost written_by = { T.number };

    fn len_by(value: &T) -> Result<Length, Error> {
        let (negative, number) = value.sign_and_bits();
        let (_, start) = integer_octets_of(negative, number);
        Ok(Length::new((17 - start) as u32))
    }

    #[tactic(auto, using(der_core_octets::proofs::Added::write_adds), unfolding(crate::specs::Opened::contents))]
    fn encode_by<W: Writer>(value: &T, writer: &mut W) -> Result<(), Error> {
        let (negative, number) = value.sign_and_bits();
        let (octets, start) = integer_octets_of(negative, number);
        writer.write(&octets[start..])
    }

    ghost apart_by = { refl };
}

impl<T> TagWay<T> for AsInteger {
    ghost tag_by = { tags.Integer };

    fn tag_of() -> Tag {
        Tag::Integer
    }
}

impl<T: Integer> AsReadWay<T> for AsInteger {
    ghost as_read_by = { λ _. refl };
}

impl<'a, R: Reader<'a>, T: Integer> DecodeWay<'a, R, T> for AsInteger {
    fn decode_by(alloc: Global, reader: &mut R, header: Header) -> Result<T, Error> {
        decode_leaf(alloc, reader, header)
    }
}

impl<T: Integer> RangeWay<T> for AsInteger {
    fn range_by(value: &T) {
        // `sign_and_bits` states that the type has the integer.
        let _bits = value.sign_and_bits();
    }
}

impl Described for u8 {
    type By = AsInteger;
}

impl Integer for u8 {
    ghost numbers = { unsigned 8 };

    ghost number = { λ n. pos n };

    fn from_integer(tag: Tag, octets: &[u8]) -> Result<u8, Error> {
        let number = unsigned_of(tag, octets, 8)?;
        Ok(number as u8)
    }

    fn sign_and_bits(&self) -> (bool, u128) {
        (false, u128::from(*self))
    }
}

impl Described for u16 {
    type By = AsInteger;
}

impl Integer for u16 {
    ghost numbers = { unsigned 16 };

    ghost number = { λ n. pos n };

    fn from_integer(tag: Tag, octets: &[u8]) -> Result<u16, Error> {
        let number = unsigned_of(tag, octets, 16)?;
        Ok(number as u16)
    }

    fn sign_and_bits(&self) -> (bool, u128) {
        (false, u128::from(*self))
    }
}

impl Described for u32 {
    type By = AsInteger;
}

impl Integer for u32 {
    ghost numbers = { unsigned 32 };

    ghost number = { λ n. pos n };

    fn from_integer(tag: Tag, octets: &[u8]) -> Result<u32, Error> {
        let number = unsigned_of(tag, octets, 32)?;
        Ok(number as u32)
    }

    fn sign_and_bits(&self) -> (bool, u128) {
        (false, u128::from(*self))
    }
}

impl Described for u64 {
    type By = AsInteger;
}

impl Integer for u64 {
    ghost numbers = { unsigned 64 };

    ghost number = { λ n. pos n };

    fn from_integer(tag: Tag, octets: &[u8]) -> Result<u64, Error> {
        let number = unsigned_of(tag, octets, 64)?;
        Ok(number as u64)
    }

    fn sign_and_bits(&self) -> (bool, u128) {
        (false, u128::from(*self))
    }
}

impl Described for u128 {
    type By = AsInteger;
}

impl Integer for u128 {
    ghost numbers = { unsigned 128 };

    ghost number = { λ n. pos n };

    fn from_integer(tag: Tag, octets: &[u8]) -> Result<u128, Error> {
        Ok(unsigned_of(tag, octets, 128)?)
    }

    fn sign_and_bits(&self) -> (bool, u128) {
        (false, *self)
    }
}

impl Described for i8 {
    type By = AsInteger;
}

impl Integer for i8 {
    ghost numbers = { signed 8 };

    ghost number = { λ z. z };

    fn from_integer(tag: Tag, octets: &[u8]) -> Result<i8, Error> {
        let (negative, number) = signed_of(tag, octets, 8)?;
        let number = number as i8;
        Ok(if negative { -1 - number } else { number })
    }

    fn sign_and_bits(&self) -> (bool, u128) {
        let number = *self;
        let bits = if number < 0 { -1 - number } else { number };
        (number < 0, bits as u128)
    }
}

impl Described for i16 {
    type By = AsInteger;
}

impl Integer for i16 {
    ghost numbers = { signed 16 };

    ghost number = { λ z. z };

    fn from_integer(tag: Tag, octets: &[u8]) -> Result<i16, Error> {
        let (negative, number) = signed_of(tag, octets, 16)?;
        let number = number as i16;
        Ok(if negative { -1 - number } else { number })
    }

    fn sign_and_bits(&self) -> (bool, u128) {
        let number = *self;
        let bits = if number < 0 { -1 - number } else { number };
        (number < 0, bits as u128)
    }
}

impl Described for i32 {
    type By = AsInteger;
}

impl Integer for i32 {
    ghost numbers = { signed 32 };

    ghost number = { λ z. z };

    fn from_integer(tag: Tag, octets: &[u8]) -> Result<i32, Error> {
        let (negative, number) = signed_of(tag, octets, 32)?;
        let number = number as i32;
        Ok(if negative { -1 - number } else { number })
    }

    fn sign_and_bits(&self) -> (bool, u128) {
        let number = *self;
        let bits = if number < 0 { -1 - number } else { number };
        (number < 0, bits as u128)
    }
}

impl Described for i64 {
    type By = AsInteger;
}

impl Integer for i64 {
    ghost numbers = { signed 64 };

    ghost number = { λ z. z };

    fn from_integer(tag: Tag, octets: &[u8]) -> Result<i64, Error> {
        let (negative, number) = signed_of(tag, octets, 64)?;
        let number = number as i64;
        Ok(if negative { -1 - number } else { number })
    }

    fn sign_and_bits(&self) -> (bool, u128) {
        let number = *self;
        let bits = if number < 0 { -1 - number } else { number };
        (number < 0, bits as u128)
    }
}

impl Described for i128 {
    type By = AsInteger;
}

impl Integer for i128 {
    ghost numbers = { signed 128 };

    ghost number = { λ z. z };

    fn from_integer(tag: Tag, octets: &[u8]) -> Result<i128, Error> {
        let (negative, number) = signed_of(tag, octets, 128)?;
        let number = number as i128;
        Ok(if negative { -1 - number } else { number })
    }

    fn sign_and_bits(&self) -> (bool, u128) {
        let number = *self;
        let bits = if number < 0 { -1 - number } else { number };
        (number < 0, bits as u128)
    }
}
