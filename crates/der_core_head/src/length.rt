//! Lengths in bytes.

ghost use Rattle.std.specs.Prelude.{◌≡◌, ◌↔◌, ◌+◌, ◌-◌, ◌≤◌, ℕ, IsTrue, min, Ok, length};
ghost use Rattle.der_core_head.specs.Heads.{length_octets, head_octets};
ghost use Rattle.der_core_head.specs.Limits.{length_max};
ghost use Rattle.der_core_head.specs.Lengths.{difference_len, AddsTo, TakesFrom};
ghost use Rattle.der_core_head.specs.Reading.{GivesNow};
ghost use Rattle.der_core_head.specs.Tags.{tag_octets};
ghost use Rattle.der_core_head.specs.Writing.{fit_len, sum_len};

use crate::error::{Error, ErrorKind};
use crate::tag::{Tag, number_of};
use std::fmt;
use std::ops::{Add, Sub};

/// A length in bytes, from 0 to 2^32 - 1 (X.690 8.1.3).
#[derive(Clone, Copy, Debug, PartialEq, Eq, PartialOrd, Ord, Hash)]
pub struct Length {
    /// The number of bytes.
    pub value: u32,
}

impl Length {
    /// The length 0.
    pub const ZERO: Length = Length { value: 0 };

    /// The length 1.
    pub const ONE: Length = Length { value: 1 };

    /// The greatest length, 2^32 - 1.
    pub const MAX: Length = Length { value: u32::MAX };

    /// Returns the length of this many bytes.
    pub fn new(value: u32) -> Length
        ensures { result.value ≡ value }
    {
        Length { value }
    }

    /// Returns whether the length is 0.
    pub fn is_zero(self) -> bool
        ensures { IsTrue result ↔ (self.value ≡ 0) }
    {
        self.value == 0
    }

    /// Returns the length of a whole encoding: the header with this tag and this length, and the
    /// content (X.690 8.1.1).
    ///
    /// # Errors
    ///
    /// - `Overflow`: the length is 2^32 or more.
    pub fn for_tlv(self, tag: Tag) -> Result<Length, Error>
        ensures { GivesNow (λ l. l.value) result
            (sum_len (length (head_octets tag self.value)) self.value) }
    {
        header_len(tag, self) + self
    }

    /// Returns the sum, or `MAX` if the sum would exceed it.
    pub fn saturating_add(self, other: Length) -> Length
        ensures { result.value ≡ min (self.value + other.value) length_max }
    {
        Length::new(self.value.saturating_add(other.value))
    }

    /// Returns the difference, or `ZERO` if the other length is greater.
    pub fn saturating_sub(self, other: Length) -> Length
        ensures { result.value ≡ self.value - other.value }
    {
        Length::new(self.value.saturating_sub(other.value))
    }
}

/// Returns the number of bytes of an encoded tag.
#[tactic(auto, using(crate::proofs::TagLaws::tag_forms))]
fn tag_len(tag: Tag) -> u32
    ensures octets { result ≡ length (tag_octets tag) }
    ensures few { result ≤ 6 }
{
    match number_of(tag) {
        0..=30 => 1,
        31..=0x7f => 2,
        0x80..=0x3fff => 3,
        0x4000..=0x1f_ffff => 4,
        0x20_0000..=0xfff_ffff => 5,
        _ => 6,
    }
}

/// Returns the number of bytes of an encoded length.
#[tactic(auto, using(crate::proofs::HeadLaws::length_forms))]
fn length_len(len: Length) -> u32
    ensures octets { result ≡ length (length_octets len.value) }
    ensures few { result ≤ 5 }
{
    match len.value {
        0..=0x7f => 1,
        0x80..=0xff => 2,
        0x100..=0xffff => 3,
        0x1_0000..=0xff_ffff => 4,
        _ => 5,
    }
}

/// Returns the number of bytes of a header with this tag and this length of the content.
#[tactic(auto, unfolding(crate::specs::Heads::head_octets))]
pub fn header_len(tag: Tag, len: Length) -> Length
    ensures { result.value ≡ length (head_octets tag len.value) }
{
    Length::new(tag_len(tag) + length_len(len))
}

/// Adds two lengths. A sum of 2^32 or more is `Overflow`.
impl Add for Length {
    type Output = Result<Length, Error>;

    ghost add_gives = { λ a b r. GivesNow (λ l. l.value) r (sum_len a.value b.value) };

    fn add(self, other: Length) -> Result<Length, Error> {
        match self.value.checked_add(other.value) {
            Some(value) => Ok(Length { value }),
            None => Err(Error::from(ErrorKind::Overflow)),
        }
    }
}

/// Adds a length to a result. An error stays.
impl Add<Length> for Result<Length, Error> {
    type Output = Result<Length, Error>;

    ghost add_gives = { AddsTo };

    fn add(self, other: Length) -> Result<Length, Error> {
        self? + other
    }
}

impl Add<u8> for Length {
    type Output = Result<Length, Error>;

    ghost add_gives = { λ a n r. GivesNow (λ l. l.value) r (sum_len a.value n) };

    fn add(self, other: u8) -> Result<Length, Error> {
        self + Length::from(other)
    }
}

impl Add<u16> for Length {
    type Output = Result<Length, Error>;

    ghost add_gives = { λ a n r. GivesNow (λ l. l.value) r (sum_len a.value n) };

    fn add(self, other: u16) -> Result<Length, Error> {
        self + Length::from(other)
    }
}

impl Add<u32> for Length {
    type Output = Result<Length, Error>;

    ghost add_gives = { λ a n r. GivesNow (λ l. l.value) r (sum_len a.value n) };

    fn add(self, other: u32) -> Result<Length, Error> {
        self + Length::from(other)
    }
}

impl Add<usize> for Length {
    type Output = Result<Length, Error>;

    ghost add_gives = { λ a n r. GivesNow (λ l. l.value) r (sum_len a.value n) };

    fn add(self, other: usize) -> Result<Length, Error> {
        self + Length::try_from(other)?
    }
}

/// Subtracts a length. A difference below 0 is `Overflow`.
impl Sub for Length {
    type Output = Result<Length, Error>;

    ghost sub_gives = { λ a b r. GivesNow (λ l. l.value) r (difference_len a.value b.value) };

    fn sub(self, other: Length) -> Result<Length, Error> {
        match self.value.checked_sub(other.value) {
            Some(value) => Ok(Length { value }),
            None => Err(Error::from(ErrorKind::Overflow)),
        }
    }
}

/// Subtracts a length from a result. An error stays.
impl Sub<Length> for Result<Length, Error> {
    type Output = Result<Length, Error>;

    ghost sub_gives = { TakesFrom };

    fn sub(self, other: Length) -> Result<Length, Error> {
        self? - other
    }
}

impl Sub<u8> for Length {
    type Output = Result<Length, Error>;

    ghost sub_gives = { λ a n r. GivesNow (λ l. l.value) r (difference_len a.value n) };

    fn sub(self, other: u8) -> Result<Length, Error> {
        self - Length::from(other)
    }
}

impl Sub<u16> for Length {
    type Output = Result<Length, Error>;

    ghost sub_gives = { λ a n r. GivesNow (λ l. l.value) r (difference_len a.value n) };

    fn sub(self, other: u16) -> Result<Length, Error> {
        self - Length::from(other)
    }
}

impl Sub<u32> for Length {
    type Output = Result<Length, Error>;

    ghost sub_gives = { λ a n r. GivesNow (λ l. l.value) r (difference_len a.value n) };

    fn sub(self, other: u32) -> Result<Length, Error> {
        self - Length::from(other)
    }
}

impl Sub<usize> for Length {
    type Output = Result<Length, Error>;

    ghost sub_gives = { λ a n r. GivesNow (λ l. l.value) r (difference_len a.value n) };

    fn sub(self, other: usize) -> Result<Length, Error> {
        self - Length::try_from(other)?
    }
}

impl From<u8> for Length {
    ghost from_gives = { λ n l. l.value ≡ n };

    fn from(value: u8) -> Length {
        Length::new(u32::from(value))
    }
}

impl From<u16> for Length {
    ghost from_gives = { λ n l. l.value ≡ n };

    fn from(value: u16) -> Length {
        Length::new(u32::from(value))
    }
}

impl From<u32> for Length {
    ghost from_gives = { λ n l. l.value ≡ n };

    fn from(value: u32) -> Length {
        Length { value }
    }
}

/// Converts a number. 2^32 or more is `Overflow`.
impl TryFrom<usize> for Length {
    type Error = Error;

    ghost try_from_gives = { λ n r. GivesNow (λ l. l.value) r (fit_len n) };

    fn try_from(value: usize) -> Result<Length, Error> {
        let value = u32::try_from(value)?;
        Ok(Length { value })
    }
}

impl From<Length> for u32 {
    ghost from_gives = { λ l n. n ≡ l.value };

    fn from(len: Length) -> u32 {
        len.value
    }
}

/// Converts a length, which always fits.
impl TryFrom<Length> for usize {
    type Error = Error;

    ghost try_from_gives = { λ l r. r ≡ Ok l.value };

    fn try_from(len: Length) -> Result<usize, Error> {
        Ok(len.value as usize)
    }
}

/// Prints the number in decimal.
impl fmt::Display for Length {
    ghost output = { λ l. ⟦<u32 as fmt::Display>⟧.output l.value };

    fn fmt<W: fmt::Write>(&self, f: &mut fmt::Formatter<W>) -> fmt::Result {
        let value = self.value;
        write!(f, "{value}")
    }
}
