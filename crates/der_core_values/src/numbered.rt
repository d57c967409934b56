//! Types with named numbers: enumerations and INTEGERs with a list of names (X.680 19.5, 20.1).

ghost use Rattle.std.specs.Prelude.{◌≡◌, ◌≢◌, ◌==◌, ℕ, List, true, pos, IfSome, IfNone, refl};
ghost use Rattle.std.specs.List.{AllByRecursion, list_any};
ghost use Rattle.der_core_octets.specs.CoreHead.declared.tag.Tag.TheVariants as tags;
ghost use Rattle.der_core_octets.specs.CoreHead.Integers.{among, integer_read};
ghost use Rattle.der_core_octets.specs.CoreHead.Leaves.{integer};
ghost use Rattle.der_core_octets.specs.CoreHead.Shapes.{leaf};
ghost use Rattle.der_core_values.specs.Numbered.{are_octets};

use crate::decode::FixedTag;
use crate::integers::{AsInteger, Integer};
use crate::leaves::decode_leaf;
use crate::ways::{AsReadWay, DecodeWay, RangeWay, TagWay, Way};
use der_core_octets::core_head::{Error, ErrorKind, Length, Tag};
use der_core_octets::{Header, Reader, Writer, unsigned_of};
use std::alloc::Global;
use std::marker::PhantomData;

/// A type whose values have numbers of eight bits. `AsNumbered` describes it, and rejects any other
/// number with the error `Value`.
pub trait Numbered: Drop {
    /// The numbers of the type's values.
    ghost known_numbers: { List ℕ };

    /// The number of a value.
    ghost known_number: { Self → ℕ };

    /// Returns the value with a number, or `None` if no value has it.
    fn from_number(number: u8) -> Option<Self>
        ensures known { IfSome result (λ v. known_number v ≡ number) }
        ensures named { IfSome result
            (λ v. list_any (λ m. m == known_number v) known_numbers ≡ true) }
        ensures unknown { IfNone result (AllByRecursion (λ m. number ≢ m) known_numbers) };

    /// Returns the number of the value.
    fn to_number(&self) -> u8
        ensures value { result ≡ known_number self.now }
        ensures named { list_any (λ m. m == result) known_numbers ≡ true };

    /// The numbers have at most eight bits.
    ghost few: { are_octets known_numbers ≡ true };
}

// A value, which is encoded as its number.
#[derive(Drop)]
struct NumberOf<T: Numbered> {
    value: T,
}

impl<T: Numbered> Integer for NumberOf<T> {
    ghost numbers = { among T.known_numbers };

    ghost number = { λ n. pos (T.known_number n.value) };

    #[tactic(auto, using(crate::proofs::NamedNumbers::unlisted))]
    fn from_integer(tag: Tag, octets: &[u8]) -> Result<NumberOf<T>, Error> {
        if octets.is_empty() {
            return Err(Error::from(ErrorKind::Length { tag }));
        }
        match unsigned_of(tag, octets, 8) {
            Ok(number) => match T::from_number(number as u8) {
                Some(value) => Ok(NumberOf { value }),
                None => Err(Error::from(ErrorKind::Value { tag })),
            },
            Err(error) => match error.kind {
                ErrorKind::Length { .. } => Err(Error::from(ErrorKind::Value { tag })),
                _ => Err(error),
            },
        }
    }

    #[tactic(auto, using(crate::proofs::Cited::listed))]
    fn sign_and_bits(&self) -> (bool, u128) {
        (false, u128::from(self.value.to_number()))
    }
}

/// The tag INTEGER.
pub struct IntegerTag;

impl FixedTag for IntegerTag {
    ghost fixed_tag = { tags.Integer };

    fn tag() -> Tag {
        Tag::Integer
    }
}

/// The tag ENUMERATED.
pub struct EnumeratedTag;

impl FixedTag for EnumeratedTag {
    ghost fixed_tag = { tags.Enumerated };

    fn tag() -> Tag {
        Tag::Enumerated
    }
}

/// Describes a type as an INTEGER with named numbers, or, with another `K`, as a type with the tag
/// of `K`.
pub struct AsNumbered<K = IntegerTag> {
    tag: PhantomData<K>,
}

/// Describes a type as an ENUMERATED (X.690 8.4).
pub type AsEnumerated = AsNumbered<EnumeratedTag>;

impl<T: Numbered, K> Way<T> for AsNumbered<K> {
    ghost content_by = { leaf (integer (among T.known_numbers)) };

    ghost plain_by = { λ v. pos (T.known_number v) };

    ghost written_by = { λ v. pos (T.known_number v) };

    fn len_by(value: &T) -> Result<Length, Error> {
        <AsInteger as Way<u8>>::len_by(&value.to_number())
    }

    #[tactic(auto, unfolding(crate::specs::Opened::contents))]
    fn encode_by<W: Writer>(value: &T, writer: &mut W) -> Result<(), Error> {
        <AsInteger as Way<u8>>::encode_by(&value.to_number(), writer)
    }

    ghost apart_by = { refl };
}

impl<T, K: FixedTag> TagWay<T> for AsNumbered<K> {
    ghost tag_by = { K.fixed_tag };

    fn tag_of() -> Tag {
        K::tag()
    }
}

impl<T: Numbered, K> AsReadWay<T> for AsNumbered<K> {
    ghost as_read_by = { λ _. refl };
}

impl<'a, R: Reader<'a>, T: Numbered, K> DecodeWay<'a, R, T> for AsNumbered<K> {
    fn decode_by(alloc: Global, reader: &mut R, header: Header) -> Result<T, Error> {
        let number: NumberOf<T> = decode_leaf(alloc, reader, header)?;
        Ok(number.value)
    }
}

impl<T: Numbered, K> RangeWay<T> for AsNumbered<K> {
    #[tactic(auto, using(crate::proofs::Cited::listed))]
    fn range_by(value: &T) {
        // `to_number` states that the number is one of the type's.
        let _number = value.to_number();
    }
}
