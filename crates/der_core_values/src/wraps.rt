//! Types of one field, which are encoded as that field.

ghost use Rattle.std.specs.Prelude.{◌≡◌};

use crate::decode::{DecodeValue, FixedTag};
use crate::elements::{ApartValue, AsReadValue};
use crate::encode::EncodeValue;
use crate::in_range::InRangeValue;
use crate::ways::{AsReadWay, DecodeWay, RangeWay, TagWay, Way};
use der_core_octets::core_head::{Error, Length, Tag};
use der_core_octets::{Header, Reader, Writer};
use std::alloc::Global;
use std::marker::PhantomData;

/// A type of one field, which is made from a value of that field.
pub trait Wraps<F>: From<F> {
    /// Maps a value to its field.
    ghost inner: { Self → F };

    /// Returns the field.
    fn inner(&self) -> &F
        ensures { result.now ≡ inner self.now };

    /// A value that is made from a field has this field.
    ghost made: { (field : F) (value : Self) → Self.from_gives field value → inner value ≡ field };
}

/// Returns the value with this field.
fn wrapped<F, T: Wraps<F>>(field: F) -> T
    ensures { T.inner result ≡ field }
{
    T::from(field)
}

/// Describes a type of one field of type `F`. It has the tag, the content, the range and the order
/// of its field.
pub struct AsField<F> {
    of: PhantomData<F>,
}

impl<F: EncodeValue + ApartValue, T: Wraps<F>> Way<T> for AsField<F> {
    ghost content_by = { F.content };

    ghost plain_by = { λ x. F.value_plain (T.inner x) };

    ghost written_by = { λ x. F.value_written (T.inner x) };

    fn len_by(value: &T) -> Result<Length, Error> {
        value.inner().value_len()
    }

    fn encode_by<W: Writer>(value: &T, writer: &mut W) -> Result<(), Error> {
        value.inner().encode_value(writer)
    }

    ghost apart_by = { F.apart_value };
}

impl<F: FixedTag, T> TagWay<T> for AsField<F> {
    ghost tag_by = { F.fixed_tag };

    fn tag_of() -> Tag {
        F::tag()
    }
}

impl<F: EncodeValue + ApartValue + AsReadValue, T: Wraps<F>> AsReadWay<T> for AsField<F> {
    ghost as_read_by = { λ x. F.as_read_value (T.inner x) };
}

impl<'a, R: Reader<'a>, F: DecodeValue<'a, R> + EncodeValue + ApartValue, T: Wraps<F>> DecodeWay<
    'a,
    R,
    T,
> for AsField<F> {
    fn decode_by(alloc: Global, reader: &mut R, header: Header) -> Result<T, Error> {
        Ok(wrapped(F::decode_value(alloc, reader, header)?))
    }
}

impl<F: EncodeValue + ApartValue + InRangeValue, T: Wraps<F>> RangeWay<T> for AsField<F> {
    fn range_by(value: &T) {
        value.inner().value_in_range();
    }
}
