//! Descriptions of types: a type names its description, and one impl of each trait serves all types
//! with that description.

ghost use Rattle.std.specs.Prelude.{◌≡◌, true};
ghost use Rattle.der_core_octets.specs.CoreHead.declared.tag.Tag.{Tag};
ghost use Rattle.der_core_octets.specs.CoreHead.Shapes.{Content, ContentValue, contents};
ghost use Rattle.der_core_octets.specs.CoreHead.Grammar.{value_at};
ghost use Rattle.der_core_octets.specs.CoreHead.Ranges.{IsContentInRange};
ghost use Rattle.der_core_octets.specs.CoreHead.Reading.{Reads, GivesNow, read_content_at};
ghost use Rattle.der_core_octets.specs.CoreHead.Spelling.{is_content_apart};
ghost use Rattle.der_core_octets.specs.CoreHead.Writing.{Writes, size_content, write_content};
ghost use Rattle.der_core_octets.specs.Outputs.{AddsFront, Continues};

use crate::decode::{DecodeValue, FixedTag, ShapedValue};
use crate::elements::{ApartValue, AsReadValue};
use crate::encode::EncodeValue;
use crate::in_range::InRangeValue;
use der_core_octets::core_head::{Error, Length, Tag};
use der_core_octets::{Header, Reader, Writer};
use std::alloc::Global;

/// A description of a type: its abstract values, the encodings of their contents, and functions
/// that encode them.
pub trait Way<T> {
    /// The shape of a content.
    ghost content_by: { Content };

    /// Maps a value to its abstract value.
    ghost plain_by: { T → ContentValue content_by };

    /// The content that is encoded. It is the content itself, unless a profile re-encodes it.
    ghost written_by: { T → ContentValue content_by };

    /// Returns the result of `EncodeValue::value_len`.
    ///
    /// # Errors
    ///
    /// - `Overflow`: the length is 2^32 or more.
    fn len_by(value: &T) -> Result<Length, Error>
        ensures { GivesNow (λ l. l.value) result
            (size_content content_by (written_by value.now)) };

    /// Encodes a content, as `EncodeValue::encode_value` does.
    ///
    /// # Errors
    ///
    /// The errors of `EncodeValue::encode_value`.
    fn encode_by<W: Writer>(value: &T, writer: &mut W) -> Result<(), Error>
        ensures exact { Writes W.takes_memory (W.out writer.old) (W.out writer.new) result
            (write_content content_by (written_by value.now)) }
        ensures kept { Continues (W.out writer.old) (W.out writer.new) }
        ensures front { AddsFront (contents content_by (written_by value.now)) (W.out writer.old)
            (W.out writer.new) };

    /// Contents have unambiguous first tags, so that each has one encoding.
    ghost apart_by: { is_content_apart content_by ≡ true };
}

/// A type that names its description, which is `AsRecord`, `AsField`, `AsOctets`, `AsLeaf`,
/// `AsInteger` or another `Way`.
///
/// The type itself implements what the description doesn't give, such as the tag of a primitive
/// type. It can be decoded if it is `Drop`.
pub trait Described: Sized {
    /// The description.
    type By: Way<Self>;
}

/// A description of types with one tag.
pub trait TagWay<T> {
    /// The tag.
    ghost tag_by: { Tag };

    /// Returns the tag.
    fn tag_of() -> Tag
        ensures { result ≡ tag_by };
}

/// A description of types whose contents are encoded as they are decoded.
pub trait AsReadWay<T>: Way<T> {
    /// The content that is encoded is the content that was decoded.
    ghost as_read_by: { (v : T) → Self.written_by v ≡ Self.plain_by v };
}

/// A description of types whose contents can be decoded.
pub trait DecodeWay<'a, R: Reader<'a>, T>: Way<T> {
    /// Decodes a content, as `DecodeValue::decode_value` does.
    ///
    /// # Errors
    ///
    /// The errors of `DecodeValue::decode_value`.
    fn decode_by(alloc: Global, reader: &mut R, header: Header) -> Result<T, Error>
        ensures { Reads Self.plain_by (R.state reader.old) (R.state reader.new) result
            (value_at (read_content_at (R.state reader.old) Self.content_by header.tag)
            header.length.value) };
}

/// A description of types whose contents are in range.
pub trait RangeWay<T>: Way<T> {
    /// The content that is encoded is in range.
    fn range_by(value: &T)
        ensures { IsContentInRange Self.content_by (Self.written_by value.now) };
}

impl<T: Described> FixedTag for T
where
    T::By: TagWay<T>,
{
    ghost fixed_tag = { T.By.tag_by };

    fn tag() -> Tag {
        <T::By as TagWay<T>>::tag_of()
    }
}

impl<T: Described> ShapedValue for T {
    ghost content = { T.By.content_by };

    ghost value_plain = { T.By.plain_by };

    ghost value_written = { T.By.written_by };
}

impl<T: Described> ApartValue for T {
    ghost apart_value = { T.By.apart_by };
}

impl<T: Described> AsReadValue for T
where
    T::By: AsReadWay<T>,
{
    ghost as_read_value = { T.By.as_read_by };
}

impl<'a, R: Reader<'a>, T: Described + Drop> DecodeValue<'a, R> for T
where
    T::By: DecodeWay<'a, R, T>,
{
    // Inlined, so that the result isn't moved.
    #[inline(always)]
    fn decode_value(alloc: Global, reader: &mut R, header: Header) -> Result<T, Error> {
        <T::By as DecodeWay<'a, R, T>>::decode_by(alloc, reader, header)
    }
}

impl<T: Described> EncodeValue for T {
    // Inlined, so that the result isn't moved.
    #[inline(always)]
    fn value_len(&self) -> Result<Length, Error> {
        <T::By as Way<T>>::len_by(self)
    }

    // Inlined, so that the result isn't moved.
    #[inline(always)]
    fn encode_value<W: Writer>(&self, writer: &mut W) -> Result<(), Error> {
        <T::By as Way<T>>::encode_by(self, writer)
    }
}

impl<T: Described> InRangeValue for T
where
    T::By: RangeWay<T>,
{
    fn value_in_range(&self) {
        <T::By as RangeWay<T>>::range_by(self);
    }
}
