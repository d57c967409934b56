//! Fields and rows of fields that are decoded (`read_row!`).
//!
//! As for borrowed fields (`LentField`, `LentRow`), one trait has the operations on a field and one
//! those on a row, and neither has supertraits.

ghost use Rattle.der_core_coding.specs.CoreHead.Grammar.{plain_option};
ghost use Rattle.der_core_coding.specs.CoreHead.Reading.{Reads, read_at, read_body_at};
ghost use Rattle.der_core_coding.specs.CoreHead.Shapes.{Shape, Value, Body, BodyValue, tagged};
ghost use Rattle.der_core_coding.specs.CoreHead.Shapes.{optional, defaulted, explicit, field, done};
ghost use Rattle.der_core_coding.specs.CoreHead.Tags.{implicit_tag};

use der_core_coding::core_head::{Error, Tag};
use der_core_coding::core_octets::Reader;
use der_core_coding::core_values::{Choice, Decode, DecodeRow, DecodeValue, FixedTag, Shaped};
use der_core_coding::{DefaultValue, Explicit, Implicit, WithDefault};
use std::alloc::Global;

/// A field that is decoded.
pub trait ReadField<'a, R: Reader<'a>>: Sized {
    /// The shape of the field.
    ghost shape: { Shape };

    /// Maps a field to its abstract value.
    ghost plain: { Self → Value shape };

    /// Decodes the field, as `Decode::decode` does.
    ///
    /// # Errors
    ///
    /// The errors of `Decode::decode`.
    fn read_field(alloc: Global, reader: &mut R) -> Result<Self, Error>
        ensures { Reads plain (R.state reader.old) (R.state reader.new) result
            (read_at (R.state reader.old) shape) };
}

/// A row of fields that is decoded, as nested pairs such as `(A, (B, (C, ())))`.
pub trait ReadRow<'a, R: Reader<'a>>: Sized {
    /// The shapes of the fields.
    ghost fields: { Body };

    /// Maps a value to the abstract values of its fields.
    ghost fields_plain: { Self → BodyValue fields };

    /// Decodes the fields, as `DecodeRow::decode_row` does.
    ///
    /// # Errors
    ///
    /// The errors of `DecodeRow::decode_row`.
    fn read_row(alloc: Global, reader: &mut R) -> Result<Self, Error>
        ensures { Reads fields_plain (R.state reader.old) (R.state reader.new) result
            (read_body_at (R.state reader.old) fields) };
}

/// A field without a tag of its own and without a default.
#[derive(Drop)]
pub struct Whole<T>(pub T);

impl<T: Shaped> Shaped for Whole<T> {
    ghost shape = { T.shape };

    ghost plain = { λ x. T.plain x.0 };

    ghost written = { λ x. T.written x.0 };
}

impl<T: Choice> Choice for Whole<T> {
    fn can_decode(tag: Tag) -> bool {
        T::can_decode(tag)
    }
}

impl<'a, R: Reader<'a>, T: Decode<'a, R>> ReadField<'a, R> for Whole<T> {
    ghost shape = { T.shape };

    ghost plain = { λ x. T.plain x.0 };

    #[inline(always)]
    fn read_field(alloc: Global, reader: &mut R) -> Result<Whole<T>, Error> {
        let value = T::decode(alloc, reader)?;
        Ok(Whole(value))
    }
}

/// A field that is absent decodes to the default.
impl<'a, R: Reader<'a>, T: Decode<'a, R> + Choice + DefaultValue> ReadField<'a, R>
    for WithDefault<T> {
    ghost shape = { defaulted T.shape T.default_octets };

    ghost plain = { λ x. T.plain x.value };

    #[inline(always)]
    fn read_field(alloc: Global, reader: &mut R) -> Result<WithDefault<T>, Error> {
        let field = Decode::decode(alloc, reader)?;
        Ok(field)
    }
}

/// The implicit tag replaces the tag of the value.
impl<'a, R: Reader<'a>, T: DecodeValue<'a, R> + FixedTag, const N: u32> ReadField<'a, R>
    for Implicit<T, N> {
    ghost shape = { tagged (implicit_tag N T.fixed_tag) T.content };

    ghost plain = { λ x. T.value_plain x.value };

    #[inline(always)]
    fn read_field(alloc: Global, reader: &mut R) -> Result<Implicit<T, N>, Error> {
        let field = Decode::decode(alloc, reader)?;
        Ok(field)
    }
}

/// The implicit tag replaces the tag of the value. A field that is absent decodes to `None`.
impl<'a, R: Reader<'a>, T: DecodeValue<'a, R> + FixedTag, const N: u32> ReadField<'a, R>
    for Option<Implicit<T, N>> {
    ghost shape = { optional (tagged (implicit_tag N T.fixed_tag) T.content) };

    ghost plain = { plain_option (λ x. T.value_plain x.value) };

    #[inline(always)]
    fn read_field(alloc: Global, reader: &mut R) -> Result<Option<Implicit<T, N>>, Error> {
        let field = Decode::decode(alloc, reader)?;
        Ok(field)
    }
}

/// The explicit tag encloses the value.
impl<'a, R: Reader<'a>, T: Decode<'a, R>, const N: u32> ReadField<'a, R> for Explicit<T, N> {
    ghost shape = { explicit N T.shape };

    ghost plain = { λ x. T.plain x.value };

    #[inline(always)]
    fn read_field(alloc: Global, reader: &mut R) -> Result<Explicit<T, N>, Error> {
        let field = Decode::decode(alloc, reader)?;
        Ok(field)
    }
}

/// The explicit tag encloses the value. A field that is absent decodes to `None`.
impl<'a, R: Reader<'a>, T: Decode<'a, R>, const N: u32> ReadField<'a, R>
    for Option<Explicit<T, N>> {
    ghost shape = { optional (explicit N T.shape) };

    ghost plain = { plain_option (λ x. T.plain x.value) };

    #[inline(always)]
    fn read_field(alloc: Global, reader: &mut R) -> Result<Option<Explicit<T, N>>, Error> {
        let field = Decode::decode(alloc, reader)?;
        Ok(field)
    }
}

impl<'a, R: Reader<'a>> ReadRow<'a, R> for () {
    ghost fields = { done };

    ghost fields_plain = { λ x. x };

    #[inline(always)]
    fn read_row(alloc: Global, reader: &mut R) -> Result<(), Error> {
        let row = DecodeRow::decode_row(alloc, reader)?;
        Ok(row)
    }
}

impl<'a, R: Reader<'a>, A: ReadField<'a, R> + Drop, B: ReadRow<'a, R>> ReadRow<'a, R> for (A, B) {
    ghost fields = { field A.shape B.fields };

    ghost fields_plain = { λ x. (A.plain x.0, B.fields_plain x.1) };

    fn read_row(alloc: Global, reader: &mut R) -> Result<(A, B), Error> {
        let first = A::read_field(alloc, reader)?;
        let others = B::read_row(alloc, reader)?;
        Ok((first, others))
    }
}
