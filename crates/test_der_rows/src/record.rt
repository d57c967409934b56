//! Sequences of fields.

ghost use Rattle.der_core.specs.TagTypes.Tag.TheVariants.{Sequence};
ghost use Rattle.der_types.specs.Shapes.{nested};

use crate::questions::{Question, answer_of_plain, answer_of_value, answer_with_debug};
use crate::refusals::Refusal;
use der_core::describing::{DecodeRow, FieldRow};
use der_core::making::read_fields;
use der_core::{
    Decode, DecodeFields, DecodeValue, Encode, EncodeFields, EncodeValue, Error, Fields, FieldsOrd,
    FixedTag, Header, Length, Reader, ShapedValue, SliceReader, Tag, ValueOrd, Writer,
};
use std::alloc::Global;
use std::cmp::Ordering;
use std::fmt::Debug;

/// A SEQUENCE whose fields are a row, as `(A, (B, ()))`.
#[derive(Debug, Drop)]
pub struct Record<F> {
    fields: F,
}

impl<F> FixedTag for Record<F> {
    ghost fixed_tag = { Sequence };

    fn tag() -> Tag {
        Tag::Sequence
    }
}

impl<F: FieldRow> ShapedValue for Record<F> {
    ghost content = { nested F.fields };

    ghost value_plain = { λ r. F.fields_plain r.fields };

    ghost value_written = { λ r. F.fields_written r.fields };
}

impl<F: FieldRow> Fields for Record<F> {
    ghost fields = { F.fields };

    ghost fields_plain = { λ r. F.fields_plain r.fields };

    ghost fields_written = { λ r. F.fields_written r.fields };
}

impl<'a, R: Reader<'a>, F: DecodeRow<'a, R>> DecodeFields<'a, R> for Record<F> {
    fn decode_fields(alloc: Global, reader: &mut R) -> Result<Record<F>, Error> {
        let fields = F::decode_row(alloc, reader)?;
        Ok(Record { fields })
    }
}

impl<'a, R: Reader<'a>, F: DecodeRow<'a, R> + Drop> DecodeValue<'a, R> for Record<F> {
    fn decode_value(alloc: Global, reader: &mut R, header: Header) -> Result<Record<F>, Error> {
        read_fields(alloc, reader, header)
    }
}

impl<F: EncodeFields> EncodeValue for Record<F> {
    fn value_len(&self) -> Result<Length, Error> {
        self.fields.fields_len()
    }

    #[tactic(auto, unfolding(crate::specs::Opened::contents))]
    fn encode_value<W: Writer>(&self, writer: &mut W) -> Result<(), Error> {
        self.fields.encode_fields(writer)
    }
}

impl<F: FieldsOrd> ValueOrd for Record<F> {
    #[tactic(auto, unfolding(crate::specs::Opened::contents, crate::specs::Opened::IsContent))]
    fn value_cmp(&self, other: &Record<F>) -> Result<Ordering, Error> {
        self.fields.fields_cmp(&other.fields)
    }
}

/// Returns the answer for a record. It only requires the traits of the fields, because each trait
/// that is required of a record costs the check of every row that is named.
pub fn answer<'a, F: DecodeRow<'a, SliceReader<'a>> + EncodeFields + Drop>(
    alloc: Global,
    question: &Question<'a>,
) -> Result<String, Refusal> {
    answer_of_value::<Record<F>>(alloc, question)
}

/// Returns the answer for a record of three fields. It is generic, so that the requirements on
/// fields are checked once, at the call, and not for each row of them.
pub fn answer_of_three<
    'a,
    A: Decode<'a, SliceReader<'a>> + Encode,
    B: Decode<'a, SliceReader<'a>> + Encode,
    C: Decode<'a, SliceReader<'a>> + Encode,
>(alloc: Global, question: &Question<'a>) -> Result<String, Refusal> {
    answer::<(A, (B, (C, ())))>(alloc, question)
}

/// Returns the answer for a record that also has `Debug` output.
pub fn answer_and_debug<'a, F: DecodeRow<'a, SliceReader<'a>> + EncodeFields + Debug + Drop>(
    alloc: Global,
    question: &Question<'a>,
) -> Result<String, Refusal> {
    answer_with_debug::<Record<F>>(alloc, question)
}

/// Returns the answer for a record that is compared and has `Debug` output.
pub fn answer_and_order<
    'a,
    F: DecodeRow<'a, SliceReader<'a>> + EncodeFields + FieldsOrd + Debug + Drop,
>(alloc: Global, question: &Question<'a>) -> Result<String, Refusal> {
    answer_of_plain::<Record<F>>(alloc, question)
}
