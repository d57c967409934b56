//! A record of ten fields, with every kind of field.

ghost use Rattle.std.proofs.Common.{inl, inr};
ghost use Rattle.test_der_rows.specs.declared.ten_fields.NumberOrText.TheVariants as choices;

use crate::questions::{Asked, Question};
use crate::record;
use crate::refusals::Refusal;
use crate::shown::named;
use const_oid::ObjectIdentifier;
use der_core::describing::{DecodeRow, FieldRow};
use der_core::{
    Choice, Decode, DerOrd, Encode, EncodeFields, EncodeRef, Error, Explicit, FromDer, Implicit,
    Length, OneOf2, Reader, Shaped, StrictSetOf, Tag, WithDefault, Writer,
};
use std::alloc::Global;
use std::fmt;
use std::fmt::Debug;

/// `NumberOrText ::= CHOICE { number INTEGER (0..255), text UTF8String }`
#[derive(Debug, Drop)]
enum NumberOrText {
    Number(u8),
    Text(String),
}

type Cases = OneOf2<u8, String>;

impl Shaped for NumberOrText {
    ghost shape = { ⟦<Cases as Shaped>⟧.shape };

    ghost plain = { λ x. elim x [
      | choices.Number n ↦ inl (⟦<u8 as Shaped>⟧.plain n)
      | choices.Text t ↦ inr (⟦<String as Shaped>⟧.plain t)
    ] };

    ghost written = { λ x. elim x [
      | choices.Number n ↦ inl (⟦<u8 as Shaped>⟧.written n)
      | choices.Text t ↦ inr (⟦<String as Shaped>⟧.written t)
    ] };
}

impl Choice for NumberOrText {
    fn can_decode(tag: Tag) -> bool {
        Cases::can_decode(tag)
    }
}

impl<'a, R: Reader<'a>> Decode<'a, R> for NumberOrText {
    fn decode(alloc: Global, reader: &mut R) -> Result<NumberOrText, Error> {
        match Cases::decode(alloc, reader)? {
            OneOf2::First(number) => Ok(NumberOrText::Number(number)),
            OneOf2::Second(text) => Ok(NumberOrText::Text(text)),
        }
    }
}

impl Encode for NumberOrText {
    fn encoded_len(&self) -> Result<Length, Error> {
        match self {
            NumberOrText::Number(number) => number.encoded_len(),
            NumberOrText::Text(text) => text.encoded_len(),
        }
    }

    #[tactic(auto, unfolding(crate::specs::Opened::octets_of))]
    fn encode<W: Writer>(&self, writer: &mut W) -> Result<(), Error> {
        match self {
            NumberOrText::Number(number) => number.encode(writer),
            NumberOrText::Text(text) => text.encode(writer),
        }
    }
}

/// ```text
/// TenFields ::= SEQUENCE {
///     version     INTEGER (0..255),
///     name        UTF8String,
///     identifier  OBJECT IDENTIFIER,
///     flag        BOOLEAN DEFAULT FALSE,
///     count       INTEGER (0..4294967295) OPTIONAL,
///     numbers     SEQUENCE OF INTEGER (0..65535),
///     mark        [0] IMPLICIT NULL OPTIONAL,
///     inner       [1] EXPLICIT INTEGER (-2^63..2^63-1),
///     choice      NumberOrText,
///     members     SET OF INTEGER (0..255) OPTIONAL }
/// ```
type TenFields = (
    u8,
    (String, (ObjectIdentifier<39>, (WithDefault<bool>, Behind))),
);

/// The fields from the fifth on, as a type of their own, because checking a row of ten fields at
/// once takes more steps than allowed.
#[derive(Drop)]
struct Behind(BehindRow);

type BehindRow = (Option<u32>, (Vec<u16>, (Option<Implicit<(), 0>>, Last)));

/// The last three fields.
type Last = (
    Explicit<i64, 1>,
    (NumberOrText, (Option<StrictSetOf<u8>>, ())),
);

impl FieldRow for Behind {
    ghost fields = { ⟦<BehindRow as FieldRow>⟧.fields };

    ghost fields_plain = { λ b. ⟦<BehindRow as FieldRow>⟧.fields_plain b.0 };

    ghost fields_written = { λ b. ⟦<BehindRow as FieldRow>⟧.fields_written b.0 };
}

impl<'a, R: Reader<'a>> DecodeRow<'a, R> for Behind {
    fn decode_row(alloc: Global, reader: &mut R) -> Result<Behind, Error> {
        let row = BehindRow::decode_row(alloc, reader)?;
        Ok(Behind(row))
    }
}

impl EncodeFields for Behind {
    fn fields_len(&self) -> Result<Length, Error> {
        self.0.fields_len()
    }

    fn encode_fields<W: Writer>(&self, writer: &mut W) -> Result<(), Error> {
        self.0.encode_fields(writer)
    }
}

impl Debug for Behind {
    fn fmt<W: fmt::Write>(&self, f: &mut fmt::Formatter<W>) -> fmt::Result {
        self.0.fmt(f)
    }
}

/// Returns the answer for the record, which isn't compared.
pub fn answer(alloc: Global, question: &Question<'_>) -> Result<String, Refusal> {
    record::answer_and_debug::<TenFields>(alloc, question)
}

/// Returns a choice in a form that is compared.
fn alternatives(choice: &NumberOrText) -> OneOf2<EncodeRef<'_, u8>, EncodeRef<'_, String>> {
    match choice {
        NumberOrText::Number(number) => OneOf2::First(EncodeRef(number)),
        NumberOrText::Text(text) => OneOf2::Second(EncodeRef(text)),
    }
}

/// Returns the answer for the choice, which is only compared.
pub fn answer_of_choice(alloc: Global, question: &Question<'_>) -> Result<String, Refusal> {
    match question.asked {
        Asked::Order => {
            let first = NumberOrText::from_der(alloc, question.first)?;
            let second = NumberOrText::from_der(alloc, question.second)?;
            named(alloc, alternatives(&first).der_cmp(&alternatives(&second)))
        }
        _ => Err(Refusal::Unread),
    }
}
