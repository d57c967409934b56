//! Fields of sequences, and values with tags of other classes.

ghost use Rattle.std.specs.Prelude.{◌≡◌, IfOk, IfSome};
ghost use Rattle.der_core.specs.TagModeTypes.TagMode.TheVariants as modes;
ghost use Rattle.der_types.specs.ClassFields.{IsClass};

use crate::entry::Entry;
use crate::questions::{Asked, Question, answer_of_value};
use crate::refusals::Refusal;
use crate::shown::{front_of, hex_in, joined, name_of, named, octets_of};
use crate::{any_values, record};
use der_core::{
    CLASS_APPLICATION as APPLICATION, CLASS_CONTEXT_SPECIFIC as CONTEXT, CLASS_PRIVATE as PRIVATE,
    Decode, DecodeValue, Encode, EncodeValue, Error, Explicit, FixedTag, Implicit, Reader,
    SliceReader, TagMode, TagNumber, WithDefault,
};
use der_types::{
    AnyRef, BitString, ClassField, ContextSpecific, ContextSpecificRef, OctetStringRef,
};
use std::alloc::{AllocError, Global};

/// Returns the answer for a type that this module names, or that a later module names.
pub fn answer(alloc: Global, kind: &str, question: &Question<'_>) -> Result<String, Refusal> {
    match kind {
        "EachKind" => answer_of_six::<
            u8,
            OctetStringRef,
            Implicit<u8, 1>,
            WithDefault<bool>,
            Option<Explicit<bool, 31>>,
            Option<AnyRef>,
        >(alloc, question),
        "Entry" => answer_of_value::<Entry>(alloc, question),
        "ContextSpecific<u8>" => answer_of_class::<CONTEXT>(alloc, question),
        "Application<u8>" => answer_of_class::<APPLICATION>(alloc, question),
        "Private<u8>" => answer_of_class::<PRIVATE>(alloc, question),
        _ => any_values::answer(alloc, kind, question),
    }
}

/// Returns the answer for a record of six fields, of any types.
fn answer_of_six<
    'a,
    A: Decode<'a, SliceReader<'a>> + Encode,
    B: Decode<'a, SliceReader<'a>> + Encode,
    C: Decode<'a, SliceReader<'a>> + Encode,
    D: Decode<'a, SliceReader<'a>> + Encode,
    E: Decode<'a, SliceReader<'a>> + Encode,
    F: Decode<'a, SliceReader<'a>> + Encode,
>(alloc: Global, question: &Question<'a>) -> Result<String, Refusal> {
    record::answer::<(A, (B, (C, (D, (E, (F, ()))))))>(alloc, question)
}

/// Returns the answer for a field with any tag number, whose tag comes before the value's own.
fn answer_of_class<const CLASS: u8>(
    alloc: Global,
    question: &Question<'_>,
) -> Result<String, Refusal>
    requires { IsClass CLASS }
{
    match question.asked {
        Asked::Der => {
            let field = of_any_number::<u8, CLASS>(alloc, question.first)?;
            hex_in(alloc, field.to_der(alloc))
        }
        Asked::Order => {
            let first = of_any_number::<u8, CLASS>(alloc, question.first)?;
            let second = of_any_number::<u8, CLASS>(alloc, question.second)?;
            named(alloc, first.der_cmp(&second))
        }
        _ => Err(Refusal::Unread),
    }
}

/// Decodes a field with any tag number from all of the bytes.
fn of_any_number<'a, T: DecodeValue<'a, SliceReader<'a>> + FixedTag + Drop, const CLASS: u8>(
    alloc: Global,
    octets: &'a [u8],
) -> Result<ClassField<T, CLASS>, Error>
    requires { IsClass CLASS }
    ensures { IfOk result (λ f. f.tag_mode ≡ modes.Explicit) }
{
    let mut reader = SliceReader::new(octets)?;
    let field = ClassField::decode(alloc, &mut reader)?;
    reader.finish()?;
    Ok(field)
}

/// A tagging mode, a tag number, and bytes that may begin with such a field.
#[derive(Clone, Copy)]
struct Numbered<'a> {
    mode: TagMode,
    number: TagNumber,
    octets: &'a [u8],
}

/// Answers a question about fields with a tag number.
pub fn answer_of_number(alloc: Global, word: &str, rest: &str) -> Result<String, Refusal> {
    let (kind, rest) = rest.split_once(' ').ok_or(Refusal::Unread)?;
    let (number, rest) = front_of(rest);
    let (first, second) = front_of(rest);
    let number = TagNumber {
        value: number.parse().ok().ok_or(Refusal::Unread)?,
    };
    let mode = match word {
        "explicit" => TagMode::Explicit,
        _ => TagMode::Implicit,
    };
    let first = octets_of(alloc, first)?;
    let second = octets_of(alloc, second)?;
    let field = Numbered {
        mode,
        number,
        octets: first.as_slice(),
    };
    if second.is_empty() {
        written_of(alloc, kind, &field)
    } else {
        order_of(alloc, kind, &field, second.as_slice())
    }
}

/// Returns the encoding of the field, by the name of its type.
fn written_of(alloc: Global, kind: &str, field: &Numbered<'_>) -> Result<String, Refusal> {
    match kind {
        "ContextSpecific<u8>" => owned(alloc, read_field::<u8, CONTEXT>(alloc, field)),
        "ContextSpecific<Vec<u8>>" => owned(alloc, read_field::<Vec<u8>, CONTEXT>(alloc, field)),
        "ContextSpecific<BitString>" => owned(
            alloc,
            read_field::<BitString, CONTEXT>(alloc, field),
        ),
        "ContextSpecificRef<u8>" => lent::<CONTEXT>(alloc, field),
        "Application<u8>" => owned(alloc, read_field::<u8, APPLICATION>(alloc, field)),
        "ApplicationRef<u8>" => lent::<APPLICATION>(alloc, field),
        "Private<u8>" => owned(alloc, read_field::<u8, PRIVATE>(alloc, field)),
        "PrivateRef<u8>" => lent::<PRIVATE>(alloc, field),
        _ => Err(Refusal::Unread),
    }
}

/// A field, if the bytes begin with one, and the number of bytes after it.
type Front<T, const CLASS: u8> = (Option<ClassField<T, CLASS>>, u32);

/// Decodes the field with which the bytes may begin.
fn read_field<'a, T: DecodeValue<'a, SliceReader<'a>> + FixedTag + Drop, const CLASS: u8>(
    alloc: Global,
    field: &Numbered<'a>,
) -> Result<Front<T, CLASS>, Error>
    requires { IsClass CLASS }
    ensures { IfOk result (λ x. IfSome x.0 (λ f. f.tag_mode ≡ field.now.mode)) }
{
    let mut reader = SliceReader::new(field.octets)?;
    let read = match field.mode {
        TagMode::Explicit => ClassField::decode_explicit(alloc, &mut reader, field.number)?,
        TagMode::Implicit => ClassField::decode_implicit(alloc, &mut reader, field.number)?,
    };
    Ok((read, reader.remaining_len().value))
}

/// Returns the encoding of the field, if there is one.
fn owned<T: EncodeValue + FixedTag + Drop, const CLASS: u8>(
    alloc: Global,
    outcome: Result<Front<T, CLASS>, Error>,
) -> Result<String, Refusal> {
    let (field, left) = outcome?;
    match field {
        Some(field) => found(alloc, field.to_der(alloc), left),
        None => absent(alloc, left),
    }
}

/// Returns the borrowed field with a tag number, as it is printed.
fn lent<const CLASS: u8>(alloc: Global, field: &Numbered<'_>) -> Result<String, Refusal>
    requires { IsClass CLASS }
{
    let (field, left) = read_field::<u8, CLASS>(alloc, field)?;
    match field {
        Some(field) => found(alloc, field.owned_to_ref().to_der(alloc), left),
        None => absent(alloc, left),
    }
}

/// Returns the encoding of a copy of a borrowed field with any tag number.
pub fn copy_of(alloc: Global, octets: &[u8]) -> Result<String, Refusal> {
    let field = of_any_number::<u8, CONTEXT>(alloc, octets)?;
    let copy = field.owned_to_ref().ref_to_owned()?;
    hex_in(alloc, copy.to_der(alloc))
}

/// Returns the encodings of a copy of a field with any tag number, and of a copy of a borrow of it.
pub fn copies_of(alloc: Global, octets: &[u8]) -> Result<String, Refusal> {
    let field = of_any_number::<BitString, CONTEXT>(alloc, octets)?;
    let copy = copy_written(alloc, field.clone());
    joined(copy, " ", lent_copy_written(alloc, &field.owned_to_ref()))
}

/// Returns the encoding of a copied field.
fn copy_written(
    alloc: Global,
    copy: Result<ContextSpecific<BitString>, AllocError>,
) -> Result<String, Refusal> {
    let copy = copy?;
    hex_in(alloc, copy.to_der(alloc))
}

/// Returns the encoding of the owned field that a copy of a borrowed one is converted to.
fn lent_copy_written(
    alloc: Global,
    lent: &ContextSpecificRef<'_, BitString>,
) -> Result<String, Refusal> {
    match lent.clone() {
        Ok(copy) => copy_written(alloc, copy.ref_to_owned()),
        Err(error) => Err(Refusal::from(error)),
    }
}

/// Returns the answer for a field and the number of bytes after it.
fn found(alloc: Global, octets: Result<Vec<u8>, Error>, left: u32) -> Result<String, Refusal> {
    let octets = hex_in(alloc, octets)?;
    Ok(format!(in alloc; "{octets}, {left} left")?)
}

/// Returns the answer if the bytes begin with another tag.
fn absent(alloc: Global, left: u32) -> Result<String, Refusal> {
    Ok(format!(in alloc; "absent, {left} left")?)
}

/// Returns the order of two fields with the same mode and tag number, and the order of their
/// contents.
fn order_of(
    alloc: Global,
    kind: &str,
    field: &Numbered<'_>,
    other: &[u8],
) -> Result<String, Refusal> {
    if kind != "ContextSpecific<u8>" {
        return Err(Refusal::Unread);
    }
    let other = Numbered {
        octets: other,
        ..*field
    };
    let (first, _) = read_field::<u8, CONTEXT>(alloc, field)?;
    let (second, _) = read_field::<u8, CONTEXT>(alloc, &other)?;
    let first = first.ok_or(Refusal::Unread)?;
    let second = second.ok_or(Refusal::Unread)?;
    let order = name_of(first.der_cmp(&second)?);
    let contents = name_of(first.value_cmp(&second)?);
    Ok(format!(in alloc; "{order} {contents}")?)
}
