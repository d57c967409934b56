//! Values of any type, and the values that they are converted to.

use crate::leaves;
use crate::questions::{Asked, Question, answer_as};
use crate::refusals::Refusal;
use crate::shown::{named, read, written_in};
use der_core::describing::{DecodeWay, Described};
use der_core::{Encode, EncodeValue, EncodingRules, Error, FixedTag, FromDer, SliceReader};
use der_types::{
    Any, AnyRef, GeneralStringRef, IntRef, Null, OctetStringRef, PrintableStringRef, SequenceRef,
    Utf8StringRef,
};
use std::alloc::Global;

/// Returns the answer for a type that this module names.
pub fn answer(alloc: Global, kind: &str, question: &Question<'_>) -> Result<String, Refusal> {
    match kind {
        "Any" => answer_of_any(alloc, question),
        "AnyRef" => answer_as::<AnyRef>(alloc, question),
        _ => Err(Refusal::Unread),
    }
}

/// Returns the answer for values of any type. Their contents are compared, whatever their tags.
fn answer_of_any(alloc: Global, question: &Question<'_>) -> Result<String, Refusal> {
    match question.asked {
        Asked::Contents => {
            let first = Any::from_der(alloc, question.first)?;
            let second = Any::from_der(alloc, question.second)?;
            named(alloc, first.value_cmp(&second))
        }
        _ => answer_as::<Any>(alloc, question),
    }
}

/// A call that converts a value of any type.
#[derive(Clone, Copy)]
pub enum Conversion {
    /// Converts an owned value.
    Owned,
    /// Converts a borrowed value.
    Lent,
    /// Converts an owned value, and converts the result back.
    Again,
}

/// Answers a question about converting a value of any type, or about converting to one.
pub fn answer_of_conversions(
    alloc: Global,
    word: &str,
    kind: &str,
    octets: &[u8],
) -> Result<String, Refusal> {
    if word == "any-ref-from" {
        return lent_from(alloc, kind, octets);
    }
    answer_of_conversion(alloc, word, kind, &FromDer::from_der(alloc, octets)?)
}

/// Answers a question about decoding or converting a value of any type.
fn answer_of_conversion(
    alloc: Global,
    word: &str,
    kind: &str,
    any: &Any,
) -> Result<String, Refusal> {
    let asked = match word {
        "any-as" => Asked::As(any, EncodingRules::Der),
        "any-as-ber" => Asked::As(any, EncodingRules::Ber),
        "any-into" => Asked::Converted(any, Conversion::Owned),
        "any-ref-into" => Asked::Converted(any, Conversion::Lent),
        "any-from" => Asked::Converted(any, Conversion::Again),
        _ => return Err(Refusal::Unread),
    };
    let question = Question {
        asked,
        first: &[],
        second: &[],
    };
    leaves::answer(alloc, kind, &question)
}

/// Returns the encoding of the value that a value of any type is converted to.
pub fn converted<
    'a,
    T: TryFrom<&'a Any, Error = Error>
        + TryFrom<AnyRef<'a>, Error = Error>
        + EncodeValue
        + FixedTag
        + Drop,
>(alloc: Global, any: &'a Any, conversion: Conversion) -> Result<String, Refusal> {
    match conversion {
        Conversion::Owned => written_in(alloc, T::try_from(any)),
        Conversion::Lent => written_in(alloc, T::try_from(any.to_ref())),
        Conversion::Again => written_in(alloc, again::<T>(alloc, any)),
    }
}

/// Converts a value of any type to `T`, and the result back.
fn again<'a, T: TryFrom<&'a Any, Error = Error> + EncodeValue + FixedTag + Drop>(
    alloc: Global,
    any: &'a Any,
) -> Result<Any, Error> {
    Any::encode_from(alloc, &T::try_from(any)?)
}

/// Returns the encoding of the value of any type that borrows from the decoded value.
fn lent_from(alloc: Global, kind: &str, octets: &[u8]) -> Result<String, Refusal> {
    match kind {
        "IntRef" => lent_from_value::<IntRef>(alloc, octets),
        "Null" => lent_from_value::<Null>(alloc, octets),
        "OctetStringRef" => lent_from_value::<OctetStringRef>(alloc, octets),
        "SequenceRef" => lent_from_value::<SequenceRef>(alloc, octets),
        "PrintableStringRef" => lent_from_value::<PrintableStringRef>(alloc, octets),
        "GeneralStringRef" => lent_from_value::<GeneralStringRef>(alloc, octets),
        "Utf8StringRef" => lent_from_value::<Utf8StringRef>(alloc, octets),
        "str" => lent_from_text(alloc, octets),
        _ => Err(Refusal::Unread),
    }
}

/// Returns the encoding of the value of any type that a value is converted to.
fn lent_from_value<'a, T: Described + FixedTag + Into<AnyRef<'a>> + Drop>(
    alloc: Global,
    octets: &'a [u8],
) -> Result<String, Refusal>
where
    T::By: DecodeWay<'a, SliceReader<'a>, T>,
{
    let value: T = read(alloc, octets)?;
    let any: AnyRef<'a> = value.into();
    written_in(alloc, Ok(any))
}

/// Returns the encoding of the value of any type that a text is converted to.
fn lent_from_text(alloc: Global, octets: &[u8]) -> Result<String, Refusal> {
    let text: &str = read(alloc, octets)?;
    written_in(alloc, AnyRef::try_from(text))
}
