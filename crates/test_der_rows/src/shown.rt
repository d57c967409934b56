//! The texts of answers.
//!
//! Each answer is one call, because a `?` costs the check more than a call, and most if a value
//! that needs to be dropped is owned there.

use crate::refusals::Refusal;
use der_core::describing::{DecodeWay, Described};
use der_core::{DecodeValue, Encode, Error, FixedTag, FromDer, SliceReader, ToDer};
use std::alloc::Global;
use std::cmp::Ordering;
use std::fmt::{Debug, Display};

/// Returns the text of a value.
pub fn shown<T: Display + Drop>(alloc: Global, value: T) -> Result<String, Refusal> {
    Ok(value.to_string(alloc)?)
}

/// Returns the text of the value of a result.
pub fn printed<T: Display + Drop>(
    alloc: Global,
    outcome: Result<T, Error>,
) -> Result<String, Refusal> {
    shown(alloc, outcome?)
}

/// Returns the `Debug` output of the value of a result.
pub fn debugged<T: Debug + Drop>(
    alloc: Global,
    outcome: Result<T, Error>,
) -> Result<String, Refusal> {
    let value = outcome?;
    Ok(format!(in alloc; "{value:?}")?)
}

/// Returns bytes in base 16.
pub fn hex_of(alloc: Global, octets: &[u8]) -> Result<String, Refusal> {
    Ok(hex::encode(alloc, octets)?)
}

/// Returns the bytes of a result in base 16.
pub fn hex_in(alloc: Global, outcome: Result<Vec<u8>, Error>) -> Result<String, Refusal> {
    hex_of(alloc, outcome?.as_slice())
}

/// Returns the encoding of a value in base 16.
pub fn written<T: Encode>(alloc: Global, value: &T) -> Result<String, Refusal> {
    hex_in(alloc, value.to_der(alloc))
}

/// Returns the encoding of the value of a result in base 16.
pub fn written_in<T: Encode + Drop>(
    alloc: Global,
    outcome: Result<T, Error>,
) -> Result<String, Refusal> {
    written(alloc, &outcome?)
}

/// Decodes a value of a `Described` type by DER. This function is generic, so that the decoder is
/// checked once, and not for each type.
pub fn read<'a, T: Described + FixedTag + Drop>(alloc: Global, octets: &'a [u8]) -> Result<T, Error>
where
    T::By: DecodeWay<'a, SliceReader<'a>, T>,
{
    value_in(alloc, octets)
}

/// Decodes a value with one tag by DER.
fn value_in<'a, T: DecodeValue<'a, SliceReader<'a>> + FixedTag>(
    alloc: Global,
    octets: &'a [u8],
) -> Result<T, Error> {
    T::from_der(alloc, octets)
}

/// Returns the text of a result, or of its error.
pub fn or_refusal(alloc: Global, answer: Result<String, Refusal>) -> Result<String, Refusal> {
    match answer {
        Err(refusal) => shown(alloc, refusal),
        answer => answer,
    }
}

/// Returns two answers and the text between them, or the first error. Only this function owns them.
pub fn joined(
    first: Result<String, Refusal>,
    between: &str,
    second: Result<String, Refusal>,
) -> Result<String, Refusal> {
    let mut text = first?;
    text.push_str(between)?;
    text.push_str(second?.as_str())?;
    Ok(text)
}

/// Returns the answer for a result without a value.
pub fn done(alloc: Global, outcome: Result<(), Error>) -> Result<String, Refusal> {
    outcome?;
    shown(alloc, "done")
}

/// Returns the name of the order in a result.
pub fn named(alloc: Global, outcome: Result<Ordering, Error>) -> Result<String, Refusal> {
    shown(alloc, name_of(outcome?))
}

/// Returns the name of an order.
pub fn name_of(order: Ordering) -> &'static str {
    match order {
        Ordering::Less => "Less",
        Ordering::Equal => "Equal",
        Ordering::Greater => "Greater",
    }
}

/// Decodes base 16.
pub fn octets_of(alloc: Global, digits: &str) -> Result<Vec<u8>, Refusal> {
    Ok(hex::decode(alloc, digits.as_bytes())?)
}

/// Splits a text at its first space.
pub fn front_of(text: &str) -> (&str, &str) {
    text.split_once(' ').unwrap_or((text, ""))
}
