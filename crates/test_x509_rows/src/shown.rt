//! The texts of answers.
//!
//! Each answer is one call, because a `?` costs the check more than a call, and most if a value
//! that needs to be dropped is owned there.

use crate::refusals::Refusal;
use der_core::describing::{DecodeWay, Described};
use der_core::{Decode, DecodeValue, Encode, Error, FixedTag, FromDer, SliceReader, ToDer};
use std::alloc::Global;
use std::fmt;
use std::fmt::Display;
use x509_cert::{Any, Rfc5280, SerialNumber};

/// Returns the text of a value.
pub fn shown<T: Display + Drop>(alloc: Global, value: T) -> Result<String, Refusal> {
    Ok(value.to_string(alloc)?)
}

/// Returns the text of the value of a result.
pub fn printed<T: Display + Drop>(
    alloc: Global,
    outcome: Result<T, Error>,
) -> Result<String, Refusal> {
    shown(alloc, outcome?)
}

/// Returns bytes in base 16.
pub fn hex_of(alloc: Global, octets: &[u8]) -> Result<String, Refusal> {
    Ok(hex::encode(alloc, octets)?)
}

/// Returns the bytes of a result in base 16.
pub fn hex_in(alloc: Global, outcome: Result<Vec<u8>, Error>) -> Result<String, Refusal> {
    hex_of(alloc, outcome?.as_slice())
}

/// Returns the encoding of a value in base 16.
pub fn written<T: Encode>(alloc: Global, value: &T) -> Result<String, Refusal> {
    hex_in(alloc, value.to_der(alloc))
}

/// Returns the encoding of the value of a result in base 16.
pub fn written_in<T: Encode + Drop>(
    alloc: Global,
    outcome: Result<T, Error>,
) -> Result<String, Refusal> {
    written(alloc, &outcome?)
}

/// Decodes a value of a `Described` type by DER. This function is generic, so that the decoder is
/// checked once, and not at each place that names a type.
pub fn read<'a, T: Described + FixedTag + Drop>(alloc: Global, octets: &'a [u8]) -> Result<T, Error>
where
    T::By: DecodeWay<'a, SliceReader<'a>, T>,
{
    value_in(alloc, octets)
}

/// Decodes a value with one tag by DER.
fn value_in<'a, T: DecodeValue<'a, SliceReader<'a>> + FixedTag>(
    alloc: Global,
    octets: &'a [u8],
) -> Result<T, Error> {
    T::from_der(alloc, octets)
}

/// Decodes the values of a list by DER. It is generic, so that the list is checked only here.
pub fn list_in<'a, T: Decode<'a, SliceReader<'a>>>(
    alloc: Global,
    octets: &'a [u8],
) -> Result<Vec<T>, Error> {
    Vec::from_der(alloc, octets)
}

/// Does the same as `written`, for a `Described` type.
pub fn described<T: Described + FixedTag>(alloc: Global, value: &T) -> Result<String, Refusal> {
    written(alloc, value)
}

/// Does the same as `written_in`, for a `Described` type.
pub fn described_in<T: Described + FixedTag + Drop>(
    alloc: Global,
    outcome: Result<T, Error>,
) -> Result<String, Refusal> {
    written(alloc, &outcome?)
}

/// Does the same as `written_in`, for a serial number.
pub fn serial_written_in(
    alloc: Global,
    outcome: Result<SerialNumber<Rfc5280>, Error>,
) -> Result<String, Refusal> {
    described_in(alloc, outcome)
}

/// Returns the encoding of a value of any type in base 16.
pub fn any_written(alloc: Global, value: &Any) -> Result<String, Refusal> {
    written(alloc, value)
}

/// Returns the text of a result, or of its error.
pub fn or_refusal(alloc: Global, answer: Result<String, Refusal>) -> Result<String, Refusal> {
    match answer {
        Err(refusal) => shown(alloc, refusal),
        answer => answer,
    }
}

/// Returns two answers and the text between them, or the first error. Only this function owns them.
pub fn joined(
    first: Result<String, Refusal>,
    between: &str,
    second: Result<String, Refusal>,
) -> Result<String, Refusal> {
    let mut text = first?;
    text.push_str(between)?;
    text.push_str(second?.as_str())?;
    Ok(text)
}

/// Decodes base 16.
pub fn octets_of(alloc: Global, digits: &str) -> Result<Vec<u8>, Refusal> {
    Ok(hex::decode(alloc, digits.as_bytes())?)
}

/// Decodes base 16, where a dash means no bytes.
pub fn dashed_octets_of(alloc: Global, text: &str) -> Result<Vec<u8>, Refusal> {
    match text {
        "" => Err(Refusal::Unread),
        "-" => Ok(Vec::new(alloc)),
        _ => octets_of(alloc, text),
    }
}

/// Bytes in base 16, with a dash for none.
#[derive(Clone, Copy)]
pub struct Dashed<'a>(pub &'a [u8]);

impl fmt::Display for Dashed<'_> {
    fn fmt<W: fmt::Write>(&self, f: &mut fmt::Formatter<W>) -> fmt::Result {
        if self.0.is_empty() {
            return f.write_str("-");
        }
        for octet in self.0 {
            write!(f, "{octet:02x}")?;
        }
        Ok(())
    }
}
