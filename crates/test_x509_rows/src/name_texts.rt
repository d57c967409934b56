//! Answers questions about the texts of names (RFC 4514), dates and serial numbers.

use crate::refusals::Refusal;
use crate::relative_names::rdn_written_in;
use crate::shown::{hex_in, octets_of, printed as printed_in, read, written_in};
use der_core::describing::{DecodeWay, Described};
use der_core::{Decode, Error, FixedTag, FromDer, SliceReader};
use std::alloc::Global;
use std::fmt::Display;
use x509_cert::{
    AttributeTypeAndValue, DirectoryString, Name, Raw, RdnSequence, RelativeDistinguishedName,
    SerialNumber, Time,
};

/// Parses a text as a name, or as a part of one, and returns its encoding.
pub fn spelled(alloc: Global, kind: &str, text: &str) -> Result<String, Refusal> {
    match kind {
        "Name" => name_written(alloc, Name::from_str(alloc, text)),
        "RdnSequence" => hex_in(alloc, RdnSequence::encode_from_string(alloc, text)),
        "RelativeDistinguishedName" => {
            rdn_written_in(alloc, RelativeDistinguishedName::from_str(alloc, text))
        }
        "AttributeTypeAndValue" => {
            hex_in(
                alloc,
                AttributeTypeAndValue::encode_from_string(alloc, text),
            )
        }
        _ => Err(Refusal::Unread),
    }
}

/// Returns the text of an encoded value.
pub fn printed(alloc: Global, kind: &str, octets: &str) -> Result<String, Refusal> {
    let octets = octets_of(alloc, octets)?;
    let octets = octets.as_slice();
    match kind {
        "Time" => text_of::<Time>(alloc, octets),
        "SerialNumber" => described_text_of::<SerialNumber<Raw>>(alloc, octets),
        "Name" => text_of::<Name>(alloc, octets),
        "RdnSequence" => described_text_of::<RdnSequence>(alloc, octets),
        "RelativeDistinguishedName" => text_of::<RelativeDistinguishedName>(alloc, octets),
        "AttributeTypeAndValue" => described_text_of::<AttributeTypeAndValue>(alloc, octets),
        "DirectoryString" => value_of(alloc, octets),
        _ => Err(Refusal::Unread),
    }
}

/// Decodes a value and returns its text.
fn text_of<'a, T: Decode<'a, SliceReader<'a>> + Display + Drop>(
    alloc: Global,
    octets: &'a [u8],
) -> Result<String, Refusal> {
    printed_in(alloc, T::from_der(alloc, octets))
}

/// Decodes a value of a `Described` type, and returns its text.
fn described_text_of<'a, T: Described + FixedTag + Display + Drop>(
    alloc: Global,
    octets: &'a [u8],
) -> Result<String, Refusal>
where
    T::By: DecodeWay<'a, SliceReader<'a>, T>,
{
    printed_in(alloc, read::<T>(alloc, octets))
}

/// Decodes a DirectoryString and returns its text.
fn value_of(alloc: Global, octets: &[u8]) -> Result<String, Refusal> {
    let text = text_in(alloc, octets)?;
    let value = text.value(alloc)?;
    Ok(value.into_owned(alloc)?)
}

/// Decodes a DirectoryString.
pub fn text_in(alloc: Global, octets: &[u8]) -> Result<DirectoryString, Error> {
    DirectoryString::from_der(alloc, octets)
}

/// Returns the encoding of a parsed name.
pub fn name_written(alloc: Global, name: Result<Name, Error>) -> Result<String, Refusal> {
    written_in(alloc, name)
}

/// Parses the text of a name and prints the name.
pub fn again(alloc: Global, text: &str) -> Result<String, Refusal> {
    printed_in(alloc, Name::from_str(alloc, text))
}
