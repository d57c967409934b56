//! The words of a line.

use crate::building::refusals::Refusal;
use crate::shown::read;
use der_core::describing::Described;
use der_core::{FixedTag, ToDer};
use std::alloc::Global;
use std::str::FromStr;
use x509_cert::{DateTime, Extension, GeneralizedTime, Name, SubjectPublicKeyInfo, Time};

/// The words of a line, one after another.
#[derive(Clone, Copy)]
pub struct Words<'a> {
    pub rest: &'a str,
}

impl<'a> Words<'a> {
    /// Returns the next word, which ends at a space.
    pub fn next(&mut self) -> Result<&'a str, Refusal> {
        let (word, rest) = self.rest.split_once(' ').ok_or(Refusal::Unread)?;
        self.rest = rest;
        Ok(word)
    }

    /// Parses the next name, which ends at a bar, or with the line.
    pub fn name(&mut self, alloc: Global) -> Result<Name, Refusal> {
        let (text, rest) = self.rest.split_once('|').unwrap_or((self.rest, ""));
        self.rest = rest;
        let name = Name::from_str(alloc, text)?;
        Ok(name)
    }
}

/// Decodes base 16.
pub fn octets_of(alloc: Global, word: &str) -> Result<Vec<u8>, Refusal> {
    let octets = hex::decode(alloc, word)?;
    Ok(octets)
}

/// Returns the encoding of a value of a `Described` type.
pub fn written<T: Described + FixedTag>(alloc: Global, value: &T) -> Result<Vec<u8>, Refusal> {
    Ok(value.to_der(alloc)?)
}

/// Returns the encoding of the value of a result.
pub fn written_in<T: Described + FixedTag + Drop>(
    alloc: Global,
    outcome: Result<T, Refusal>,
) -> Result<Vec<u8>, Refusal> {
    written(alloc, &outcome?)
}

/// Parses a date. After `general:`, it is a GeneralizedTime.
pub fn time_of(word: &str) -> Result<Time, Refusal> {
    match word.strip_prefix("general:") {
        Some(word) => {
            let date = DateTime::from_str(word)?;
            Ok(Time::GeneralTime(GeneralizedTime::from_date_time(date)))
        }
        None => Ok(Time::from_str(word)?),
    }
}

/// Decodes a key.
pub fn key_of(alloc: Global, word: &str) -> Result<SubjectPublicKeyInfo, Refusal> {
    let octets = octets_of(alloc, word)?;
    Ok(read(alloc, octets.as_slice())?)
}

/// Decodes an extension.
pub fn extension_of(alloc: Global, word: &str) -> Result<Extension, Refusal> {
    let octets = octets_of(alloc, word)?;
    Ok(read(alloc, octets.as_slice())?)
}
