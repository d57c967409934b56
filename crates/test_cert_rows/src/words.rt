//! Parses words: bytes, numbers, keys, key purposes and kinds.

use crate::refusal::Refusal;
use cert_desk::{Checked, FileKind, SubjectPublicKeyInfo, Verdict};
use const_oid::ObjectIdentifier;
use der_core::describing::{DecodeWay, Described};
use der_core::{DecodeValue, Error, FixedTag, FromDer, SliceReader};
use std::alloc::Global;
use std::{fmt, str};

/// Decodes base 16; `-` means no bytes, and `*N` after them repeats them.
pub fn octets_of(alloc: Global, word: &str) -> Result<Vec<u8>, Refusal> {
    if word == "-" {
        return Ok(Vec::new(alloc));
    }
    let Some((word, times)) = word.split_once('*') else {
        return Ok(hex::decode(alloc, word)?);
    };
    let piece = hex::decode(alloc, word)?;
    let mut octets = Vec::new(alloc);
    for _ in 0..number_of(times)? {
        octets.extend_from_slice(piece.as_slice())?;
    }
    Ok(octets)
}

/// Decodes several words that are separated by commas.
pub fn list_of(alloc: Global, words: &str) -> Result<Vec<Vec<u8>>, Refusal> {
    words
        .split(',')
        .map(|word| octets_of(alloc, word))
        .try_collect(alloc)
}

/// Bytes in base 16.
#[derive(Clone, Copy)]
pub struct Octets<'a>(pub &'a [u8]);

impl fmt::Display for Octets<'_> {
    fn fmt<W: fmt::Write>(&self, f: &mut fmt::Formatter<W>) -> fmt::Result {
        for octet in self.0 {
            write!(f, "{octet:02x}")?;
        }
        Ok(())
    }
}

/// The word for these bytes, which is `-` for none.
#[derive(Clone, Copy)]
pub struct Word<'a>(pub &'a [u8]);

impl fmt::Display for Word<'_> {
    fn fmt<W: fmt::Write>(&self, f: &mut fmt::Formatter<W>) -> fmt::Result {
        if self.0.is_empty() {
            return f.write_str("-");
        }
        write!(f, "{}", Octets(self.0))
    }
}

/// A verdict, and the number of questions to the verifier.
#[derive(Clone, Copy)]
pub struct Judged(pub Checked);

impl fmt::Display for Judged {
    fn fmt<W: fmt::Write>(&self, f: &mut fmt::Formatter<W>) -> fmt::Result {
        let calls = self.0.calls;
        match self.0.verdict {
            Verdict::Refused { place, rule } => write!(f, "refused {place} {rule} calls={calls}"),
            verdict => write!(f, "{verdict:?} calls={calls}"),
        }
    }
}

/// Parses a decimal number.
pub fn number_of(word: &str) -> Result<u32, Refusal> {
    word.parse().ok().ok_or(Refusal::Unread)
}

/// Decodes a value of a `Described` type. This function is generic, so that the decoder is checked
/// once, and not at each place that names a type.
pub fn read<'a, T: Described + FixedTag + Drop>(alloc: Global, octets: &'a [u8]) -> Result<T, Error>
where
    T::By: DecodeWay<'a, SliceReader<'a>, T>,
{
    value_in(alloc, octets)
}

/// Decodes a value with one tag.
fn value_in<'a, T: DecodeValue<'a, SliceReader<'a>> + FixedTag>(
    alloc: Global,
    octets: &'a [u8],
) -> Result<T, Error> {
    T::from_der(alloc, octets)
}

/// Decodes a key from its encoding in base 16.
pub fn key_of(alloc: Global, word: &str) -> Result<SubjectPublicKeyInfo, Refusal> {
    let octets = octets_of(alloc, word)?;
    Ok(read(alloc, octets.as_slice())?)
}

/// Parses a key purpose, as an OID in dotted form.
pub fn purpose_of(word: &str) -> Result<ObjectIdentifier<39>, Refusal> {
    ObjectIdentifier::new(word).ok().ok_or(Refusal::Unread)
}

/// Returns the kind with this name.
pub fn kind_of(word: &str) -> Result<FileKind, Refusal> {
    match word {
        "certificate" => Ok(FileKind::Certificate),
        "list" => Ok(FileKind::List),
        "request" => Ok(FileKind::Request),
        _ => Err(Refusal::Unread),
    }
}

/// Returns the output of a run: its status, and the texts on both outputs.
pub fn told(alloc: Global, status: u8, out: &[u8], err: &[u8]) -> Result<String, Refusal> {
    let out = str::from_utf8(out)?;
    let err = str::from_utf8(err)?;
    Ok(format!(in alloc; "{status} {out:?} {err:?}")?)
}
