//! CRLs.

use crate::building::builders::{Asked, Change, Manner, part_of, whole_of};
use crate::building::refusals::Refusal;
use crate::building::words::{Words, octets_of, time_of, written_in};
use crate::shown::read;
use std::alloc::Global;
use std::str::FromStr;
use x509_cert::builder::CrlBuilder;
use x509_cert::{Certificate, CertificateList, CrlNumber, RevokedCert, Time};

/// Decodes an entry of a CRL.
fn entry_of(alloc: Global, word: &str) -> Result<RevokedCert, Refusal> {
    let octets = octets_of(alloc, word)?;
    Ok(read(alloc, octets.as_slice())?)
}

impl Change for CrlBuilder {
    fn change(&mut self, alloc: Global, word: &str) -> Result<(), Refusal> {
        if word == "-" {
            return Ok(());
        }
        let mut entries = Vec::new(alloc);
        if word != "empty" {
            for text in word.split(',') {
                entries.push(entry_of(alloc, text)?)?;
            }
        }
        self.with_certificates(alloc, entries.into_iter())?;
        Ok(())
    }
}

/// Decodes the certificate of an issuer.
fn issuer_of(alloc: Global, word: &str) -> Result<Certificate, Refusal> {
    let octets = octets_of(alloc, word)?;
    let issuer = Certificate::from_der(alloc, octets.as_slice())?;
    Ok(issuer)
}

/// Parses the number of a CRL.
fn number_of(alloc: Global, word: &str) -> Result<CrlNumber, Refusal> {
    let Ok(number) = u128::from_str(word) else {
        return Err(Refusal::Unread);
    };
    let number = CrlNumber::try_from_u128(alloc, number)?;
    Ok(number)
}

/// Parses the date of the next CRL, or returns none for a dash.
fn next_of(word: &str) -> Result<Option<Time>, Refusal> {
    if word == "-" {
        return Ok(None);
    }
    let time = Time::from_str(word)?;
    Ok(Some(time))
}

/// Returns the builder of a CRL of an issuer, with this number.
fn builder_by(
    alloc: Global,
    issuer: &Certificate,
    number: &str,
    this_update: Time,
) -> Result<CrlBuilder, Refusal> {
    let number = number_of(alloc, number)?;
    let builder = CrlBuilder::new_with_this_update(alloc, issuer, number, this_update)?;
    Ok(builder)
}

/// Returns the builder of a CRL of the issuer with this certificate.
fn builder_under(
    alloc: Global,
    issuer: &str,
    number: &str,
    this_update: Time,
) -> Result<CrlBuilder, Refusal> {
    let issuer = issuer_of(alloc, issuer)?;
    builder_by(alloc, &issuer, number, this_update)
}

/// Returns the builder of the CRL that the next words describe: `ISSUER NUMBER THIS NEXT`.
fn builder_of(alloc: Global, words: &mut Words<'_>) -> Result<CrlBuilder, Refusal> {
    let issuer = words.next()?;
    let number = words.next()?;
    let this_update = time_of(words.next()?)?;
    let next_update = next_of(words.next()?)?;
    let builder = builder_under(alloc, issuer, number, this_update)?;
    Ok(builder.with_next_update(next_update))
}

/// Builds a CRL in the way that the first word names.
pub fn answer(alloc: Global, rest: &str) -> Result<Vec<u8>, Refusal> {
    let mut words = Words { rest };
    let manner = Manner::parse(words.next()?)?;
    let signer = words.next()?;
    let builder = builder_of(alloc, &mut words)?;
    let asked = Asked {
        manner,
        change: words.rest,
        signer,
    };
    made(alloc, builder, &asked)
}

/// Returns the encoding of what a builder builds.
fn made(alloc: Global, mut builder: CrlBuilder, asked: &Asked<'_>) -> Result<Vec<u8>, Refusal> {
    if asked.manner.is_part() {
        part_of(alloc, &mut builder, asked)
    } else {
        written_in::<CertificateList>(alloc, whole_of(alloc, builder, asked))
    }
}
