//! CSRs.

use crate::building::builders::{Asked, Change, Manner, part_of, whole_of};
use crate::building::refusals::Refusal;
use crate::building::words::{Words, extension_of, octets_of, written_in};
use der_core::FromDer;
use std::alloc::Global;
use x509_cert::builder::RequestBuilder;
use x509_cert::{CertReq, ChallengePassword, DirectoryString};

impl Change for RequestBuilder {
    fn change(&mut self, alloc: Global, word: &str) -> Result<(), Refusal> {
        if word == "-" {
            return Ok(());
        }
        if let Some(octets) = word.strip_prefix("password:") {
            let password = password_of(alloc, octets)?;
            self.add_attribute(alloc, &password)?;
            return Ok(());
        }
        for text in word.split(',') {
            let extension = extension_of(alloc, text)?;
            self.add_extension(alloc, extension)?;
        }
        Ok(())
    }
}

/// Decodes a password.
fn password_of(alloc: Global, word: &str) -> Result<ChallengePassword, Refusal> {
    let octets = octets_of(alloc, word)?;
    let text = DirectoryString::from_der(alloc, octets.as_slice())?;
    Ok(ChallengePassword(text))
}

/// Adds these passwords to a CSR.
fn add_passwords(
    alloc: Global,
    builder: &mut RequestBuilder,
    passwords: &str,
) -> Result<(), Refusal> {
    if passwords == "-" {
        return Ok(());
    }
    for text in passwords.split(',') {
        let password = password_of(alloc, text)?;
        builder.add_attribute(alloc, &password)?;
    }
    Ok(())
}

/// Returns the builder of a CSR with these passwords and the next name.
fn builder_of(
    alloc: Global,
    passwords: &str,
    words: &mut Words<'_>,
) -> Result<RequestBuilder, Refusal> {
    let name = words.name(alloc)?;
    let mut builder = RequestBuilder::new(alloc, name)?;
    add_passwords(alloc, &mut builder, passwords)?;
    Ok(builder)
}

/// Builds a CSR in the way that the first word names.
pub fn answer(alloc: Global, rest: &str) -> Result<Vec<u8>, Refusal> {
    let mut words = Words { rest };
    let manner = Manner::parse(words.next()?)?;
    let signer = words.next()?;
    let change = words.next()?;
    let passwords = words.next()?;
    let builder = builder_of(alloc, passwords, &mut words)?;
    let asked = Asked {
        manner,
        change,
        signer,
    };
    made(alloc, builder, &asked)
}

/// Returns the encoding of what a builder builds.
fn made(alloc: Global, mut builder: RequestBuilder, asked: &Asked<'_>) -> Result<Vec<u8>, Refusal> {
    if asked.manner.is_part() {
        part_of(alloc, &mut builder, asked)
    } else {
        written_in::<CertReq>(alloc, whole_of(alloc, builder, asked))
    }
}
