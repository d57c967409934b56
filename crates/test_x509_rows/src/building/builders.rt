//! The ways in which a builder is used.

use crate::building::digest_signer::DigestSigner;
use crate::building::refusals::Refusal;
use rand_chacha::ChaCha20Rng;
use rand_core::SeedableRng;
use std::alloc::Global;
use x509_cert::builder::{Builder, Signer};

/// The way in which a builder is used.
#[derive(Clone, Copy)]
pub enum Manner {
    /// Returns the signed part, built twice.
    Part,
    /// Returns the signed part, if the builder is also finalized before it is changed.
    Between,
    /// Builds the value.
    Whole,
    /// Assembles the builder without finalizing it.
    Unready,
    /// Finalizes the builder, and then changes it.
    Late,
    /// Changes the builder, finalizes it, and changes it once more.
    Later,
    /// Changes the builder, finalizes it with one signer, and assembles it with another.
    Other,
    /// Builds the value with random bytes.
    Drawn,
    /// Returns the signed part. If memory runs out in a call, the call is repeated.
    Again,
}

impl Manner {
    /// Returns the way with this name.
    pub fn parse(word: &str) -> Result<Manner, Refusal> {
        match word {
            "part" | "signed" => Ok(Manner::Part),
            "between" => Ok(Manner::Between),
            "whole" => Ok(Manner::Whole),
            "unready" => Ok(Manner::Unready),
            "late" => Ok(Manner::Late),
            "later" => Ok(Manner::Later),
            "other" => Ok(Manner::Other),
            "drawn" => Ok(Manner::Drawn),
            "again" => Ok(Manner::Again),
            _ => Err(Refusal::Unread),
        }
    }
}

/// What a line asks of a builder.
#[derive(Clone, Copy)]
pub struct Asked<'a> {
    pub manner: Manner,
    /// The change of the builder.
    pub change: &'a str,
    /// The signer's key.
    pub signer: &'a str,
}

impl Asked<'_> {
    /// Returns the signer.
    pub fn signer(&self, alloc: Global) -> Result<DigestSigner, Refusal> {
        DigestSigner::parse(alloc, self.signer, "1.3.6.1.4.1.32473.2")
    }

    /// Returns a signer with the same key and another algorithm.
    fn other_signer(&self, alloc: Global) -> Result<DigestSigner, Refusal> {
        DigestSigner::parse(alloc, self.signer, "1.3.6.1.4.1.32473.3")
    }
}

/// A builder that words change.
pub trait Change: Builder {
    /// Makes the change that a word describes.
    fn change(&mut self, alloc: Global, word: &str) -> Result<(), Refusal>;
}

impl Manner {
    /// Returns whether the answer is the signed part, and not a complete value.
    pub fn is_part(self) -> bool {
        match self {
            Manner::Part | Manner::Between | Manner::Again => true,
            _ => false,
        }
    }
}

/// Returns the signed part. It is built twice, and both have to be equal.
pub fn part_of<B: Change + Drop>(
    alloc: Global,
    builder: &mut B,
    asked: &Asked<'_>,
) -> Result<Vec<u8>, Refusal> {
    let signer = asked.signer(alloc)?;
    match asked.manner {
        Manner::Again => again(alloc, builder, asked.change, &signer),
        Manner::Between => between(alloc, builder, asked.change, &signer),
        _ => twice(alloc, builder, asked.change, &signer),
    }
}

/// Returns the signed part after a change. If memory runs out in the change, the builder has to be
/// as before, and the change is repeated.
fn again<B: Change + Drop>(
    alloc: Global,
    builder: &mut B,
    change: &str,
    signer: &DigestSigner,
) -> Result<Vec<u8>, Refusal> {
    let before = finalized_again(alloc, builder, signer)?;
    if let Err(refusal) = builder.change(alloc, change) {
        let Refusal::Memory = refusal else {
            return Err(refusal);
        };
        let after = finalized_again(alloc, builder, signer)?;
        if after.as_slice() != before.as_slice() {
            return Err(Refusal::Changed);
        }
        builder.change(alloc, change)?;
    }
    finalized_again(alloc, builder, signer)
}

/// Returns the signed part after a change between two calls.
fn between<B: Change + Drop>(
    alloc: Global,
    builder: &mut B,
    change: &str,
    signer: &DigestSigner,
) -> Result<Vec<u8>, Refusal> {
    let _octets = builder.finalize(alloc, signer)?;
    builder.change(alloc, change)?;
    Ok(builder.finalize(alloc, signer)?)
}

/// Returns the signed part, with a second call if memory runs out in the first.
fn finalized_again<B: Change + Drop>(
    alloc: Global,
    builder: &mut B,
    signer: &DigestSigner,
) -> Result<Vec<u8>, Refusal> {
    match builder.finalize(alloc, signer) {
        Ok(octets) => Ok(octets),
        Err(error) => match Refusal::from(error) {
            Refusal::Memory => Ok(builder.finalize(alloc, signer)?),
            refusal => Err(refusal),
        },
    }
}

/// Returns the signed part after a change, built twice.
fn twice<B: Change + Drop>(
    alloc: Global,
    builder: &mut B,
    change: &str,
    signer: &DigestSigner,
) -> Result<Vec<u8>, Refusal> {
    builder.change(alloc, change)?;
    let octets = builder.finalize(alloc, signer)?;
    let again = builder.finalize(alloc, signer)?;
    if octets.as_slice() != again.as_slice() {
        return Err(Refusal::Changed);
    }
    Ok(octets)
}

/// Returns the value that is built in one of the other ways.
pub fn whole_of<B: Change + Drop>(
    alloc: Global,
    builder: B,
    asked: &Asked<'_>,
) -> Result<B::Output, Refusal> {
    let signer = asked.signer(alloc)?;
    whole_by(alloc, builder, asked, &signer)
}

/// Returns the value that is built in one of the other ways, with a signer.
fn whole_by<B: Change + Drop>(
    alloc: Global,
    builder: B,
    asked: &Asked<'_>,
    signer: &DigestSigner,
) -> Result<B::Output, Refusal> {
    match asked.manner {
        Manner::Part | Manner::Between | Manner::Again | Manner::Whole => built(
            alloc, builder, asked, signer,
        ),
        Manner::Drawn => drawn(alloc, builder, asked, signer),
        Manner::Unready => assembled(alloc, builder, &[], signer),
        Manner::Late => late(alloc, builder, asked, signer),
        Manner::Later => later(alloc, builder, asked, signer),
        Manner::Other => other(alloc, builder, asked, signer),
    }
}

fn built<B: Change + Drop>(
    alloc: Global,
    mut builder: B,
    asked: &Asked<'_>,
    signer: &DigestSigner,
) -> Result<B::Output, Refusal> {
    builder.change(alloc, asked.change)?;
    let made = builder.build(alloc, signer)?;
    Ok(made)
}

fn drawn<B: Change + Drop>(
    alloc: Global,
    mut builder: B,
    asked: &Asked<'_>,
    signer: &DigestSigner,
) -> Result<B::Output, Refusal> {
    builder.change(alloc, asked.change)?;
    let mut generator = ChaCha20Rng::from_seed([0; 32]);
    let made = builder.build_with_rng(alloc, signer, &mut generator)?;
    Ok(made)
}

fn late<B: Change + Drop>(
    alloc: Global,
    mut builder: B,
    asked: &Asked<'_>,
    signer: &DigestSigner,
) -> Result<B::Output, Refusal> {
    let _octets = builder.finalize(alloc, signer)?;
    builder.change(alloc, asked.change)?;
    assembled(alloc, builder, &[], signer)
}

fn later<B: Change + Drop>(
    alloc: Global,
    mut builder: B,
    asked: &Asked<'_>,
    signer: &DigestSigner,
) -> Result<B::Output, Refusal> {
    builder.change(alloc, asked.change)?;
    let octets = builder.finalize(alloc, signer)?;
    builder.change(alloc, asked.change)?;
    assembled(alloc, builder, octets.as_slice(), signer)
}

fn other<B: Change + Drop>(
    alloc: Global,
    mut builder: B,
    asked: &Asked<'_>,
    signer: &DigestSigner,
) -> Result<B::Output, Refusal> {
    builder.change(alloc, asked.change)?;
    let octets = builder.finalize(alloc, signer)?;
    let other = asked.other_signer(alloc)?;
    assembled(alloc, builder, octets.as_slice(), &other)
}

/// Assembles what was finalized, with a signature over these bytes.
fn assembled<B: Change + Drop>(
    alloc: Global,
    builder: B,
    octets: &[u8],
    signer: &DigestSigner,
) -> Result<B::Output, Refusal> {
    let signature = signer.sign(alloc, octets)?;
    let made = builder.assemble(alloc, signature, signer)?;
    Ok(made)
}
