//! The signatures of signers of digests, and the digests of certificates.

use crate::refusal::Refusal;
use crate::words::{key_of, octets_of};
use cert_desk::{CertificateInner, DigestSigner, Raw, Sha256Digest, Signer};
use der_core::Error;
use rand_chacha::ChaCha20Rng;
use rand_core::SeedableRng;
use std::alloc::Global;

/// Returns the signature over these bytes by the signer with a key.
pub fn answer(alloc: Global, rest: &str) -> Result<String, Refusal> {
    let (key, octets) = rest.split_once(' ').ok_or(Refusal::Unread)?;
    let signer = DigestSigner::new(key_of(alloc, key)?);
    let octets = octets_of(alloc, octets)?;
    bits_of(alloc, &signer, octets.as_slice())
}

/// Returns the signature of a signer over bytes.
fn bits_of(alloc: Global, signer: &DigestSigner, octets: &[u8]) -> Result<String, Refusal> {
    let bits = signer.sign(alloc, octets)?;
    drawn_alike(alloc, signer, octets, bits.raw_bytes())
}

/// Returns this signature, if the signer returns the same one when it is given random bytes.
fn drawn_alike(
    alloc: Global,
    signer: &DigestSigner,
    octets: &[u8],
    bits: &[u8],
) -> Result<String, Refusal> {
    let mut generator = ChaCha20Rng::from_seed([0; 32]);
    let drawn = signer.sign_with_rng(alloc, &mut generator, octets)?;
    if drawn.raw_bytes() != bits {
        return Err(Refusal::Changed);
    }
    Ok(hex::encode(alloc, bits)?)
}

/// Decodes a certificate and returns its digest.
pub fn answer_of_certificate(alloc: Global, word: &str) -> Result<String, Refusal> {
    let octets = octets_of(alloc, word)?;
    let certificate = CertificateInner::<Raw>::from_der(alloc, octets.as_slice())?;
    hex_in(alloc, certificate.hash::<Sha256Digest>(alloc))
}

/// Returns the bytes of a result in base 16.
fn hex_in(alloc: Global, outcome: Result<Vec<u8>, Error>) -> Result<String, Refusal> {
    Ok(hex::encode(alloc, outcome?.as_slice())?)
}
