//! Signers that don't behave as they should.

use cert_desk::{
    AlgorithmIdentifier, BitString, DigestSigner, SignError, Signer, SubjectPublicKeyInfo,
};
use rand_core::CryptoRng;
use std::alloc::Global;

/// The behaviour of a signer.
#[derive(Drop)]
pub enum Oddity {
    /// The signer behaves as it should.
    None,
    /// The signer rejects everything that contains these bytes.
    Refuses(Vec<u8>),
    /// The signer runs out of memory for anything that contains these bytes.
    Forgets(Vec<u8>),
    /// The signature is empty.
    IsEmpty,
}

/// A signer of digests that may not behave as it should.
#[derive(Drop)]
pub struct OddSigner<'a> {
    pub signer: DigestSigner,
    pub oddity: &'a Oddity,
}

/// Returns whether bytes contain others.
fn has(octets: &[u8], others: &[u8]) -> bool {
    for start in 0..octets.len() {
        if octets[start..].starts_with(others) {
            return true;
        }
    }
    false
}

impl Signer for OddSigner<'_> {
    ghost use Rattle.std.specs.Prelude.{⊤};

    ghost public_key = { λ s. ⟦<DigestSigner as Signer>⟧.public_key s.signer };

    ghost signs_by = { λ s. ⟦<DigestSigner as Signer>⟧.signs_by s.signer };

    ghost signs = { λ _ _ _. ⊤ };

    ghost may_refuse = { λ _ _. ⊤ };

    fn key_info(&self) -> &SubjectPublicKeyInfo {
        self.signer.key_info()
    }

    fn algorithm(&self) -> &AlgorithmIdentifier {
        self.signer.algorithm()
    }

    fn sign(&self, alloc: Global, octets: &[u8]) -> Result<BitString, SignError> {
        match self.oddity {
            Oddity::Refuses(others) if has(octets, others.as_slice()) => Err(SignError::Refused),
            Oddity::Forgets(others) if has(octets, others.as_slice()) => Err(
                SignError::OutOfMemory,
            ),
            Oddity::IsEmpty => match BitString::from_bytes(Vec::new(alloc)) {
                Ok(bits) => Ok(bits),
                Err(_) => Err(SignError::OutOfMemory),
            },
            _ => {
                let bits = self.signer.sign(alloc, octets)?;
                Ok(bits)
            }
        }
    }

    fn sign_with_rng<R: CryptoRng>(
        &self,
        alloc: Global,
        _rng: &mut R,
        octets: &[u8],
    ) -> Result<BitString, SignError> {
        let bits = self.sign(alloc, octets)?;
        Ok(bits)
    }
}
