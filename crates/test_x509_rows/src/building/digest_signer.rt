//! A signer of digests.

use crate::building::refusals::Refusal;
use crate::building::words::key_of;
use const_oid::ObjectIdentifier;
use sha2::{Digest, Sha256};
use std::alloc::Global;
use x509_cert::builder::{SignError, Signer};
use x509_cert::{AlgorithmIdentifier, BitString, SubjectPublicKeyInfo};

/// A signer that returns the SHA-256 digest of its key's bytes and the signed bytes. It protects
/// nothing.
#[derive(Drop)]
pub struct DigestSigner {
    key: SubjectPublicKeyInfo,
    algorithm: AlgorithmIdentifier,
    refuses: bool,
}

impl DigestSigner {
    /// Parses a signer with a key, whose algorithm has these arcs. After `refuses:`, it rejects
    /// everything that it has to sign.
    pub fn parse(alloc: Global, word: &str, arcs: &str) -> Result<DigestSigner, Refusal> {
        let Ok(oid) = ObjectIdentifier::new(arcs) else {
            return Err(Refusal::Unread);
        };
        let key = key_of(alloc, word.strip_prefix("refuses:").unwrap_or(word))?;
        let algorithm = AlgorithmIdentifier {
            oid,
            parameters: None,
        };
        Ok(DigestSigner {
            key,
            algorithm,
            refuses: word.starts_with("refuses:"),
        })
    }
}

impl Signer for DigestSigner {
    ghost use Rattle.std.specs.Prelude.{◌≡◌, true, ⊤};
    ghost use Rattle.x509_cert.specs.Parts.{algorithm_plain, key_plain};

    ghost public_key = { λ s. key_plain s.key };

    ghost signs_by = { λ s. algorithm_plain s.algorithm };

    ghost signs = { λ _ _ _. ⊤ };

    ghost may_refuse = { λ s _. s.refuses ≡ true };

    fn key_info(&self) -> &SubjectPublicKeyInfo {
        &self.key
    }

    fn algorithm(&self) -> &AlgorithmIdentifier {
        &self.algorithm
    }

    fn sign(&self, alloc: Global, octets: &[u8]) -> Result<BitString, SignError> {
        if self.refuses {
            return Err(SignError::Refused);
        }
        let mut hasher = Sha256::new();
        hasher.update(self.key.subject_public_key.raw_bytes());
        hasher.update(octets);
        let digest = hasher.finalize().as_slice().to_vec(alloc)?;
        match BitString::from_bytes(digest) {
            Ok(bits) => Ok(bits),
            Err(_) => Err(SignError::OutOfMemory),
        }
    }
}
