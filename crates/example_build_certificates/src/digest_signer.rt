//! A signer of digests.

use const_oid::ObjectIdentifier;
use der_core::Error;
use der_core::making::octets_in_range;
use sha2::{Digest, Sha256};
use std::alloc::Global;
use std::cell::RefCell;
use x509_cert::builder::{SignError, Signer};
use x509_cert::{AlgorithmIdentifier, BitString, SubjectPublicKeyInfo};

/// A signer that returns the SHA-256 digest of its key's bytes and the signed bytes. It protects
/// nothing, and takes the place of a key in memory or in a device. Each call changes the hasher, as
/// it would change the handle of a device.
#[derive(Drop)]
pub struct DigestSigner {
    key: SubjectPublicKeyInfo,
    algorithm: AlgorithmIdentifier,
    hasher: RefCell<Sha256>,
}

impl DigestSigner {
    /// Returns a signer with this key. Its algorithm is under the arc for examples (RFC 5612).
    pub fn new(key: SubjectPublicKeyInfo) -> Result<DigestSigner, Error> {
        let oid = ObjectIdentifier::new("1.3.6.1.4.1.32473.2")?;
        let algorithm = AlgorithmIdentifier {
            oid,
            parameters: None,
        };
        Ok(DigestSigner {
            key,
            algorithm,
            hasher: RefCell::new(Sha256::new()),
        })
    }
}

impl Signer for DigestSigner {
    ghost use Rattle.std.specs.Prelude.{◌≡◌, ⊤, length};
    ghost use Rattle.x509_cert.specs.Octets.{IsOctets};
    ghost use Rattle.x509_cert.specs.Parts.{algorithm_plain, key_plain};

    ghost public_key = { λ s. key_plain s.key };

    ghost signs_by = { λ s. algorithm_plain s.algorithm };

    // Whole bytes, as many as a digest has.
    ghost signs = { λ _ _ b. (b.unused ≡ 0) × IsOctets b.octets × (length b.octets ≡ 32) };

    // The hasher may be in use.
    ghost may_refuse = { λ _ _. ⊤ };

    fn key_info(&self) -> &SubjectPublicKeyInfo {
        &self.key
    }

    fn algorithm(&self) -> &AlgorithmIdentifier {
        &self.algorithm
    }

    fn sign(&self, alloc: Global, octets: &[u8]) -> Result<BitString, SignError> {
        let Ok(mut hasher) = self.hasher.try_borrow_mut() else {
            return Err(SignError::Refused);
        };
        hasher.update(self.key.subject_public_key.raw_bytes());
        hasher.update(octets);
        let digest = hasher.finalize_reset().as_slice().to_vec(alloc)?;
        octets_in_range(digest.as_slice());
        match BitString::from_bytes(digest) {
            Ok(bits) => Ok(bits),
            // A digest has 32 bytes.
            Err(_) => unreachable!(),
        }
    }
}
