//! Signers whose signature is given by the caller.

use cert_desk_orders::cert_parts::{AlgorithmIdentifier, SubjectPublicKeyInfo};
use cert_desk_orders::types::BitString;
use std::alloc::Global;
use x509_cert_builders::{SignError, Signer};

/// A signer with a fixed signature, which the caller gives, whatever is signed.
#[derive(Drop)]
pub(crate) struct GivenSigner<'a> {
    pub(crate) key: &'a SubjectPublicKeyInfo,
    pub(crate) algorithm: &'a AlgorithmIdentifier,
    pub(crate) signature: &'a BitString,
}

impl Signer for GivenSigner<'_> {
    ghost use Rattle.cert_desk_issuing_c.specs.Signing.{given_algorithm, given_key, gives};

    ghost public_key = { given_key };

    ghost signs_by = { given_algorithm };

    ghost signs = { gives };

    ghost may_refuse = { λ _ _. ⊥ };

    fn key_info(&self) -> &SubjectPublicKeyInfo {
        self.key
    }

    fn algorithm(&self) -> &AlgorithmIdentifier {
        self.algorithm
    }

    fn sign(&self, alloc: Global, _octets: &[u8]) -> Result<BitString, SignError> {
        match self.signature.clone(alloc) {
            Ok(bits) => Ok(bits),
            Err(_) => Err(SignError::OutOfMemory),
        }
    }
}
