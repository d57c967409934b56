//! A signer of digests. It takes the place of one with a real signature algorithm.
ghost use Rattle.std.specs.Prelude.{◌≡◌, ◌↔◌, ℕ, List};
ghost use Rattle.cert_desk_listing.specs.Der.BitStrings.{Bits};
ghost use Rattle.cert_desk_orders.specs.CertParts.Views.{algorithm_plain, key_plain};
ghost use Rattle.cert_desk_checking.specs.DeskRules.Digests.{digest_arcs};
ghost use Rattle.cert_desk.specs.DigestSigners.{digest_algorithm, IsDigestOf};

use cert_desk_listing::oid::ObjectIdentifier;
use cert_desk_orders::cert_parts::{AlgorithmIdentifier, SubjectPublicKeyInfo};
use cert_desk_orders::types::BitString;
use sha2::{Digest, Sha256};
use std::alloc::Global;
use x509_cert_builders::{SignError, Signer};

// Returns the OID 1.3.6.1.4.1.32473.2, which is under the arc for examples (RFC 5612).
fn digest_identifier() -> ObjectIdentifier<39>
    ensures { result ≡ digest_arcs }
{
    ObjectIdentifier::from_bytes_unwrap(&[0x2b, 6, 1, 4, 1, 0x81, 0xfd, 0x59, 2])
}

// Returns the algorithm 1.3.6.1.4.1.32473.2, without parameters.
fn digest_algorithm() -> AlgorithmIdentifier
    ensures { algorithm_plain result ≡ digest_algorithm }
{
    AlgorithmIdentifier {
        oid: digest_identifier(),
        parameters: None,
    }
}

/// A signer that returns the 32 bytes of the SHA-256 digest (FIPS 180-4) over the bytes of its
/// key's bit string followed by the signed bytes. Its algorithm is 1.3.6.1.4.1.32473.2 without
/// parameters. `DigestJudge` accepts these signatures, and no others.
///
/// It protects nothing, because everyone who knows the public key can make such a signature.
#[derive(Drop)]
pub struct DigestSigner {
    key: SubjectPublicKeyInfo,
    algorithm: AlgorithmIdentifier,
    ghost of_digests: { algorithm_plain algorithm ≡ digest_algorithm },
}

impl DigestSigner {
    /// Returns a signer with this key.
    pub fn new(key_info: SubjectPublicKeyInfo) -> DigestSigner
        ensures key { ⟦<DigestSigner as Signer>⟧.public_key result ≡ key_plain key_info }
        ensures algorithm { ⟦<DigestSigner as Signer>⟧.signs_by result ≡ digest_algorithm }
        ensures signs { (octets : List ℕ) (bits : Bits)
            → ⟦<DigestSigner as Signer>⟧.signs result octets bits
            ↔ IsDigestOf (key_plain key_info) octets bits }
        ensures ready { (octets : List ℕ) → ⟦<DigestSigner as Signer>⟧.may_refuse result octets
            → ⊥ }
    {
        DigestSigner {
            key: key_info,
            algorithm: digest_algorithm(),
        }
    }
}

impl Signer for DigestSigner {
    ghost use Rattle.cert_desk_orders.specs.CertParts.Views.{algorithm_plain, key_plain};
    ghost use Rattle.cert_desk.specs.DigestSigners.{digest_algorithm, IsDigestOf};

    ghost public_key = { λ s. key_plain s.key };

    ghost signs_by = { λ s. digest_algorithm };

    ghost signs = { λ s. IsDigestOf (key_plain s.key) };

    ghost may_refuse = { λ _ _. ⊥ };

    fn key_info(&self) -> &SubjectPublicKeyInfo {
        &self.key
    }

    fn algorithm(&self) -> &AlgorithmIdentifier {
        &self.algorithm
    }

    fn sign(&self, alloc: Global, octets: &[u8]) -> Result<BitString, SignError> {
        let mut hasher = Sha256::new();
        hasher.update(self.key.subject_public_key.raw_bytes());
        hasher.update(octets);
        let digest = hasher.finalize().as_slice().to_vec(alloc)?;
        match BitString::from_bytes(digest) {
            Ok(bits) => Ok(bits),
            // A digest has 32 bytes.
            Err(_) => unreachable!(),
        }
    }
}
