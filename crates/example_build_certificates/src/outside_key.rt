//! Keys that sign elsewhere.

use const_oid::ObjectIdentifier;
use der_core::{Error, ToDer};
use std::alloc::Global;
use x509_cert::builder::{SignError, Signer};
use x509_cert::{AlgorithmIdentifier, Any, BitString, SubjectPublicKeyInfo, Uint};

/// A key that signs in another program or in a device. A builder needs the key and its algorithm.
/// The key makes no signature here.
#[derive(Drop)]
pub struct OutsideKey {
    scheme: Scheme,
    info: SubjectPublicKeyInfo,
    algorithm: AlgorithmIdentifier,
}

impl OutsideKey {
    /// Returns a key with this scheme.
    pub fn new(
        alloc: Global,
        scheme: Scheme,
        info: SubjectPublicKeyInfo,
    ) -> Result<OutsideKey, Error> {
        let algorithm = scheme.algorithm(alloc)?;
        Ok(OutsideKey {
            scheme,
            info,
            algorithm,
        })
    }

    /// Returns the signature with these bytes.
    pub fn signature(&self, alloc: Global, octets: &[u8]) -> Result<BitString, Error> {
        match self.scheme {
            Scheme::P256Numbers => of_numbers(alloc, octets),
            _ => BitString::from_bytes(octets.to_vec(alloc)?),
        }
    }
}

/// Returns an ECDSA signature (RFC 3279 2.2.3) from its two numbers, which have the same number of
/// bytes.
fn of_numbers(alloc: Global, numbers: &[u8]) -> Result<BitString, Error> {
    let (r, s) = numbers.split_at(numbers.len() / 2);
    let mut both = Vec::new(alloc);
    both.push(Uint::new(alloc, r)?)?;
    both.push(Uint::new(alloc, s)?)?;
    BitString::from_bytes(both.to_der(alloc)?)
}

/// A signature scheme.
#[derive(Clone, Copy)]
pub enum Scheme {
    /// RSA with PKCS #1 v1.5 and SHA-256.
    Rsa,
    /// ECDSA on P-256 with SHA-256.
    P256,
    /// ECDSA on P-256 with SHA-256, where a device returns the two numbers of the signature.
    P256Numbers,
    /// Ed25519.
    Ed25519,
}

impl Scheme {
    /// Returns the scheme for a kind of key.
    pub fn parse(kind: &str) -> Option<Scheme> {
        match kind {
            "rsa" => Some(Scheme::Rsa),
            "p256" => Some(Scheme::P256),
            "p256-numbers" => Some(Scheme::P256Numbers),
            "ed25519" => Some(Scheme::Ed25519),
            _ => None,
        }
    }

    /// Returns the identifier of the algorithm.
    fn algorithm(self, alloc: Global) -> Result<AlgorithmIdentifier, Error> {
        match self {
            Scheme::Rsa => rsa(alloc),
            Scheme::P256 | Scheme::P256Numbers => plain("1.2.840.10045.4.3.2"),
            Scheme::Ed25519 => plain("1.3.101.112"),
        }
    }
}

/// Returns `sha256WithRSAEncryption`, whose parameters are NULL (RFC 4055 5).
fn rsa(alloc: Global) -> Result<AlgorithmIdentifier, Error> {
    let oid = ObjectIdentifier::new("1.2.840.113549.1.1.11")?;
    Ok(AlgorithmIdentifier {
        oid,
        parameters: Some(Any::null(alloc)),
    })
}

/// Returns an algorithm without parameters. `1.2.840.10045.4.3.2` is `ecdsa-with-SHA256` (RFC 5758
/// 3.2), and `1.3.101.112` is Ed25519 (RFC 8410 3).
fn plain(dotted: &str) -> Result<AlgorithmIdentifier, Error> {
    let oid = ObjectIdentifier::new(dotted)?;
    Ok(AlgorithmIdentifier {
        oid,
        parameters: None,
    })
}

impl Signer for OutsideKey {
    ghost use Rattle.std.specs.Prelude.{⊤};
    ghost use Rattle.x509_cert.specs.Parts.{algorithm_plain, key_plain};

    ghost public_key = { λ s. key_plain s.info };

    ghost signs_by = { λ s. algorithm_plain s.algorithm };

    ghost signs = { λ _ _ _. ⊥ };

    ghost may_refuse = { λ _ _. ⊤ };

    fn key_info(&self) -> &SubjectPublicKeyInfo {
        &self.info
    }

    fn algorithm(&self) -> &AlgorithmIdentifier {
        &self.algorithm
    }

    fn sign(&self, _alloc: Global, _octets: &[u8]) -> Result<BitString, SignError> {
        Err(SignError::Refused)
    }
}
