//! Digests of certificates, used as fingerprints.

ghost use Rattle.sha1.specs.Sha1.{sha1};

use sha1::Sha1;
use std::alloc::{AllocError, Global};

/// A hash function for the digests of certificates.
pub trait CertDigest {
    ghost use Rattle.std.specs.Prelude.{◌≡◌, ℕ, List, IfOk};

    // The digest of these bytes.
    ghost digest_of: { List ℕ → List ℕ };

    /// Returns the digest of these bytes.
    ///
    /// # Errors
    ///
    /// - `AllocError`: memory runs out.
    fn digest(alloc: Global, octets: &[u8]) -> Result<Vec<u8>, AllocError>
        ensures { IfOk result (λ d. d.items ≡ digest_of octets.now) };
}

/// SHA-1 (FIPS 180-4).
impl CertDigest for Sha1 {
    ghost digest_of = { sha1 };

    fn digest(alloc: Global, octets: &[u8]) -> Result<Vec<u8>, AllocError> {
        let digest = Sha1::digest(octets);
        Ok(digest.as_slice().to_vec(alloc)?)
    }
}
