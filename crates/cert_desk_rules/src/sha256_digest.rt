//! The SHA-256 digest of a certificate.
ghost use Rattle.sha2.specs.Sha256.{sha256};

use cert_desk_bundle::cert_certificates::CertDigest;
use sha2::{Digest, Sha256};
use std::alloc::{AllocError, Global};

/// SHA-256 (FIPS 180-4) as a digest of certificates: `certificate.hash::<Sha256Digest>(alloc)`
/// returns the digest of the certificate's encoding.
#[derive(Clone, Copy, Debug)]
pub struct Sha256Digest;

impl CertDigest for Sha256Digest {
    ghost digest_of = { sha256 };

    fn digest(alloc: Global, octets: &[u8]) -> Result<Vec<u8>, AllocError> {
        let digest = Sha256::digest(octets);
        let digest = digest.as_slice().to_vec(alloc)?;
        Ok(digest)
    }
}
