//! Hash functions by their OIDs.

ghost use Rattle.std.specs.Prelude.{◌≡◌, ◌<◌, ◌≤◌, ◌∷◌, [], length, IfOk, bytes_eq, find};
ghost use Rattle.der_core.specs.Oid.Comparing.{owned_eq};
ghost use Rattle.pki_status.specs.Hashes.{arcs_of, function_named, hash_by};

use der_core::oid::ObjectIdentifier;
use sha1::Sha1;
use sha2::{Digest, Sha224, Sha256, Sha384, Sha512};
use std::alloc::{AllocError, Global};

/// A hash function of FIPS 180-4.
#[derive(Clone, Copy, Debug, PartialEq, Eq)]
pub enum HashFunction {
    /// SHA-1, 1.3.14.3.2.26.
    Sha1,
    /// SHA-224, 2.16.840.1.101.3.4.2.4.
    Sha224,
    /// SHA-256, 2.16.840.1.101.3.4.2.1.
    Sha256,
    /// SHA-384, 2.16.840.1.101.3.4.2.2.
    Sha384,
    /// SHA-512, 2.16.840.1.101.3.4.2.3.
    Sha512,
}

// The hash functions.
const FUNCTIONS: [HashFunction; 5] = [
    HashFunction::Sha1,
    HashFunction::Sha224,
    HashFunction::Sha256,
    HashFunction::Sha384,
    HashFunction::Sha512,
];

impl HashFunction {
    /// Returns the OID of the hash function (RFC 3370 2.1, RFC 5754 2).
    pub fn oid(self) -> ObjectIdentifier<39>
        ensures { result ≡ arcs_of self }
    {
        match self {
            HashFunction::Sha1 => ObjectIdentifier::from_bytes_unwrap(&[0x2b, 14, 3, 2, 26]),
            HashFunction::Sha224 => sha2_oid(4),
            HashFunction::Sha256 => sha2_oid(1),
            HashFunction::Sha384 => sha2_oid(2),
            HashFunction::Sha512 => sha2_oid(3),
        }
    }

    /// Returns the hash function with this OID, or `None` if it is none of these.
    pub fn named(oid: &ObjectIdentifier<39>) -> Option<HashFunction>
        ensures { result ≡ function_named oid.now }
    {
        first_named(&FUNCTIONS, oid)
    }

    /// Returns the digest of these bytes.
    ///
    /// # Errors
    ///
    /// - `AllocError`: memory runs out.
    pub fn digest(self, alloc: Global, octets: &[u8]) -> Result<Vec<u8>, AllocError>
        ensures digest { IfOk result (λ digest. digest.items ≡ hash_by self octets.now) }
        ensures short { IfOk result (λ digest. length digest.items ≤ 64) }
    {
        match self {
            HashFunction::Sha1 => Sha1::digest(octets).as_slice().to_vec(alloc),
            HashFunction::Sha224 => Sha224::digest(octets).as_slice().to_vec(alloc),
            HashFunction::Sha256 => Sha256::digest(octets).as_slice().to_vec(alloc),
            HashFunction::Sha384 => Sha384::digest(octets).as_slice().to_vec(alloc),
            HashFunction::Sha512 => Sha512::digest(octets).as_slice().to_vec(alloc),
        }
    }

    /// Returns whether a digest is the one of these bytes.
    pub fn is_digest(self, digest: &[u8], octets: &[u8]) -> bool
        ensures { result ≡ bytes_eq digest.now (hash_by self octets.now) }
    {
        match self {
            HashFunction::Sha1 => digest == Sha1::digest(octets).as_slice(),
            HashFunction::Sha224 => digest == Sha224::digest(octets).as_slice(),
            HashFunction::Sha256 => digest == Sha256::digest(octets).as_slice(),
            HashFunction::Sha384 => digest == Sha384::digest(octets).as_slice(),
            HashFunction::Sha512 => digest == Sha512::digest(octets).as_slice(),
        }
    }
}

// Returns the first of some hash functions that has this OID.
fn first_named(functions: &[HashFunction], oid: &ObjectIdentifier<39>) -> Option<HashFunction>
    ensures { result ≡ find (λ f. owned_eq (arcs_of f) oid.now) functions.now }
{
    for function in functions {
        if function.oid() == *oid {
            return Some(*function);
        }
    }
    None
}

// Returns the OID of a hash function of SHA-2.
fn sha2_oid(last: u8) -> ObjectIdentifier<39>
    requires low { 0 < last }
    requires high { last < 5 }
    ensures { result ≡ 2 ∷ 16 ∷ 840 ∷ 1 ∷ 101 ∷ 3 ∷ 4 ∷ 2 ∷ last ∷ [] }
{
    ObjectIdentifier::from_bytes_unwrap(&[0x60, 0x86, 0x48, 0x01, 0x65, 3, 4, 2, last])
}
