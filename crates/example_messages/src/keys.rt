//! Private keys (RFC 5958).

use crate::same;
use der_core::{FromDer, Result, ToDer};
use pki_key_containers::{EncryptedPrivateKeyInfo, OneAsymmetricKey};
use std::alloc::Global;

/// Returns what a private key says of itself.
pub fn of_key(alloc: Global, octets: &[u8]) -> Result<String> {
    let key = OneAsymmetricKey::from_der(alloc, octets)?;
    let same = same(key.to_der(alloc), octets)?;
    key_text(alloc, &key, same)
}

fn key_text(alloc: Global, key: &OneAsymmetricKey, same: &str) -> Result<String> {
    let version = key.version;
    let algorithm = key.private_key_algorithm.oid;
    Ok(format!(in alloc; "key {version:?} {algorithm}, {same}")?)
}

/// Returns by which algorithm a private key is encrypted.
pub fn of_encrypted_key(alloc: Global, octets: &[u8]) -> Result<String> {
    let key = EncryptedPrivateKeyInfo::from_der(alloc, octets)?;
    let same = same(key.to_der(alloc), octets)?;
    encrypted_key_text(alloc, &key, same)
}

fn encrypted_key_text(alloc: Global, key: &EncryptedPrivateKeyInfo, same: &str) -> Result<String> {
    let algorithm = key.encryption_algorithm.oid;
    Ok(format!(in alloc; "encrypted key {algorithm}, {same}")?)
}
