//! Key containers: reads one from each line of standard input (DER, in hex), and prints what it
//! says and whether it is encoded to the same bytes.
#![tactic(auto)]

use der_core::{FromDer, Result, ToDer};
use pki_key_containers::{EncryptedPrivateKeyInfo, OneAsymmetricKey};
use std::alloc::Global;
use std::io;

fn main(rt: HostRuntime) -> io::Result<()> {
    for line in rt.lines(rt.alloc()) {
        match answer(rt.alloc(), line?.as_str()) {
            Ok(text) => println!(rt; "{text}")?,
            Err(error) => println!(rt; "rejected {:?}", error.kind)?,
        }
    }
    Ok(())
}

/// Returns what the container of a line says.
fn answer(alloc: Global, line: &str) -> Result<String> {
    let Ok(octets) = hex::decode(alloc, line) else {
        return Ok(format!(in alloc; "?")?);
    };
    match of_encrypted_key(alloc, octets.as_slice()) {
        Ok(text) => Ok(text),
        Err(_) => of_key(alloc, octets.as_slice()),
    }
}

/// Returns what a private key says of itself.
fn of_key(alloc: Global, octets: &[u8]) -> Result<String> {
    let key = OneAsymmetricKey::from_der(alloc, octets)?;
    let encoding = key.to_der(alloc)?;
    key_text(alloc, &key, encoding.as_slice() == octets)
}

fn key_text(alloc: Global, key: &OneAsymmetricKey, same: bool) -> Result<String> {
    let version = key.version;
    let algorithm = key.private_key_algorithm.oid;
    Ok(format!(in alloc; "key {version:?} {algorithm}, the same bytes: {same}")?)
}

/// Returns by which algorithm a private key is encrypted.
fn of_encrypted_key(alloc: Global, octets: &[u8]) -> Result<String> {
    let key = EncryptedPrivateKeyInfo::from_der(alloc, octets)?;
    let encoding = key.to_der(alloc)?;
    encrypted_key_text(alloc, &key, encoding.as_slice() == octets)
}

fn encrypted_key_text(alloc: Global, key: &EncryptedPrivateKeyInfo, same: bool) -> Result<String> {
    let algorithm = key.encryption_algorithm.oid;
    Ok(format!(in alloc; "encrypted key {algorithm}, the same bytes: {same}")?)
}
