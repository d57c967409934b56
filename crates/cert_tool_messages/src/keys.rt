//! Describes private keys (RFC 5958). The bytes of the field `privateKey` aren't printed. No
//! contract states this, because none says what is printed.

ghost use Rattle.std.specs.Prelude.{◌≢◌, IfErr, OnOk};
ghost use Rattle.cert_tool_describe.specs.Der.ErrorTypes.ErrorKind.TheVariants.{OutOfMemory};
ghost use Rattle.cert_tool_messages.specs.Files.{IsEncryptedKey, IsKey, IsPlainKey};

use crate::attributes::add_attributes;
use crate::encryption::add_encryption;
use cert_tool_describe::der::making::leaf_from_der;
use cert_tool_describe::der::{Error, ErrorKind, FromDer};
use cert_tool_describe::tool_lines::{Lines, known_name};
use cert_tool_describe::types::{OctetString, Uint};
use cert_tool_describe::{
    DescribeFile, Node, add_algorithm_members, add_bit_row, add_bits, add_key_parameters, any_in,
    bit_len, content_at, noted,
};
use pki_key_containers::{EncryptedPrivateKeyInfo, OneAsymmetricKey, Version};
use std::alloc::Global;

/// A private key.
#[derive(Drop)]
pub enum PrivateKey {
    /// A private key that isn't encrypted (RFC 5958 2).
    Plain(OneAsymmetricKey),
    /// An encrypted private key (RFC 5958 3).
    Encrypted(EncryptedPrivateKeyInfo),
}

// Returns whether the first field of the value is a SEQUENCE, as in an encrypted private key. The
// first field of the other container is an INTEGER.
fn is_encrypted(octets: &[u8]) -> bool {
    matches!(content_at(octets, 0), [0x30, ..])
}

/// Returns the container for which an error is reported if a file with a private key can't be
/// decoded: `EncryptedKey` if the first field is a SEQUENCE, otherwise `Key`. No contract states
/// this.
pub fn key_node(octets: &[u8]) -> Node {
    if is_encrypted(octets) {
        Node::EncryptedKey
    } else {
        Node::Key
    }
}

// Decodes a private key that isn't encrypted.
fn read_plain(alloc: Global, octets: &[u8]) -> Result<PrivateKey, Error>
    ensures spelled { OnOk result (IsPlainKey octets.now) }
    ensures refused { IfErr result (λ e. e.kind ≢ OutOfMemory → IsPlainKey octets.now → ⊥) }
{
    match OneAsymmetricKey::from_der(alloc, octets) {
        Ok(key) => Ok(PrivateKey::Plain(key)),
        Err(error) => Err(error),
    }
}

// Decodes an encrypted private key.
fn read_encrypted(alloc: Global, octets: &[u8]) -> Result<PrivateKey, Error>
    ensures spelled { OnOk result (IsEncryptedKey octets.now) }
    ensures refused { IfErr result (λ e. e.kind ≢ OutOfMemory → IsEncryptedKey octets.now → ⊥) }
{
    match EncryptedPrivateKeyInfo::from_der(alloc, octets) {
        Ok(key) => Ok(PrivateKey::Encrypted(key)),
        Err(error) => Err(error),
    }
}

// Returns the error of the container that the bytes resemble, or that memory ran out.
fn error_of(octets: &[u8], of_plain: Error, of_encrypted: Error) -> Error
    ensures { result.kind ≢ OutOfMemory → of_encrypted.kind ≢ OutOfMemory }
{
    if of_encrypted.kind == ErrorKind::OutOfMemory || is_encrypted(octets) {
        of_encrypted
    } else {
        of_plain
    }
}

// Returns the number of bits of the modulus of an RSA key (RFC 8017 A.1.2).
fn modulus_bits(lines: &mut Lines, octets: &[u8]) -> Option<u64> {
    let values = any_in(lines, octets)?;
    let [_, modulus, ..] = values.as_slice() else {
        return None;
    };
    let modulus = modulus.decode_as::<Uint>(lines.alloc);
    let modulus = noted(lines, modulus)?;
    Some(bit_len(modulus.as_bytes()) as u64)
}

// Returns the number of bits of a key that is an OCTET STRING (RFC 8410 7).
fn string_bits(lines: &mut Lines, octets: &[u8]) -> Option<u64> {
    let string = leaf_from_der::<OctetString>(lines.alloc, octets);
    let string = noted(lines, string)?;
    Some((string.as_bytes().len() as u64).saturating_mul(8))
}

// Adds a line with the number of bits of a private key of RSA or of RFC 8410. That of an EC or DSA
// key follows from its parameters.
fn add_size(lines: &mut Lines, key: &OneAsymmetricKey) {
    let octets = key.private_key.as_bytes();
    let algorithm = key.private_key_algorithm.oid.as_bytes();
    let bits = match known_name(algorithm).unwrap_or("") {
        "rsaEncryption" | "id-RSASSA-PSS" => modulus_bits(lines, octets),
        "id-X25519" | "id-X448" | "id-Ed25519" | "id-Ed448" => string_bits(lines, octets),
        _ => None,
    };
    if let Some(bits) = bits {
        add_bits(lines, bits);
    }
}

// Adds a line with a number of bytes.
fn add_len(lines: &mut Lines, word: &str, key: &str, len: usize) {
    lines.count_row(word, key, len as u64);
    lines.word("bytes");
}

// Adds the lines of a private key that isn't encrypted.
fn add_plain(lines: &mut Lines, key: &OneAsymmetricKey) {
    lines.text_row("", "kind", "key");
    let version = match key.version {
        Version::V1 => 1,
        Version::V2 => 2,
    };
    lines.count_row("version", "version", version);
    lines.node("algorithm", "privateKeyAlgorithm");
    add_algorithm_members(lines, &key.private_key_algorithm);
    add_size(lines, key);
    add_key_parameters(lines, &key.private_key_algorithm);
    lines.close();
    let len = key.private_key.as_bytes().len();
    add_len(lines, "private key", "privateKeyLength", len);
    if let Some(attributes) = &key.attributes {
        add_attributes(lines, "attribute", "attributes", attributes.as_slice());
    }
    if let Some(bits) = &key.public_key {
        add_bit_row(lines, "public key", "publicKey", bits);
    }
}

// Adds the lines of an encrypted private key.
fn add_encrypted(lines: &mut Lines, key: &EncryptedPrivateKeyInfo) {
    lines.text_row("", "kind", "encrypted-key");
    add_encryption(lines, &key.encryption_algorithm);
    let len = key.encrypted_data.as_bytes().len();
    add_len(lines, "encrypted data", "encryptedDataLength", len);
}

impl DescribeFile for PrivateKey {
    ghost is_spelled = { IsKey };

    fn read_file(alloc: Global, octets: &[u8]) -> Result<PrivateKey, Error> {
        let of_plain = match read_plain(alloc, octets) {
            Ok(key) => return Ok(key),
            Err(error) => error,
        };
        if of_plain.kind == ErrorKind::OutOfMemory {
            return Err(of_plain);
        }
        match read_encrypted(alloc, octets) {
            Ok(key) => Ok(key),
            Err(of_encrypted) => Err(error_of(octets, of_plain, of_encrypted)),
        }
    }

    // Digests of the file aren't printed, because they are computed from its secret bytes.
    fn describe_file(&self, lines: &mut Lines, _octets: &[u8]) {
        match self {
            PrivateKey::Plain(key) => add_plain(lines, key),
            PrivateKey::Encrypted(key) => add_encrypted(lines, key),
        }
    }
}
