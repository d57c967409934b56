//! Values in the presentation language of TLS.

use crate::refusals::Refusal;
use crate::shown::{Dashed, dashed_octets_of, shown};
use der_core::ToDer;
use std::alloc::Global;
use std::slice;
use x509_cert::timestamps::{
    DigitallySigned, HashAlgorithm, LogId, SerializedSct, SignatureAlgorithm,
    SignatureAndHashAlgorithm, SignedCertificateTimestamp, SignedCertificateTimestampList,
    TlsValue, Version,
};

/// Returns the encoding of the value of a type with which the bytes begin, and the bytes after it.
pub fn rewritten(alloc: Global, kind: &str, octets: &str) -> Result<String, Refusal> {
    let octets = dashed_octets_of(alloc, octets)?;
    let octets = octets.as_slice();
    match kind {
        "HashAlgorithm" => written::<HashAlgorithm>(alloc, octets),
        "SignatureAlgorithm" => written::<SignatureAlgorithm>(alloc, octets),
        "Version" => written::<Version>(alloc, octets),
        "LogId" => written::<LogId>(alloc, octets),
        "SignatureAndHashAlgorithm" => written::<SignatureAndHashAlgorithm>(alloc, octets),
        "DigitallySigned" => written::<DigitallySigned>(alloc, octets),
        "SignedCertificateTimestamp" => written::<SignedCertificateTimestamp>(alloc, octets),
        "SerializedSct" => written::<SerializedSct>(alloc, octets),
        _ => Err(Refusal::Unread),
    }
}

/// Returns the encoding of the value with which the bytes begin, and the bytes after it.
fn written<T: TlsValue>(alloc: Global, octets: &[u8]) -> Result<String, Refusal> {
    let (value, rest) = T::tls_deserialize_bytes(alloc, octets)?;
    let output = value.tls_serialize(alloc)?;
    if value.tls_serialized_len() != output.len() {
        return Err(Refusal::Length);
    }
    Ok(format!(in alloc; "{} {}", Dashed(output.as_slice()), Dashed(rest))?)
}

/// Returns the length of the encoding of a timestamp of that many bytes.
pub fn length_of(alloc: Global, count: &str) -> Result<String, Refusal> {
    let octets = timestamp_of(alloc, count)?.tls_serialize(alloc)?;
    shown(alloc, octets.len())
}

/// Returns the length of the encoding of the list of one timestamp of that many bytes.
pub fn length_of_list(alloc: Global, count: &str) -> Result<String, Refusal> {
    let timestamp = timestamp_of(alloc, count)?;
    let list = SignedCertificateTimestampList::new(alloc, slice::from_ref(&timestamp))?;
    shown(alloc, list.to_der(alloc)?.len())
}

/// Returns a timestamp of that many bytes, all of them zero. All but 47 of them are in its
/// extensions.
fn timestamp_of(alloc: Global, count: &str) -> Result<SerializedSct, Refusal> {
    let count: usize = count.parse()?;
    let extensions = vec![in alloc; 0u8; count.saturating_sub(47)]?;
    Ok(SerializedSct::new(alloc, blank_timestamp(alloc, 0, extensions))?)
}

/// Returns a timestamp with that many milliseconds and these extensions, which is otherwise empty.
pub fn blank_timestamp(
    alloc: Global,
    timestamp: u64,
    extensions: Vec<u8>,
) -> SignedCertificateTimestamp {
    SignedCertificateTimestamp {
        version: Version::V1,
        log_id: LogId { key_id: [0; 32] },
        timestamp,
        extensions,
        signature: DigitallySigned {
            algorithm: SignatureAndHashAlgorithm {
                hash: HashAlgorithm::None,
                signature: SignatureAlgorithm::Anonymous,
            },
            signature: Vec::new(alloc),
        },
    }
}
