//! Prints signed certificate timestamps (RFC 6962 3.3).

use crate::values::noted;
use cert_tool_lines::Lines;
use cert_tool_lines::types::OctetString;
use std::alloc::Global;
use x509_cert_extensions::policy_types::timestamps::{
    DigitallySigned, Error, HashAlgorithm, SerializedSct, SignatureAlgorithm,
    SignedCertificateTimestamp, SignedCertificateTimestampList, TlsError, TlsValue,
};
use x509_cert_lists::der::making::leaf_from_der;
use x509_cert_lists::der::{Error as DerError, ErrorKind, Tag};

// Returns the name of a hash algorithm (RFC 5246 7.4.1.4.1, RFC 8422 5.1.3).
fn hash_name(hash: &HashAlgorithm) -> &'static str {
    match hash {
        HashAlgorithm::None => "none",
        HashAlgorithm::Md5 => "md5",
        HashAlgorithm::Sha1 => "sha1",
        HashAlgorithm::Sha224 => "sha224",
        HashAlgorithm::Sha256 => "sha256",
        HashAlgorithm::Sha384 => "sha384",
        HashAlgorithm::Sha512 => "sha512",
        HashAlgorithm::Intrinsic => "intrinsic",
    }
}

// Returns the name of a signature algorithm (RFC 5246 7.4.1.4.1, RFC 8422 5.1.3).
fn signature_name(signature: &SignatureAlgorithm) -> &'static str {
    match signature {
        SignatureAlgorithm::Anonymous => "anonymous",
        SignatureAlgorithm::Rsa => "rsa",
        SignatureAlgorithm::Dsa => "dsa",
        SignatureAlgorithm::Ecdsa => "ecdsa",
        SignatureAlgorithm::Ed25519 => "ed25519",
        SignatureAlgorithm::Ed448 => "ed448",
    }
}

// Adds a line with a signature.
fn add_signature(lines: &mut Lines, signed: &DigitallySigned) {
    lines.text_row(
        "signature",
        "hashAlgorithm",
        hash_name(&signed.algorithm.hash),
    );
    lines.text_member(
        "signatureAlgorithm",
        signature_name(&signed.algorithm.signature),
    );
    lines.key("signature");
    lines.octets(signed.signature.as_slice());
}

// Adds a line with the date of a timestamp. If the milliseconds aren't a supported date, they are
// printed as a number.
fn add_date(lines: &mut Lines, timestamp: &SignedCertificateTimestamp) {
    lines.line();
    let mut left = timestamp.timestamp;
    if let Ok(date) = timestamp.timestamp() {
        lines.key("date");
        lines.value(date);
        lines.word("+");
        left = timestamp.timestamp % 1000;
    }
    lines.count_member("milliseconds", left);
    lines.word("ms");
}

// Adds the lines of a timestamp.
fn add_timestamp(lines: &mut Lines, timestamp: &SignedCertificateTimestamp) {
    lines.entry("log");
    lines.key("logID");
    lines.octets(timestamp.log_id.key_id.as_slice());
    add_date(lines, timestamp);
    if !timestamp.extensions.is_empty() {
        lines.octets_row("extensions", "extensions", timestamp.extensions.as_slice());
    }
    add_signature(lines, &timestamp.signature);
    lines.close();
}

// Returns the DER error for malformed timestamps in an OCTET STRING.
fn timestamps_error(error: Error) -> DerError {
    match error {
        Error::Der(error) => error,
        Error::Tls(TlsError::OutOfMemory) => { DerError::from(ErrorKind::OutOfMemory) }
        Error::Tls(_) => DerError::from(ErrorKind::Value {
            tag: Tag::OctetString,
        }),
    }
}

// Decodes a list of encoded timestamps.
fn read_list(alloc: Global, octets: &[u8]) -> Result<Vec<SerializedSct>, DerError> {
    let list = SignedCertificateTimestampList::from(leaf_from_der::<OctetString>(alloc, octets)?);
    match list.parse_timestamps(alloc) {
        Ok(listed) => Ok(listed),
        Err(error) => Err(timestamps_error(error)),
    }
}

// Returns the bytes of an encoded timestamp.
fn octets_of(alloc: Global, written: &SerializedSct) -> Result<Vec<u8>, DerError> {
    match written.tls_serialize(alloc) {
        Ok(octets) => Ok(octets),
        Err(error) => Err(timestamps_error(Error::Tls(error))),
    }
}

// Returns the bytes after the length at the beginning of a vector.
fn after_length(octets: &[u8]) -> &[u8] {
    match octets {
        [_, _, rest @ ..] => rest,
        _ => octets,
    }
}

// Returns whether an encoded timestamp has another version than version 1, whose number is 0. Such
// a timestamp isn't malformed, but is skipped (RFC 6962 3.2, 3.3).
fn has_other_version(octets: &[u8]) -> bool {
    matches!(octets, [1..=0xff, ..])
}

// Adds the bytes of a timestamp that can't be decoded, and why.
fn add_undecoded(lines: &mut Lines, octets: &[u8]) {
    lines.comma();
    lines.brace();
    if has_other_version(octets) {
        let words = "a timestamp of an unknown version";
        lines.text_row("not read here:", "unread", words);
    } else {
        lines.malformed("malformed", ErrorKind::Failed);
    }
    lines.octets_row("octets", "octets", octets);
    lines.end_brace();
}

// Adds the lines of an encoded timestamp.
fn add_written(lines: &mut Lines, written: &SerializedSct) {
    match written.parse_timestamp(lines.alloc) {
        Ok(timestamp) => add_timestamp(lines, &timestamp),
        Err(error) => {
            lines.note(timestamps_error(error).kind);
            let octets = octets_of(lines.alloc, written);
            if let Some(octets) = noted(lines, octets) {
                add_undecoded(lines, after_length(octets.as_slice()));
            }
        }
    }
}

// Adds the lines of a list of timestamps. Returns the error if the bytes aren't one.
pub fn add_timestamps(lines: &mut Lines, octets: &[u8]) -> Option<DerError> {
    match read_list(lines.alloc, octets) {
        Ok(listed) => {
            lines.list("timestamps");
            for written in &listed {
                add_written(lines, written);
            }
            lines.end_list();
            None
        }
        Err(error) => Some(error),
    }
}

// Returns the error of an encoded timestamp, if it is malformed.
fn timestamp_fault(alloc: Global, written: &SerializedSct) -> Option<DerError> {
    let Err(error) = written.parse_timestamp(alloc) else {
        return None;
    };
    match octets_of(alloc, written) {
        Ok(octets) if has_other_version(after_length(octets.as_slice())) => None,
        Ok(_) => Some(timestamps_error(error)),
        Err(error) => Some(error),
    }
}

// Returns the error if the bytes aren't a list of timestamps, or that of the first malformed one.
pub fn timestamps_fault(alloc: Global, octets: &[u8]) -> Option<DerError> {
    match read_list(alloc, octets) {
        Ok(listed) => {
            for written in &listed {
                let fault = timestamp_fault(alloc, written);
                if fault.is_some() {
                    return fault;
                }
            }
            None
        }
        Err(error) => Some(error),
    }
}
