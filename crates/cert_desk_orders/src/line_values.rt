//! Parses the values of lines.
ghost use Rattle.std.specs.Prelude.{◌≡◌, IfOk};
ghost use Rattle.x509_cert_parts.specs.Der.Grammar.{plain_option};
ghost use Rattle.cert_desk_orders.specs.OrderValues.{octets_in, key_in, key_read, length_in};
ghost use Rattle.x509_cert_parts.specs.Views.{key_plain};

use hex::FromHexError;
use std::alloc::{AllocError, Global};
use x509_cert_parts::SubjectPublicKeyInfo;
use x509_cert_parts::der::FromDer;
use x509_cert_parts::der::making::is_out_of_memory;

// Decodes a text in base 16. Returns `None` if it isn't one.
pub(crate) fn octets_of(alloc: Global, text: &str) -> Result<Option<Vec<u8>>, AllocError>
    ensures { IfOk result (λ read. plain_option (λ octets. octets.items) read
        ≡ octets_in text.now) }
{
    match hex::decode(alloc, text) {
        Ok(octets) => Ok(Some(octets)),
        Err(FromHexError::OutOfMemory) => Err(AllocError),
        Err(_) => Ok(None),
    }
}

// Decodes a key from all of the bytes. Returns `None` if they don't encode one.
fn key_of_octets(alloc: Global, octets: &[u8]) -> Result<Option<SubjectPublicKeyInfo>, AllocError>
    ensures { IfOk result (λ read. plain_option key_plain read ≡ key_read octets.now) }
{
    match SubjectPublicKeyInfo::from_der(alloc, octets) {
        Ok(key) => Ok(Some(key)),
        Err(error) => {
            if is_out_of_memory(&error) {
                return Err(AllocError);
            }
            Ok(None)
        }
    }
}

// Decodes a key from its encoding in base 16. Returns `None` if the text isn't one.
pub(crate) fn key_of(alloc: Global, text: &str) -> Result<Option<SubjectPublicKeyInfo>, AllocError>
    ensures { IfOk result (λ read. plain_option key_plain read ≡ key_in text.now) }
{
    match octets_of(alloc, text)? {
        Some(octets) => key_of_octets(alloc, octets.as_slice()),
        None => Ok(None),
    }
}

// Parses a path length: one or more decimal digits, for a number up to 255. Leading zeros are
// allowed, a sign isn't.
pub(crate) fn length_of(text: &str) -> Option<u8>
    ensures { result ≡ length_in text.now }
{
    if text.as_bytes().first() == Some(&b'+') {
        return None;
    }
    text.parse().ok()
}
