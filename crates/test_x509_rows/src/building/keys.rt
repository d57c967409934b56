//! Keys and their identifiers.

use crate::building::refusals::Refusal;
use crate::building::words::{key_of, written};
use std::alloc::Global;
use x509_cert::{
    AlgorithmIdentifierRef, AuthorityKeyIdentifier, SubjectKeyIdentifier, SubjectPublicKeyInfo,
    SubjectPublicKeyInfoRef,
};

/// Returns the identifier of a key, and the encoding of the authority key identifier.
pub fn answer(alloc: Global, word: &str) -> Result<String, Refusal> {
    let key = key_of(alloc, word)?;
    answer_of(alloc, &key)
}

/// Returns the answer for a key.
fn answer_of(alloc: Global, key: &SubjectPublicKeyInfo) -> Result<String, Refusal> {
    let algorithm: AlgorithmIdentifierRef<'_> = key.algorithm.owned_to_ref();
    let lent: SubjectPublicKeyInfoRef<'_> = SubjectPublicKeyInfoRef {
        algorithm,
        subject_public_key: key.subject_public_key.owned_to_ref(),
    };
    let mut text = "ok ".to_string(alloc)?;
    add_subject(alloc, &mut text, &lent)?;
    text.push_str(" ")?;
    add_authority(alloc, &mut text, &lent)?;
    Ok(text)
}

/// Appends bytes in base 16 to a text.
fn add(alloc: Global, text: &mut String, octets: &[u8]) -> Result<(), Refusal> {
    let word = hex::encode(alloc, octets)?;
    text.push_str(word.as_str())?;
    Ok(())
}

/// Appends the identifier of a subject's key.
fn add_subject(
    alloc: Global,
    text: &mut String,
    key: &SubjectPublicKeyInfoRef<'_>,
) -> Result<(), Refusal> {
    let identifier = SubjectKeyIdentifier::try_from_key(alloc, key)?;
    add(alloc, text, identifier.0.as_bytes())
}

/// Appends the encoding of the identifier of an authority's key.
fn add_authority(
    alloc: Global,
    text: &mut String,
    key: &SubjectPublicKeyInfoRef<'_>,
) -> Result<(), Refusal> {
    let identifier = AuthorityKeyIdentifier::try_from_key(alloc, key)?;
    let octets = written(alloc, &identifier)?;
    add(alloc, text, octets.as_slice())
}
