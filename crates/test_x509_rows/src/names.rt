//! Answers questions about the usages of a key and the names of a subject.

use crate::refusals::Refusal;
use crate::shown::{list_in, octets_of, read};
use std::alloc::{AllocError, Global};
use x509_cert::{FlagSet, GeneralName, KeyUsage, KeyUsages, SubjectAltName};

/// Returns the usages of a key, or the names of a subject.
pub fn names_of(alloc: Global, kind: &str, octets: &str) -> Result<String, Refusal> {
    let octets = octets_of(alloc, octets)?;
    match kind {
        "KeyUsage" => usages_in(alloc, octets.as_slice()),
        "SubjectAltName" => subjects_in(alloc, octets.as_slice()),
        _ => Err(Refusal::Unread),
    }
}

/// Decodes the usages of a key and returns their names.
fn usages_in(alloc: Global, octets: &[u8]) -> Result<String, Refusal> {
    Ok(usages_of(alloc, KeyUsage(read::<FlagSet<KeyUsages>>(alloc, octets)?))?)
}

/// Decodes the names of a subject and returns them.
fn subjects_in(alloc: Global, octets: &[u8]) -> Result<String, Refusal> {
    Ok(subjects_of(
        alloc,
        &SubjectAltName(list_in::<GeneralName>(alloc, octets)?),
    )?)
}

/// Returns the names of the usages of a key.
fn usages_of(alloc: Global, usage: KeyUsage) -> Result<String, AllocError> {
    let usages = [
        (usage.digital_signature(), "digital_signature"),
        (usage.non_repudiation(), "non_repudiation"),
        (usage.key_encipherment(), "key_encipherment"),
        (usage.data_encipherment(), "data_encipherment"),
        (usage.key_agreement(), "key_agreement"),
        (usage.key_cert_sign(), "key_cert_sign"),
        (usage.crl_sign(), "crl_sign"),
        (usage.encipher_only(), "encipher_only"),
        (usage.decipher_only(), "decipher_only"),
    ];
    let mut text = String::new(alloc);
    for usage in usages.iter() {
        let (is_used, word) = *usage;
        if is_used {
            if !text.is_empty() {
                text.push(' ')?;
            }
            text.push_str(word)?;
        }
    }
    Ok(text)
}

/// Returns the names of a subject, after the words that OpenSSL uses for their kinds.
fn subjects_of(alloc: Global, names: &SubjectAltName) -> Result<String, AllocError> {
    let mut text = String::new(alloc);
    for name in &names.0 {
        if !text.is_empty() {
            text.push_str(", ")?;
        }
        text.push_str(subject_of(alloc, name)?.as_str())?;
    }
    Ok(text)
}

/// Returns a name of a subject, after the word that OpenSSL uses for its kind.
fn subject_of(alloc: Global, name: &GeneralName) -> Result<String, AllocError> {
    match name {
        GeneralName::Rfc822Name(name) => format!(in alloc; "email:{}", name.as_str()),
        GeneralName::DnsName(name) => format!(in alloc; "DNS:{}", name.as_str()),
        GeneralName::UniformResourceIdentifier(name) => format!(in alloc; "URI:{}", name.as_str()),
        GeneralName::RegisteredId(name) => format!(in alloc; "Registered ID:{name}"),
        GeneralName::DirectoryName(name) => format!(in alloc; "DirName:{name}"),
        GeneralName::OtherName(name) => format!(in alloc; "othername:{}", name.type_id),
        GeneralName::IpAddress(_) => "IP Address".to_string(alloc),
        GeneralName::EdiPartyName(_) => "EdiPartyName".to_string(alloc),
    }
}
