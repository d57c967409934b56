//! Messages (RFC 5652).

use crate::same;
use der_core::{FromDer, Result, ToDer};
use pki_cms::identifiers::{id_digested_data, id_encrypted_data, id_signed_data};
use pki_cms::{
    ContentInfo, DigestedData, EncapsulatedContentInfo, EncryptedData, SignedData,
    SignerIdentifier, SignerInfo,
};
use pki_timestamps::TstInfo;
use pki_timestamps::identifiers::id_ct_tst_info;
use std::alloc::Global;

/// Returns what a message says.
pub fn of_message(alloc: Global, octets: &[u8]) -> Result<String> {
    let info = ContentInfo::from_der(alloc, octets)?;
    let same = same(info.to_der(alloc), octets)?;
    let text = of_info(alloc, &info)?;
    Ok(format!(in alloc; "{text}, {same}")?)
}

/// Returns what the content of a message says.
pub fn of_info(alloc: Global, info: &ContentInfo) -> Result<String> {
    let content = info.content.to_der(alloc)?;
    let kind = info.content_type;
    if kind == id_signed_data() {
        return of_signed(alloc, content.as_slice());
    }
    if kind == id_encrypted_data() {
        return of_encrypted(alloc, content.as_slice());
    }
    if kind == id_digested_data() {
        return of_digested(alloc, content.as_slice());
    }
    Ok(format!(in alloc; "content {kind}")?)
}

fn of_encrypted(alloc: Global, octets: &[u8]) -> Result<String> {
    let data = EncryptedData::from_der(alloc, octets)?;
    let same = same(data.to_der(alloc), octets)?;
    Ok(format!(in alloc; "encrypted, inside {same}")?)
}

fn of_digested(alloc: Global, octets: &[u8]) -> Result<String> {
    let data = DigestedData::from_der(alloc, octets)?;
    let same = same(data.to_der(alloc), octets)?;
    Ok(format!(in alloc; "digested, inside {same}")?)
}

/// Returns who signed a message, and what it contains.
fn of_signed(alloc: Global, octets: &[u8]) -> Result<String> {
    let data = SignedData::from_der(alloc, octets)?;
    let same = same(data.to_der(alloc), octets)?;
    signed_text(alloc, &data, same)
}

fn signed_text(alloc: Global, data: &SignedData, same: &str) -> Result<String> {
    let version = data.version;
    let signers = of_signers(alloc, data.signer_infos.as_slice())?;
    let content = of_content(alloc, &data.encap_content_info)?;
    Ok(format!(in alloc; "signed {version:?}{signers}, {content}, inside {same}")?)
}

fn of_signers(alloc: Global, signers: &[SignerInfo]) -> Result<String> {
    let mut text = String::new(alloc);
    for signer in signers {
        let line = of_signer(alloc, signer)?;
        text.push_str(line.as_str())?;
    }
    Ok(text)
}

fn of_signer(alloc: Global, signer: &SignerInfo) -> Result<String> {
    let count = signer
        .signed_attrs
        .as_ref()
        .map_or(0, |attributes| attributes.len());
    match &signer.sid {
        SignerIdentifier::IssuerAndSerialNumber(id) => {
            let name = &id.issuer;
            Ok(format!(in alloc; ", issuer {name}, {count} attributes")?)
        }
        SignerIdentifier::SubjectKeyIdentifier(_) => {
            Ok(format!(in alloc; ", a key, {count} attributes")?)
        }
    }
}

/// Returns what a signed content says, if it is a timestamp, and else its type.
fn of_content(alloc: Global, content: &EncapsulatedContentInfo) -> Result<String> {
    let kind = content.e_content_type;
    match &content.e_content {
        Some(octets) if kind == id_ct_tst_info() => of_stamp(alloc, octets.as_bytes()),
        _ => Ok(format!(in alloc; "content {kind}")?),
    }
}

fn of_stamp(alloc: Global, octets: &[u8]) -> Result<String> {
    let info = TstInfo::from_der(alloc, octets)?;
    let same = same(info.to_der(alloc), octets)?;
    stamp_text(alloc, &info, same)
}

fn stamp_text(alloc: Global, info: &TstInfo, same: &str) -> Result<String> {
    let is_named = info.tsa.is_some();
    Ok(format!(in alloc; "stamp, named {is_named}, inside {same}")?)
}
