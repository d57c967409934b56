//! Answers questions about the extensions of a certificate.

use crate::refusals::Refusal;
use crate::shown::{octets_of, shown, written};
use const_oid::AssociatedOid;
use der_core::{Decode, Encode, Error, SliceReader};
use std::alloc::Global;
use x509_cert::{CertificateInner, KeyUsage, Raw, TbsCertificateInner};

/// Decodes a certificate.
pub fn certificate_of(alloc: Global, digits: &str) -> Result<CertificateInner<Raw>, Refusal> {
    let octets = octets_of(alloc, digits)?;
    Ok(CertificateInner::<Raw>::from_der(alloc, octets.as_slice())?)
}

/// Returns the single value of a type among the extensions of a certificate.
pub fn got<'a, T: Decode<'a, SliceReader<'a>> + Encode + AssociatedOid + Drop>(
    alloc: Global,
    certificate: &'a TbsCertificateInner<Raw>,
) -> Result<String, Refusal> {
    match certificate.get_extension::<T>(alloc)? {
        Some((is_critical, value)) => content_of(alloc, is_critical, &value),
        None => shown(alloc, "none"),
    }
}

/// Returns whether an extension is critical, and its content.
fn content_of<T: Encode>(alloc: Global, is_critical: bool, value: &T) -> Result<String, Refusal> {
    let critical = if is_critical { "critical " } else { "" };
    let content = written(alloc, value)?;
    Ok(format!(in alloc; "{critical}{content}")?)
}

/// Returns all key usages of a certificate.
pub fn usages_of(alloc: Global, octets: &str) -> Result<String, Refusal> {
    let certificate = certificate_of(alloc, octets)?;
    all_of::<KeyUsage>(alloc, certificate.tbs_certificate())
}

/// Returns all values of a type among the extensions of a TBSCertificate.
fn all_of<'a, T: Decode<'a, SliceReader<'a>> + Encode + AssociatedOid>(
    alloc: Global,
    certificate: &'a TbsCertificateInner<Raw>,
) -> Result<String, Refusal> {
    let mut text = String::new(alloc);
    for value in certificate.filter_extensions::<T>(alloc) {
        if !text.is_empty() {
            text.push_str(", ")?;
        }
        let value = value_or_refusal(alloc, value)?;
        text.push_str(value.as_str())?;
    }
    Ok(text)
}

/// Returns a value of a certificate, or why it is rejected.
fn value_or_refusal<T: Encode + Drop>(
    alloc: Global,
    value: Result<(bool, T), Error>,
) -> Result<String, Refusal> {
    match value {
        Ok((is_critical, value)) => content_of(alloc, is_critical, &value),
        Err(error) => shown(alloc, Refusal::from(error)),
    }
}
