//! The fields of the contents of extensions.

use crate::error_path::path_to;
use crate::parts::{Node, Part};
use std::alloc::{AllocError, Global};
use x509_cert_kinds::ExtensionKind as Kind;
use x509_cert_lists::der::Error;

const GENERAL_NAMES: [Part; 1] = [(Some(0x30), false, "", Node::GeneralNames)];

const NUMBER: [Part; 1] = [(Some(0x02), false, "", Node::Leaf)];

const POINTS: [Part; 1] = [(Some(0x30), false, "", Node::Points)];

const ACCESSES: [Part; 1] = [(Some(0x30), false, "", Node::Accesses)];

const OCTETS: [Part; 1] = [(Some(0x04), false, "", Node::Leaf)];

/// Returns the content of an extension of this kind, as a single field.
pub fn parts_of_content(kind: Kind) -> &'static [Part] {
    match kind {
        Kind::SubjectDirectoryAttributes => &[(Some(0x30), false, "", Node::DirectoryAttributes)],
        Kind::SubjectKeyIdentifier | Kind::SignedCertificateTimestamps => &OCTETS,
        Kind::KeyUsage => &[(Some(0x03), false, "", Node::Leaf)],
        Kind::PrivateKeyUsagePeriod => &[(Some(0x30), false, "", Node::UsagePeriod)],
        Kind::SubjectAltName | Kind::IssuerAltName | Kind::CertificateIssuer => &GENERAL_NAMES,
        Kind::BasicConstraints => &[(Some(0x30), false, "", Node::BasicConstraints)],
        Kind::CrlNumber | Kind::DeltaCrlIndicator | Kind::InhibitAnyPolicy => &NUMBER,
        Kind::CrlReason => &[(Some(0x0a), false, "", Node::Leaf)],
        Kind::InvalidityDate => &[(Some(0x18), false, "", Node::Leaf)],
        Kind::IssuingDistributionPoint => &[(Some(0x30), false, "", Node::IssuingPoint)],
        Kind::NameConstraints => &[(Some(0x30), false, "", Node::NameConstraints)],
        Kind::CrlDistributionPoints | Kind::FreshestCrl => &POINTS,
        Kind::CertificatePolicies => &[(Some(0x30), false, "", Node::Policies)],
        Kind::PolicyMappings => &[(Some(0x30), false, "", Node::Mappings)],
        Kind::AuthorityKeyIdentifier => &[(Some(0x30), false, "", Node::AuthorityKeyIdentifier)],
        Kind::PolicyConstraints => &[(Some(0x30), false, "", Node::PolicyConstraints)],
        Kind::ExtKeyUsage => &[(Some(0x30), false, "", Node::Purposes)],
        Kind::AuthorityInfoAccess | Kind::SubjectInfoAccess => &ACCESSES,
        Kind::TlsFeature => &[(Some(0x30), false, "", Node::Features)],
    }
}

// Returns why valid content isn't supported; empty if the content isn't valid. `root` is the
// content as a single field.
pub fn unsupported_content(
    alloc: Global,
    root: &'static [Part],
    octets: &[u8],
    error: &Error,
) -> Result<&'static str, AllocError> {
    let way = path_to(alloc, octets, root, error)?;
    Ok(way.unread(octets, error.kind))
}
