//! Prints the contents of extensions, by object identifier.

use crate::content_parts::{parts_of_content, unsupported_content};
use crate::described::add_content;
use crate::other_contents::add_other_content;
use crate::parts::Part;
use crate::timestamps::{add_timestamps, timestamps_fault};
use crate::values::{add_value_of, read_members};
use cert_tool_lines::Lines;
use cert_tool_lines::cert_parts::Extension;
use cert_tool_lines::types::GeneralizedTime;
use std::alloc::Global;
use x509_cert_extensions::cert_general_names::{
    AuthorityKeyIdentifier, GeneralName, IssuingDistributionPoint, NameConstraints,
};
use x509_cert_extensions::policy_types::{
    BasicConstraints, CertificatePolicies, InhibitAnyPolicy, PolicyConstraints, PolicyMappings,
    PrivateKeyUsagePeriod,
};
use x509_cert_extensions::{
    AuthorityInfoAccessSyntax, CrlDistributionPoints, CrlNumber, CrlReason, ExtendedKeyUsage,
    KeyUsage, SubjectKeyIdentifier,
};
use x509_cert_kinds::ExtensionKind as Kind;
use x509_cert_lists::cert_names::Attribute;
use x509_cert_lists::der::Error;

// Adds a line with content that isn't decoded.
fn add_octets(lines: &mut Lines, octets: &[u8]) {
    lines.octets_row("octets", "octets", octets);
}

/// Adds that content is malformed, or that it is valid but isn't supported, and its bytes. `root`
/// is the content as a single field.
pub fn add_undecoded(lines: &mut Lines, root: &'static [Part], octets: &[u8], error: &Error) {
    match unsupported_content(lines.alloc, root, octets, error) {
        Ok("") => lines.malformed("malformed", error.kind),
        Ok(words) => lines.text_row("not read here:", "unread", words),
        Err(_) => lines.fail(),
    }
    add_octets(lines, octets);
}

// Adds the bytes of content that isn't decoded, and the text or the object identifier that they
// encode, if they do.
fn add_unread(lines: &mut Lines, octets: &[u8]) -> Option<Error> {
    add_octets(lines, octets);
    add_value_of(lines, octets);
    None
}

// Adds the lines of content for which the library has no type.
fn add_other(lines: &mut Lines, extension: &Extension) -> Option<Error> {
    let octets = extension.extn_value.as_bytes();
    if add_other_content(lines, extension.extn_id.as_bytes(), octets) {
        return None;
    }
    add_unread(lines, octets)
}

// Adds the lines of the content of an extension (RFC 5280 4.2.1, 4.2.2, 5.2, 5.3, RFC 6962 3.3, RFC
// 7633). Returns the error if the content is malformed.
fn add_content_of(lines: &mut Lines, extension: &Extension) -> Option<Error> {
    let octets = extension.extn_value.as_bytes();
    let Some(kind) = Kind::of(&extension.extn_id) else {
        return add_other(lines, extension);
    };
    match kind {
        Kind::SubjectDirectoryAttributes => add_unread(lines, octets),
        Kind::SubjectKeyIdentifier => add_content::<SubjectKeyIdentifier>(lines, octets),
        Kind::KeyUsage => add_content::<KeyUsage>(lines, octets),
        Kind::PrivateKeyUsagePeriod => add_content::<PrivateKeyUsagePeriod>(lines, octets),
        // The names of the subject, of the issuer, and of the issuer of the certificate that an
        // entry revokes.
        Kind::SubjectAltName | Kind::IssuerAltName | Kind::CertificateIssuer => add_content::<
            Vec<GeneralName>,
        >(lines, octets),
        Kind::BasicConstraints => add_content::<BasicConstraints>(lines, octets),
        // The number of a CRL, and that of the base CRL of a delta CRL.
        Kind::CrlNumber | Kind::DeltaCrlIndicator => add_content::<CrlNumber>(lines, octets),
        Kind::CrlReason => add_content::<CrlReason>(lines, octets),
        Kind::InvalidityDate => add_content::<GeneralizedTime>(lines, octets),
        Kind::IssuingDistributionPoint => add_content::<IssuingDistributionPoint>(lines, octets),
        Kind::NameConstraints => add_content::<NameConstraints>(lines, octets),
        // The distribution points of CRLs, and of delta CRLs.
        Kind::CrlDistributionPoints | Kind::FreshestCrl => add_content::<CrlDistributionPoints>(
            lines, octets,
        ),
        Kind::CertificatePolicies => add_content::<CertificatePolicies>(lines, octets),
        Kind::PolicyMappings => add_content::<PolicyMappings>(lines, octets),
        Kind::AuthorityKeyIdentifier => add_content::<AuthorityKeyIdentifier>(lines, octets),
        Kind::PolicyConstraints => add_content::<PolicyConstraints>(lines, octets),
        Kind::ExtKeyUsage => add_content::<ExtendedKeyUsage>(lines, octets),
        Kind::InhibitAnyPolicy => add_content::<InhibitAnyPolicy>(lines, octets),
        Kind::AuthorityInfoAccess | Kind::SubjectInfoAccess => add_content::<
            AuthorityInfoAccessSyntax,
        >(lines, octets),
        Kind::TlsFeature => add_content::<Vec<u16>>(lines, octets),
        Kind::SignedCertificateTimestamps => add_timestamps(lines, octets),
    }
}

// Returns the error if the bytes aren't attributes (RFC 5280 4.2.1.8).
fn attributes_fault(alloc: Global, octets: &[u8]) -> Option<Error> {
    read_members::<Attribute>(alloc, octets).err()
}

/// Returns the error if the content of an extension of a known kind is malformed.
pub fn content_fault(alloc: Global, extension: &Extension) -> Option<Error> {
    let octets = extension.extn_value.as_bytes();
    match Kind::of(&extension.extn_id) {
        Some(Kind::SubjectDirectoryAttributes) => attributes_fault(alloc, octets),
        Some(Kind::SignedCertificateTimestamps) => timestamps_fault(alloc, octets),
        None => None,
        Some(_) => add_content_of(&mut Lines::new(alloc, false), extension),
    }
}

/// Begins an extension: adds its object identifier, and whether it is critical.
pub fn begin_extension(lines: &mut Lines, extension: &Extension) {
    lines.entry("extension");
    lines.members_of(&extension.extn_id);
    lines.mark("critical", "critical", extension.critical);
}

/// Adds the lines of an extension.
pub fn add_extension(lines: &mut Lines, extension: &Extension) {
    begin_extension(lines, extension);
    if let Some(error) = add_content_of(lines, extension) {
        if let Some(kind) = Kind::of(&extension.extn_id) {
            let root = parts_of_content(kind);
            add_undecoded(lines, root, extension.extn_value.as_bytes(), &error);
        }
    }
    lines.close();
}

/// Adds the lines of extensions, in order.
pub fn add_extensions(lines: &mut Lines, key: &str, extensions: &[Extension]) {
    lines.list(key);
    for extension in extensions {
        add_extension(lines, extension);
    }
    lines.end_list();
}
