//! Remarks on extensions of certificates and CRLs that violate RFC 5280 4.2, 5.2 or 5.3.

use crate::name_remarks::add_name_remarks;
use crate::remark_lines::{Seen, Subject, add_each, add_where, begin_remark, end_at, end_text};
use cert_tool_describe::cert_extensions::CrlDistributionPoints;
use cert_tool_describe::cert_general_names::{
    AuthorityKeyIdentifier, GeneralName, GeneralSubtree, IssuingDistributionPoint, NameConstraints,
};
use cert_tool_describe::cert_kinds::ExtensionKind as Kind;
use cert_tool_describe::cert_parts::Extension;
use cert_tool_describe::oid::ObjectIdentifier;
use cert_tool_describe::policy_types::{CertificatePolicies, PolicyConstraints, PolicyMappings};
use cert_tool_describe::tool_lines::{Lines, known_name};
use cert_tool_describe::{Describe, Inside};

/// An extension, whether it must be critical, and the section that says so.
pub type Mark = (Kind, bool, &'static str);

/// The extensions of certificates (RFC 5280 4.2).
pub const OF_CERTIFICATES: [Mark; 9] = [
    (Kind::SubjectDirectoryAttributes, false, "RFC 5280 4.2.1.8"),
    (Kind::SubjectKeyIdentifier, false, "RFC 5280 4.2.1.2"),
    (Kind::NameConstraints, true, "RFC 5280 4.2.1.10"),
    (Kind::AuthorityKeyIdentifier, false, "RFC 5280 4.2.1.1"),
    (Kind::PolicyConstraints, true, "RFC 5280 4.2.1.11"),
    (Kind::FreshestCrl, false, "RFC 5280 4.2.1.15"),
    (Kind::InhibitAnyPolicy, true, "RFC 5280 4.2.1.14"),
    (Kind::AuthorityInfoAccess, false, "RFC 5280 4.2.2.1"),
    (Kind::SubjectInfoAccess, false, "RFC 5280 4.2.2.2"),
];

/// The extensions of CRLs (RFC 5280 5.2).
pub const OF_LISTS: [Mark; 6] = [
    (Kind::CrlNumber, false, "RFC 5280 5.2.3"),
    (Kind::DeltaCrlIndicator, true, "RFC 5280 5.2.4"),
    (Kind::IssuingDistributionPoint, true, "RFC 5280 5.2.5"),
    (Kind::AuthorityKeyIdentifier, false, "RFC 5280 4.2.1.1"),
    (Kind::FreshestCrl, false, "RFC 5280 5.2.6"),
    (Kind::AuthorityInfoAccess, false, "RFC 5280 5.2.7"),
];

// The extensions whose content must not be an empty sequence, each with the section.
const FILLED: [(Kind, &str); 14] = [
    (Kind::SubjectDirectoryAttributes, "RFC 5280 4.2.1.8"),
    (Kind::PrivateKeyUsagePeriod, "RFC 3280 4.2.1.4"),
    (Kind::SubjectAltName, "RFC 5280 4.2.1.6"),
    (Kind::IssuerAltName, "RFC 5280 4.2.1.7"),
    (Kind::IssuingDistributionPoint, "RFC 5280 5.2.5"),
    (Kind::NameConstraints, "RFC 5280 4.2.1.10"),
    (Kind::CrlDistributionPoints, "RFC 5280 4.2.1.13"),
    (Kind::CertificatePolicies, "RFC 5280 4.2.1.4"),
    (Kind::PolicyMappings, "RFC 5280 4.2.1.5"),
    (Kind::PolicyConstraints, "RFC 5280 4.2.1.11"),
    (Kind::ExtKeyUsage, "RFC 5280 4.2.1.12"),
    (Kind::FreshestCrl, "RFC 5280 4.2.1.15"),
    (Kind::AuthorityInfoAccess, "RFC 5280 4.2.2.1"),
    (Kind::SubjectInfoAccess, "RFC 5280 4.2.2.2"),
];

// Adds a remark on an extension, with its name, the section and the identifier of the remark.
fn add_of(
    lines: &mut Lines,
    subject: &Subject<'_>,
    extension: &Extension,
    text: &str,
    section: &str,
    identifier: &str,
) {
    begin_remark(lines);
    lines.push(known_name(extension.extn_id.as_bytes()).unwrap_or(""));
    lines.push(text);
    end_at(lines, section, identifier, subject, "");
}

// Adds a remark if the content of an extension is an empty sequence, and must not be.
fn add_empty_remark(lines: &mut Lines, subject: &Subject<'_>, extension: &Extension) {
    let Some(kind) = Kind::of(&extension.extn_id) else {
        return;
    };
    if let [0x30, 0] = extension.extn_value.as_bytes() {
        for row in &FILLED {
            let (filled, section) = *row;
            if filled == kind {
                let text = " is an empty sequence";
                add_of(lines, subject, extension, text, section, "extension-empty");
            }
        }
    }
}

// Adds remarks on extensions that are critical and must not be, or aren't critical and must be.
pub fn add_mark_remarks(
    lines: &mut Lines,
    subject: &Subject<'_>,
    extension: &Extension,
    marks: &[Mark],
) {
    let Some(kind) = Kind::of(&extension.extn_id) else {
        return;
    };
    for row in marks {
        let (marked, is_critical, section) = *row;
        if marked == kind && is_critical != extension.critical {
            let (text, identifier) = if is_critical {
                (" isn't critical", "extension-not-critical")
            } else {
                (" is critical", "extension-critical")
            };
            add_of(lines, subject, extension, text, section, identifier);
        }
    }
}

// Decodes the content of an extension, or returns `None` if that fails.
pub fn content_in<T: Describe + Drop>(lines: &mut Lines, octets: &[u8]) -> Option<T> {
    match T::read_content(lines.alloc, octets) {
        Ok(content) => Some(content),
        Err(error) => {
            lines.note(error.kind);
            None
        }
    }
}

// How authorityKeyIdentifier identifies the issuer's key.
#[derive(Clone, Copy)]
pub struct IssuerKey {
    pub has_identifier: bool,
    // Whether it has one of issuer and serial number without the other.
    pub is_half: bool,
}

// Decodes authorityKeyIdentifier, or returns `None` if that fails.
pub fn issuer_key_in(lines: &mut Lines, octets: &[u8]) -> Option<IssuerKey> {
    match content_in::<AuthorityKeyIdentifier>(lines, octets) {
        Some(key) => Some(IssuerKey {
            has_identifier: key.key_identifier.is_some(),
            is_half: key.authority_cert_issuer.is_some()
                != key.authority_cert_serial_number.is_some(),
        }),
        None => None,
    }
}

// Adds the remarks on subjectAltName and issuerAltName.
fn add_names_remarks(lines: &mut Lines, subject: &Subject<'_>, octets: &[u8]) {
    if let Some(listed) = content_in::<Vec<GeneralName>>(lines, octets) {
        add_name_remarks(lines, subject, listed.as_slice());
    }
}

// Returns whether an iPAddress of a subtree isn't an address with its mask (RFC 5280 4.2.1.10).
fn is_no_range(name: &GeneralName) -> bool {
    match name {
        GeneralName::IpAddress(octets) => {
            let len = octets.as_bytes().len();
            len != 8 && len != 32
        }
        _ => false,
    }
}

// Adds the remarks on the subtrees at this path.
fn add_subtree_remarks(
    lines: &mut Lines,
    subject: &Subject<'_>,
    subtrees: &[GeneralSubtree],
    path: &'static str,
) {
    let mut has_distance = false;
    let mut has_no_range = false;
    for subtree in subtrees {
        has_distance = has_distance || subtree.minimum != 0 || subtree.maximum.is_some();
        has_no_range = has_no_range || is_no_range(&subtree.base);
    }
    add_each(
        lines,
        subject,
        &[
            (
                has_distance,
                "name-constraints-distance",
                "nameConstraints have a minimum or a maximum",
                "RFC 5280 4.2.1.10",
                path,
            ),
            (
                has_no_range,
                "name-constraints-mask",
                "an address in nameConstraints has no mask of the same length",
                "RFC 5280 4.2.1.10",
                path,
            ),
        ],
    );
}

// Adds the remarks on nameConstraints.
fn add_constraint_remarks(lines: &mut Lines, subject: &Subject<'_>, octets: &[u8]) {
    let Some(constraints) = content_in::<NameConstraints>(lines, octets) else {
        return;
    };
    if let Some(subtrees) = &constraints.permitted_subtrees {
        add_subtree_remarks(lines, subject, subtrees.as_slice(), "permittedSubtrees");
    }
    if let Some(subtrees) = &constraints.excluded_subtrees {
        add_subtree_remarks(lines, subject, subtrees.as_slice(), "excludedSubtrees");
    }
}

// Adds the remarks on distribution points: the first one that has neither a name nor a cRLIssuer.
fn add_point_remarks(lines: &mut Lines, subject: &Subject<'_>, octets: &[u8]) {
    let Some(points) = content_in::<CrlDistributionPoints>(lines, octets) else {
        return;
    };
    for (number, point) in points.0.iter().enumerate() {
        if point.distribution_point.is_none() && point.crl_issuer.is_none() {
            begin_remark(lines);
            lines.push("a distribution point has neither a name nor an issuer");
            end_text(lines, "RFC 5280 4.2.1.13");
            let place = Inside::of(subject.octets, subject.inner).nth(number);
            add_where(lines, "distribution-point-unnamed", subject, "", place);
            return;
        }
    }
}

// Adds the remarks on issuingDistributionPoint (RFC 5280 5.2.5).
fn add_scope_remarks(lines: &mut Lines, subject: &Subject<'_>, octets: &[u8]) {
    let Some(point) = content_in::<IssuingDistributionPoint>(lines, octets) else {
        return;
    };
    add_each(
        lines,
        subject,
        &[
            (
                point.only_contains_user_certs && point.only_contains_ca_certs,
                "crl-scope-empty",
                "issuingDistributionPoint has both onlyContainsUserCerts and onlyContainsCACerts",
                "RFC 5280 5.2.5",
                "onlyContainsCACerts",
            ),
            (
                point.only_contains_attribute_certs,
                "crl-scope-attributes",
                "issuingDistributionPoint has onlyContainsAttributeCerts",
                "RFC 5280 5.2.5",
                "onlyContainsAttributeCerts",
            ),
        ],
    );
}

// Adds that the policy with this number in the list is a duplicate.
fn add_policy_remark(
    lines: &mut Lines,
    subject: &Subject<'_>,
    number: usize,
    policy: &ObjectIdentifier<39>,
) {
    begin_remark(lines);
    lines.push("a policy is listed twice");
    end_text(lines, "RFC 5280 4.2.1.4");
    lines.tail(": ");
    lines.key("policy");
    lines.brace();
    lines.members_of(policy);
    lines.end_brace();
    let place = Inside::of(subject.octets, subject.inner).nth(number);
    add_where(lines, "policy-twice", subject, "policyIdentifier", place);
}

// Adds the remarks on certificatePolicies: the first policy that is a duplicate.
fn add_policy_remarks(lines: &mut Lines, subject: &Subject<'_>, octets: &[u8]) {
    let Some(policies) = content_in::<CertificatePolicies>(lines, octets) else {
        return;
    };
    let mut seen = Seen::new(lines.alloc);
    for (number, policy) in policies.0.iter().enumerate() {
        if seen.take(lines, policy.policy_identifier.as_bytes()) {
            add_policy_remark(lines, subject, number, &policy.policy_identifier);
            return;
        }
    }
}

// Returns whether an identifier is anyPolicy, 2.5.29.32.0.
fn is_any_policy(identifier: &ObjectIdentifier<39>) -> bool {
    matches!(identifier.as_bytes(), [0x55, 0x1d, 0x20, 0])
}

// Adds the remarks on policyMappings: the first mapping from or to anyPolicy.
fn add_mapping_remarks(lines: &mut Lines, subject: &Subject<'_>, octets: &[u8]) {
    let Some(mappings) = content_in::<PolicyMappings>(lines, octets) else {
        return;
    };
    for (number, mapping) in mappings.0.iter().enumerate() {
        let is_issuers = is_any_policy(&mapping.issuer_domain_policy);
        if is_issuers || is_any_policy(&mapping.subject_domain_policy) {
            begin_remark(lines);
            lines.push("anyPolicy is mapped");
            end_text(lines, "RFC 5280 4.2.1.5");
            let place = Inside::of(subject.octets, subject.inner).nth(number);
            let path = if is_issuers {
                "issuerDomainPolicy"
            } else {
                "subjectDomainPolicy"
            };
            add_where(lines, "any-policy-mapped", subject, path, place);
            return;
        }
    }
}

// Adds the remarks on authorityKeyIdentifier.
fn add_issuer_key_remarks(lines: &mut Lines, subject: &Subject<'_>, octets: &[u8]) {
    if let Some(key) = issuer_key_in(lines, octets) {
        add_each(
            lines,
            subject,
            &[(
                key.is_half,
                "issuer-key-half",
                "authorityKeyIdentifier has one of issuer and serial number, but not both",
                "RFC 5280 A.2",
                "",
            )],
        );
    }
}

// Adds the remarks on the content of an extension that can be decoded.
pub fn add_content_remarks(lines: &mut Lines, subject: &Subject<'_>, extension: &Extension) {
    let octets = extension.extn_value.as_bytes();
    add_empty_remark(lines, subject, extension);
    match Kind::of(&extension.extn_id) {
        Some(Kind::SubjectAltName) | Some(Kind::IssuerAltName) => {
            add_names_remarks(lines, subject, octets)
        }
        Some(Kind::IssuingDistributionPoint) => add_scope_remarks(lines, subject, octets),
        Some(Kind::NameConstraints) => add_constraint_remarks(lines, subject, octets),
        Some(Kind::CrlDistributionPoints) | Some(Kind::FreshestCrl) => {
            add_point_remarks(lines, subject, octets)
        }
        Some(Kind::CertificatePolicies) => add_policy_remarks(lines, subject, octets),
        Some(Kind::PolicyMappings) => add_mapping_remarks(lines, subject, octets),
        Some(Kind::AuthorityKeyIdentifier) => add_issuer_key_remarks(lines, subject, octets),
        _ => {}
    }
}
