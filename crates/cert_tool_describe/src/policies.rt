//! Prints policies (RFC 5280 4.2.1.4, 4.2.1.5, 4.2.1.11, 4.2.1.14).

use crate::described::Describe;
use crate::values::{add_value, list_in, read, read_members, values_in};
use cert_tool_lines::Lines;
use cert_tool_lines::types::{Any, Uint};
use std::alloc::Global;
use x509_cert_extensions::policy_types::{
    CertificatePolicies, InhibitAnyPolicy, PolicyConstraints, PolicyInformation, PolicyMapping,
    PolicyMappings, PolicyQualifierInfo,
};
use x509_cert_lists::der::making::leaf_from_der;
use x509_cert_lists::der::{Error, ErrorKind, Tag};
use x509_cert_lists::oid::ObjectIdentifier;

// Adds the lines of the noticeNumbers.
fn add_numbers(lines: &mut Lines, numbers: &Any) {
    match list_in::<Uint>(lines.alloc, numbers) {
        Ok(numbers) => {
            lines.list("noticeNumbers");
            for number in &numbers {
                lines.item("number");
                lines.natural(number.as_bytes());
            }
            lines.end_list();
        }
        Err(error) => lines.malformed("malformed", error.kind),
    }
}

// Adds a line with a text of a UserNotice.
fn add_notice_text(lines: &mut Lines, word: &str, key: &str, text: &Any) {
    lines.row(word, key);
    lines.brace();
    add_value(lines, text);
    lines.end_brace();
}

// Adds the lines of a field of a NoticeReference: its organization or its noticeNumbers.
fn add_reference_part(lines: &mut Lines, part: &Any) {
    if part.tag() == Tag::Sequence {
        add_numbers(lines, part);
    } else {
        add_notice_text(lines, "of", "organization", part);
    }
}

// Adds that a UserNotice or a NoticeReference is malformed.
fn add_no_parts(lines: &mut Lines, kind: ErrorKind) {
    lines.comma();
    lines.brace();
    lines.malformed("malformed", kind);
    lines.end_brace();
}

// Adds the lines of a NoticeReference.
fn add_reference(lines: &mut Lines, whole: &Any) {
    match values_in(lines.alloc, whole) {
        Ok(parts) => {
            for part in &parts {
                lines.comma();
                lines.brace();
                add_reference_part(lines, part);
                lines.end_brace();
            }
        }
        Err(error) => add_no_parts(lines, error.kind),
    }
}

// Adds the lines of a field of a UserNotice: its noticeRef or its explicitText.
fn add_notice_part(lines: &mut Lines, part: &Any) {
    if part.tag() == Tag::Sequence {
        lines.list("noticeRef");
        add_reference(lines, part);
        lines.end_list();
    } else {
        add_notice_text(lines, "text", "explicitText", part);
    }
}

// Adds the lines of a UserNotice.
fn add_notice(lines: &mut Lines, whole: &Any) {
    match values_in(lines.alloc, whole) {
        Ok(parts) => {
            for part in &parts {
                lines.comma();
                lines.brace();
                add_notice_part(lines, part);
                lines.end_brace();
            }
        }
        Err(error) => add_no_parts(lines, error.kind),
    }
}

// Adds the lines of a policy qualifier: a UserNotice, or the URI of the certification practice
// statement.
fn add_qualifier(lines: &mut Lines, qualifier: &PolicyQualifierInfo) {
    lines.entry("");
    lines.members_of(&qualifier.policy_qualifier_id);
    if let Some(value) = &qualifier.qualifier {
        if value.tag() == Tag::Sequence {
            lines.list("notice");
            add_notice(lines, value);
            lines.end_list();
        } else {
            add_value(lines, value);
        }
    }
    lines.close();
}

// Adds the lines of a policy.
fn add_policy(lines: &mut Lines, policy: &PolicyInformation) {
    lines.entry("");
    lines.members_of(&policy.policy_identifier);
    if let Some(qualifiers) = &policy.policy_qualifiers {
        lines.list("qualifiers");
        for qualifier in qualifiers {
            add_qualifier(lines, qualifier);
        }
        lines.end_list();
    }
    lines.close();
}

impl Describe for CertificatePolicies {
    fn read_content(alloc: Global, octets: &[u8]) -> Result<CertificatePolicies, Error> {
        Ok(CertificatePolicies(read_members(alloc, octets)?))
    }

    fn describe(&self, lines: &mut Lines) {
        lines.list("policies");
        for policy in &self.0 {
            add_policy(lines, policy);
        }
        lines.end_list();
    }
}

// Adds a policy of a policy mapping.
fn add_mapped(lines: &mut Lines, key: &str, policy: &ObjectIdentifier<39>) {
    lines.key(key);
    lines.brace();
    lines.members_of(policy);
    lines.end_brace();
}

impl Describe for PolicyMappings {
    fn read_content(alloc: Global, octets: &[u8]) -> Result<PolicyMappings, Error> {
        Ok(PolicyMappings(read_members::<PolicyMapping>(alloc, octets)?))
    }

    fn describe(&self, lines: &mut Lines) {
        lines.list("mappings");
        for mapping in &self.0 {
            lines.entry("");
            add_mapped(lines, "issuerDomainPolicy", &mapping.issuer_domain_policy);
            lines.word("is");
            add_mapped(lines, "subjectDomainPolicy", &mapping.subject_domain_policy);
            lines.close();
        }
        lines.end_list();
    }
}

impl Describe for PolicyConstraints {
    fn read_content(alloc: Global, octets: &[u8]) -> Result<PolicyConstraints, Error> {
        read(alloc, octets)
    }

    fn describe(&self, lines: &mut Lines) {
        if let Some(skipped) = self.require_explicit_policy {
            let skipped = u64::from(skipped);
            lines.count_row(
                "require explicit policy after",
                "requireExplicitPolicy",
                skipped,
            );
        }
        if let Some(skipped) = self.inhibit_policy_mapping {
            let skipped = u64::from(skipped);
            lines.count_row(
                "inhibit policy mapping after",
                "inhibitPolicyMapping",
                skipped,
            );
        }
    }
}

impl Describe for InhibitAnyPolicy {
    fn read_content(alloc: Global, octets: &[u8]) -> Result<InhibitAnyPolicy, Error> {
        Ok(InhibitAnyPolicy(leaf_from_der(alloc, octets)?))
    }

    fn describe(&self, lines: &mut Lines) {
        lines.count_row("inhibit anyPolicy after", "skipCerts", u64::from(self.0));
    }
}
