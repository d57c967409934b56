//! Remarks on certificates that violate RFC 5280 4.1 or 4.2, though they can be decoded.

use crate::attribute_remarks::add_attribute_remarks;
use crate::content_errors::add_content_finding;
use crate::extension_remarks::{
    OF_CERTIFICATES, add_content_remarks, add_mark_remarks, content_in, issuer_key_in,
};
use crate::remark_lines::{
    Subject, add_each, add_serial_remarks, add_twin_remark, extension_at, extensions_at,
    is_long_for_its_year,
};
use cert_tool_describe::cert_certificates::{CertificateInner, TbsCertificateInner};
use cert_tool_describe::cert_extensions::KeyUsages;
use cert_tool_describe::cert_kinds::ExtensionKind as Kind;
use cert_tool_describe::cert_parts::{Extension, Raw, Version};
use cert_tool_describe::der::making::leaf_from_der;
use cert_tool_describe::policy_types::BasicConstraints;
use cert_tool_describe::tool_lines::Lines;
use cert_tool_describe::types::FlagSet;
use cert_tool_describe::{Node, content_fault, content_place};

// What the extensions of a certificate say about its key and its names.
#[derive(Clone, Copy)]
struct Facts {
    has_key_usage: bool,
    // The bits of keyUsage, if it can be decoded.
    uses: Option<FlagSet<KeyUsages>>,
    constraints: Option<BasicConstraints>,
    // Whether basicConstraints can't be decoded, so that it isn't known whether this is a CA.
    are_constraints_unread: bool,
    // Whether subjectAltName is present and critical.
    has_critical_names: bool,
    has_key_identifier: bool,
    // Whether authorityKeyIdentifier has a key identifier.
    has_issuer_key: bool,
}

impl Facts {
    // Returns the facts without any extension.
    fn new() -> Facts {
        Facts {
            has_key_usage: false,
            uses: None,
            constraints: None,
            are_constraints_unread: false,
            has_critical_names: false,
            has_key_identifier: false,
            has_issuer_key: false,
        }
    }

    // Adds the facts of an extension.
    fn take(&mut self, lines: &mut Lines, extension: &Extension) {
        let octets = extension.extn_value.as_bytes();
        match Kind::of(&extension.extn_id) {
            Some(Kind::SubjectKeyIdentifier) => self.has_key_identifier = true,
            Some(Kind::KeyUsage) => {
                self.has_key_usage = true;
                self.uses = leaf_from_der(lines.alloc, octets).ok();
            }
            Some(Kind::SubjectAltName) => self.has_critical_names = extension.critical,
            Some(Kind::BasicConstraints) => {
                self.constraints = content_in::<BasicConstraints>(lines, octets);
                self.are_constraints_unread = self.constraints.is_none();
            }
            Some(Kind::AuthorityKeyIdentifier) => {
                // An extension that can't be decoded says nothing.
                self.has_issuer_key = match issuer_key_in(lines, octets) {
                    Some(key) => key.has_identifier,
                    None => true,
                };
            }
            _ => {}
        }
    }

    // Returns whether the certificate is known to be that of a CA.
    fn is_authority(&self) -> bool {
        match self.constraints {
            Some(constraints) => constraints.ca,
            None => false,
        }
    }

    // Returns whether the certificate is known not to be that of a CA.
    fn is_no_authority(&self) -> bool {
        !self.are_constraints_unread && !self.is_authority()
    }

    // Returns whether pathLenConstraint is present.
    fn has_path_length(&self) -> bool {
        match self.constraints {
            Some(constraints) => constraints.path_len_constraint.is_some(),
            None => false,
        }
    }

    // Returns whether keyUsage has keyCertSign.
    fn signs(&self) -> bool {
        match self.uses {
            Some(uses) => uses.contains(KeyUsages::KeyCertSign),
            None => false,
        }
    }
}

// Returns the extensions of a certificate.
fn extensions_of(signed: &TbsCertificateInner<Raw>) -> &[Extension] {
    match signed.extensions() {
        Some(extensions) => extensions.as_slice(),
        None => &[],
    }
}

// Adds the remarks on the fields (RFC 5280 4.1.2).
fn add_field_remarks(lines: &mut Lines, subject: &Subject<'_>, signed: &TbsCertificateInner<Raw>) {
    let extensions = signed.extensions();
    let is_first = matches!(signed.version(), Version::V1);
    let is_third = matches!(signed.version(), Version::V3);
    let has_ids = signed.issuer_unique_id().is_some() || signed.subject_unique_id().is_some();
    let id = if signed.issuer_unique_id().is_some() {
        "issuerUniqueID"
    } else {
        "subjectUniqueID"
    };
    add_each(
        lines,
        subject,
        &[
            (
                extensions.is_some() && !is_third,
                "extensions-without-version",
                "it has extensions, but its version isn't v3",
                "RFC 5280 4.1.2.1",
                "extensions",
            ),
            (
                extensions.is_some() && extensions_of(signed).is_empty(),
                "extensions-empty",
                "the list of extensions is empty",
                "RFC 5280 4.1.2.9",
                "extensions",
            ),
            (
                has_ids && is_first,
                "unique-identifiers-without-version",
                "it has unique identifiers, but its version is v1",
                "RFC 5280 4.1.2.8",
                id,
            ),
            (
                has_ids,
                "unique-identifiers",
                "conforming CAs must not generate unique identifiers",
                "RFC 5280 4.1.2.8",
                id,
            ),
            (
                signed.issuer().is_empty(),
                "issuer-empty",
                "the issuer is an empty name",
                "RFC 5280 4.1.2.4",
                "issuer",
            ),
        ],
    );
    add_serial_remarks(lines, subject, signed.serial_number().as_bytes());
}

// Adds the remarks on the validity period (RFC 5280 4.1.2.5).
fn add_date_remarks(lines: &mut Lines, subject: &Subject<'_>, signed: &TbsCertificateInner<Raw>) {
    let first = &signed.validity().not_before;
    let last = &signed.validity().not_after;
    add_each(
        lines,
        subject,
        &[
            (
                is_long_for_its_year(first),
                "date-generalized",
                "notBefore is a GeneralizedTime before 2050",
                "RFC 5280 4.1.2.5",
                "validity.notBefore",
            ),
            (
                is_long_for_its_year(last),
                "date-generalized",
                "notAfter is a GeneralizedTime before 2050",
                "RFC 5280 4.1.2.5",
                "validity.notAfter",
            ),
            (
                last.to_date_time().unix_seconds() < first.to_date_time().unix_seconds(),
                "dates-reversed",
                "notAfter is before notBefore",
                "RFC 5280 4.1.2.5",
                "validity.notAfter",
            ),
        ],
    );
}

// Adds the remarks on the subject and the issuer.
fn add_party_remarks<'a>(
    lines: &mut Lines,
    subject: &Subject<'a>,
    signed: &'a TbsCertificateInner<Raw>,
    facts: &Facts,
) {
    let is_nameless = signed.subject().is_empty();
    let is_self_issued = signed.issuer().has_octets_of(signed.subject());
    add_attribute_remarks(lines, subject, "issuer", signed.issuer());
    if !is_self_issued {
        add_attribute_remarks(lines, subject, "subject", signed.subject());
    }
    add_each(
        lines,
        subject,
        &[
            (
                is_nameless && facts.is_authority(),
                "ca-subject-empty",
                "the subject of a CA is an empty name",
                "RFC 5280 4.1.2.6",
                "subject",
            ),
            (
                is_nameless && !facts.has_critical_names,
                "subject-empty",
                "the subject is empty, and there is no critical subjectAltName",
                "RFC 5280 4.1.2.6",
                "subject",
            ),
            (
                !is_self_issued && !facts.has_issuer_key,
                "issuer-key-unnamed",
                "it has no authorityKeyIdentifier with a keyIdentifier",
                "RFC 5280 4.2.1.1",
                "extensions",
            ),
        ],
    );
}

// Adds the remarks on the key and its usage.
fn add_key_remarks(lines: &mut Lines, subject: &Subject<'_>, facts: &Facts) {
    let is_authority = facts.is_authority();
    add_each(
        lines,
        subject,
        &[
            (
                is_authority && !facts.has_key_identifier,
                "ca-key-unnamed",
                "a CA has no subjectKeyIdentifier",
                "RFC 5280 4.2.1.2",
                "extensions",
            ),
            (
                is_authority && !facts.has_key_usage,
                "ca-without-key-usage",
                "a CA has no keyUsage",
                "RFC 5280 4.2.1.3",
                "extensions",
            ),
        ],
    );
}

// Adds the remarks on an extension that must, or must not, be together with others.
fn add_beside_remarks(
    lines: &mut Lines,
    subject: &Subject<'_>,
    extension: &Extension,
    facts: &Facts,
) {
    let kind = Kind::of(&extension.extn_id);
    let is_usage = matches!(kind, Some(Kind::KeyUsage));
    let is_constraints = matches!(kind, Some(Kind::BasicConstraints));
    let has_length = is_constraints && facts.has_path_length();
    let is_none = facts.is_no_authority();
    add_each(
        lines,
        subject,
        &[
            (
                is_usage && facts.signs() && is_none,
                "cert-sign-without-ca",
                "keyCertSign is set, but cA isn't",
                "RFC 5280 4.2.1.3",
                "",
            ),
            (
                is_usage && matches!(extension.extn_value.as_bytes(), [3, 1, 0]),
                "key-usage-empty",
                "no bit of keyUsage is set",
                "RFC 5280 4.2.1.3",
                "",
            ),
            (
                is_constraints && facts.is_authority() && !extension.critical,
                "ca-not-critical",
                "basicConstraints of a CA aren't critical",
                "RFC 5280 4.2.1.9",
                "",
            ),
            (
                has_length && is_none,
                "path-length-without-ca",
                "there is a pathLenConstraint, but cA isn't set",
                "RFC 5280 4.2.1.9",
                "pathLenConstraint",
            ),
            (
                has_length && facts.uses.is_some() && !facts.signs(),
                "path-length-without-cert-sign",
                "there is a pathLenConstraint, but keyCertSign isn't set",
                "RFC 5280 4.2.1.9",
                "pathLenConstraint",
            ),
            (
                matches!(kind, Some(Kind::NameConstraints)) && is_none,
                "name-constraints-without-ca",
                "there are nameConstraints, but cA isn't set",
                "RFC 5280 4.2.1.10",
                "",
            ),
        ],
    );
}

/// Adds the remarks on a certificate: the violations of RFC 5280 that no rule of path validation
/// checks.
pub fn add_certificate_remarks<'a>(
    lines: &mut Lines,
    subject: &Subject<'a>,
    signed: &'a TbsCertificateInner<Raw>,
) {
    let mut facts = Facts::new();
    for extension in extensions_of(signed) {
        facts.take(lines, extension);
    }
    add_field_remarks(lines, subject, signed);
    add_date_remarks(lines, subject, signed);
    add_party_remarks(lines, subject, signed, &facts);
    add_key_remarks(lines, subject, &facts);
    let mut places = extensions_at(subject, "extensions");
    for extension in extensions_of(signed) {
        let part = extension_at(subject, places.next(), extension, "extensions");
        add_mark_remarks(lines, &part, extension, &OF_CERTIFICATES);
        add_content_remarks(lines, &part, extension);
        add_beside_remarks(lines, &part, extension, &facts);
    }
}

// Adds the remarks on extensions whose content is malformed. The extensions are at the end of a
// path of fields. The extension at the index `reported` is skipped: a broken rule reports it.
pub fn add_malformed_remarks<'a>(
    lines: &mut Lines,
    subject: &Subject<'a>,
    extensions: &'a [Extension],
    path: &'static str,
    reported: Option<usize>,
) {
    let mut places = extensions_at(subject, path);
    for (number, extension) in extensions.iter().enumerate() {
        let place = places.next();
        if reported == Some(number) {
            continue;
        }
        if let Some(error) = content_fault(lines.alloc, extension) {
            let part = extension_at(subject, place, extension, path);
            add_content_finding(lines, &part, None, extension, &error);
        }
    }
}

/// Returns the signed part of the certificate that begins at this offset of a file.
pub fn certificate_at(octets: &[u8], offset: u64) -> Subject<'_> {
    let place = content_place(octets, 0);
    Subject {
        octets,
        offset,
        place,
        inner: place,
        node: Node::TbsCertificate,
        path: "",
        identifier: None,
    }
}

// Adds the rules of path validation that a certificate breaks by itself, and the remarks on it.
pub fn add_lone_remarks<'a>(
    lines: &mut Lines,
    octets: &'a [u8],
    certificate: &'a CertificateInner<Raw>,
) {
    let signed = certificate.tbs_certificate();
    let subject = certificate_at(octets, 0);
    let differ = !signed
        .signature()
        .has_octets_of(certificate.signature_algorithm());
    let extensions = extensions_of(signed);
    add_each(
        lines,
        &subject.at(0, Node::Certificate, ""),
        &[(
            differ,
            "algorithms-differ",
            "signature and signatureAlgorithm differ",
            "RFC 5280 4.1.1.2",
            "signatureAlgorithm",
        )],
    );
    add_twin_remark(lines, &subject, extensions, "extensions");
    add_malformed_remarks(lines, &subject, extensions, "extensions", None);
    add_certificate_remarks(lines, &subject, signed);
}
