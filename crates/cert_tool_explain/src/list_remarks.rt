//! Remarks on CRLs that violate RFC 5280 5, though they can be decoded.

use crate::attribute_remarks::add_attribute_remarks;
use crate::certificate_remarks::add_malformed_remarks;
use crate::content_errors::add_content_finding;
use crate::extension_remarks::{OF_LISTS, add_content_remarks, add_mark_remarks, issuer_key_in};
use crate::remark_lines::{
    Subject, add_each, add_twin_remark, extension_at, extensions_at, is_long_for_its_year,
    is_wrong_serial,
};
use cert_tool_describe::cert_kinds::ExtensionKind as Kind;
use cert_tool_describe::cert_lists::{CertificateList, RevokedCert, TbsCertList};
use cert_tool_describe::cert_parts::{Extension, Extensions, Raw, Version};
use cert_tool_describe::der::making::leaf_from_der;
use cert_tool_describe::tool_lines::Lines;
use cert_tool_describe::types::Uint;
use cert_tool_describe::{Inside, Node, content_fault, content_place};

// What the extensions of a CRL say.
#[derive(Clone, Copy)]
struct Facts {
    has_number: bool,
    has_long_number: bool,
    // Whether authorityKeyIdentifier has a key identifier.
    has_issuer_key: bool,
    // Whether it is a delta CRL, and whether it has freshestCRL.
    is_delta: bool,
    has_freshest: bool,
}

impl Facts {
    // Returns the facts without any extension.
    fn new() -> Facts {
        Facts {
            has_number: false,
            has_long_number: false,
            has_issuer_key: false,
            is_delta: false,
            has_freshest: false,
        }
    }

    // Adds the facts of an extension.
    fn take(&mut self, lines: &mut Lines, extension: &Extension) {
        let octets = extension.extn_value.as_bytes();
        match Kind::of(&extension.extn_id) {
            Some(Kind::CrlNumber) => {
                self.has_number = true;
                if let Ok(number) = leaf_from_der::<Uint>(lines.alloc, octets) {
                    self.has_long_number = number.as_bytes().len() > 20;
                }
            }
            Some(Kind::DeltaCrlIndicator) => self.is_delta = true,
            Some(Kind::AuthorityKeyIdentifier) => {
                if let Some(key) = issuer_key_in(lines, octets) {
                    self.has_issuer_key = key.has_identifier;
                }
            }
            Some(Kind::FreshestCrl) => self.has_freshest = true,
            _ => {}
        }
    }
}

// Returns the extensions of a CRL or of an entry.
fn listed(extensions: &Option<Extensions>) -> &[Extension] {
    match extensions {
        Some(extensions) => extensions.as_slice(),
        None => &[],
    }
}

// Violations in entries: for each, the number of the first entry that has it.
#[derive(Clone, Copy)]
struct EntryFacts {
    wrong_serial: Option<usize>,
    extended: Option<usize>,
    empty_extensions: Option<usize>,
    long_date: Option<usize>,
    critical_reason: Option<usize>,
    critical_date: Option<usize>,
    issuer_at_will: Option<usize>,
}

// Records the number of an entry if it has a violation and no earlier entry has it.
fn note(first: &mut Option<usize>, number: usize, is_so: bool) {
    if is_so && first.is_none() {
        *first = Some(number);
    }
}

impl EntryFacts {
    // Returns the facts without any entry.
    fn new() -> EntryFacts {
        EntryFacts {
            wrong_serial: None,
            extended: None,
            empty_extensions: None,
            long_date: None,
            critical_reason: None,
            critical_date: None,
            issuer_at_will: None,
        }
    }

    // Adds the facts of an entry.
    fn take(&mut self, number: usize, entry: &RevokedCert<Raw>) {
        let is_wrong = is_wrong_serial(entry.serial_number.as_bytes());
        note(&mut self.wrong_serial, number, is_wrong);
        let is_long = is_long_for_its_year(&entry.revocation_date);
        note(&mut self.long_date, number, is_long);
        let has_extensions = entry.crl_entry_extensions.is_some();
        let is_empty = has_extensions && listed(&entry.crl_entry_extensions).is_empty();
        note(&mut self.extended, number, has_extensions);
        note(&mut self.empty_extensions, number, is_empty);
        for extension in listed(&entry.crl_entry_extensions) {
            match (Kind::of(&extension.extn_id), extension.critical) {
                (Some(Kind::CrlReason), true) => note(&mut self.critical_reason, number, true),
                (Some(Kind::InvalidityDate), true) => note(&mut self.critical_date, number, true),
                (Some(Kind::CertificateIssuer), false) => {
                    note(&mut self.issuer_at_will, number, true)
                }
                _ => {}
            }
        }
    }
}

// A remark on entries: the number of the first entry that it is about, if there is one, its
// identifier, its text, the section that the entry violates, and the field of the entry.
type EntryRemark = (
    Option<usize>,
    &'static str,
    &'static str,
    &'static str,
    &'static str,
);

// Adds a remark on entries, if it is about one.
fn add_entry_remark(lines: &mut Lines, subject: &Subject<'_>, remark: EntryRemark) {
    let (number, identifier, text, section, field) = remark;
    let Some(number) = number else {
        return;
    };
    let list = subject.place_of("revokedCertificates");
    let place = Inside::of(subject.octets, list).nth(number);
    let entry = subject.at(place, Node::RevokedCertificate, "revokedCertificates");
    add_each(lines, &entry, &[(true, identifier, text, section, field)]);
}

// Adds the remarks on the entries (RFC 5280 5.1.2.6, 5.3).
fn add_entry_remarks(lines: &mut Lines, subject: &Subject<'_>, facts: &EntryFacts) {
    let remarks: [EntryRemark; 6] = [
        (
            facts.wrong_serial,
            "entry-serial-number",
            "an entry's serial number isn't positive, or has more than 20 bytes",
            "RFC 5280 4.1.2.2",
            "userCertificate",
        ),
        (
            facts.long_date,
            "date-generalized",
            "the date of an entry is a GeneralizedTime before 2050",
            "RFC 5280 5.1.2.6",
            "revocationDate",
        ),
        (
            facts.empty_extensions,
            "extensions-empty",
            "the list of an entry's extensions is empty",
            "RFC 5280 5.1",
            "crlEntryExtensions",
        ),
        (
            facts.critical_reason,
            "extension-critical",
            "reasonCode of an entry is critical",
            "RFC 5280 5.3.1",
            "crlEntryExtensions",
        ),
        (
            facts.critical_date,
            "extension-critical",
            "invalidityDate of an entry is critical",
            "RFC 5280 5.3.2",
            "crlEntryExtensions",
        ),
        (
            facts.issuer_at_will,
            "extension-not-critical",
            "certificateIssuer of an entry isn't critical",
            "RFC 5280 5.3.3",
            "crlEntryExtensions",
        ),
    ];
    for remark in &remarks {
        add_entry_remark(lines, subject, *remark);
    }
}

// Adds the remarks on the dates (RFC 5280 5.1.2.4, 5.1.2.5).
fn add_date_remarks(lines: &mut Lines, subject: &Subject<'_>, signed: &TbsCertList<Raw>) {
    let this = signed.this_update.to_date_time().unix_seconds();
    let (is_next_long, is_next_before) = match &signed.next_update {
        Some(date) => (
            is_long_for_its_year(date),
            date.to_date_time().unix_seconds() < this,
        ),
        None => (false, false),
    };
    add_each(
        lines,
        subject,
        &[
            (
                is_long_for_its_year(&signed.this_update),
                "date-generalized",
                "thisUpdate is a GeneralizedTime before 2050",
                "RFC 5280 5.1.2.4",
                "thisUpdate",
            ),
            (
                is_next_long,
                "date-generalized",
                "nextUpdate is a GeneralizedTime before 2050",
                "RFC 5280 5.1.2.5",
                "nextUpdate",
            ),
            (
                is_next_before,
                "dates-reversed",
                "nextUpdate is before thisUpdate",
                "RFC 5280 5.1.2.5",
                "nextUpdate",
            ),
            (
                signed.next_update.is_none(),
                "crl-next-update-missing",
                "there is no nextUpdate",
                "RFC 5280 5.1.2.5",
                "",
            ),
        ],
    );
}

// Adds the remarks on the fields of a CRL with these facts about its entries (RFC 5280 5.1.2).
fn add_field_remarks(
    lines: &mut Lines,
    subject: &Subject<'_>,
    signed: &TbsCertList<Raw>,
    facts: &EntryFacts,
) {
    let is_second = matches!(signed.version, Version::V2);
    let has_extensions = signed.crl_extensions.is_some();
    let has_no_entry = match &signed.revoked_certificates {
        Some(entries) => entries.is_empty(),
        None => false,
    };
    add_each(
        lines,
        subject,
        &[
            (
                (has_extensions || facts.extended.is_some()) && !is_second,
                "extensions-without-version",
                "it has extensions, but its version isn't v2",
                "RFC 5280 5.1.2.1",
                "version",
            ),
            (
                signed.issuer.is_empty(),
                "issuer-empty",
                "the issuer is an empty name",
                "RFC 5280 5.1.2.3",
                "issuer",
            ),
            (
                has_no_entry,
                "crl-entries-empty",
                "the list of entries is empty",
                "RFC 5280 5.1.2.6",
                "revokedCertificates",
            ),
            (
                has_extensions && listed(&signed.crl_extensions).is_empty(),
                "extensions-empty",
                "the list of extensions is empty",
                "RFC 5280 5.1.2.7",
                "crlExtensions",
            ),
        ],
    );
}

// Adds the remarks on extensions that must, or must not, be together (RFC 5280 5.2).
fn add_extension_facts(lines: &mut Lines, subject: &Subject<'_>, facts: &Facts) {
    add_each(
        lines,
        subject,
        &[
            (
                !facts.has_issuer_key,
                "issuer-key-unnamed",
                "it has no authorityKeyIdentifier with a keyIdentifier",
                "RFC 5280 5.2.1",
                "crlExtensions",
            ),
            (
                !facts.has_number,
                "crl-number-missing",
                "there is no cRLNumber",
                "RFC 5280 5.2.3",
                "crlExtensions",
            ),
            (
                facts.has_long_number,
                "crl-number-long",
                "the cRLNumber has more than 20 bytes",
                "RFC 5280 5.2.3",
                "crlExtensions",
            ),
            (
                facts.is_delta && facts.has_freshest,
                "freshest-crl-in-delta",
                "a delta CRL has freshestCRL",
                "RFC 5280 5.2.6",
                "crlExtensions",
            ),
        ],
    );
}

// Adds the remarks on the extensions (RFC 5280 5.2).
fn add_extension_remarks<'a>(
    lines: &mut Lines,
    subject: &Subject<'a>,
    extensions: &'a [Extension],
) {
    let mut facts = Facts::new();
    for extension in extensions {
        facts.take(lines, extension);
    }
    let path = "crlExtensions";
    add_twin_remark(lines, subject, extensions, path);
    add_extension_facts(lines, subject, &facts);
    add_malformed_remarks(lines, subject, extensions, path, None);
    let mut places = extensions_at(subject, path);
    for extension in extensions {
        let part = extension_at(subject, places.next(), extension, path);
        add_mark_remarks(lines, &part, extension, &OF_LISTS);
        add_content_remarks(lines, &part, extension);
    }
}

// Adds the remarks on malformed extensions of this entry.
fn add_malformed_entry<'a>(
    lines: &mut Lines,
    subject: &Subject<'a>,
    number: usize,
    entry: &'a RevokedCert<Raw>,
) {
    let mut places = extensions_at(subject, "crlEntryExtensions");
    for extension in listed(&entry.crl_entry_extensions) {
        let place = places.next();
        if let Some(error) = content_fault(lines.alloc, extension) {
            let path = "revokedCertificates.crlEntryExtensions";
            let part = extension_at(subject, place, extension, path);
            add_content_finding(lines, &part, Some(number), extension, &error);
        }
    }
}

// Adds the remarks on malformed extensions of each entry.
fn add_malformed_entries<'a>(
    lines: &mut Lines,
    subject: &Subject<'a>,
    signed: &'a TbsCertList<Raw>,
) {
    let path = "revokedCertificates";
    let mut places = Inside::of(subject.octets, subject.place_of(path));
    if let Some(entries) = &signed.revoked_certificates {
        for (number, entry) in entries.iter().enumerate() {
            let part = subject.at(places.next(), Node::RevokedCertificate, path);
            add_malformed_entry(lines, &part, number, entry);
        }
    }
}

// Returns the facts about the entries of a CRL.
fn entry_facts(signed: &TbsCertList<Raw>) -> EntryFacts {
    let mut facts = EntryFacts::new();
    if let Some(entries) = &signed.revoked_certificates {
        for (number, entry) in entries.iter().enumerate() {
            facts.take(number, entry);
        }
    }
    facts
}

// Returns the signed part of a CRL with this encoding.
fn list_at(octets: &[u8]) -> Subject<'_> {
    let place = content_place(octets, 0);
    Subject {
        octets,
        offset: 0,
        place,
        inner: place,
        node: Node::TbsCertList,
        path: "",
        identifier: None,
    }
}

// Adds the remarks on a CRL.
pub fn add_list_remarks<'a>(lines: &mut Lines, octets: &'a [u8], list: &'a CertificateList<Raw>) {
    let signed = &list.tbs_cert_list;
    let subject = list_at(octets);
    let differ = !signed.signature.has_octets_of(&list.signature_algorithm);
    let facts = entry_facts(signed);
    add_each(
        lines,
        &subject.at(0, Node::List, ""),
        &[(
            differ,
            "algorithms-differ",
            "signature and signatureAlgorithm differ",
            "RFC 5280 5.1.1.2",
            "signatureAlgorithm",
        )],
    );
    add_field_remarks(lines, &subject, signed, &facts);
    add_attribute_remarks(lines, &subject, "issuer", &signed.issuer);
    add_date_remarks(lines, &subject, signed);
    add_entry_remarks(lines, &subject, &facts);
    add_malformed_entries(lines, &subject, signed);
    add_extension_remarks(lines, &subject, listed(&signed.crl_extensions));
}
