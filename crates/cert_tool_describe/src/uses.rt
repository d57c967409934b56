//! Prints key usage, key identifiers, CA flags and dates of keys (RFC 5280 4.2.1.2, 4.2.1.3,
//! 4.2.1.9, 4.2.1.12, 5.3.2, RFC 3280 4.2.1.4, RFC 7633).

use crate::described::Describe;
use crate::values::{read, read_members};
use cert_tool_lines::Lines;
use cert_tool_lines::types::{FlagSet, GeneralizedTime, NamedBits};
use std::alloc::Global;
use x509_cert_extensions::policy_types::{BasicConstraints, PrivateKeyUsagePeriod};
use x509_cert_extensions::{ExtendedKeyUsage, KeyUsage, KeyUsages, SubjectKeyIdentifier};
use x509_cert_lists::der::Error;
use x509_cert_lists::der::making::leaf_from_der;

impl Describe for SubjectKeyIdentifier {
    fn read_content(alloc: Global, octets: &[u8]) -> Result<SubjectKeyIdentifier, Error> {
        Ok(SubjectKeyIdentifier(leaf_from_der(alloc, octets)?))
    }

    fn describe(&self, lines: &mut Lines) {
        lines.octets_row("key", "keyIdentifier", self.0.as_bytes());
    }
}

/// Adds an array with the names of the flags that are set. Each line begins with this word.
pub fn add_flags<F: NamedBits>(
    lines: &mut Lines,
    word: &str,
    key: &str,
    set: &FlagSet<F>,
    names: &[(F, &str)],
) {
    lines.list(key);
    for (flag, name) in names {
        if set.contains(*flag) {
            lines.item(word);
            lines.text(name);
        }
    }
    lines.end_list();
}

// The bits of keyUsage (RFC 5280 4.2.1.3).
const USES: [(KeyUsages, &str); 9] = [
    (KeyUsages::DigitalSignature, "digitalSignature"),
    (KeyUsages::NonRepudiation, "contentCommitment"),
    (KeyUsages::KeyEncipherment, "keyEncipherment"),
    (KeyUsages::DataEncipherment, "dataEncipherment"),
    (KeyUsages::KeyAgreement, "keyAgreement"),
    (KeyUsages::KeyCertSign, "keyCertSign"),
    (KeyUsages::CRLSign, "cRLSign"),
    (KeyUsages::EncipherOnly, "encipherOnly"),
    (KeyUsages::DecipherOnly, "decipherOnly"),
];

impl Describe for KeyUsage {
    fn read_content(alloc: Global, octets: &[u8]) -> Result<KeyUsage, Error> {
        Ok(KeyUsage(leaf_from_der(alloc, octets)?))
    }

    fn describe(&self, lines: &mut Lines) {
        add_flags(lines, "", "uses", &self.0, &USES);
    }
}

impl Describe for ExtendedKeyUsage {
    fn read_content(alloc: Global, octets: &[u8]) -> Result<ExtendedKeyUsage, Error> {
        Ok(ExtendedKeyUsage(read_members(alloc, octets)?))
    }

    fn describe(&self, lines: &mut Lines) {
        lines.list("purposes");
        for purpose in &self.0 {
            lines.entry("");
            lines.members_of(purpose);
            lines.close();
        }
        lines.end_list();
    }
}

impl Describe for BasicConstraints {
    fn read_content(alloc: Global, octets: &[u8]) -> Result<BasicConstraints, Error> {
        read(alloc, octets)
    }

    fn describe(&self, lines: &mut Lines) {
        lines.row("authority", "cA");
        lines.truth(self.ca);
        if let Some(len) = self.path_len_constraint {
            lines.count_row("path length", "pathLenConstraint", u64::from(len));
        }
    }
}

/// Adds a line with a date.
pub fn add_date(lines: &mut Lines, word: &str, key: &str, date: &GeneralizedTime) {
    lines.row(word, key);
    lines.value(date.to_date_time());
}

// The content of invalidityDate.
impl Describe for GeneralizedTime {
    fn read_content(alloc: Global, octets: &[u8]) -> Result<GeneralizedTime, Error> {
        leaf_from_der(alloc, octets)
    }

    fn describe(&self, lines: &mut Lines) {
        add_date(lines, "", "date", self);
    }
}

impl Describe for PrivateKeyUsagePeriod {
    fn read_content(alloc: Global, octets: &[u8]) -> Result<PrivateKeyUsagePeriod, Error> {
        read(alloc, octets)
    }

    fn describe(&self, lines: &mut Lines) {
        if let Some(date) = &self.not_before {
            add_date(lines, "not-before", "notBefore", date);
        }
        if let Some(date) = &self.not_after {
            add_date(lines, "not-after", "notAfter", date);
        }
    }
}

// Returns the name of a TLS extension that a server must answer (RFC 6066 1.1, RFC 6961 2.2).
fn feature_name(feature: u16) -> &'static str {
    match feature {
        5 => "status_request (5)",
        17 => "status_request_v2 (17)",
        _ => "",
    }
}

// The content of tlsFeature: numbers of TLS extensions.
impl Describe for Vec<u16> {
    fn read_content(alloc: Global, octets: &[u8]) -> Result<Vec<u16>, Error> {
        read_members(alloc, octets)
    }

    fn describe(&self, lines: &mut Lines) {
        lines.list("features");
        for feature in self {
            let name = feature_name(*feature);
            lines.item(name);
            if lines.is_json || name.is_empty() {
                lines.count(u64::from(*feature));
            }
        }
        lines.end_list();
    }
}
