//! Prints distribution points, access descriptions, key identifiers and name constraints (RFC 5280
//! 4.2.1.1, 4.2.1.10, 4.2.1.13, 4.2.2).

use crate::described::Describe;
use crate::general_names::{add_general_name, add_general_names};
use crate::uses::add_flags;
use crate::values::{read, read_members};
use cert_tool_lines::Lines;
use std::alloc::Global;
use x509_cert_extensions::cert_general_names::{
    AccessDescription, AuthorityKeyIdentifier, DistributionPoint, DistributionPointName,
    GeneralSubtree, IssuingDistributionPoint, NameConstraints, ReasonFlags, Reasons,
};
use x509_cert_extensions::{AuthorityInfoAccessSyntax, CrlDistributionPoints};
use x509_cert_lists::der::Error;

// Adds the lines of the name of a distribution point.
fn add_point_name(lines: &mut Lines, name: &DistributionPointName) {
    match name {
        DistributionPointName::FullName(listed) => {
            add_general_names(lines, "", "fullName", listed.as_slice());
        }
        DistributionPointName::NameRelativeToCRLIssuer(relative) => {
            lines.row("below the issuer", "nameRelativeToCRLIssuer");
            lines.name_value(relative);
        }
    }
}

// The reasons for a revocation (RFC 5280 4.2.1.13).
const REASONS: [(Reasons, &str); 9] = [
    (Reasons::Unused, "unused"),
    (Reasons::KeyCompromise, "keyCompromise"),
    (Reasons::CaCompromise, "cACompromise"),
    (Reasons::AffiliationChanged, "affiliationChanged"),
    (Reasons::Superseded, "superseded"),
    (Reasons::CessationOfOperation, "cessationOfOperation"),
    (Reasons::CertificateHold, "certificateHold"),
    (Reasons::PrivilegeWithdrawn, "privilegeWithdrawn"),
    (Reasons::AaCompromise, "aACompromise"),
];

// Adds a line for each reason.
fn add_reasons(lines: &mut Lines, key: &str, reasons: &ReasonFlags) {
    add_flags(lines, "for", key, reasons, &REASONS);
}

// Adds the lines of a distribution point.
fn add_point(lines: &mut Lines, point: &DistributionPoint) {
    lines.entry("point");
    if let Some(name) = &point.distribution_point {
        add_point_name(lines, name);
    }
    if let Some(reasons) = &point.reasons {
        add_reasons(lines, "reasons", reasons);
    }
    if let Some(issuer) = &point.crl_issuer {
        add_general_names(lines, "issued by", "cRLIssuer", issuer.as_slice());
    }
    lines.close();
}

impl Describe for CrlDistributionPoints {
    fn read_content(alloc: Global, octets: &[u8]) -> Result<CrlDistributionPoints, Error> {
        Ok(CrlDistributionPoints(read_members(alloc, octets)?))
    }

    fn describe(&self, lines: &mut Lines) {
        lines.list("points");
        for point in &self.0 {
            add_point(lines, point);
        }
        lines.end_list();
    }
}

// Adds a line for a boolean of issuingDistributionPoint, if it is true.
fn add_scope(lines: &mut Lines, words: &str, key: &str, holds: bool) {
    if holds {
        lines.line();
        lines.mark(words, key, holds);
    }
}

impl Describe for IssuingDistributionPoint {
    fn read_content(alloc: Global, octets: &[u8]) -> Result<IssuingDistributionPoint, Error> {
        read(alloc, octets)
    }

    fn describe(&self, lines: &mut Lines) {
        if let Some(name) = &self.distribution_point {
            add_point_name(lines, name);
        }
        add_scope(
            lines,
            "only end-entity certificates",
            "onlyContainsUserCerts",
            self.only_contains_user_certs,
        );
        add_scope(
            lines,
            "only CA certificates",
            "onlyContainsCACerts",
            self.only_contains_ca_certs,
        );
        add_scope(
            lines,
            "only attribute certificates",
            "onlyContainsAttributeCerts",
            self.only_contains_attribute_certs,
        );
        add_scope(
            lines,
            "also certificates of other issuers",
            "indirectCRL",
            self.indirect_crl,
        );
        if let Some(reasons) = &self.only_some_reasons {
            add_reasons(lines, "onlySomeReasons", reasons);
        }
    }
}

// Adds a line with an access description.
fn add_access(lines: &mut Lines, access: &AccessDescription) {
    lines.item("");
    lines.brace();
    lines.members_of(&access.access_method);
    lines.key("accessLocation");
    lines.brace();
    add_general_name(lines, &access.access_location);
    lines.end_brace();
    lines.end_brace();
}

/// Adds a line for each access description.
pub fn add_accesses(lines: &mut Lines, accesses: &[AccessDescription]) {
    lines.list("accesses");
    for access in accesses {
        add_access(lines, access);
    }
    lines.end_list();
}

impl Describe for AuthorityInfoAccessSyntax {
    fn read_content(alloc: Global, octets: &[u8]) -> Result<AuthorityInfoAccessSyntax, Error> {
        Ok(AuthorityInfoAccessSyntax(read_members::<AccessDescription>(alloc, octets)?))
    }

    fn describe(&self, lines: &mut Lines) {
        add_accesses(lines, self.0.as_slice());
    }
}

impl Describe for AuthorityKeyIdentifier {
    fn read_content(alloc: Global, octets: &[u8]) -> Result<AuthorityKeyIdentifier, Error> {
        read(alloc, octets)
    }

    fn describe(&self, lines: &mut Lines) {
        if let Some(identifier) = &self.key_identifier {
            lines.octets_row("key", "keyIdentifier", identifier.as_bytes());
        }
        if let Some(issuer) = &self.authority_cert_issuer {
            add_general_names(lines, "issuer", "authorityCertIssuer", issuer.as_slice());
        }
        if let Some(serial) = &self.authority_cert_serial_number {
            lines.number_row("serial", "authorityCertSerialNumber", serial.as_bytes());
        }
    }
}

// Adds the lines of a subtree, which begin with this word.
fn add_subtree(lines: &mut Lines, word: &str, tree: &GeneralSubtree) {
    lines.item(word);
    lines.brace();
    add_general_name(lines, &tree.base);
    if tree.minimum > 0 {
        lines.count_row("  minimum", "minimum", u64::from(tree.minimum));
    }
    if let Some(level) = tree.maximum {
        lines.count_row("  maximum", "maximum", u64::from(level));
    }
    lines.end_brace();
}

// Adds the lines of subtrees, if there are any.
fn add_subtrees(lines: &mut Lines, word: &str, key: &str, trees: &Option<Vec<GeneralSubtree>>) {
    if let Some(trees) = trees {
        lines.list(key);
        for tree in trees {
            add_subtree(lines, word, tree);
        }
        lines.end_list();
    }
}

impl Describe for NameConstraints {
    fn read_content(alloc: Global, octets: &[u8]) -> Result<NameConstraints, Error> {
        read(alloc, octets)
    }

    fn describe(&self, lines: &mut Lines) {
        let (permitted, excluded) = (&self.permitted_subtrees, &self.excluded_subtrees);
        add_subtrees(lines, "permitted", "permittedSubtrees", permitted);
        add_subtrees(lines, "excluded", "excludedSubtrees", excluded);
    }
}
