//! Descriptions of CRLs (RFC 5280 5).
ghost use Rattle.std.specs.Prelude.{◌≢◌, IfNone, IfSome};
ghost use Rattle.x509_cert_lists.specs.Der.ErrorTypes.ErrorKind.TheVariants.{OutOfMemory};
ghost use Rattle.cert_tool_describe.specs.Files.{IsList};

use crate::algorithms::{add_algorithm, add_signature};
use crate::contents::add_extensions;
use crate::described::{Describe, DescribeFile, add_file};
use crate::description::add_version;
use crate::keys::add_digests;
use crate::values::{add_name, read};
use cert_tool_lines::Lines;
use cert_tool_lines::cert_parts::Raw;
use std::alloc::Global;
use x509_cert_extensions::{CrlNumber, CrlReason};
use x509_cert_lists::der::making::leaf_from_der;
use x509_cert_lists::der::{Error, ErrorKind};
use x509_cert_lists::{CertificateList, RevokedCert, TbsCertList};

impl Describe for CrlNumber {
    fn read_content(alloc: Global, octets: &[u8]) -> Result<CrlNumber, Error> {
        Ok(CrlNumber(leaf_from_der(alloc, octets)?))
    }

    fn describe(&self, lines: &mut Lines) {
        lines.row("number", "number");
        lines.natural(self.0.as_bytes());
    }
}

/// Returns the name of a reason (RFC 5280 5.3.1).
pub fn reason_name(reason: CrlReason) -> &'static str {
    match reason {
        CrlReason::Unspecified => "unspecified",
        CrlReason::KeyCompromise => "keyCompromise",
        CrlReason::CaCompromise => "cACompromise",
        CrlReason::AffiliationChanged => "affiliationChanged",
        CrlReason::Superseded => "superseded",
        CrlReason::CessationOfOperation => "cessationOfOperation",
        CrlReason::CertificateHold => "certificateHold",
        CrlReason::RemoveFromCRL => "removeFromCRL",
        CrlReason::PrivilegeWithdrawn => "privilegeWithdrawn",
        CrlReason::AaCompromise => "aACompromise",
    }
}

impl Describe for CrlReason {
    fn read_content(alloc: Global, octets: &[u8]) -> Result<CrlReason, Error> {
        read(alloc, octets)
    }

    fn describe(&self, lines: &mut Lines) {
        lines.text_row("", "reason", reason_name(*self));
    }
}

// Adds the lines of an entry.
fn add_entry(lines: &mut Lines, entry: &RevokedCert<Raw>) {
    lines.entry("revoked");
    lines.key("userCertificate");
    lines.number(entry.serial_number.as_bytes());
    lines.key("revocationDate");
    lines.date(&entry.revocation_date);
    if let Some(extensions) = &entry.crl_entry_extensions {
        add_extensions(lines, "crlEntryExtensions", extensions.as_slice());
    }
    lines.close();
}

// Adds the lines of entries, in order.
fn add_entries(lines: &mut Lines, entries: &[RevokedCert<Raw>]) {
    lines.list("revokedCertificates");
    for entry in entries {
        add_entry(lines, entry);
    }
    lines.end_list();
}

// Adds the lines of the TBSCertList.
fn add_signed(lines: &mut Lines, signed: &TbsCertList<Raw>) {
    add_version(lines, signed.version);
    add_algorithm(lines, "algorithm", "signature", &signed.signature);
    add_name(lines, "issuer", "issuer", &signed.issuer);
    lines.date_row("this-update", "thisUpdate", &signed.this_update);
    if let Some(date) = &signed.next_update {
        lines.date_row("next-update", "nextUpdate", date);
    }
    if let Some(extensions) = &signed.crl_extensions {
        add_extensions(lines, "crlExtensions", extensions.as_slice());
    }
    if let Some(entries) = &signed.revoked_certificates {
        add_entries(lines, entries.as_slice());
    }
}

// Adds the lines of a CRL.
fn add_members(lines: &mut Lines, list: &CertificateList<Raw>) {
    add_signed(lines, &list.tbs_cert_list);
    add_signature(lines, &list.signature_algorithm, &list.signature);
}

/// Adds a CRL that is an item of an array.
pub fn add_list_item(lines: &mut Lines, list: &CertificateList<Raw>) {
    lines.entry("list");
    add_members(lines, list);
    lines.close();
}

impl DescribeFile for CertificateList<Raw> {
    ghost is_spelled = { IsList };

    fn read_file(alloc: Global, octets: &[u8]) -> Result<CertificateList<Raw>, Error> {
        CertificateList::<Raw>::from_der(alloc, octets)
    }

    fn describe_file(&self, lines: &mut Lines, octets: &[u8]) {
        lines.text_row("", "kind", "list");
        add_members(lines, self);
        add_digests(lines, ["list-sha1", "list-sha256"], octets);
    }
}

/// Adds the description of a CRL, with digests of its encoding, or returns the error if it can't be
/// decoded.
pub fn add_list(lines: &mut Lines, octets: &[u8]) -> Option<ErrorKind>
    ensures spelled { IfNone result (IsList octets.now) }
    ensures refused { IfSome result (λ kind. kind ≢ OutOfMemory → IsList octets.now → ⊥) }
{
    add_file::<CertificateList<Raw>>(lines, octets)
}
