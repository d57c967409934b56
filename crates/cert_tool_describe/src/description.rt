//! Descriptions of certificates.
ghost use Rattle.std.specs.Prelude.{◌≢◌, IfNone, IfSome};
ghost use Rattle.x509_cert_lists.specs.Der.ErrorTypes.ErrorKind.TheVariants.{OutOfMemory};
ghost use Rattle.cert_tool_describe.specs.Files.{IsCertificate};

use crate::algorithms::{add_algorithm, add_signature};
use crate::contents::add_extensions;
use crate::described::{DescribeFile, add_file};
use crate::keys::{add_digests, add_key, add_key_digests};
use crate::values::add_name;
use cert_tool_lines::Lines;
use cert_tool_lines::cert_parts::{Raw, Version};
use cert_tool_lines::types::BitString;
use std::alloc::Global;
use x509_cert_certificates::{CertificateInner, TbsCertificateInner};
use x509_cert_lists::der::{Error, ErrorKind};

// Adds a line with the version of the value.
pub fn add_version(lines: &mut Lines, version: Version) {
    lines.count_row(
        "version",
        "version",
        match version {
            Version::V1 => 1,
            Version::V2 => 2,
            Version::V3 => 3,
        },
    );
}

// Adds issuerUniqueID or subjectUniqueID, if it is present.
fn add_unique(lines: &mut Lines, word: &str, key: &str, id: &Option<BitString>) {
    if let Some(id) = id {
        lines.octets_row(word, key, id.raw_bytes());
    }
}

// Adds the lines of the issuer, the validity period and the subject.
fn add_parties(lines: &mut Lines, signed: &TbsCertificateInner<Raw>) {
    lines.number_row("serial", "serialNumber", signed.serial_number().as_bytes());
    add_algorithm(lines, "algorithm", "signature", signed.signature());
    add_name(lines, "issuer", "issuer", signed.issuer());
    lines.date_row("not-before", "notBefore", &signed.validity().not_before);
    lines.date_row("not-after", "notAfter", &signed.validity().not_after);
    add_name(lines, "subject", "subject", signed.subject());
}

// Adds the lines of the TBSCertificate.
fn add_signed(lines: &mut Lines, signed: &TbsCertificateInner<Raw>) {
    add_version(lines, signed.version());
    add_parties(lines, signed);
    add_key(lines, signed.subject_public_key_info());
    let issuer = signed.issuer_unique_id();
    add_unique(lines, "issuer-id", "issuerUniqueID", issuer);
    let subject = signed.subject_unique_id();
    add_unique(lines, "subject-id", "subjectUniqueID", subject);
    if let Some(extensions) = signed.extensions() {
        add_extensions(lines, "extensions", extensions.as_slice());
    }
}

// Adds the lines of a certificate.
fn add_members(lines: &mut Lines, certificate: &CertificateInner<Raw>) {
    add_signed(lines, certificate.tbs_certificate());
    let algorithm = certificate.signature_algorithm();
    add_signature(lines, algorithm, certificate.signature());
}

/// Adds a certificate that is an item of an array.
pub fn add_certificate_item(lines: &mut Lines, certificate: &CertificateInner<Raw>) {
    lines.entry("certificate");
    add_members(lines, certificate);
    lines.close();
}

impl DescribeFile for CertificateInner<Raw> {
    ghost is_spelled = { IsCertificate };

    fn read_file(alloc: Global, octets: &[u8]) -> Result<CertificateInner<Raw>, Error> {
        CertificateInner::<Raw>::from_der(alloc, octets)
    }

    fn describe_file(&self, lines: &mut Lines, octets: &[u8]) {
        lines.text_row("", "kind", "certificate");
        add_members(lines, self);
        add_digests(lines, ["certificate-sha1", "certificate-sha256"], octets);
        add_key_digests(lines, self.tbs_certificate().subject_public_key_info());
    }
}

/// Adds the description of a certificate, with digests of its encoding and of its key, or returns
/// the error if it can't be decoded.
pub fn add_certificate(lines: &mut Lines, octets: &[u8]) -> Option<ErrorKind>
    ensures spelled { IfNone result (IsCertificate octets.now) }
    ensures refused { IfSome result (λ kind. kind ≢ OutOfMemory → IsCertificate octets.now → ⊥) }
{
    add_file::<CertificateInner<Raw>>(lines, octets)
}
