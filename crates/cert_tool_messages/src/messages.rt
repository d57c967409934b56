//! Describes messages (RFC 5652 3, 5).

ghost use Rattle.std.specs.Prelude.{OnOk};
ghost use Rattle.cert_tool_messages.specs.Files.{IsMessage, IsSignedData};

use crate::identifiers::add_identifier;
use crate::signers::{add_signer, add_version};
use crate::timestamp_info::{add_timestamp_info, error_in_timestamp_info};
use cert_tool_describe::cert_parts::AlgorithmIdentifier;
use cert_tool_describe::der::{Error, FromDer, ToDer};
use cert_tool_describe::oid::ObjectIdentifier;
use cert_tool_describe::tool_lines::Lines;
use cert_tool_describe::types::Any;
use cert_tool_describe::{
    Content, ContentError, Describe, DescribeFile, Node, Part, add_algorithm_members,
    add_certificate_item, add_content, add_digests, add_list_item, add_undecoded, add_value, noted,
};
use pki_cms::identifiers::id_signed_data;
use pki_cms::{
    CertificateChoices, EncapsulatedContentInfo, RevocationInfoChoice, SignedData, SignerInfo,
};
use pki_timestamps::identifiers::id_ct_tst_info;
use std::alloc::Global;

// The content has one value, a SEQUENCE. It has no field name.
const SIGNED_DATA: [Part; 1] = [(Some(0x30), false, "", Node::SignedData)];

// Adds a line for each digest algorithm.
fn add_digest_algorithms(lines: &mut Lines, algorithms: &[AlgorithmIdentifier]) {
    lines.list("digestAlgorithms");
    for algorithm in algorithms {
        lines.entry("digest");
        add_algorithm_members(lines, algorithm);
        lines.close();
    }
    lines.end_list();
}

// Adds the lines of the encapsulated content.
fn add_encapsulated(lines: &mut Lines, content: &EncapsulatedContentInfo) {
    lines.node("encapsulated", "encapContentInfo");
    lines.members_of(&content.e_content_type);
    match &content.e_content {
        Some(octets) => add_encapsulated_octets(lines, &content.e_content_type, octets.as_bytes()),
        None => {
            lines.line();
            lines.mark("detached", "detached", true);
        }
    }
    lines.close();
}

// Adds the number of bytes of an encapsulated content, and the lines of a TSTInfo or the bytes of
// another content.
fn add_encapsulated_octets(lines: &mut Lines, kind: &ObjectIdentifier<39>, octets: &[u8]) {
    lines.count_row("length", "length", octets.len() as u64);
    if *kind == id_ct_tst_info() {
        add_timestamp_info(lines, octets);
    } else {
        lines.octets_row("octets", "octets", octets);
    }
}

// Adds a certificate or a CRL in another format: its object identifier and its value.
fn add_other_format(lines: &mut Lines, word: &str, id: &ObjectIdentifier<39>, value: &Any) {
    lines.entry(word);
    add_identifier(lines, "format", "format", id);
    lines.row("", "value");
    lines.brace();
    add_value(lines, value);
    lines.end_brace();
    lines.close();
}

// Adds a certificate in an obsolete format, or an attribute certificate, which isn't decoded.
fn add_undecoded_certificate(lines: &mut Lines, choice: &str, octets: &[u8]) {
    lines.entry("certificate");
    lines.text_row("choice", "choice", choice);
    lines.octets_row("octets", "octets", octets);
    lines.close();
}

// Adds the lines of a certificate.
fn add_certificate_choice(lines: &mut Lines, choice: &CertificateChoices) {
    match choice {
        CertificateChoices::Certificate(certificate) => add_certificate_item(lines, certificate),
        CertificateChoices::ExtendedCertificate(inner) => {
            add_undecoded_certificate(lines, "extendedCertificate", inner.as_bytes());
        }
        CertificateChoices::V1AttrCert(inner) => {
            add_undecoded_certificate(lines, "v1AttrCert", inner.as_bytes());
        }
        CertificateChoices::V2AttrCert(inner) => {
            add_undecoded_certificate(lines, "v2AttrCert", inner.as_bytes());
        }
        CertificateChoices::Other(other) => {
            add_other_format(
                lines,
                "certificate",
                &other.other_cert_format,
                &other.other_cert,
            );
        }
    }
}

// Adds the lines of a CRL.
fn add_revocation_info(lines: &mut Lines, choice: &RevocationInfoChoice) {
    match choice {
        RevocationInfoChoice::Crl(list) => add_list_item(lines, list),
        RevocationInfoChoice::Other(other) => {
            let (format, value) = (&other.other_rev_info_format, &other.other_rev_info);
            add_other_format(lines, "list", format, value);
        }
    }
}

// Adds the lines of the certificates and CRLs.
fn add_certificates(lines: &mut Lines, data: &SignedData) {
    if let Some(certificates) = &data.certificates {
        lines.list("certificates");
        for choice in certificates.as_slice() {
            add_certificate_choice(lines, choice);
        }
        lines.end_list();
    }
    if let Some(lists) = &data.crls {
        lines.list("crls");
        for choice in lists.as_slice() {
            add_revocation_info(lines, choice);
        }
        lines.end_list();
    }
}

// Adds the lines of the signers.
fn add_signers(lines: &mut Lines, signers: &[SignerInfo]) {
    lines.list("signerInfos");
    for signer in signers {
        add_signer(lines, signer);
    }
    lines.end_list();
}

// Implements `Describe` for SignedData.
#[derive(Drop)]
struct Signed(SignedData);

impl Describe for Signed {
    fn read_content(alloc: Global, octets: &[u8]) -> Result<Signed, Error>
        ensures spelled { OnOk result (IsSignedData octets.now) }
    {
        Ok(Signed(SignedData::from_der(alloc, octets)?))
    }

    fn describe(&self, lines: &mut Lines) {
        add_version(lines, self.0.version);
        add_digest_algorithms(lines, self.0.digest_algorithms.as_slice());
        add_encapsulated(lines, &self.0.encap_content_info);
        add_certificates(lines, &self.0);
        add_signers(lines, self.0.signer_infos.as_slice());
    }
}

// Adds the lines of a SignedData.
fn add_signed_data(lines: &mut Lines, content: &Any) {
    let octets = content.to_der(lines.alloc);
    if let Some(octets) = noted(lines, octets) {
        let octets = octets.as_slice();
        if let Some(error) = add_content::<Signed>(lines, octets) {
            add_undecoded(lines, &SIGNED_DATA, octets, &error);
        }
    }
}

/// Adds the lines of a ContentInfo. A content that isn't a SignedData isn't decoded.
pub fn add_content_info(lines: &mut Lines, info: &pki_cms::ContentInfo) {
    add_identifier(lines, "content-type", "contentType", &info.content_type);
    if info.content_type == id_signed_data() {
        add_signed_data(lines, &info.content);
    } else {
        lines.node("content", "content");
        add_value(lines, &info.content);
        lines.close();
    }
}

// Returns the error in the encapsulated content of a SignedData, if it is a TSTInfo.
fn error_in_encapsulated(
    alloc: Global,
    octets: &[u8],
    around: Content,
    content: &EncapsulatedContentInfo,
) -> Option<ContentError> {
    if content.e_content.is_some() && content.e_content_type == id_ct_tst_info() {
        error_in_timestamp_info(alloc, octets, around)
    } else {
        None
    }
}

// Returns the error in a SignedData, or in the TSTInfo inside it.
fn error_in_signed_data(alloc: Global, octets: &[u8], content: Content) -> Option<ContentError> {
    match Signed::read_content(alloc, content.octets_in(octets)) {
        Ok(signed) => {
            error_in_encapsulated(alloc, octets, content, &signed.0.encap_content_info)
        }
        Err(error) => Some(ContentError {
            content,
            around: None,
            error,
        }),
    }
}

/// Returns the error in the content of the message at an offset of a file if the content is a
/// SignedData, or in the TSTInfo inside it.
pub fn error_in_content(
    alloc: Global,
    octets: &[u8],
    start: usize,
    info: &pki_cms::ContentInfo,
) -> Option<ContentError> {
    if info.content_type == id_signed_data() {
        let content = Content::of(octets, start, Node::Message, "content", &SIGNED_DATA);
        error_in_signed_data(alloc, octets, content)
    } else {
        None
    }
}

/// A message (RFC 5652 3).
#[derive(Drop)]
pub struct ContentInfo(pub pki_cms::ContentInfo);

impl DescribeFile for ContentInfo {
    ghost is_spelled = { IsMessage };

    fn read_file(alloc: Global, octets: &[u8]) -> Result<ContentInfo, Error> {
        Ok(ContentInfo(pki_cms::ContentInfo::from_der(alloc, octets)?))
    }

    fn describe_file(&self, lines: &mut Lines, octets: &[u8]) {
        lines.text_row("", "kind", "message");
        add_content_info(lines, &self.0);
        add_digests(lines, ["message-sha1", "message-sha256"], octets);
    }

    fn content_error(&self, alloc: Global, octets: &[u8]) -> Option<ContentError> {
        error_in_content(alloc, octets, 0, &self.0)
    }
}
