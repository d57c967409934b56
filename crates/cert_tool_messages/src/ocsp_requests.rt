//! Describes OCSP requests (RFC 6960 4.1).

ghost use Rattle.cert_tool_messages.specs.Files.{IsOcspRequest};

use crate::identifiers::add_named;
use crate::ocsp_extensions::add_ocsp_extensions;
use cert_tool_describe::cert_certificates::CertificateInner;
use cert_tool_describe::cert_parts::Raw;
use cert_tool_describe::der::{Error, FromDer};
use cert_tool_describe::tool_lines::Lines;
use cert_tool_describe::{
    DescribeFile, add_algorithm, add_certificate_item, add_digests, add_signature,
};
use pki_ocsp::{CertId, Request, Signature, TbsRequest, Version};
use std::alloc::Global;

/// Adds a line with the version.
pub fn add_version(lines: &mut Lines, version: Version) {
    match version {
        Version::V1 => lines.count_row("version", "version", 1),
    }
}

/// Adds the lines of a CertID.
pub fn add_cert_id(lines: &mut Lines, id: &CertId) {
    add_algorithm(lines, "digest", "hashAlgorithm", &id.hash_algorithm);
    let name_hash = id.issuer_name_hash.as_bytes();
    lines.octets_row("issuer-name-hash", "issuerNameHash", name_hash);
    let key_hash = id.issuer_key_hash.as_bytes();
    lines.octets_row("issuer-key-hash", "issuerKeyHash", key_hash);
    lines.number_row("serial", "serialNumber", id.serial_number.as_bytes());
}

/// Adds the lines of the certificates, if there are any.
pub fn add_certs(lines: &mut Lines, certs: &Option<Vec<CertificateInner<Raw>>>) {
    if let Some(certs) = certs {
        lines.list("certs");
        for certificate in certs {
            add_certificate_item(lines, certificate);
        }
        lines.end_list();
    }
}

// Adds the lines of a request about one certificate.
fn add_request(lines: &mut Lines, request: &Request) {
    lines.entry("request");
    add_cert_id(lines, &request.req_cert);
    let extensions = &request.single_request_extensions;
    add_ocsp_extensions(lines, "singleRequestExtensions", extensions);
    lines.close();
}

// Adds the lines of the TBSRequest.
fn add_signed(lines: &mut Lines, signed: &TbsRequest) {
    add_version(lines, signed.version);
    if let Some(name) = &signed.requestor_name {
        add_named(lines, "requestor", "requestorName", name);
    }
    lines.list("requestList");
    for request in &signed.request_list {
        add_request(lines, request);
    }
    lines.end_list();
    add_ocsp_extensions(lines, "requestExtensions", &signed.request_extensions);
}

// Adds the lines of the signature.
fn add_optional_signature(lines: &mut Lines, signature: &Signature) {
    add_signature(lines, &signature.signature_algorithm, &signature.signature);
    add_certs(lines, &signature.certs);
}

/// An OCSP request (RFC 6960 4.1.1).
#[derive(Drop)]
pub struct OcspRequest(pub pki_ocsp::OcspRequest);

impl DescribeFile for OcspRequest {
    ghost is_spelled = { IsOcspRequest };

    fn read_file(alloc: Global, octets: &[u8]) -> Result<OcspRequest, Error> {
        Ok(OcspRequest(pki_ocsp::OcspRequest::from_der(alloc, octets)?))
    }

    fn describe_file(&self, lines: &mut Lines, octets: &[u8]) {
        lines.text_row("", "kind", "ocsp-request");
        add_signed(lines, &self.0.tbs_request);
        if let Some(signature) = &self.0.optional_signature {
            add_optional_signature(lines, signature);
        }
        add_digests(lines, ["ocsp-request-sha1", "ocsp-request-sha256"], octets);
    }
}
