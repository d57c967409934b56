//! Describes OCSP responses (RFC 6960 4.2).

ghost use Rattle.std.specs.Prelude.{OnOk};
ghost use Rattle.cert_tool_messages.specs.Files.{IsBasicResponse, IsOcspResponse};

use crate::identifiers::add_identifier;
use crate::ocsp_extensions::add_ocsp_extensions;
use crate::ocsp_requests::{add_cert_id, add_certs, add_version};
use cert_tool_describe::der::{Error, FromDer};
use cert_tool_describe::tool_lines::Lines;
use cert_tool_describe::{
    Content, ContentError, Describe, DescribeFile, Node, Part, add_content, add_date, add_digests,
    add_name_members, add_signature, add_undecoded, error_in, reason_name,
};
use pki_ocsp::identifiers::id_pkix_ocsp_basic;
use pki_ocsp::{
    BasicOcspResponse, CertStatus, OcspResponseStatus, ResponderId, ResponseBytes, ResponseData,
    RevokedInfo, SingleResponse,
};
use std::alloc::Global;

const BASIC_RESPONSE: [Part; 1] = [(Some(0x30), false, "", Node::BasicResponse)];

// Returns the name of the status of a response.
fn status_name(status: OcspResponseStatus) -> &'static str {
    match status {
        OcspResponseStatus::Successful => "successful",
        OcspResponseStatus::MalformedRequest => "malformedRequest",
        OcspResponseStatus::InternalError => "internalError",
        OcspResponseStatus::TryLater => "tryLater",
        OcspResponseStatus::SigRequired => "sigRequired",
        OcspResponseStatus::Unauthorized => "unauthorized",
    }
}

// Adds a line with the responder: its name, or the hash of its key.
fn add_responder(lines: &mut Lines, id: &ResponderId) {
    lines.row("responder", "responderID");
    lines.brace();
    match id {
        ResponderId::ByName(name) => {
            lines.word("name");
            lines.key("byName");
            lines.open();
            add_name_members(lines, name);
            lines.close();
        }
        ResponderId::ByKey(hash) => {
            lines.word("key");
            lines.key("byKey");
            lines.octets(hash.as_bytes());
        }
    }
    lines.end_brace();
}

// Adds the lines of a revocation.
fn add_revocation(lines: &mut Lines, info: &RevokedInfo) {
    lines.text_row("status", "certStatus", "revoked");
    add_date(
        lines,
        "revocation-time",
        "revocationTime",
        &info.revocation_time,
    );
    if let Some(reason) = info.revocation_reason {
        let name = reason_name(reason);
        lines.text_row("revocation-reason", "revocationReason", name);
    }
}

// Adds the lines of the status of a certificate.
fn add_status(lines: &mut Lines, status: &CertStatus) {
    match status {
        CertStatus::Good => lines.text_row("status", "certStatus", "good"),
        CertStatus::Revoked(info) => add_revocation(lines, info),
        CertStatus::Unknown => lines.text_row("status", "certStatus", "unknown"),
    }
}

// Adds the lines of a response about one certificate.
fn add_response(lines: &mut Lines, response: &SingleResponse) {
    lines.entry("response");
    add_cert_id(lines, &response.cert_id);
    add_status(lines, &response.cert_status);
    add_date(lines, "this-update", "thisUpdate", &response.this_update);
    if let Some(date) = &response.next_update {
        add_date(lines, "next-update", "nextUpdate", date);
    }
    add_ocsp_extensions(lines, "singleExtensions", &response.single_extensions);
    lines.close();
}

// Adds the lines of the ResponseData.
fn add_signed(lines: &mut Lines, signed: &ResponseData) {
    add_version(lines, signed.version);
    add_responder(lines, &signed.responder_id);
    add_date(lines, "produced-at", "producedAt", &signed.produced_at);
    lines.list("responses");
    for response in &signed.responses {
        add_response(lines, response);
    }
    lines.end_list();
    add_ocsp_extensions(lines, "responseExtensions", &signed.response_extensions);
}

// A basic response.
#[derive(Drop)]
struct BasicResponse(BasicOcspResponse);

impl Describe for BasicResponse {
    fn read_content(alloc: Global, octets: &[u8]) -> Result<BasicResponse, Error>
        ensures spelled { OnOk result (IsBasicResponse octets.now) }
    {
        Ok(BasicResponse(BasicOcspResponse::from_der(alloc, octets)?))
    }

    fn describe(&self, lines: &mut Lines) {
        add_signed(lines, &self.0.tbs_response_data);
        add_signature(lines, &self.0.signature_algorithm, &self.0.signature);
        add_certs(lines, &self.0.certs);
    }
}

// Adds the lines of the response: its type, and what a basic response says. A response of another
// type isn't decoded.
fn add_response_bytes(lines: &mut Lines, bytes: &ResponseBytes) {
    add_identifier(lines, "response-type", "responseType", &bytes.response_type);
    let octets = bytes.response.as_bytes();
    if bytes.response_type != id_pkix_ocsp_basic() {
        lines.octets_row("octets", "octets", octets);
    } else if let Some(error) = add_content::<BasicResponse>(lines, octets) {
        add_undecoded(lines, &BASIC_RESPONSE, octets, &error);
    }
}

// Returns the error in the basic response of a file, if there is one.
fn error_in_basic_response(alloc: Global, octets: &[u8]) -> Option<ContentError> {
    let path = "responseBytes..response";
    let content = Content::of(octets, 0, Node::OcspResponse, path, &BASIC_RESPONSE);
    error_in::<BasicResponse>(alloc, octets, content, None)
}

/// An OCSP response (RFC 6960 4.2.1).
#[derive(Drop)]
pub struct OcspResponse(pub pki_ocsp::OcspResponse);

impl DescribeFile for OcspResponse {
    ghost is_spelled = { IsOcspResponse };

    fn read_file(alloc: Global, octets: &[u8]) -> Result<OcspResponse, Error> {
        Ok(OcspResponse(pki_ocsp::OcspResponse::from_der(alloc, octets)?))
    }

    fn describe_file(&self, lines: &mut Lines, octets: &[u8]) {
        lines.text_row("", "kind", "ocsp-response");
        lines.text_row(
            "status",
            "responseStatus",
            status_name(self.0.response_status),
        );
        if let Some(bytes) = &self.0.response_bytes {
            add_response_bytes(lines, bytes);
        }
        let names = ["ocsp-response-sha1", "ocsp-response-sha256"];
        add_digests(lines, names, octets);
    }

    fn content_error(&self, alloc: Global, octets: &[u8]) -> Option<ContentError> {
        match &self.0.response_bytes {
            Some(bytes) if bytes.response_type == id_pkix_ocsp_basic() => {
                error_in_basic_response(alloc, octets)
            }
            _ => None,
        }
    }
}
