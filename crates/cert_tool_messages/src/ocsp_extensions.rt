//! Describes the extensions of OCSP (RFC 6960 4.4, RFC 8954 2.1).

use cert_tool_describe::cert_parts::{Extension, Extensions};
use cert_tool_describe::der::Error;
use cert_tool_describe::der::making::leaf_from_der;
use cert_tool_describe::oid::ObjectIdentifier;
use cert_tool_describe::tool_lines::Lines;
use cert_tool_describe::types::{GeneralizedTime, OctetString};
use cert_tool_describe::{
    Describe, add_accesses, add_algorithm, add_content, add_date, add_extension, add_name,
    add_undecoded, begin_extension, read, read_members,
};
use pki_ocsp::{CrlId, PreferredSignatureAlgorithm, ServiceLocator};
use std::alloc::Global;

// The bytes of a nonce.
#[derive(Drop)]
struct Nonce(OctetString);

impl Describe for Nonce {
    fn read_content(alloc: Global, octets: &[u8]) -> Result<Nonce, Error> {
        Ok(Nonce(leaf_from_der(alloc, octets)?))
    }

    fn describe(&self, lines: &mut Lines) {
        lines.octets_row("nonce", "nonce", self.0.as_bytes());
    }
}

// The CRL that has the status of a certificate.
#[derive(Drop)]
struct Reference(CrlId);

impl Describe for Reference {
    fn read_content(alloc: Global, octets: &[u8]) -> Result<Reference, Error> {
        Ok(Reference(read(alloc, octets)?))
    }

    fn describe(&self, lines: &mut Lines) {
        if let Some(url) = &self.0.crl_url {
            lines.row("CRL URL", "crlUrl");
            lines.plain_value(url.as_str());
        }
        if let Some(number) = &self.0.crl_num {
            lines.number_row("CRL number", "crlNum", number.as_bytes());
        }
        if let Some(date) = &self.0.crl_time {
            add_date(lines, "CRL time", "crlTime", date);
        }
    }
}

// The types of responses that a client accepts.
#[derive(Drop)]
struct ResponseTypes(Vec<ObjectIdentifier<39>>);

impl Describe for ResponseTypes {
    fn read_content(alloc: Global, octets: &[u8]) -> Result<ResponseTypes, Error> {
        Ok(ResponseTypes(read_members(alloc, octets)?))
    }

    fn describe(&self, lines: &mut Lines) {
        lines.list("responseTypes");
        for kind in &self.0 {
            lines.item("");
            lines.brace();
            lines.members_of(kind);
            lines.end_brace();
        }
        lines.end_list();
    }
}

// The server to which a request is forwarded.
#[derive(Drop)]
struct Server(ServiceLocator);

impl Describe for Server {
    fn read_content(alloc: Global, octets: &[u8]) -> Result<Server, Error> {
        Ok(Server(read(alloc, octets)?))
    }

    fn describe(&self, lines: &mut Lines) {
        add_name(lines, "issuer", "issuer", &self.0.issuer);
        add_accesses(lines, self.0.locator.as_slice());
    }
}

// Adds the lines of an algorithm that a client prefers.
fn add_preferred(lines: &mut Lines, preferred: &PreferredSignatureAlgorithm) {
    lines.entry("preferred");
    add_algorithm(
        lines,
        "algorithm",
        "sigIdentifier",
        &preferred.sig_identifier,
    );
    if let Some(key) = &preferred.cert_identifier {
        add_algorithm(lines, "key", "certIdentifier", key);
    }
    lines.close();
}

// The signature algorithms that a client prefers.
#[derive(Drop)]
struct PreferredAlgorithms(Vec<PreferredSignatureAlgorithm>);

impl Describe for PreferredAlgorithms {
    fn read_content(alloc: Global, octets: &[u8]) -> Result<PreferredAlgorithms, Error> {
        Ok(PreferredAlgorithms(read_members(alloc, octets)?))
    }

    fn describe(&self, lines: &mut Lines) {
        lines.list("preferredAlgorithms");
        for preferred in &self.0 {
            add_preferred(lines, preferred);
        }
        lines.end_list();
    }
}

// Adds the lines of the content of the extension id-pkix-ocsp with this number. Returns the error
// if the content is malformed.
fn add_content_of(lines: &mut Lines, number: u8, octets: &[u8]) -> Option<Error> {
    match number {
        2 => add_content::<Nonce>(lines, octets),
        3 => add_content::<Reference>(lines, octets),
        4 => add_content::<ResponseTypes>(lines, octets),
        6 => add_content::<GeneralizedTime>(lines, octets),
        7 => add_content::<Server>(lines, octets),
        _ => add_content::<PreferredAlgorithms>(lines, octets),
    }
}

// Returns the number of an extension id-pkix-ocsp whose content is decoded.
fn number_of(extension: &Extension) -> Option<u8> {
    match extension.extn_id.as_bytes() {
        [0x2b, 6, 1, 5, 5, 7, 48, 1, number] if matches!(*number, 2..=4 | 6..=8) => Some(*number),
        _ => None,
    }
}

// Adds the lines of an extension. If `number_of` returns `None`, it is described as an extension of
// certificates or CRLs (RFC 6960 4.4.5), or as unknown.
fn add_ocsp_extension(lines: &mut Lines, extension: &Extension) {
    let Some(number) = number_of(extension) else {
        add_extension(lines, extension);
        return;
    };
    begin_extension(lines, extension);
    let octets = extension.extn_value.as_bytes();
    if let Some(error) = add_content_of(lines, number, octets) {
        add_undecoded(lines, &[], octets, &error);
    }
    lines.close();
}

/// Adds the lines of extensions, if there are any.
pub fn add_ocsp_extensions(lines: &mut Lines, key: &str, extensions: &Option<Extensions>) {
    if let Some(extensions) = extensions {
        lines.list(key);
        for extension in extensions {
            add_ocsp_extension(lines, extension);
        }
        lines.end_list();
    }
}
