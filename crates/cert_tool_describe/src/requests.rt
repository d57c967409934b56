//! Descriptions of CSRs (RFC 2986).
ghost use Rattle.std.specs.Prelude.{◌≢◌, IfNone, IfSome};
ghost use Rattle.x509_cert_lists.specs.Der.ErrorTypes.ErrorKind.TheVariants.{OutOfMemory};
ghost use Rattle.cert_tool_describe.specs.Files.{IsRequest};

use crate::algorithms::add_signature;
use crate::contents::add_extensions;
use crate::described::{DescribeFile, add_file};
use crate::description::add_version;
use crate::keys::{add_digests, add_key, add_key_digests};
use crate::values::{add_name, add_value, list_in, noted};
use cert_tool_lines::Lines;
use cert_tool_lines::cert_parts::{Extension, Extensions, Version};
use cert_tool_lines::types::Any;
use std::alloc::Global;
use x509_cert_lists::cert_names::Attribute;
use x509_cert_lists::der::{Error, ErrorKind};
use x509_cert_lists::oid::AssociatedOid;
use x509_cert_lists::{CertReq, CertReqInfo, ExtensionReq};

// Returns the extensions of an extensionRequest, if `is_wanted` and the value is one.
fn wanted_in(lines: &mut Lines, is_wanted: bool, value: &Any) -> Option<Extensions> {
    if !is_wanted {
        return None;
    }
    let wanted = list_in::<Extension>(lines.alloc, value);
    noted(lines, wanted)
}

// Adds the lines of a value of an attribute.
fn add_attribute_value(lines: &mut Lines, is_wanted: bool, value: &Any) {
    match wanted_in(lines, is_wanted, value) {
        Some(wanted) => {
            lines.comma();
            lines.brace();
            add_extensions(lines, "extensions", wanted.as_slice());
        }
        None => {
            lines.item("");
            lines.brace();
            add_value(lines, value);
        }
    }
    lines.end_brace();
}

// Adds the lines of an attribute.
fn add_attribute(lines: &mut Lines, attribute: &Attribute) {
    lines.entry("attribute");
    lines.members_of(&attribute.oid);
    lines.list("values");
    let is_wanted = attribute.oid == ExtensionReq::associated_oid();
    for value in attribute.values.values.as_slice() {
        add_attribute_value(lines, is_wanted, value);
    }
    lines.end_list();
    lines.close();
}

// Adds the lines of the CertificationRequestInfo.
fn add_info(lines: &mut Lines, info: &CertReqInfo) {
    lines.text_row("", "kind", "request");
    add_version(lines, Version::V1);
    add_name(lines, "subject", "subject", &info.subject);
    add_key(lines, &info.public_key);
    lines.list("attributes");
    for attribute in info.attributes.values.as_slice() {
        add_attribute(lines, attribute);
    }
    lines.end_list();
}

impl DescribeFile for CertReq {
    ghost is_spelled = { IsRequest };

    fn read_file(alloc: Global, octets: &[u8]) -> Result<CertReq, Error> {
        CertReq::try_from_bytes(alloc, octets)
    }

    fn describe_file(&self, lines: &mut Lines, octets: &[u8]) {
        add_info(lines, &self.info);
        add_signature(lines, &self.algorithm, &self.signature);
        add_digests(lines, ["request-sha1", "request-sha256"], octets);
        add_key_digests(lines, &self.info.public_key);
    }
}

/// Adds the description of a CSR, with digests of its encoding and of its key, or returns the error
/// if it can't be decoded.
pub fn add_request(lines: &mut Lines, octets: &[u8]) -> Option<ErrorKind>
    ensures spelled { IfNone result (IsRequest octets.now) }
    ensures refused { IfSome result (λ kind. kind ≢ OutOfMemory → IsRequest octets.now → ⊥) }
{
    add_file::<CertReq>(lines, octets)
}
