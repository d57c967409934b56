//! Describes signers (RFC 5652 5.3).

use crate::attributes::add_attributes;
use cert_tool_describe::tool_lines::Lines;
use cert_tool_describe::{add_algorithm, add_name};
use pki_cms::{CmsVersion, SignerIdentifier, SignerInfo};

/// Adds a line with the version.
pub fn add_version(lines: &mut Lines, version: CmsVersion) {
    lines.count_row("version", "version", u64::from(version as u8));
}

// Adds the lines that identify the certificate of a signer.
fn add_signer_identifier(lines: &mut Lines, id: &SignerIdentifier) {
    match id {
        SignerIdentifier::IssuerAndSerialNumber(id) => {
            add_name(lines, "issuer", "issuer", &id.issuer);
            lines.number_row("serial", "serialNumber", id.serial_number.as_bytes());
        }
        SignerIdentifier::SubjectKeyIdentifier(id) => {
            lines.octets_row("key", "subjectKeyIdentifier", id.as_bytes());
        }
    }
}

/// Adds the lines of a signer.
pub fn add_signer(lines: &mut Lines, signer: &SignerInfo) {
    lines.entry("signer");
    add_version(lines, signer.version);
    add_signer_identifier(lines, &signer.sid);
    add_algorithm(lines, "digest", "digestAlgorithm", &signer.digest_algorithm);
    if let Some(attributes) = &signer.signed_attrs {
        add_attributes(lines, "attribute", "signedAttrs", attributes.as_slice());
    }
    let algorithm = &signer.signature_algorithm;
    add_algorithm(lines, "signature", "signatureAlgorithm", algorithm);
    lines.octets_row("  bits", "signatureValue", signer.signature.as_bytes());
    if let Some(attributes) = &signer.unsigned_attrs {
        let attributes = attributes.as_slice();
        add_attributes(lines, "unsigned attribute", "unsignedAttrs", attributes);
    }
    lines.close();
}
