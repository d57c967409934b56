//! Identifiers of signers.

ghost use Rattle.std.specs.Prelude.{◌<◌, length, IfSome};

use cert_desk_checking::desk_bundle::Bundle;
use der_core::oid::ObjectIdentifier;
use der_core::{FromDer, Result};
use pki_cms::SignerIdentifier;
use pki_ocsp::ResponderId;
use pki_signers::{
    find_by_issuer_and_serial, find_by_key_hash, find_by_key_identifier, find_by_subject,
};
use std::alloc::Global;

/// The identifier of a signer.
#[derive(Drop)]
pub enum Signer {
    /// The signer of a message (RFC 5652 5.3).
    OfMessage(SignerIdentifier),
    /// The signer of an OCSP response (RFC 6960 4.2.1).
    OfResponse(ResponderId),
}

impl Signer {
    /// Decodes an identifier. The first byte of a ResponderID is that of `[1]` or `[2]`.
    pub fn read(alloc: Global, octets: &[u8]) -> Result<Signer> {
        match octets {
            [0xa1 | 0xa2, ..] => Signer::of_response(alloc, octets),
            _ => Signer::of_message(alloc, octets),
        }
    }

    fn of_message(alloc: Global, octets: &[u8]) -> Result<Signer> {
        let signer = SignerIdentifier::from_der(alloc, octets)?;
        Ok(Signer::OfMessage(signer))
    }

    fn of_response(alloc: Global, octets: &[u8]) -> Result<Signer> {
        let signer = ResponderId::from_der(alloc, octets)?;
        Ok(Signer::OfResponse(signer))
    }

    /// Returns the index of the signer's certificate, or `None` if there is no such certificate.
    pub fn find(&self, certificates: &Bundle) -> Option<usize>
        ensures { IfSome result (λ place. place < length certificates.now.certificates) }
    {
        match self {
            Signer::OfMessage(SignerIdentifier::IssuerAndSerialNumber(id)) => {
                find_by_issuer_and_serial(certificates, &id.issuer, &id.serial_number)
            }
            Signer::OfMessage(SignerIdentifier::SubjectKeyIdentifier(id)) => {
                find_by_key_identifier(certificates, id.as_bytes())
            }
            Signer::OfResponse(ResponderId::ByName(name)) => find_by_subject(certificates, name),
            Signer::OfResponse(ResponderId::ByKey(hash)) => {
                find_by_key_hash(certificates, hash.as_bytes())
            }
        }
    }

    /// Returns the key purpose that the signer's certificate needs (RFC 5280 4.2.1.12):
    /// id-kp-emailProtection, or id-kp-OCSPSigning.
    pub fn purpose(&self) -> ObjectIdentifier<39> {
        match self {
            Signer::OfMessage(_) => {
                ObjectIdentifier::from_bytes_unwrap(&[0x2b, 6, 1, 5, 5, 7, 3, 4])
            }
            Signer::OfResponse(_) => {
                ObjectIdentifier::from_bytes_unwrap(&[0x2b, 6, 1, 5, 5, 7, 3, 9])
            }
        }
    }
}
