//! Certificates and their parts.

use crate::refusal::Refusal;
use crate::words::{Word, octets_of};
use cert_desk::{BitString, CertificateInner, Raw, Time};
use std::alloc::{AllocError, Global};
use std::fmt;
use std::fmt::Write;

/// Decodes a certificate and returns its parts without lists in them, in their order.
pub fn answer(alloc: Global, word: &str) -> Result<String, Refusal> {
    let octets = octets_of(alloc, word)?;
    let certificate = CertificateInner::<Raw>::from_der(alloc, octets.as_slice())?;
    parts_of(alloc, &certificate)
}

/// Returns the parts of a certificate.
fn parts_of(alloc: Global, certificate: &CertificateInner<Raw>) -> Result<String, Refusal> {
    let mut text = String::new(alloc);
    write_signed(&mut text, certificate)?;
    write_signature(&mut text, certificate)?;
    Ok(text)
}

/// Writes parts of the TBSCertificate.
fn write_signed(text: &mut String, certificate: &CertificateInner<Raw>) -> Result<(), AllocError> {
    let signed = certificate.tbs_certificate();
    let serial = Word(signed.serial_number().as_bytes());
    let inner = signed.signature().oid;
    write!(text, "ok serial={serial} algorithm={inner}")?;
    let from = seconds(&signed.validity().not_before);
    let until = seconds(&signed.validity().not_after);
    write!(text, " from={from} until={until}")?;
    let key = signed.subject_public_key_info();
    let bits = Bits(&key.subject_public_key);
    write!(text, " key={}:{bits}", key.algorithm.oid)
}

/// Writes the signature and its algorithm.
fn write_signature(
    text: &mut String,
    certificate: &CertificateInner<Raw>,
) -> Result<(), AllocError> {
    let outer = certificate.signature_algorithm().oid;
    let bits = Bits(certificate.signature());
    write!(text, " algorithm={outer} signature={bits}")
}

/// Returns the seconds since 1970-01-01T00:00:00Z.
fn seconds(time: &Time) -> u64 {
    time.to_unix_duration().as_secs()
}

/// The bytes of a bit string, and the number of unused bits in the last one.
#[derive(Clone, Copy)]
struct Bits<'a>(&'a BitString);

impl fmt::Display for Bits<'_> {
    fn fmt<W: fmt::Write>(&self, f: &mut fmt::Formatter<W>) -> fmt::Result {
        write!(f, "{}-{}", Word(self.0.raw_bytes()), self.0.unused_bits())
    }
}
