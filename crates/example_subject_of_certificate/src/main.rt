//! Prints the subject of the certificate on standard input (DER), and its common name.
#![tactic(auto)]

use der_core::Result;
use std::alloc::Global;
use std::io;
use std::io::Read;
use x509_cert::Name;
use x509_cert::certificate::{CertificateInner, Raw};

fn main(rt: HostRuntime) -> io::Result<()> {
    let mut octets = Vec::new(rt.alloc());
    rt.stdin().read_to_end(&mut octets)?;
    match described(rt.alloc(), octets.as_slice()) {
        Ok(text) => println!(rt; "{text}"),
        Err(error) => println!(rt; "refused: {error}"),
    }
}

/// Returns the subject of a certificate, and the subject's common name.
fn described(alloc: Global, octets: &[u8]) -> Result<String> {
    let certificate = CertificateInner::<Raw>::from_der(alloc, octets)?;
    let subject = certificate.tbs_certificate().subject();
    lines_of(alloc, subject)
}

/// Returns a name as text (RFC 4514), and its common name.
fn lines_of(alloc: Global, subject: &Name) -> Result<String> {
    let common_name = subject.common_name(alloc)?;
    let common_name = common_name.as_ref().map_or("none", |name| name.as_str());
    Ok(format!(in alloc; "{subject}\n{common_name}")?)
}
