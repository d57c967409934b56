//! Prints three facts about the certificate on standard input (DER): its DNS names, whether its
//! keyUsage allows its key to sign certificates, and its path length.
#![tactic(auto)]

use der_core::Result;
use std::alloc::Global;
use std::io;
use std::io::Read;
use x509_cert::certificate::{CertificateInner, Raw, TbsCertificateInner};
use x509_cert::ext::pkix::name::GeneralName;
use x509_cert::ext::pkix::{BasicConstraints, KeyUsage, SubjectAltName};

fn main(rt: HostRuntime) -> io::Result<()> {
    let mut octets = Vec::new(rt.alloc());
    rt.stdin().read_to_end(&mut octets)?;
    match described(rt.alloc(), octets.as_slice()) {
        Ok(text) => println!(rt; "{text}"),
        Err(error) => println!(rt; "refused: {error}"),
    }
}

/// Returns the facts about a certificate, one on each line.
fn described(alloc: Global, octets: &[u8]) -> Result<String> {
    let certificate = CertificateInner::<Raw>::from_der(alloc, octets)?;
    lines_of(alloc, certificate.tbs_certificate())
}

/// Returns the facts about the extensions of a TBSCertificate.
fn lines_of(alloc: Global, certificate: &TbsCertificateInner<Raw>) -> Result<String> {
    let names = dns_names(alloc, certificate)?;
    let is_signer = signs_certificates(alloc, certificate)?;
    let path_len = path_len(alloc, certificate)?;
    Ok(format!(in alloc;
        "names:{names}\nsigns certificates: {is_signer}\npath length: {path_len:?}"
    )?)
}

/// Returns the DNS names of the subject, with a space before each.
fn dns_names(alloc: Global, certificate: &TbsCertificateInner<Raw>) -> Result<String> {
    let mut text = String::new(alloc);
    if let Some((_, names)) = certificate.get_extension::<SubjectAltName>(alloc)? {
        for name in &names.0 {
            if let GeneralName::DnsName(name) = name {
                text.push(' ')?;
                text.push_str(name.as_str())?;
            }
        }
    }
    Ok(text)
}

/// Returns whether the keyUsage allows the key to sign certificates, which is so if there is none.
/// This is no test for a CA: a CA must also have basicConstraints with `ca`.
fn signs_certificates(alloc: Global, certificate: &TbsCertificateInner<Raw>) -> Result<bool> {
    let usage = certificate.get_extension::<KeyUsage>(alloc)?;
    Ok(usage.map_or(true, |(_, usage)| usage.key_cert_sign()))
}

/// Returns the largest number of CA certificates that may be below this one, if there is a limit.
fn path_len(alloc: Global, certificate: &TbsCertificateInner<Raw>) -> Result<Option<u8>> {
    match certificate.get_extension::<BasicConstraints>(alloc)? {
        Some((_, constraints)) => Ok(constraints.path_len_constraint),
        None => Ok(None),
    }
}
