//! Builds and decodes certificates. Each line of standard input is a question, and each line of
//! standard output is its answer. The answer to `chain` has six lines.
//!
//! | Question | Answer |
//! |---|---|
//! | `serial HEX` | the serial number of a certificate, decoded with a user-defined profile |
//! | `badge LEVEL` | the bytes to be signed of a badge's certificate, with a user-defined profile, in base 16 |
//! | `chain` | a root, a CA below it, a server's certificate, a CRL of the CA, a CSR of the server, and the certificate that is issued for it, in base 16 |
//! | `WHAT KIND ROOT_KEY SERVER_KEY` | the bytes that the root's key has to sign elsewhere, in another program or in a device, in base 16 |
//! | `WHAT KIND ROOT_KEY SERVER_KEY BITS` | the certificate with this signature, in base 16 |
//! | any other line | `?` |
//!
//! `WHAT` is `root` or `server`. `KIND` is the kind of the root's key: `rsa`, `p256`, `ed25519`, or
//! `p256-numbers` if the signature is given by its two numbers. The other words name files with the
//! encodings of both keys, and with the bytes of a signature. The answer is `refused: WHY` if the
//! question fails.
#![tactic(auto)]

mod answering;
mod badge;
mod badges;
mod clearance;
mod digest_signer;
mod outside;
mod outside_key;
mod short_serials;

use answering::issued;
use der_core::{Encode, FromDer, ToDer};
use digest_signer::DigestSigner;
use std::alloc::Global;
use std::fmt::Display;
use std::io;
use std::str::FromStr;
use x509_cert::builder::{
    Builder, BuilderProfile, CertificateBuilder, CertificateType, CrlBuilder, Error,
    RequestBuilder, Root, Subordinate, Subscriber, Tls12Options,
};
use x509_cert::{
    CertReq, Certificate, CertificateList, CrlNumber, GeneralName, Ia5String, Name, RevokedCert,
    SerialNumber, SubjectAltName, SubjectPublicKeyInfo, Time, Validity,
};

/// The encoding of the root's `SubjectPublicKeyInfo`, a key on P-256.
pub(crate) const ROOT: &[u8] =
    b"\x30\x59\x30\x13\x06\x07\x2a\x86\x48\xce\x3d\x02\x01\x06\x08\x2a\x86\x48\xce\x3d\x03\x01\
    \x07\x03\x42\x00\x04\x8a\x10\x7c\x7d\xbd\x6a\x77\x06\xcf\x1e\xfa\x09\x7e\xe9\x97\xa4\x21\
    \x3e\x15\xa8\x4e\xd7\x4f\x5e\x3d\xc8\x62\xc4\xf6\x97\xba\x6f\x6c\x54\x09\x9c\x74\x62\x54\
    \x4a\x81\x3a\xda\xd1\xad\x8e\xbe\x81\xfe\xc8\xc2\x39\x89\x25\x75\xff\x4a\x9a\x65\xd6\x9e\
    \xb1\x0a\xdd";

/// The encoding of the CA's `SubjectPublicKeyInfo`, a key on P-256.
const AUTHORITY: &[u8] =
    b"\x30\x59\x30\x13\x06\x07\x2a\x86\x48\xce\x3d\x02\x01\x06\x08\x2a\x86\x48\xce\x3d\x03\x01\
    \x07\x03\x42\x00\x04\xbc\x85\x32\xa8\xef\x90\xbb\xe3\x14\xcb\x49\xe9\xb6\x9a\xd4\x49\x2e\
    \x44\xd2\x92\xa4\xcb\x2a\x3a\x0d\xb3\x05\x6f\x0d\x12\x16\x5f\x77\x74\x93\x88\xd5\xe2\x2e\
    \x3d\x61\x8c\x5d\xd1\xc6\x83\xd0\x1a\x7c\xdc\x98\x76\x3f\x8d\x0f\xbd\x59\x59\x25\xab\x66\
    \xda\xfe\xd7";

/// The encoding of the server's `SubjectPublicKeyInfo`, a key on P-256.
const SERVER: &[u8] =
    b"\x30\x59\x30\x13\x06\x07\x2a\x86\x48\xce\x3d\x02\x01\x06\x08\x2a\x86\x48\xce\x3d\x03\x01\
    \x07\x03\x42\x00\x04\x31\x23\xa4\x3e\x90\x10\xf3\x81\x63\xb5\x0c\xa4\xdc\xd6\x4e\xc2\x70\
    \xf2\x5c\x15\x2e\x90\xed\x9d\x18\x3e\xa1\x7d\x25\xfc\x71\xbb\xe9\x7b\x36\x85\x4c\xe1\xe7\
    \x3a\x46\x57\x83\x5a\xc8\xc9\x9e\x4a\xa5\x37\xd1\x51\xa7\xa1\x61\xd8\x3f\xd5\x73\xe7\x0e\
    \x8f\x4d\xa9";

fn main(rt: HostRuntime) -> io::Result<()> {
    for line in rt.lines(rt.alloc()) {
        answer(&rt, line?.as_str())?;
    }
    Ok(())
}

/// Prints the answer to a question.
fn answer(rt: &HostRuntime, line: &str) -> io::Result<()> {
    let (what, words) = line.split_once(' ').unwrap_or((line, ""));
    match what {
        "chain" => tell(rt, Some(chain(rt.alloc()))),
        "badge" => tell(rt, badges::answer(rt.alloc(), words)),
        "serial" => tell(rt, badges::serial_number(rt.alloc(), words)),
        _ => tell(rt, outside::answer(rt, line)),
    }
}

/// Prints an answer, or why there is none.
fn tell<E: Display + Drop>(rt: &HostRuntime, answer: Option<Result<String, E>>) -> io::Result<()> {
    match answer {
        Some(Ok(text)) => print!(rt; "{text}"),
        Some(Err(error)) => println!(rt; "refused: {error}"),
        None => println!(rt; "?"),
    }
}

/// Decodes a key.
pub(crate) fn key_of(alloc: Global, octets: &[u8]) -> Result<SubjectPublicKeyInfo, Error> {
    let key = SubjectPublicKeyInfo::from_der(alloc, octets)?;
    Ok(key)
}

/// Returns the validity period of all certificates.
fn validity() -> Result<Validity, Error> {
    let from = Time::from_str("2026-01-01T00:00:00Z")?;
    let until = Time::from_str("2036-01-01T00:00:00Z")?;
    Ok(Validity::new(from, until))
}

/// Returns the builder of a certificate with this profile, serial number and key.
pub(crate) fn builder_for<P: BuilderProfile + Drop>(
    alloc: Global,
    profile: P,
    number: u8,
    key: SubjectPublicKeyInfo,
) -> Result<CertificateBuilder<P>, Error> {
    let serial = SerialNumber::new(alloc, &[number])?;
    let builder = CertificateBuilder::new(alloc, profile, serial, validity()?, key)?;
    Ok(builder)
}

/// Returns the builder of a certificate with this profile, serial number and encoded key.
pub(crate) fn builder_of<P: BuilderProfile + Drop>(
    alloc: Global,
    profile: P,
    number: u8,
    key: &[u8],
) -> Result<CertificateBuilder<P>, Error> {
    let key = key_of(alloc, key)?;
    builder_for(alloc, profile, number, key)
}

/// Returns the name of the root.
pub(crate) fn name_of_root(alloc: Global) -> Result<Name, Error> {
    let subject = Name::from_str(alloc, "CN=Example Root,O=Example,C=US")?;
    Ok(subject)
}

/// Returns the builder of a root (CA/Browser Forum, Baseline Requirements 7.1.2.1) with this key.
/// The root is its own issuer.
pub(crate) fn builder_of_root(
    alloc: Global,
    key: &[u8],
) -> Result<CertificateBuilder<Root>, Error> {
    let profile = Root::new(alloc, false, name_of_root(alloc)?)?;
    builder_of(alloc, profile, 1, key)
}

/// Returns the certificate of a root.
fn root(alloc: Global, signer: &DigestSigner) -> Result<Certificate, Error> {
    let builder = builder_of_root(alloc, ROOT)?;
    builder.build(alloc, signer)
}

/// Returns the certificate of a CA below the root (CA/Browser Forum, Baseline Requirements
/// 7.1.2.6), which allows no further CA below it. The root's signer signs it.
fn authority(
    alloc: Global,
    root: &Certificate,
    signer: &DigestSigner,
) -> Result<Certificate, Error> {
    let issuer = root.tbs_certificate().subject().clone(alloc)?;
    let subject = Name::from_str(alloc, "CN=Example Authority,O=Example,C=US")?;
    let profile = Subordinate {
        issuer,
        subject,
        path_len_constraint: Some(0),
        emits_ocsp_response: false,
        client_auth: true,
    };
    let builder = builder_of(alloc, profile, 2, AUTHORITY)?;
    builder.build(alloc, signer)
}

/// Returns a subjectAltName with the server's domain.
fn domain(alloc: Global) -> Result<SubjectAltName, Error> {
    let name = Ia5String::new(alloc, b"server.example")?;
    let mut names = Vec::new(alloc);
    names.push(GeneralName::DnsName(name))?;
    Ok(SubjectAltName(names))
}

/// Adds the server's domain to the builder of its certificate.
fn add_domain(alloc: Global, builder: &mut CertificateBuilder<Subscriber>) -> Result<(), Error> {
    builder.add_extension(alloc, &domain(alloc)?)?;
    Ok(())
}

/// Returns the profile of a server with this name, below this issuer, for a validated domain.
pub(crate) fn profile_of_server(
    alloc: Global,
    subject: Name,
    issuer: &Name,
) -> Result<Subscriber, Error> {
    let issuer = issuer.clone(alloc)?;
    let certificate_type = CertificateType::domain_validated(alloc, subject, Vec::new(alloc))?;
    Ok(Subscriber {
        certificate_type,
        issuer,
        client_auth: false,
        tls12_options: Tls12Options::default(),
        enable_data_encipherment: false,
    })
}

/// Returns the builder of the certificate of a server with one domain (CA/Browser Forum, Baseline
/// Requirements 7.1.2.7), with this serial number and key. The subjectAltName is added to the
/// builder, and the profile adds the other extensions after it.
pub(crate) fn builder_of_server(
    alloc: Global,
    issuer: &Name,
    number: u8,
    key: &[u8],
) -> Result<CertificateBuilder<Subscriber>, Error> {
    let subject = Name::from_str(alloc, "CN=server.example")?;
    let profile = profile_of_server(alloc, subject, issuer)?;
    let mut builder = builder_of(alloc, profile, number, key)?;
    add_domain(alloc, &mut builder)?;
    Ok(builder)
}

/// Returns the certificate of a server.
fn server(
    alloc: Global,
    authority: &Certificate,
    signer: &DigestSigner,
) -> Result<Certificate, Error> {
    let issuer = authority.tbs_certificate().subject();
    let builder = builder_of_server(alloc, issuer, 3, SERVER)?;
    builder.build(alloc, signer)
}

/// Returns the CRL entry of the server's certificate.
fn entry(alloc: Global) -> Result<RevokedCert, Error> {
    let revocation_date = Time::from_str("2026-01-15T12:00:00Z")?;
    let serial_number = SerialNumber::new(alloc, &[3])?;
    Ok(RevokedCert {
        serial_number,
        revocation_date,
        crl_entry_extensions: None,
    })
}

/// Returns the entries of the CRL, of which there is one.
fn revoked(alloc: Global) -> Result<Vec<RevokedCert>, Error> {
    let mut revoked = Vec::new(alloc);
    revoked.push(entry(alloc)?)?;
    Ok(revoked)
}

/// Returns the first CRL of a CA, which revokes the server's certificate (RFC 5280 5.1).
fn list(
    alloc: Global,
    authority: &Certificate,
    signer: &DigestSigner,
) -> Result<CertificateList, Error> {
    let this_update = Time::from_str("2026-02-01T00:00:00Z")?;
    let next_update = Time::from_str("2026-03-01T00:00:00Z")?;
    let number = CrlNumber::try_from_u128(alloc, 1)?;
    let mut builder = CrlBuilder::new_with_this_update(alloc, authority, number, this_update)?;
    builder = builder.with_next_update(Some(next_update));
    builder.with_certificates(alloc, revoked(alloc)?.into_iter())?;
    let list = builder.build(alloc, signer)?;
    Ok(list)
}

/// Returns a CSR of a server for a certificate with one domain (RFC 2986).
fn request(alloc: Global, signer: &DigestSigner) -> Result<CertReq, Error> {
    let subject = Name::from_str(alloc, "CN=server.example")?;
    let mut builder = RequestBuilder::new(alloc, subject)?;
    builder.add_extension(alloc, &domain(alloc)?)?;
    builder.build(alloc, signer)
}

/// Returns the CSR of the server, which its own key signs.
fn request_of_server(alloc: Global) -> Result<CertReq, Error> {
    let signer = signer_of(alloc, SERVER)?;
    request(alloc, &signer)
}

/// Returns a signer with this encoded key.
fn signer_of(alloc: Global, key: &[u8]) -> Result<DigestSigner, Error> {
    let key = key_of(alloc, key)?;
    let signer = DigestSigner::new(key)?;
    Ok(signer)
}

/// Returns bytes as a line in base 16.
pub(crate) fn line_in_hex(alloc: Global, octets: &[u8]) -> Result<String, Error> {
    let mut line = hex::encode(alloc, octets)?;
    line.push_str("\n")?;
    Ok(line)
}

/// Returns the encoding of a value as a line in base 16.
pub(crate) fn line_of<T: Encode>(alloc: Global, made: &T) -> Result<String, Error> {
    let octets = made.to_der(alloc)?;
    line_in_hex(alloc, octets.as_slice())
}

/// Appends the line of a value.
fn add_line<T: Encode>(alloc: Global, text: &mut String, made: &T) -> Result<(), Error> {
    let line = line_of(alloc, made)?;
    text.push_str(line.as_str())?;
    Ok(())
}

/// Appends a certificate.
fn add_certificate(
    alloc: Global,
    text: &mut String,
    certificate: &Certificate,
) -> Result<(), Error> {
    add_line(alloc, text, certificate)
}

/// Appends the certificate of a result.
fn add_made(
    alloc: Global,
    text: &mut String,
    made: Result<Certificate, Error>,
) -> Result<(), Error> {
    add_certificate(alloc, text, &made?)
}

/// Appends the root, and everything below it.
fn add_root(alloc: Global, text: &mut String) -> Result<(), Error> {
    let signer = signer_of(alloc, ROOT)?;
    add_root_of(alloc, text, &signer)
}

/// Appends the root of a signer, and everything below it.
fn add_root_of(alloc: Global, text: &mut String, signer: &DigestSigner) -> Result<(), Error> {
    let root = root(alloc, signer)?;
    add_chain(alloc, text, &root, signer)
}

/// Appends a root, the CA below it, and everything below that.
fn add_chain(
    alloc: Global,
    text: &mut String,
    root: &Certificate,
    signer: &DigestSigner,
) -> Result<(), Error> {
    add_certificate(alloc, text, root)?;
    let authority = authority(alloc, root, signer)?;
    add_authority(alloc, text, &authority)
}

/// Appends a CA, and everything that it signs.
fn add_authority(alloc: Global, text: &mut String, authority: &Certificate) -> Result<(), Error> {
    add_certificate(alloc, text, authority)?;
    let signer = signer_of(alloc, AUTHORITY)?;
    add_signed(alloc, text, authority, &signer)
}

/// Appends the server's certificate that a CA signs, its CRL, and the certificate for a CSR.
fn add_signed(
    alloc: Global,
    text: &mut String,
    authority: &Certificate,
    signer: &DigestSigner,
) -> Result<(), Error> {
    add_made(alloc, text, server(alloc, authority, signer))?;
    add_list(alloc, text, authority, signer)?;
    add_request(alloc, text, authority, signer)
}

/// Appends a CA's CRL.
fn add_list(
    alloc: Global,
    text: &mut String,
    authority: &Certificate,
    signer: &DigestSigner,
) -> Result<(), Error> {
    let list = list(alloc, authority, signer)?;
    add_line(alloc, text, &list)
}

/// Appends the server's CSR, and the certificate that a CA issues for it.
fn add_request(
    alloc: Global,
    text: &mut String,
    authority: &Certificate,
    signer: &DigestSigner,
) -> Result<(), Error> {
    let request = request_of_server(alloc)?;
    add_line(alloc, text, &request)?;
    add_made(alloc, text, issued(alloc, &request, authority, signer))
}

/// Returns all of them, one on each line.
fn chain(alloc: Global) -> Result<String, Error> {
    let mut text = String::new(alloc);
    add_root(alloc, &mut text)?;
    Ok(text)
}
