//! A root and a server below it, whose signatures are made elsewhere, by another program or by a
//! device.

use crate::outside_key::{OutsideKey, Scheme};
use crate::{builder_of_root, builder_of_server, key_of, line_in_hex, line_of, name_of_root};
use std::alloc::Global;
use std::fs;
use x509_cert::builder::{Builder, BuilderProfile, CertificateBuilder, Error, Subscriber};

/// The words of a line: the way in which the root signs, and the contents of the files.
#[derive(Drop)]
struct Told {
    scheme: Scheme,
    root_key: Vec<u8>,
    server_key: Vec<u8>,
    bits: Option<Vec<u8>>,
}

/// Returns the answer to a question about the root or the server, or `None` for any other question.
pub fn answer(rt: &HostRuntime, line: &str) -> Option<Result<String, Error>> {
    let (what, words) = line.split_once(' ')?;
    let told = told_by(rt, words)?;
    match what {
        "root" => Some(root_line(rt.alloc(), &told)),
        "server" => Some(server_line(rt.alloc(), &told)),
        _ => None,
    }
}

/// Parses the words `KIND ROOT_KEY SERVER_KEY [BITS]` and reads the files.
fn told_by(rt: &HostRuntime, words: &str) -> Option<Told> {
    let (kind, files) = words.split_once(' ')?;
    let (root_key, files) = files.split_once(' ')?;
    let (server_key, bits) = match files.split_once(' ') {
        Some((server_key, bits)) => (server_key, Some(fs::read(rt, bits).ok()?)),
        None => (files, None),
    };
    Some(Told {
        scheme: Scheme::parse(kind)?,
        root_key: fs::read(rt, root_key).ok()?,
        server_key: fs::read(rt, server_key).ok()?,
        bits,
    })
}

/// Returns the line about the root: the bytes that it has to sign, or its certificate. A later run
/// makes the same builder again, so it assembles the part that was signed.
fn root_line(alloc: Global, told: &Told) -> Result<String, Error> {
    let builder = builder_of_root(alloc, told.root_key.as_slice())?;
    made(alloc, builder, told)
}

/// Returns the builder of the server.
fn builder_below(alloc: Global, key: &[u8]) -> Result<CertificateBuilder<Subscriber>, Error> {
    let issuer = name_of_root(alloc)?;
    builder_of_server(alloc, &issuer, 2, key)
}

/// Returns the line about the server: the bytes that the root has to sign, or the certificate.
fn server_line(alloc: Global, told: &Told) -> Result<String, Error> {
    let builder = builder_below(alloc, told.server_key.as_slice())?;
    made(alloc, builder, told)
}

/// Returns the key with this encoding, which signs in this way.
fn key_by(alloc: Global, scheme: Scheme, octets: &[u8]) -> Result<OutsideKey, Error> {
    let info = key_of(alloc, octets)?;
    let key = OutsideKey::new(alloc, scheme, info)?;
    Ok(key)
}

/// Returns the bytes that the root has to sign, or the certificate with the signature from a file.
fn made<P: BuilderProfile + Drop>(
    alloc: Global,
    builder: CertificateBuilder<P>,
    told: &Told,
) -> Result<String, Error> {
    let key = key_by(alloc, told.scheme, told.root_key.as_slice())?;
    match &told.bits {
        Some(bits) => assembled(alloc, builder, &key, bits.as_slice()),
        None => finalized(alloc, builder, &key),
    }
}

/// Returns the bytes that this key has to sign.
fn finalized<P: BuilderProfile + Drop>(
    alloc: Global,
    mut builder: CertificateBuilder<P>,
    key: &OutsideKey,
) -> Result<String, Error> {
    let part = builder.finalize(alloc, key)?;
    line_in_hex(alloc, part.as_slice())
}

/// Returns the certificate with this signature over the bytes that the key had to sign.
fn assembled<P: BuilderProfile + Drop>(
    alloc: Global,
    mut builder: CertificateBuilder<P>,
    key: &OutsideKey,
    bits: &[u8],
) -> Result<String, Error> {
    let _ = builder.finalize(alloc, key)?;
    let signature = key.signature(alloc, bits)?;
    let certificate = builder.assemble(alloc, signature, key)?;
    line_of(alloc, &certificate)
}
