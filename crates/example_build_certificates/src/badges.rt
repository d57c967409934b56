//! Certificates of badges. One profile builds them, and another one decodes them.

use crate::badge::Badge;
use crate::clearance::Clearance;
use crate::outside_key::{OutsideKey, Scheme};
use crate::short_serials::ShortSerials;
use crate::{ROOT, key_of, line_in_hex};
use std::alloc::Global;
use std::str::FromStr;
use x509_cert::builder::{Builder, CertificateBuilder, Error};
use x509_cert::certificate::CertificateInner;
use x509_cert::{Name, SerialNumber, Time, Validity};

/// Returns the line with the signed bytes of a badge's certificate.
pub fn answer(alloc: Global, level: &str) -> Option<Result<String, Error>> {
    let level: u8 = level.parse().ok()?;
    Some(signed_part(alloc, level))
}

/// Returns the profile of a badge with this clearance.
fn profile(alloc: Global, level: u8) -> Result<Badge, Error> {
    Ok(Badge {
        issuer: Name::from_str(alloc, "CN=Desk,O=Example,C=US")?,
        subject: Name::from_str(alloc, "CN=Ada")?,
        clearance: Clearance(level),
    })
}

/// Returns the builder of its certificate.
fn builder(alloc: Global, level: u8) -> Result<CertificateBuilder<Badge>, Error> {
    let from = Time::from_str("2026-01-01T00:00:00Z")?;
    let until = Time::from_str("2027-01-01T00:00:00Z")?;
    let serial = SerialNumber::new(alloc, &[level])?;
    let validity = Validity::new(from, until);
    let profile = profile(alloc, level)?;
    let builder = CertificateBuilder::new(alloc, profile, serial, validity, key_of(alloc, ROOT)?)?;
    Ok(builder)
}

/// Returns the bytes to be signed.
fn signed_part(alloc: Global, level: u8) -> Result<String, Error> {
    let mut builder = builder(alloc, level)?;
    part_of(alloc, &mut builder)
}

/// Returns the bytes of a builder that the certified key has to sign.
fn part_of(alloc: Global, builder: &mut CertificateBuilder<Badge>) -> Result<String, Error> {
    let key = OutsideKey::new(alloc, Scheme::P256, key_of(alloc, ROOT)?)?;
    let part = builder.finalize(alloc, &key)?;
    line_in_hex(alloc, part.as_slice())
}

/// Returns the line with the serial number of a certificate.
pub fn serial_number(alloc: Global, digits: &str) -> Option<der_core::Result<String>> {
    let octets = hex::decode(alloc, digits).ok()?;
    Some(serial_in(alloc, octets.as_slice()))
}

/// Decodes a certificate and returns its serial number.
fn serial_in(alloc: Global, octets: &[u8]) -> der_core::Result<String> {
    let certificate = CertificateInner::<ShortSerials>::from_der(alloc, octets)?;
    let serial = certificate.tbs_certificate().serial_number();
    Ok(format!(in alloc; "{serial}\n")?)
}
