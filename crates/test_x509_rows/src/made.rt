//! Answers questions about values that are made of other values.

use crate::name_texts::{spelled, text_in};
use crate::refusals::Refusal;
use crate::shown::{
    described, described_in, list_in, octets_of, read, serial_written_in, shown, written_in,
};
use crate::validities::validity_of;
use sha1::Sha1;
use std::alloc::Global;
use std::net::IpAddr;
use x509_cert::{
    AlgorithmIdentifierRef, AsAttribute, Attribute, AuthorityKeyIdentifier, CertificateInner,
    ChallengePassword, CrlNumber, Extension, ExtensionReq, GeneralName, HardwareModuleName,
    OtherName, Profile, Raw, Rfc5280, SerialNumber, SubjectKeyIdentifier, SubjectPublicKeyInfo,
    SubjectPublicKeyInfoRef, Time, TryFromExtensionReq,
};

/// Returns the encoding of the value that a type makes of a text or of bytes.
pub fn made_of(alloc: Global, kind: &str, text: &str) -> Result<String, Refusal> {
    match kind {
        "Time" => written_in(alloc, text.parse::<Time>()),
        "GeneralName" => address_of(alloc, text),
        "CrlNumber" => number_of(alloc, text),
        "SerialNumber/u64" => serial_of(alloc, text),
        "Validity" => validity_of(alloc, text),
        "Name" | "RdnSequence" | "RelativeDistinguishedName" | "AttributeTypeAndValue" => {
            spelled(alloc, kind, text)
        }
        _ => {
            let octets = octets_of(alloc, text)?;
            made_of_octets(alloc, kind, octets.as_slice())
        }
    }
}

/// Returns the encoding of the general name of an address.
fn address_of(alloc: Global, text: &str) -> Result<String, Refusal> {
    let address: IpAddr = text.parse().map_err(|_| Refusal::Unread)?;
    written_in(alloc, GeneralName::from_ip(alloc, address))
}

/// Returns the encoding of the number of a CRL.
fn number_of(alloc: Global, text: &str) -> Result<String, Refusal> {
    let number: u128 = text.parse()?;
    described_in(alloc, CrlNumber::try_from_u128(alloc, number))
}

/// Returns the encoding of the serial number with a number.
fn serial_of(alloc: Global, text: &str) -> Result<String, Refusal> {
    let number: u64 = text.parse()?;
    serial_written_in(alloc, SerialNumber::<Rfc5280>::from_u64(alloc, number))
}

/// Returns the encoding of the value that a type makes of the bytes of a number, or of another
/// encoded value.
fn made_of_octets(alloc: Global, kind: &str, octets: &[u8]) -> Result<String, Refusal> {
    match kind {
        "SerialNumber" => serial_written_in(alloc, SerialNumber::<Rfc5280>::new(alloc, octets)),
        "SubjectKeyIdentifier" | "AuthorityKeyIdentifier" => identifier_of(alloc, kind, octets),
        "OtherName" => other_name_of(alloc, octets),
        "HardwareModuleName" => module_of(alloc, octets),
        "ChallengePassword" => password_of(alloc, octets),
        "Attribute" => attribute_of(alloc, octets),
        _ => Err(Refusal::Unread),
    }
}

/// Returns the encoding of the identifier of a key.
fn identifier_of(alloc: Global, kind: &str, octets: &[u8]) -> Result<String, Refusal> {
    let key: SubjectPublicKeyInfo = read(alloc, octets)?;
    let algorithm: AlgorithmIdentifierRef<'_> = key.algorithm.owned_to_ref();
    let lent: SubjectPublicKeyInfoRef<'_> = SubjectPublicKeyInfoRef {
        algorithm,
        subject_public_key: key.subject_public_key.owned_to_ref(),
    };
    match kind {
        "SubjectKeyIdentifier" => {
            described_in(alloc, SubjectKeyIdentifier::try_from_key(alloc, &lent))
        }
        _ => described_in(alloc, AuthorityKeyIdentifier::try_from_key(alloc, &lent)),
    }
}

/// Returns the encoding of the name of a module.
fn other_name_of(alloc: Global, octets: &[u8]) -> Result<String, Refusal> {
    let module: HardwareModuleName = read(alloc, octets)?;
    described_in(alloc, OtherName::try_from(alloc, &module))
}

/// Returns the encoding of the module that a name contains, if it contains one.
fn module_of(alloc: Global, octets: &[u8]) -> Result<String, Refusal> {
    let name: OtherName = read(alloc, octets)?;
    match HardwareModuleName::from_other_name(alloc, &name)? {
        Some(module) => described(alloc, &module),
        None => shown(alloc, "none"),
    }
}

/// Returns the encoding of the attribute of a password.
fn password_of(alloc: Global, octets: &[u8]) -> Result<String, Refusal> {
    let password = ChallengePassword(text_in(alloc, octets)?);
    described_in(alloc, password.to_attribute(alloc))
}

/// Returns the encoding of the attribute of requested extensions.
fn attribute_of(alloc: Global, octets: &[u8]) -> Result<String, Refusal> {
    let request = ExtensionReq(list_in::<Extension>(alloc, octets)?);
    described_in(alloc, Attribute::try_from_extension_req(alloc, request))
}

/// Returns the SHA-1 digest of a certificate.
pub fn digest_of(alloc: Global, kind: &str, octets: &str) -> Result<String, Refusal> {
    let octets = octets_of(alloc, octets)?;
    match kind {
        "Certificate" => digest_by::<Raw>(alloc, octets.as_slice()),
        "Certificate/Rfc5280" => digest_by::<Rfc5280>(alloc, octets.as_slice()),
        _ => Err(Refusal::Unread),
    }
}

/// Decodes a certificate with a profile, and returns its digest.
fn digest_by<P: Profile>(alloc: Global, octets: &[u8]) -> Result<String, Refusal> {
    let certificate = CertificateInner::<P>::from_der(alloc, octets)?;
    digested(alloc, &certificate)
}

/// Returns the digest of a certificate.
fn digested<P: Profile>(
    alloc: Global,
    certificate: &CertificateInner<P>,
) -> Result<String, Refusal> {
    let digest = certificate.hash::<Sha1>(alloc)?;
    Ok(hex::encode(alloc, digest)?)
}
