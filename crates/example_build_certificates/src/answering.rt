//! Issues certificates for CSRs.

use crate::digest_signer::DigestSigner;
use crate::{builder_for, profile_of_server};
use const_oid::AssociatedOid;
use std::alloc::Global;
use x509_cert::builder::{Builder, CertificateBuilder, Error, Subscriber};
use x509_cert::{
    Any, Attribute, CertReq, Certificate, Extension, ExtensionReq, Name, SubjectAltName,
};

/// Returns the subjectAltName among the extensions that a value of an extensionRequest attribute
/// requests.
fn names_in(alloc: Global, value: &Any) -> Result<Option<Extension>, Error> {
    let asked: ExtensionReq = value.decode_as(alloc)?;
    for extension in asked.0.as_slice() {
        if extension.extn_id == SubjectAltName::associated_oid() {
            let names = extension.clone(alloc)?;
            return Ok(Some(names));
        }
    }
    Ok(None)
}

/// Returns the subjectAltName that a CSR requests, if it does.
fn names_asked(alloc: Global, attributes: &[Attribute]) -> Result<Option<Extension>, Error> {
    for attribute in attributes {
        let [value] = attribute.values.values.as_slice() else {
            continue;
        };
        if attribute.oid == ExtensionReq::associated_oid() {
            return names_in(alloc, value);
        }
    }
    Ok(None)
}

/// Adds the subjectAltName that a CSR requests, if it does.
fn add_names(
    alloc: Global,
    builder: &mut CertificateBuilder<Subscriber>,
    request: &CertReq,
) -> Result<(), Error> {
    if let Some(names) = names_asked(alloc, request.info.attributes.values.as_slice())? {
        builder.add_extension(alloc, names)?;
    }
    Ok(())
}

/// Returns the builder of the certificate of a server for its CSR, below this issuer.
fn builder_asked(
    alloc: Global,
    request: &CertReq,
    issuer: &Name,
) -> Result<CertificateBuilder<Subscriber>, Error> {
    let profile = profile_of_server(alloc, request.info.subject.clone(alloc)?, issuer)?;
    let mut builder = builder_for(alloc, profile, 4, request.info.public_key.clone(alloc)?)?;
    add_names(alloc, &mut builder, request)?;
    Ok(builder)
}

/// Issues the certificate of a server for its CSR (RFC 2986), below a CA. It has the CSR's subject
/// and key, and of the requested extensions only the subjectAltName. The profile adds all others.
///
/// The caller has verified that the CSR is signed with its own key, and that the names are the
/// server's.
pub fn issued(
    alloc: Global,
    request: &CertReq,
    authority: &Certificate,
    signer: &DigestSigner,
) -> Result<Certificate, Error> {
    let builder = builder_asked(alloc, request, authority.tbs_certificate().subject())?;
    let certificate = builder.build(alloc, signer)?;
    Ok(certificate)
}
