//! X.509 certificates, their extensions, CRLs, CSRs, trust anchors and signed certificate
//! timestamps (RFC 5280, RFC 2986, RFC 5914, RFC 6962): decoding, encoding, comparing and building
//! them.
//!
//! This is the crate to import for certificates. It is the facade of the `x509_cert_*` crates: its
//! modules have the paths of the Rust crate `x509-cert`, and the types that programs use most are
//! also at its root. It adds the builders of CRLs and CSRs. A program that only decodes can use
//! `x509_cert_reading`, which lacks trust anchors and builders. This crate doesn't validate
//! certificate chains; `cert_desk` does.
//!
//! # Examples
//!
//! From `crates/example_subject_of_certificate/src/main.rt`:
//!
//! ```rust
//! use der_core::Result;
//! use std::alloc::Global;
//! use std::io;
//! use std::io::Read;
//! use x509_cert::Name;
//! use x509_cert::certificate::{CertificateInner, Raw};
//!
//! fn main(rt: HostRuntime) -> io::Result<()> {
//!     let mut octets = Vec::new(rt.alloc());
//!     rt.stdin().read_to_end(&mut octets)?;
//!     match described(rt.alloc(), octets.as_slice()) {
//!         Ok(text) => println!(rt; "{text}"),
//!         Err(error) => println!(rt; "refused: {error}"),
//!     }
//! }
//!
//! /// Returns the subject of a certificate, and the subject's common name.
//! fn described(alloc: Global, octets: &[u8]) -> Result<String> {
//!     let certificate = CertificateInner::<Raw>::from_der(alloc, octets)?;
//!     let subject = certificate.tbs_certificate().subject();
//!     lines_of(alloc, subject)
//! }
//!
//! /// Returns a name as text (RFC 4514), and its common name.
//! fn lines_of(alloc: Global, subject: &Name) -> Result<String> {
//!     let common_name = subject.common_name(alloc)?;
//!     let common_name = common_name.as_ref().map_or("none", |name| name.as_str());
//!     Ok(format!(in alloc; "{subject}\n{common_name}")?)
//! }
//! ```
//!
//! # Dependencies
//!
//! The crate may use the `x509_cert_*` crates, the layers below them (`der_types`, `der_core` and
//! `const_oid`), and the digest `sha1`. It must not use the crates above it: `cert_desk*` and
//! `cert_tool*`.
#![tactic(auto)]

pub mod anchor;
pub mod attr;
pub mod builder;
pub mod certificate;
pub mod crl;
mod crl_builder;
pub mod ext;
pub mod laws;
pub mod list_laws;
mod list_writing;
pub mod name;
pub mod request;
mod request_builder;
pub mod serial_number;
pub mod time;

pub use certificate::PkiPath;

// Certificates.
pub use x509_cert_builders::cert_certificates::{
    CertDigest, Certificate, CertificateInner, TbsCertificate, TbsCertificateInner,
};
pub use x509_cert_lists::cert_names::{
    Attribute, AttributeType, AttributeTypeAndValue, AttributeValue, Attributes, DirectoryString,
    DistinguishedName, FromAny, Name, NameIter, RdnSequence, RdnSequenceIter,
    RelativeDistinguishedName,
};
pub use x509_cert_lists::cert_parts::{
    AlgorithmIdentifier, AlgorithmIdentifierRef, Extension, Extensions, ExtensionsOf, Profile, Raw,
    Rfc5280, SerialNumber, SubjectPublicKeyInfo, SubjectPublicKeyInfoRef, Time, Validity, Version,
    filter_extensions, get_extension,
};
pub use x509_cert_lists::types::{
    Any, AnyRef, BitString, DateTime, FlagSet, GeneralizedTime, Ia5String, NamedBits, OctetString,
    SetOfIter, SetOfVec, Uint, UtcTime,
};

// The contents of extensions.
pub use x509_cert_anchors::cert_general_names::{
    AccessDescription, AuthorityKeyIdentifier, DistributionPoint, DistributionPointName,
    EdiPartyName, GeneralName, GeneralNames, GeneralSubtree, GeneralSubtrees, HardwareModuleName,
    IssuingDistributionPoint, NameConstraints, OtherName, ReasonFlags, Reasons,
};
pub use x509_cert_anchors::policy_types::{
    BasicConstraints, CertificatePolicies, CpsUri, DisplayText, InhibitAnyPolicy, NoticeReference,
    PolicyConstraints, PolicyInformation, PolicyMapping, PolicyMappings, PolicyQualifierInfo,
    PrivateKeyUsagePeriod, UserNotice, timestamps,
};
pub use x509_cert_builders::cert_extensions::{
    AuthorityInfoAccessSyntax, BaseCrlNumber, Criticality, CrlDistributionPoints, CrlNumber,
    CrlReason, ExtendedKeyUsage, FreshestCrl, IssuerAltName, KeyUsage, KeyUsages, SubjectAltName,
    SubjectDirectoryAttributes, SubjectInfoAccessSyntax, SubjectKeyIdentifier, ToExtension,
};

// CRLs, CSRs and trust anchors.
pub use x509_cert_anchors::{
    CertPathControls, CertPolicies, CertPolicyFlags, TrustAnchorChoice, TrustAnchorInfo,
};
pub use x509_cert_lists::{
    AsAttribute, CertReq, CertReqInfo, CertificateList, ChallengePassword, ExtensionReq,
    RevokedCert, TbsCertList, TryFromExtensionReq,
};
