//! Builders of certificates: the builder and signer traits, the certificate builder, and profiles
//! for CAs, subscribers and devices.
#![tactic(auto)]

mod added_extensions;
mod attribute_types;
mod build_error;
mod builder;
mod builder_profile;
mod certificate_builder;
mod certificate_type;
mod dev_id;
mod domain_validated;
mod identifiers;
mod naming;
mod root;
mod sign_error;
mod signed_part;
mod signer;
mod subordinate;
mod subscriber;
mod tls12_options;
mod tpm_version;
mod types_before;

pub use build_error::Error;
pub use builder::Builder;
pub use builder_profile::BuilderProfile;
pub use certificate_builder::CertificateBuilder;
pub use certificate_type::{CertificateType, all_stay};
pub use dev_id::DevId;
pub use domain_validated::DomainValidated;
pub use identifiers::{tcg_sv_tpm_12, tcg_sv_tpm_20};
pub use naming::{ca_certificate_naming, check_names_encoding};
pub use root::Root;
pub use sign_error::SignError;
pub use signer::Signer;
pub use subordinate::Subordinate;
pub use subscriber::Subscriber;
pub use tls12_options::Tls12Options;
pub use tpm_version::TpmVersion;

/// The items of `x509_cert_certificates` that the crates above use.
pub mod cert_certificates {
    pub use x509_cert_certificates::{
        CertDigest, Certificate, CertificateInner, TbsCertificate, TbsCertificateInner, laws,
    };
}

/// The items of `x509_cert_extensions` that the crates above use.
pub mod cert_extensions {
    pub use x509_cert_extensions::{
        AuthorityInfoAccessSyntax, BaseCrlNumber, Criticality, CrlDistributionPoints, CrlNumber,
        CrlReason, ExtendedKeyUsage, FreshestCrl, IssuerAltName, KeyUsage, KeyUsages,
        SubjectAltName, SubjectDirectoryAttributes, SubjectInfoAccessSyntax, SubjectKeyIdentifier,
        ToExtension, laws,
    };
}

// Items with which and from which the builders build.
