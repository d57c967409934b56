//! The contents of extensions of certificates, CRLs and CRL entries (RFC 5280 4.2, 5.2, 5.3), and
//! the traits with which extensions are added to certificates and CRLs.
#![tactic(auto)]

mod authority_info_access;
mod base_crl_number;
mod criticality;
mod crl_distribution_points;
mod crl_number;
mod crl_reason;
mod extended_key_usage;
mod extension_copies;
mod extension_identifiers;
mod freshest_crl;
mod issuer_alt_name;
mod key_usage;
pub mod laws;
mod subject_alt_name;
mod subject_directory_attributes;
mod subject_info_access;
mod subject_key_identifier;
mod to_extension;

pub use authority_info_access::AuthorityInfoAccessSyntax;
pub use base_crl_number::BaseCrlNumber;
pub use criticality::Criticality;
pub use crl_distribution_points::CrlDistributionPoints;
pub use crl_number::CrlNumber;
pub use crl_reason::CrlReason;
pub use extended_key_usage::ExtendedKeyUsage;
pub use freshest_crl::FreshestCrl;
pub use issuer_alt_name::IssuerAltName;
pub use key_usage::{KeyUsage, KeyUsages};
pub use subject_alt_name::SubjectAltName;
pub use subject_directory_attributes::SubjectDirectoryAttributes;
pub use subject_info_access::SubjectInfoAccessSyntax;
pub use subject_key_identifier::SubjectKeyIdentifier;
pub use to_extension::ToExtension;

/// The items of `x509_cert_general_names` that the crates above use.
pub mod cert_general_names {
    pub use x509_cert_general_names::{
        AccessDescription, AuthorityKeyIdentifier, DistributionPoint, DistributionPointName,
        EdiPartyName, GeneralName, GeneralNames, GeneralSubtree, GeneralSubtrees,
        HardwareModuleName, IssuingDistributionPoint, NameConstraints, OtherName, ReasonFlags,
        Reasons,
    };
}

/// The items of `x509_cert_policies` that the crates above use.
pub mod policy_types {
    pub use x509_cert_policies::{
        BasicConstraints, CertificatePolicies, CpsUri, DisplayText, InhibitAnyPolicy,
        NoticeReference, PolicyConstraints, PolicyInformation, PolicyMapping, PolicyMappings,
        PolicyQualifierInfo, PrivateKeyUsagePeriod, UserNotice, timestamps,
    };
}
