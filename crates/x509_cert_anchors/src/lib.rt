//! Trust anchors (RFC 5914): decoding and encoding them.
#![tactic(auto)]

pub mod anchor;
mod anchor_copies;
mod cert_path_controls;
mod cert_policies;
pub mod laws;
mod trust_anchor_choice;
mod trust_anchor_info;

pub use cert_path_controls::CertPathControls;
pub use cert_policies::{CertPolicies, CertPolicyFlags};
pub use trust_anchor_choice::TrustAnchorChoice;
pub use trust_anchor_info::TrustAnchorInfo;

/// The items of `x509_cert_certificates` that the crates above use.
pub mod cert_certificates {
    pub use x509_cert_certificates::CertificateInner;
}

/// The items of `x509_cert_general_names` that the crates above use.
pub mod cert_general_names {
    pub use x509_cert_general_names::{
        AccessDescription, AuthorityKeyIdentifier, DistributionPoint, DistributionPointName,
        EdiPartyName, GeneralName, GeneralNames, GeneralSubtree, GeneralSubtrees,
        HardwareModuleName, IssuingDistributionPoint, NameConstraints, OtherName, ReasonFlags,
        Reasons,
    };
}

/// The items of `x509_cert_names` that the crates above use.
pub mod cert_names {
    pub use x509_cert_general_names::cert_names::Name;
}

/// The items of `x509_cert_parts` that the crates above use.
pub mod cert_parts {
    pub use x509_cert_policies::cert_parts::{
        AlgorithmIdentifier, Extension, Raw, SubjectPublicKeyInfo,
    };
}

/// The items of `der_core` that the crates above use.
pub mod der {
    pub use der_core::{
        Decode, Encode, Error, ErrorKind, FromDer, InRange, Shaped, SliceReader, StrictSetOf, Tag,
        ToDer, making,
    };
}

/// The items of `const_oid` that the crates above use.
pub mod oid {
    pub use der_core::oid::ObjectIdentifier;
}

/// The items of `x509_cert_policies` that the crates above use.
pub mod policy_types {
    pub use x509_cert_policies::{
        BasicConstraints, CertificatePolicies, CpsUri, DisplayText, InhibitAnyPolicy,
        NoticeReference, PolicyConstraints, PolicyInformation, PolicyMapping, PolicyMappings,
        PolicyQualifierInfo, PrivateKeyUsagePeriod, UserNotice, timestamps,
    };
}

/// The items of `der_types` that the crates above use.
pub mod types {
    pub use x509_cert_policies::types::BitString;
}
