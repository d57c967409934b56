//! Certificate policies, basic constraints, policy constraints, key usage periods and notices (RFC
//! 5280 4.2; RFC 3280 4.2.1.4), and signed certificate timestamps (RFC 6962).
#![tactic(auto)]

mod basic_constraints;
mod certificate_policies;
mod digitally_signed;
mod display_text;
mod extension_identifiers;
mod hash_algorithm;
mod inhibit_any_policy;
pub mod laws;
mod log_id;
mod notice_reference;
mod policy_constraints;
mod policy_copies;
mod policy_information;
mod policy_mapping;
mod policy_mappings;
mod policy_qualifier_info;
mod private_key_usage_period;
mod serialized_sct;
mod signature_algorithm;
mod signature_and_hash_algorithm;
mod signed_certificate_timestamp;
mod signed_certificate_timestamp_list;
mod timestamp_error;
mod tls_error;
mod tls_value;
mod user_notice;
mod vectors;
mod version;

pub use basic_constraints::BasicConstraints;
pub use certificate_policies::CertificatePolicies;
pub use display_text::DisplayText;
pub use inhibit_any_policy::InhibitAnyPolicy;
pub use notice_reference::NoticeReference;
pub use policy_constraints::PolicyConstraints;
pub use policy_information::PolicyInformation;
pub use policy_mapping::PolicyMapping;
pub use policy_mappings::PolicyMappings;
pub use policy_qualifier_info::{CpsUri, PolicyQualifierInfo};
pub use private_key_usage_period::PrivateKeyUsagePeriod;
pub use user_notice::UserNotice;

/// The items of `x509_cert_parts` that the crates above use.
pub mod cert_parts {
    pub use x509_cert_parts::{
        AlgorithmIdentifier, Extension, Extensions, Profile, Raw, Rfc5280, SubjectPublicKeyInfo,
        SubjectPublicKeyInfoRef,
    };
}

/// The items of `der_core` that the crates above use.
pub mod der {
    pub use der_core::{Encode, Error, ErrorKind, Leaf, Tag, ToDer, describing, making};
}

/// The items of `const_oid` that the crates above use.
pub mod oid {
    pub use der_core::oid::{AssociatedOid, ObjectIdentifier};
}

/// The items of `der_types` that the crates above use.
pub mod types {
    pub use x509_cert_parts::types::{BitString, FlagSet, NamedBits, OctetString, Uint};
}

/// Signed certificate timestamps (RFC 6962 3.2, 3.3) in the presentation language of TLS (RFC 5246
/// 4).
pub mod timestamps {
    pub use crate::digitally_signed::DigitallySigned;
    pub use crate::hash_algorithm::HashAlgorithm;
    pub use crate::laws;
    pub use crate::log_id::LogId;
    pub use crate::serialized_sct::SerializedSct;
    pub use crate::signature_algorithm::SignatureAlgorithm;
    pub use crate::signature_and_hash_algorithm::SignatureAndHashAlgorithm;
    pub use crate::signed_certificate_timestamp::SignedCertificateTimestamp;
    pub use crate::signed_certificate_timestamp_list::SignedCertificateTimestampList;
    pub use crate::timestamp_error::Error;
    pub use crate::tls_error::TlsError;
    pub use crate::tls_value::TlsValue;
    pub use crate::version::Version;
}
