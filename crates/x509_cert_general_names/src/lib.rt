//! General names, and the extensions and types that contain them: distribution points, name
//! constraints, access descriptions and authority key identifiers (RFC 5280 4.2, 5.2).
#![tactic(auto)]

mod access_description;
mod authority_key_identifier;
mod distribution_point;
mod distribution_point_name;
mod edi_party_name;
mod extension_identifiers;
mod general_name;
mod general_name_copies;
mod general_subtree;
mod hardware_module_name;
mod issuing_distribution_point;
mod name_constraints;
mod other_name;
mod reason_flags;

pub use access_description::AccessDescription;
pub use authority_key_identifier::{AuthorityKeyIdentifier, key_identifier_of};
pub use distribution_point::DistributionPoint;
pub use distribution_point_name::DistributionPointName;
pub use edi_party_name::EdiPartyName;
pub use general_name::{GeneralName, GeneralNames};
pub use general_subtree::{GeneralSubtree, GeneralSubtrees};
pub use hardware_module_name::HardwareModuleName;
pub use issuing_distribution_point::IssuingDistributionPoint;
pub use name_constraints::NameConstraints;
pub use other_name::OtherName;
pub use reason_flags::{ReasonFlags, Reasons};

/// The items of `x509_cert_names` that the crates above use.
pub mod cert_names {
    pub use x509_cert_names::{Attribute, Name};
}
