//! The parts of certificates (RFC 5280 4.1): algorithms, keys, versions, extensions, serial numbers
//! and dates, and the profiles that determine what is accepted and how it is encoded.
#![tactic(auto)]

mod algorithm_identifier;
mod algorithm_identifier_ref;
mod extension;
mod extension_search;
mod extensions_of;
mod fronts;
pub mod laws;
mod parts_in_range;
mod profile;
mod serial_number;
mod subject_public_key_info;
mod subject_public_key_info_ref;
mod time;
mod validity;
mod version;

pub use algorithm_identifier::AlgorithmIdentifier;
pub use algorithm_identifier_ref::AlgorithmIdentifierRef;
pub use extension::{Extension, Extensions};
pub use extension_search::get_extension;
pub use extensions_of::{ExtensionsOf, filter_extensions};
pub use profile::{Profile, Raw, Rfc5280};
pub use serial_number::SerialNumber;
pub use subject_public_key_info::SubjectPublicKeyInfo;
pub use subject_public_key_info_ref::SubjectPublicKeyInfoRef;
pub use time::Time;
pub use validity::Validity;
pub use version::Version;

/// The items of `der_core` that the crates above use.
pub mod der {
    pub use der_core::{ErrorKind, FromDer, ToDer, making};
}

/// The items of `const_oid` that the crates above use.
pub mod oid {
    pub use der_core::oid::ObjectIdentifier;
}

/// The items of `der_types` that the crates above use.
pub mod types {
    pub use der_types::{
        Any, AnyRef, BitString, DateTime, FlagSet, GeneralizedTime, Ia5String, Ia5StringRef,
        NamedBits, OctetString, OctetStringRef, SetOfIter, SetOfVec, Uint, UtcTime,
    };
}
