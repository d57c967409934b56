//! Texts that are written line by line, or as one JSON document, and the names of well-known object
//! identifiers.
#![tactic(auto)]

mod known_names;
mod lines;

pub use known_names::known_name;
pub use lines::Lines;

/// The items of `x509_cert_parts` that the crates above use.
pub mod cert_parts {
    pub use x509_cert_parts::{
        AlgorithmIdentifier, Extension, Extensions, Raw, SubjectPublicKeyInfo, Time, Validity,
        Version,
    };
}

/// The items of `der_types` that the crates above use.
pub mod types {
    pub use x509_cert_parts::types::{
        Any, BitString, DateTime, FlagSet, GeneralizedTime, NamedBits, OctetString, Uint,
    };
}
