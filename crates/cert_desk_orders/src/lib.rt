//! Orders for certificates, and the parser of orders files.
//!
//! The crate depends on `x509_cert_parts` for public keys.
#![tactic(auto)]

mod faults;
mod line;
mod line_values;
mod order;
mod ordering;
mod orders_error;
mod orders_file;
mod reason_lines;
mod reasons;
mod wrong_lines;

pub use line::Line;
pub use order::Order;
pub use orders_error::OrdersError;
pub use orders_file::orders_in;
pub use reason_lines::reason_line;
pub use reasons::{line_at, wrong_line};
pub use wrong_lines::{Why, WrongLine};

/// The names of `x509_cert_parts` that the crates above use.
pub mod cert_parts {
    pub use x509_cert_parts::{
        AlgorithmIdentifier, Raw, SerialNumber, SubjectPublicKeyInfo, Time, Validity,
    };
}

/// The names of `der_core` that the crates above use.
pub mod der {
    pub use x509_cert_parts::der::{FromDer, ToDer, making};
}

/// The names of `const_oid` that the crates above use.
pub mod oid {
    pub use x509_cert_parts::oid::ObjectIdentifier;
}

/// The names of `der_types` that the crates above use.
pub mod types {
    pub use x509_cert_parts::types::{BitString, Ia5String};
}
