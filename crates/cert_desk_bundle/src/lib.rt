//! Reads a certificate chain that arrives in pieces. The crate decodes the certificates with which
//! an input begins, and reports the first error after them.
//!
//! The crate depends on `x509_cert_certificates` for certificates and on `cert_desk_io` for inputs.
#![tactic(auto)]

mod bundle;
mod bundle_error;
mod entry;
mod fault_kind;
mod located;
mod malformed;
mod rest;
mod scan;
mod standing;

pub use bundle::Bundle;
pub use bundle_error::{BundleError, ReadError};
pub use entry::Entry;
pub use fault_kind::FaultKind;
pub use malformed::first_fault;
pub use standing::Standing;

/// The names of `x509_cert_certificates` that the crates above use.
pub mod cert_certificates {
    pub use x509_cert_certificates::{CertDigest, CertificateInner};
}

/// The names of `x509_cert_names` that the crates above use.
pub mod cert_names {
    pub use x509_cert_certificates::cert_names::Name;
}

/// The names of `x509_cert_parts` that the crates above use.
pub mod cert_parts {
    pub use x509_cert_certificates::cert_parts::{
        AlgorithmIdentifier, Extension, Raw, SubjectPublicKeyInfo,
    };
}

/// The names of `der_core` that the crates above use.
pub mod der {
    pub use x509_cert_certificates::der::{
        Decode, Error, Explicit, Implicit, OneOf8, SliceReader, making,
    };
}

/// The names of `cert_desk_io` that the crates above use.
pub mod desk_io {
    pub use cert_desk_io::{
        DeviceError, ExitStatus, FrameError, FromRead, HostFiles, Input, MemoryInput, NamedInputs,
        OpenError, Output, ReadAllError, ToWrite, answer, append_frame, complain, read_all,
        read_frame, split_frame, tell_device, tell_memory, words_of, write_all,
    };
}

/// The names of `const_oid` that the crates above use.
pub mod oid {
    pub use x509_cert_certificates::oid::ObjectIdentifier;
}

/// The names of `der_types` that the crates above use.
pub mod types {
    pub use x509_cert_certificates::types::{BitString, FlagSet, Ia5StringRef, OctetStringRef};
}
