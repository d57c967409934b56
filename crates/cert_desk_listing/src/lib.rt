//! Listings: the contents of certificates, CRLs and CSRs, line by line.
//!
//! The crate depends on `cert_desk_io` for inputs and outputs, and on `x509_cert_certificates` and
//! `x509_cert_lists` for the values.
#![tactic(auto)]

mod file_kind;
mod finding;
mod lines;
mod listing;
mod show_error;
mod showing;

pub use file_kind::FileKind;
pub use listing::{show_certificate, show_list, show_request};
pub use show_error::ShowError;
pub use showing::run_show;

/// The names of `x509_cert_certificates` that the crates above use.
pub mod cert_certificates {
    pub use x509_cert_certificates::{CertDigest, Certificate, CertificateInner};
}

/// The names of `x509_cert_lists` that the crates above use.
pub mod cert_lists {
    pub use x509_cert_lists::{CertReq, CertificateList};
}

/// The names of `x509_cert_names` that the crates above use.
pub mod cert_names {
    pub use x509_cert_lists::cert_names::Name;
}

/// The names of `der_core` that the crates above use.
pub mod der {
    pub use x509_cert_lists::der::{Error, ErrorKind, InRange, ToDer, making};
}

/// The names of `cert_desk_io` that the crates above use.
pub mod desk_io {
    pub use cert_desk_io::{
        DeviceError, ExitStatus, FromRead, HostFiles, Input, MemoryInput, MemoryOutput,
        NamedInputs, OpenError, Output, ReadAllError, ToWrite, answer, complain, read_all,
        tell_device, tell_memory, tell_unopened, words_of, write_all,
    };
}

/// The names of `const_oid` that the crates above use.
pub mod oid {
    pub use x509_cert_lists::oid::ObjectIdentifier;
}
