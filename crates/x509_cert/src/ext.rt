//! Extensions of certificates and CRLs (RFC 5280 4.2, 5.2).

pub mod pkix;

pub use x509_cert_builders::cert_extensions::{Criticality, ToExtension};
pub use x509_cert_lists::cert_parts::{Extension, Extensions};
