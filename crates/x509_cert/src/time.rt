//! The dates of certificates (RFC 5280 4.1.2.5).

pub use x509_cert_lists::cert_parts::{Time, Validity};
