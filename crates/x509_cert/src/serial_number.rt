//! Serial numbers (RFC 5280 4.1.2.2).

pub use x509_cert_lists::cert_parts::SerialNumber;
