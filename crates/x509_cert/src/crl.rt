//! CRLs (RFC 5280 5.1).

pub use x509_cert_lists::{CertificateList, RevokedCert, TbsCertList};
