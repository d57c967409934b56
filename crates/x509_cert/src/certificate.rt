//! Certificates and their profiles (RFC 5280 4.1).

pub use x509_cert_builders::cert_certificates::{
    CertDigest, Certificate, CertificateInner, TbsCertificate, TbsCertificateInner,
};
pub use x509_cert_lists::cert_parts::{Profile, Raw, Rfc5280, Version};

/// A list of certificates that is meant as a chain, in which each certificate signs the next (X.509
/// 7.7, RFC 6066 10.1). Decoding doesn't check this.
///
/// ```text
/// PkiPath ::= SEQUENCE OF Certificate
/// ```
pub type PkiPath = Vec<Certificate>;
