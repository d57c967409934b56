//! A certificate of a chain.

use x509_cert_certificates::CertificateInner;
use x509_cert_certificates::cert_parts::Raw;

/// A reference to a certificate of a chain. Nothing is copied.
#[derive(Clone, Copy, Debug)]
pub struct Entry<'a> {
    /// The offset of the certificate in the input.
    pub offset: u64,
    /// The bytes of the certificate.
    pub octets: &'a [u8],
    /// The bytes of its TBSCertificate, a part of the bytes above.
    pub signed: &'a [u8],
    /// The certificate.
    pub certificate: &'a CertificateInner<Raw>,
}
