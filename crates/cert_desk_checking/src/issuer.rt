//! The possible issuers of a certificate.

use crate::anchor::Anchor;
use x509_cert_anchors::cert_certificates::CertificateInner;
use x509_cert_anchors::cert_parts::Raw;

/// The possible issuers of a certificate of a chain.
#[derive(Clone, Copy)]
pub(crate) enum Issuer<'a> {
    /// The trust anchors, for the first certificate.
    Anchors(&'a [Anchor]),
    /// The certificate before, for every other one.
    Before(&'a CertificateInner<Raw>),
}
