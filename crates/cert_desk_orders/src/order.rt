//! Orders for certificates.

use x509_cert_parts::SubjectPublicKeyInfo;

/// An order for a certificate.
///
/// The first order of a chain is for its root. The last of two or more is for an end entity, and
/// those between are for CAs below the root. A field that doesn't apply to a certificate is
/// ignored.
#[derive(Debug, Drop)]
pub struct Order {
    /// The subject's name (RFC 4514).
    pub name: String,
    /// The bytes of the serial number, the most significant first. There has to be at least one,
    /// and the content of the INTEGER may have at most 20.
    pub serial: Vec<u8>,
    /// The start of the validity period, as `YYYY-MM-DDTHH:MM:SSZ`.
    pub not_before: String,
    /// The end of the validity period, as `YYYY-MM-DDTHH:MM:SSZ`.
    pub not_after: String,
    /// The subject's public key.
    pub key: SubjectPublicKeyInfo,
    /// The path length of a CA below the root: the largest number of CAs between this one and the
    /// last certificate of a certification path. There is no limit if it is `None`.
    pub path_len: Option<u8>,
    /// The DNS names of an end entity (its subjectAltName), in ASCII.
    pub dns: Vec<String>,
    /// Allows a certificate other than the root to be used by clients, too, and not only by
    /// servers.
    pub client_auth: bool,
    /// Allows a CA to sign OCSP responses (RFC 6960).
    pub ocsp: bool,
}
