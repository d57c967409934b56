//! What a file must contain.
ghost use Rattle.std.specs.Prelude.{◌≡◌};
ghost use Rattle.cert_tool_pem.specs.Pem.{is_reversed, wants};

/// What a file must contain.
#[derive(Clone, Copy, Debug, PartialEq, Eq)]
pub enum Wanted {
    /// One or more certificates.
    Certificates,
    /// One or more certificates, whose order is to be reversed.
    LeafFirst,
    /// Trust anchors, as certificates.
    Anchors,
    /// A CRL.
    List,
    /// A CSR.
    Request,
    /// An OCSP request.
    OcspRequest,
    /// An OCSP response.
    OcspResponse,
    /// A CMS message.
    Message,
    /// A private key, which may be encrypted.
    Key,
    /// A timestamp response, which has no form in PEM.
    Timestamp,
    /// Lines of text, which aren't PEM.
    Lines,
}

// Returns whether blocks with this label (RFC 7468 4) are expected. The older labels that RFC 7468
// lists for the same structure are expected, too. RFC 7468 has no labels for OCSP: those are
// OpenSSL's.
pub(crate) fn wants(wanted: Wanted, label: &[u8]) -> bool
    ensures { result ≡ wants wanted label.now }
{
    match wanted {
        Wanted::Certificates | Wanted::LeafFirst | Wanted::Anchors => {
            label == b"CERTIFICATE".as_slice() || label == b"X509 CERTIFICATE".as_slice()
        }
        Wanted::List => label == b"X509 CRL".as_slice(),
        Wanted::Request => {
            label == b"CERTIFICATE REQUEST".as_slice()
                || label == b"NEW CERTIFICATE REQUEST".as_slice()
        }
        Wanted::OcspRequest => label == b"OCSP REQUEST".as_slice(),
        Wanted::OcspResponse => label == b"OCSP RESPONSE".as_slice(),
        Wanted::Message => label == b"CMS".as_slice() || label == b"PKCS7".as_slice(),
        Wanted::Key => {
            label == b"PRIVATE KEY".as_slice() || label == b"ENCRYPTED PRIVATE KEY".as_slice()
        }
        Wanted::Timestamp | Wanted::Lines => false,
    }
}

// Returns whether the order of the values is to be reversed.
pub(crate) fn is_reversed(wanted: Wanted) -> bool
    ensures { result ≡ is_reversed wanted }
{
    matches!(wanted, Wanted::LeafFirst)
}
