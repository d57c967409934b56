//! The kinds of extensions, by OID.
ghost use Rattle.std.specs.Prelude.{◌≡◌, ◌≢◌, ℕ, ◌∷◌, ◌++◌, [], true, false};
ghost use Rattle.std.specs.Prelude.{IfSome, IfNone};
ghost use Rattle.x509_cert_parts.specs.ExtensionTypes.{id_ce, id_pe};
ghost use Rattle.x509_cert_parts.specs.Oid.Comparing.{owned_eq};
ghost use Rattle.x509_cert_kinds.specs.Kinds.{arcs_of};

use x509_cert_parts::oid::ObjectIdentifier;

/// A kind of extension of certificates (RFC 5280 4.2), of CRLs (5.2) or of CRL entries (5.3).
#[derive(Clone, Copy, Debug, PartialEq, Eq)]
pub enum ExtensionKind {
    /// id-ce 9 (RFC 5280 4.2.1.8).
    SubjectDirectoryAttributes,
    /// id-ce 14 (4.2.1.2).
    SubjectKeyIdentifier,
    /// id-ce 15 (4.2.1.3).
    KeyUsage,
    /// id-ce 16 (RFC 3280 4.2.1.4).
    PrivateKeyUsagePeriod,
    /// id-ce 17 (RFC 5280 4.2.1.6).
    SubjectAltName,
    /// id-ce 18 (4.2.1.7).
    IssuerAltName,
    /// id-ce 19 (4.2.1.9).
    BasicConstraints,
    /// id-ce 20 (5.2.3).
    CrlNumber,
    /// id-ce 21 (5.3.1).
    CrlReason,
    /// id-ce 24 (5.3.2).
    InvalidityDate,
    /// id-ce 27 (5.2.4).
    DeltaCrlIndicator,
    /// id-ce 28 (5.2.5).
    IssuingDistributionPoint,
    /// id-ce 29 (5.3.3).
    CertificateIssuer,
    /// id-ce 30 (4.2.1.10).
    NameConstraints,
    /// id-ce 31 (4.2.1.13).
    CrlDistributionPoints,
    /// id-ce 32 (4.2.1.4).
    CertificatePolicies,
    /// id-ce 33 (4.2.1.5).
    PolicyMappings,
    /// id-ce 35 (4.2.1.1).
    AuthorityKeyIdentifier,
    /// id-ce 36 (4.2.1.11).
    PolicyConstraints,
    /// id-ce 37 (4.2.1.12).
    ExtKeyUsage,
    /// id-ce 46 (4.2.1.15, 5.2.6).
    FreshestCrl,
    /// id-ce 54 (4.2.1.14).
    InhibitAnyPolicy,
    /// id-pe 1 (4.2.2.1, 5.2.7).
    AuthorityInfoAccess,
    /// id-pe 11 (4.2.2.2).
    SubjectInfoAccess,
    /// id-pe 24 (RFC 7633 4.1).
    TlsFeature,
    /// 1.3.6.1.4.1.11129.2.4.2 (RFC 6962 3.3).
    SignedCertificateTimestamps,
}

// The encodings (X.690 8.19) of id-ce (2.5.29), of id-pe (1.3.6.1.5.5.7.1), and of the OID of the
// list of signed certificate timestamps (RFC 6962 3.3).
const ID_CE: [u8; 2] = [0x55, 0x1d];

const ID_PE: [u8; 7] = [0x2b, 6, 1, 5, 5, 7, 1];

const TIMESTAMPS: [u8; 10] = [0x2b, 6, 1, 4, 1, 0xd6, 0x79, 2, 4, 2];

impl ExtensionKind {
    /// Returns the kind of extension that has this OID, or `None` if no kind has it.
    pub fn of(identifier: &ObjectIdentifier<39>) -> Option<ExtensionKind>
        ensures known { IfSome result (λ kind. owned_eq identifier.now (arcs_of kind) ≡ true) }
        ensures unknown { IfNone result ((kind : ExtensionKind)
            → owned_eq identifier.now (arcs_of kind) ≡ false) }
    {
        let octets = identifier.as_bytes();
        if let Some(arc) = arc_below(&ID_CE, octets) {
            return below_ce(arc);
        }
        if let Some(arc) = arc_below(&ID_PE, octets) {
            return below_pe(arc);
        }
        if octets == TIMESTAMPS.as_slice() {
            return Some(ExtensionKind::SignedCertificateTimestamps);
        }
        None
    }
}

// Returns the last byte of `octets` if the bytes before it are `front`.
fn arc_below(front: &[u8], octets: &[u8]) -> Option<u8>
    ensures some { IfSome result (λ arc. octets.now ≡ front.now ++ arc ∷ []) }
    ensures none { IfNone result ((arc : ℕ) → octets.now ≢ front.now ++ arc ∷ []) }
{
    let Some((arc, above)) = octets.split_last() else {
        return None;
    };
    if above != front {
        return None;
    }
    Some(*arc)
}

// Returns the kind of extension whose OID is id-ce with this arc, if any.
fn below_ce(arc: u8) -> Option<ExtensionKind>
    ensures known { IfSome result (λ kind. arcs_of kind ≡ id_ce arc) }
    ensures unknown { IfNone result ((kind : ExtensionKind) → arcs_of kind ≢ id_ce arc) }
{
    match arc {
        9 => Some(ExtensionKind::SubjectDirectoryAttributes),
        14 => Some(ExtensionKind::SubjectKeyIdentifier),
        15 => Some(ExtensionKind::KeyUsage),
        16 => Some(ExtensionKind::PrivateKeyUsagePeriod),
        17 => Some(ExtensionKind::SubjectAltName),
        18 => Some(ExtensionKind::IssuerAltName),
        19 => Some(ExtensionKind::BasicConstraints),
        20 => Some(ExtensionKind::CrlNumber),
        21 => Some(ExtensionKind::CrlReason),
        24 => Some(ExtensionKind::InvalidityDate),
        27 => Some(ExtensionKind::DeltaCrlIndicator),
        28 => Some(ExtensionKind::IssuingDistributionPoint),
        29 => Some(ExtensionKind::CertificateIssuer),
        30 => Some(ExtensionKind::NameConstraints),
        31 => Some(ExtensionKind::CrlDistributionPoints),
        32 => Some(ExtensionKind::CertificatePolicies),
        33 => Some(ExtensionKind::PolicyMappings),
        35 => Some(ExtensionKind::AuthorityKeyIdentifier),
        36 => Some(ExtensionKind::PolicyConstraints),
        37 => Some(ExtensionKind::ExtKeyUsage),
        46 => Some(ExtensionKind::FreshestCrl),
        54 => Some(ExtensionKind::InhibitAnyPolicy),
        _ => None,
    }
}

// Returns the kind of extension whose OID is id-pe with this arc, if any.
fn below_pe(arc: u8) -> Option<ExtensionKind>
    ensures known { IfSome result (λ kind. arcs_of kind ≡ id_pe arc) }
    ensures unknown { IfNone result ((kind : ExtensionKind) → arcs_of kind ≢ id_pe arc) }
{
    match arc {
        1 => Some(ExtensionKind::AuthorityInfoAccess),
        11 => Some(ExtensionKind::SubjectInfoAccess),
        24 => Some(ExtensionKind::TlsFeature),
        _ => None,
    }
}
