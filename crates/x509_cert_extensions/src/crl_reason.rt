ghost use Rattle.std.specs.Prelude.{◌≡◌, refl};
ghost use Rattle.x509_cert_extensions.specs.Reasons.{reason_number, reason_numbers};

use x509_cert_policies::der::describing::{AsEnumerated, Described, Numbered, Ordered};

/// The reason why a certificate was revoked (RFC 5280 5.3.1). The number 7 isn't used.
///
/// ```text
/// CRLReason ::= ENUMERATED {
///     unspecified (0), keyCompromise (1), cACompromise (2), affiliationChanged (3),
///     superseded (4), cessationOfOperation (5), certificateHold (6), removeFromCRL (8),
///     privilegeWithdrawn (9), aACompromise (10) }
/// ```
#[derive(Clone, Copy, Debug, PartialEq, Eq, PartialOrd, Ord)]
pub enum CrlReason {
    /// The reason isn't specified.
    Unspecified,
    /// The subject's private key is known or suspected to be compromised.
    KeyCompromise,
    /// The private key of a CA is known or suspected to be compromised.
    CaCompromise,
    /// The subject's name or other information in the certificate has changed.
    AffiliationChanged,
    /// The certificate was replaced by another.
    Superseded,
    /// The certificate isn't needed for its purpose any more.
    CessationOfOperation,
    /// The certificate is on hold.
    CertificateHold,
    /// The certificate is no longer on hold, or it has expired. This reason occurs only in delta
    /// CRLs.
    RemoveFromCRL = 8,
    /// A privilege in the certificate was withdrawn.
    PrivilegeWithdrawn,
    /// The private key of an attribute authority is known or suspected to be compromised.
    AaCompromise,
}

impl Described for CrlReason {
    type By = AsEnumerated;
}

/// Decoding rejects any other number with `Value`.
impl Numbered for CrlReason {
    ghost known_numbers = { reason_numbers };

    ghost known_number = { reason_number };

    fn from_number(number: u8) -> Option<CrlReason> {
        match number {
            0 => Some(CrlReason::Unspecified),
            1 => Some(CrlReason::KeyCompromise),
            2 => Some(CrlReason::CaCompromise),
            3 => Some(CrlReason::AffiliationChanged),
            4 => Some(CrlReason::Superseded),
            5 => Some(CrlReason::CessationOfOperation),
            6 => Some(CrlReason::CertificateHold),
            8 => Some(CrlReason::RemoveFromCRL),
            9 => Some(CrlReason::PrivilegeWithdrawn),
            10 => Some(CrlReason::AaCompromise),
            _ => None,
        }
    }

    fn to_number(&self) -> u8 {
        *self as u8
    }

    ghost few = { refl };
}

/// Orders reasons by their numbers.
impl Ordered for CrlReason {}
