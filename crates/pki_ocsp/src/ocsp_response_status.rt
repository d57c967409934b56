//! OcspResponseStatus.

ghost use Rattle.std.specs.Prelude.{[], ◌∷◌, refl};
ghost use Rattle.pki_ocsp.specs.declared.ocsp_response_status.OcspResponseStatus.TheVariants as cases;

use der_core::describing::{AsEnumerated, Described, Numbered, Ordered};

/// Any other number is rejected as `Value`.
///
/// ```text
/// OCSPResponseStatus ::= ENUMERATED {
///     successful          (0),  -- Response has valid confirmations
///     malformedRequest    (1),  -- Illegal confirmation request
///     internalError       (2),  -- Internal error in issuer
///     tryLater            (3),  -- Try again later
///                               -- (4) is not used
///     sigRequired         (5),  -- Must sign the request
///     unauthorized        (6)   -- Request unauthorized
/// }
/// ```
#[derive(Clone, Copy, Debug, PartialEq, Eq)]
pub enum OcspResponseStatus {
    Successful,
    MalformedRequest,
    InternalError,
    TryLater,
    SigRequired = 5,
    Unauthorized,
}

impl Described for OcspResponseStatus {
    type By = AsEnumerated;
}

impl Numbered for OcspResponseStatus {
    ghost known_numbers = { 0 ∷ 1 ∷ 2 ∷ 3 ∷ 5 ∷ 6 ∷ [] };

    ghost known_number = { λ v. elim v [
      | cases.Successful ↦ 0
      | cases.MalformedRequest ↦ 1
      | cases.InternalError ↦ 2
      | cases.TryLater ↦ 3
      | cases.SigRequired ↦ 5
      | cases.Unauthorized ↦ 6
    ] };

    fn from_number(number: u8) -> Option<OcspResponseStatus> {
        match number {
            0 => Some(OcspResponseStatus::Successful),
            1 => Some(OcspResponseStatus::MalformedRequest),
            2 => Some(OcspResponseStatus::InternalError),
            3 => Some(OcspResponseStatus::TryLater),
            5 => Some(OcspResponseStatus::SigRequired),
            6 => Some(OcspResponseStatus::Unauthorized),
            _ => None,
        }
    }

    fn to_number(&self) -> u8 {
        *self as u8
    }

    ghost few = { refl };
}

/// Orders the values by their numbers.
impl Ordered for OcspResponseStatus {}
