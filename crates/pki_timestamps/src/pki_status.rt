//! PkiStatus.

ghost use Rattle.std.specs.Prelude.{[], ◌∷◌, refl};
ghost use Rattle.pki_timestamps.specs.declared.pki_status.PkiStatus.TheVariants as cases;

use der_core::describing::{AsNumbered, Described, Numbered, Ordered};

/// Any other number is rejected as `Value`.
///
/// ```text
/// PKIStatus ::= INTEGER {
///     granted                (0),
///     -- when the PKIStatus contains the value zero a TimeStampToken, as
///        -- requested, is present.
///     grantedWithMods        (1),
///      -- when the PKIStatus contains the value one a TimeStampToken,
///        -- with modifications, is present.
///     rejection              (2),
///     waiting                (3),
///     revocationWarning      (4),
///      -- this message contains a warning that a revocation is
///      -- imminent
///     revocationNotification (5)
///      -- notification that a revocation has occurred
/// }
/// ```
#[derive(Clone, Copy, Debug, PartialEq, Eq)]
pub enum PkiStatus {
    Granted,
    GrantedWithMods,
    Rejection,
    Waiting,
    RevocationWarning,
    RevocationNotification,
}

impl Described for PkiStatus {
    type By = AsNumbered;
}

impl Numbered for PkiStatus {
    ghost known_numbers = { 0 ∷ 1 ∷ 2 ∷ 3 ∷ 4 ∷ 5 ∷ [] };

    ghost known_number = { λ v. elim v [
      | cases.Granted ↦ 0
      | cases.GrantedWithMods ↦ 1
      | cases.Rejection ↦ 2
      | cases.Waiting ↦ 3
      | cases.RevocationWarning ↦ 4
      | cases.RevocationNotification ↦ 5
    ] };

    fn from_number(number: u8) -> Option<PkiStatus> {
        match number {
            0 => Some(PkiStatus::Granted),
            1 => Some(PkiStatus::GrantedWithMods),
            2 => Some(PkiStatus::Rejection),
            3 => Some(PkiStatus::Waiting),
            4 => Some(PkiStatus::RevocationWarning),
            5 => Some(PkiStatus::RevocationNotification),
            _ => None,
        }
    }

    fn to_number(&self) -> u8 {
        *self as u8
    }

    ghost few = { refl };
}

/// Orders the values by their numbers.
impl Ordered for PkiStatus {}
