//! TstInfoVersion.

ghost use Rattle.std.specs.Prelude.{[], ◌∷◌, refl};
ghost use Rattle.pki_timestamps.specs.declared.tst_info_version.TstInfoVersion.TheVariants as cases;

use der_core::describing::{AsNumbered, Described, Numbered, Ordered};

/// Any other number is rejected as `Value`.
///
/// ```text
/// TSTInfo-Version ::= INTEGER -- without a name
/// ```
#[derive(Clone, Copy, Debug, PartialEq, Eq)]
pub enum TstInfoVersion {
    V1 = 1,
}

impl Described for TstInfoVersion {
    type By = AsNumbered;
}

impl Numbered for TstInfoVersion {
    ghost known_numbers = { 1 ∷ [] };

    ghost known_number = { λ v. elim v [
      | cases.V1 ↦ 1
    ] };

    fn from_number(number: u8) -> Option<TstInfoVersion> {
        match number {
            1 => Some(TstInfoVersion::V1),
            _ => None,
        }
    }

    fn to_number(&self) -> u8 {
        *self as u8
    }

    ghost few = { refl };
}

/// Orders the values by their numbers.
impl Ordered for TstInfoVersion {}
