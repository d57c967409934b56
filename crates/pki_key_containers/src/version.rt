//! Version.

ghost use Rattle.std.specs.Prelude.{[], ◌∷◌, refl};
ghost use Rattle.pki_key_containers.specs.declared.version.Version.TheVariants as cases;

use der_core::describing::{AsNumbered, Described, Numbered, Ordered};

/// Any other number is rejected as `Value`.
///
/// ```text
/// Version ::= INTEGER { v1(0), v2(1) } (v1, ..., v2)
/// ```
#[derive(Clone, Copy, Debug, PartialEq, Eq)]
pub enum Version {
    V1,
    V2,
}

impl Described for Version {
    type By = AsNumbered;
}

impl Numbered for Version {
    ghost known_numbers = { 0 ∷ 1 ∷ [] };

    ghost known_number = { λ v. elim v [
      | cases.V1 ↦ 0
      | cases.V2 ↦ 1
    ] };

    fn from_number(number: u8) -> Option<Version> {
        match number {
            0 => Some(Version::V1),
            1 => Some(Version::V2),
            _ => None,
        }
    }

    fn to_number(&self) -> u8 {
        *self as u8
    }

    ghost few = { refl };
}

/// Orders the values by their numbers.
impl Ordered for Version {}
