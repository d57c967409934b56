//! Version.

ghost use Rattle.std.specs.Prelude.{[], ◌∷◌, refl};
ghost use Rattle.pki_ocsp.specs.declared.version.Version.TheVariants as cases;

use der_core::DefaultNumber;
use der_core::describing::{AsNumbered, Described, Numbered, Ordered};

/// Any other number is rejected as `Value`.
///
/// ```text
/// Version ::= INTEGER { v1(0) }
/// ```
#[derive(Clone, Copy, Debug, PartialEq, Eq)]
pub enum Version {
    V1,
}

impl Described for Version {
    type By = AsNumbered;
}

impl Numbered for Version {
    ghost known_numbers = { 0 ∷ [] };

    ghost known_number = { λ v. elim v [
      | cases.V1 ↦ 0
    ] };

    fn from_number(number: u8) -> Option<Version> {
        match number {
            0 => Some(Version::V1),
            _ => None,
        }
    }

    fn to_number(&self) -> u8 {
        *self as u8
    }

    ghost few = { refl };
}

/// Orders the values by their numbers.
impl Ordered for Version {}

/// `V1`.
impl DefaultNumber for Version {
    ghost default_number = { 0 };

    fn default_named() -> Version {
        Version::V1
    }

    ghost small = { refl };
}
