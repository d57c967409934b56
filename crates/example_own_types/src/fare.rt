//! An enumeration.

ghost use Rattle.std.specs.Prelude.{[], ◌∷◌, refl};
ghost use Rattle.example_own_types.specs.declared.fare.Fare.TheVariants as fares;

use der_core::DefaultNumber;
use der_core::describing::{AsEnumerated, Described, Numbered, Ordered};

/// ```text
/// Fare ::= ENUMERATED { full (0), child (1), group (4) }
/// ```
#[derive(Clone, Copy, Debug)]
pub enum Fare {
    Full,
    Child,
    Group = 4,
}

impl Described for Fare {
    type By = AsEnumerated;
}

impl Numbered for Fare {
    ghost known_numbers = { 0 ∷ 1 ∷ 4 ∷ [] };

    ghost known_number = { λ f. elim f [ fares.Full ↦ 0 | fares.Child ↦ 1 | fares.Group ↦ 4 ] };

    fn from_number(number: u8) -> Option<Fare> {
        match number {
            0 => Some(Fare::Full),
            1 => Some(Fare::Child),
            4 => Some(Fare::Group),
            _ => None,
        }
    }

    fn to_number(&self) -> u8 {
        *self as u8
    }

    ghost few = { refl };
}

impl Ordered for Fare {}

/// The default of a field of this type is `Full`.
impl DefaultNumber for Fare {
    ghost default_number = { 0 };

    fn default_named() -> Fare {
        Fare::Full
    }

    ghost small = { refl };
}
