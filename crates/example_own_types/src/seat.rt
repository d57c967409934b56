//! A type with one field.

use der_core::describing::{AsField, Described, Ordered, Wraps};

/// ```text
/// Seat ::= INTEGER (0..65535)
/// ```
#[derive(Debug, Drop)]
pub struct Seat(u16);

impl Described for Seat {
    type By = AsField<u16>;
}

impl From<u16> for Seat {
    ghost use Rattle.std.specs.Prelude.{◌≡◌};

    ghost from_gives = { λ number seat. seat.0 ≡ number };

    fn from(number: u16) -> Seat {
        Seat(number)
    }
}

impl Wraps<u16> for Seat {
    ghost inner = { λ seat. seat.0 };

    fn inner(&self) -> &u16 {
        &self.0
    }

    ghost made = { λ _ _ e. e };
}

impl Ordered for Seat {}
