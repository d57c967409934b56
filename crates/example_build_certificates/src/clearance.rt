//! A user-defined extension, which may be critical.

ghost use Rattle.std.specs.Prelude.{[], ◌∷◌};

use const_oid::{AssociatedOid, ObjectIdentifier};
use der_core::describing::{AsField, Described, Wraps};
use x509_cert::ext::{Criticality, Extension};
use x509_cert::name::Name;

/// The clearance of a badge. Its OID is under the arc for examples (RFC 5612).
///
/// ```text
/// Clearance ::= INTEGER (0..255)
/// ```
#[derive(Clone, Copy, Debug)]
pub struct Clearance(pub u8);

impl AssociatedOid for Clearance {
    ghost oid_arcs = { 1 ∷ 3 ∷ 6 ∷ 1 ∷ 4 ∷ 1 ∷ 32473 ∷ 5 ∷ [] };

    fn associated_oid() -> ObjectIdentifier<39> {
        ObjectIdentifier::from_bytes_unwrap(&[0x2b, 6, 1, 4, 1, 0x81, 0xfd, 0x59, 5])
    }
}

/// The extension is critical from level 3 on.
impl Criticality for Clearance {
    ghost use Rattle.std.specs.Prelude.{nat_le};

    ghost is_critical = { λ c _ _. nat_le 3 c.0 };

    fn criticality(&self, _subject: &Name, _extensions: &[Extension]) -> bool {
        self.0 >= 3
    }
}

impl Described for Clearance {
    type By = AsField<u8>;
}

impl From<u8> for Clearance {
    ghost use Rattle.std.specs.Prelude.{◌≡◌};

    ghost from_gives = { λ level clearance. clearance.0 ≡ level };

    fn from(level: u8) -> Clearance {
        Clearance(level)
    }
}

impl Wraps<u8> for Clearance {
    ghost inner = { λ c. c.0 };

    fn inner(&self) -> &u8 {
        &self.0
    }

    ghost made = { λ _ _ e. e };
}
