//! The types `Reasons` and `ReasonFlags`.

ghost use Rattle.std.specs.Prelude.{⊤, refl};
ghost use Rattle.bitflags.specs.Sets.{known_from};
ghost use Rattle.x509_cert_general_names.specs.NamedBits.{reason_flags};

use bitflags::{Flag, Flags, bitflag_items};
use x509_cert_parts::types::{FlagSet, NamedBits};

/// A revocation reason as a bit (RFC 5280 4.2.1.13). The first bit of the BIT STRING is the least
/// significant one.
#[derive(Clone, Copy, Debug, PartialEq, Eq)]
pub struct Reasons(u16);

bitflag_items! {
    impl Reasons: u16 {
        const Unused = 1;
        const KeyCompromise = 2;
        const CaCompromise = 4;
        const AffiliationChanged = 8;
        const Superseded = 16;
        const CessationOfOperation = 32;
        const CertificateHold = 64;
        const PrivilegeWithdrawn = 128;
        const AaCompromise = 256;
    }
}

impl Flags for Reasons {
    type Bits = u16;

    ghost exact = { ⊤ };

    ghost table = { reason_flags };

    ghost set_of = { λ x. x.0 };

    fn flags<'a>() -> &'a [Flag<Reasons>] {
        Reasons::FLAGS
    }

    fn bits(&self) -> u16 {
        self.0
    }

    fn from_bits_retain(bits: u16) -> Reasons {
        Reasons(bits)
    }
}

impl NamedBits for Reasons {
    ghost names = { 9 };

    fn names() -> u32 {
        9
    }

    fn to_number(&self) -> u64 {
        u64::from(self.0)
    }

    fn from_number(number: u64) -> Reasons {
        Reasons(number as u16)
    }

    ghost stated = { tt };

    ghost known = { unfold known_from in refl };
}

/// A set of revocation reasons (RFC 5280 4.2.1.13).
///
/// ```text
/// ReasonFlags ::= BIT STRING {
///     unused (0), keyCompromise (1), cACompromise (2), affiliationChanged (3), superseded (4),
///     cessationOfOperation (5), certificateHold (6), privilegeWithdrawn (7), aACompromise (8) }
/// ```
pub type ReasonFlags = FlagSet<Reasons>;
