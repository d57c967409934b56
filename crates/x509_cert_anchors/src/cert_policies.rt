//! The types `CertPolicies` and `CertPolicyFlags`.

ghost use Rattle.std.specs.Prelude.{⊤, refl};
ghost use Rattle.bitflags.specs.Sets.{known_from};
ghost use Rattle.x509_cert_anchors.specs.Anchors.{policy_flags};

use bitflags::{Flag, Flags, bitflag_items};
use x509_cert_policies::types::{FlagSet, NamedBits};

/// A requirement on the policies in a certificate chain, as a bit (RFC 5914 2.5). The first bit of
/// the BIT STRING is the least significant one.
#[derive(Clone, Copy, Debug, PartialEq, Eq)]
pub struct CertPolicies(u8);

bitflag_items! {
    impl CertPolicies: u8 {
        const InhibitPolicyMapping = 1;
        const RequireExplicitPolicy = 2;
        const InhibitAnyPolicy = 4;
    }
}

impl Flags for CertPolicies {
    type Bits = u8;

    ghost exact = { ⊤ };

    ghost table = { policy_flags };

    ghost set_of = { λ x. x.0 };

    fn flags<'a>() -> &'a [Flag<CertPolicies>] {
        CertPolicies::FLAGS
    }

    fn bits(&self) -> u8 {
        self.0
    }

    fn from_bits_retain(bits: u8) -> CertPolicies {
        CertPolicies(bits)
    }
}

impl NamedBits for CertPolicies {
    ghost names = { 3 };

    fn names() -> u32 {
        3
    }

    fn to_number(&self) -> u64 {
        u64::from(self.0)
    }

    fn from_number(number: u64) -> CertPolicies {
        CertPolicies(number as u8)
    }

    ghost stated = { tt };

    ghost known = { unfold known_from in refl };
}

/// The requirements of a trust anchor on the policies in a certificate chain (RFC 5914 2.5).
///
/// ```text
/// CertPolicyFlags ::= BIT STRING {
///     inhibitPolicyMapping (0), requireExplicitPolicy (1), inhibitAnyPolicy (2) }
/// ```
pub type CertPolicyFlags = FlagSet<CertPolicies>;
