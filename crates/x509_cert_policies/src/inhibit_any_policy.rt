ghost use Rattle.std.specs.Prelude.{◌≡◌};

use der_core::describing::{AsField, Described, Ordered, Wraps};

/// The number of further certificates in the chain before `anyPolicy` is no longer allowed (RFC
/// 5280 4.2.1.14). A number above 2^32 - 1 is rejected.
///
/// ```text
/// InhibitAnyPolicy ::= SkipCerts
///
/// SkipCerts ::= INTEGER (0..MAX)
/// ```
#[derive(Clone, Copy, Debug, Default, PartialEq, Eq)]
pub struct InhibitAnyPolicy(pub u32);

impl Described for InhibitAnyPolicy {
    type By = AsField<u32>;
}

impl Wraps<u32> for InhibitAnyPolicy {
    ghost inner = { λ x. x.0 };

    fn inner(&self) -> &u32 {
        &self.0
    }

    ghost made = { λ _ _ e. e };
}

impl Ordered for InhibitAnyPolicy {}

impl From<u32> for InhibitAnyPolicy {
    ghost from_gives = { λ v x. x.0 ≡ v };

    fn from(value: u32) -> InhibitAnyPolicy {
        InhibitAnyPolicy(value)
    }
}

impl From<InhibitAnyPolicy> for u32 {
    ghost from_gives = { λ x v. v ≡ x.0 };

    fn from(value: InhibitAnyPolicy) -> u32 {
        value.0
    }
}

impl AsRef<u32> for InhibitAnyPolicy {
    fn as_ref(&self) -> &u32
        ensures { result.now ≡ self.now.0 }
    {
        &self.0
    }
}

impl AsMut<u32> for InhibitAnyPolicy {
    ghost use Rattle.std.specs.Borrow.{sem, Lends, u32};
    ghost use Rattle.x509_cert_policies.specs.contracts.inhibit_any_policy.InhibitAnyPolicy.{the_row};

    fn as_mut(&mut self) -> &mut u32
        ensures* writes_back { sem 𝓛 (Lends the_row u32 self.entry result
            (λ w. record { 0 = w })) }
        ensures value { result.now ≡ self.old.0 }
    {
        &mut self.0
    }
}
