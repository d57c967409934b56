ghost use Rattle.std.specs.Prelude.{◌≡◌};

use crate::policy_mapping::PolicyMapping;
use der_core::describing::{AsField, Described, Ordered, Wraps};

/// Pairs of policies that the issuer considers equivalent (RFC 5280 4.2.1.5). An empty list is
/// accepted, too.
///
/// ```text
/// PolicyMappings ::= SEQUENCE SIZE (1..MAX) OF PolicyMapping
/// ```
#[derive(Debug, Drop, PartialEq, Eq)]
pub struct PolicyMappings(pub Vec<PolicyMapping>);

impl Described for PolicyMappings {
    type By = AsField<Vec<PolicyMapping>>;
}

impl Wraps<Vec<PolicyMapping>> for PolicyMappings {
    ghost inner = { λ x. x.0 };

    fn inner(&self) -> &Vec<PolicyMapping> {
        &self.0
    }

    ghost made = { λ _ _ e. e };
}

impl Ordered for PolicyMappings {}

impl From<Vec<PolicyMapping>> for PolicyMappings {
    ghost from_gives = { λ v x. x.0 ≡ v };

    fn from(value: Vec<PolicyMapping>) -> PolicyMappings {
        PolicyMappings(value)
    }
}

impl From<PolicyMappings> for Vec<PolicyMapping> {
    ghost from_gives = { λ x v. v ≡ x.0 };

    fn from(value: PolicyMappings) -> Vec<PolicyMapping> {
        value.0
    }
}

impl AsRef<Vec<PolicyMapping>> for PolicyMappings {
    fn as_ref(&self) -> &Vec<PolicyMapping>
        ensures { result.now ≡ self.now.0 }
    {
        &self.0
    }
}

impl AsMut<Vec<PolicyMapping>> for PolicyMappings {
    ghost use Rattle.std.specs.Borrow.{sem, Lends};
    ghost use Rattle.der_core.specs.Rows.{list_row};
    ghost use Rattle.x509_cert_policies.specs.contracts.policy_mapping.PolicyMapping.{the_row as member_row};
    ghost use Rattle.x509_cert_policies.specs.contracts.policy_mappings.PolicyMappings.{the_row};

    fn as_mut(&mut self) -> &mut Vec<PolicyMapping>
        ensures* writes_back { sem 𝓛 (Lends the_row (list_row member_row) self.entry result
            (λ w. record { 0 = w })) }
        ensures value { result.now ≡ self.old.0 }
    {
        &mut self.0
    }
}
