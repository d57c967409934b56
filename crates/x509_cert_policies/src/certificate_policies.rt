ghost use Rattle.std.specs.Prelude.{◌≡◌};

use crate::policy_information::PolicyInformation;
use der_core::describing::{AsField, Described, Ordered, Wraps};

/// The policies under which a certificate was issued (RFC 5280 4.2.1.4). The list may be empty.
///
/// ```text
/// CertificatePolicies ::= SEQUENCE SIZE (1..MAX) OF PolicyInformation
/// ```
#[derive(Debug, Drop, PartialEq, Eq)]
pub struct CertificatePolicies(pub Vec<PolicyInformation>);

impl Described for CertificatePolicies {
    type By = AsField<Vec<PolicyInformation>>;
}

impl Wraps<Vec<PolicyInformation>> for CertificatePolicies {
    ghost inner = { λ x. x.0 };

    fn inner(&self) -> &Vec<PolicyInformation> {
        &self.0
    }

    ghost made = { λ _ _ e. e };
}

impl Ordered for CertificatePolicies {}

impl From<Vec<PolicyInformation>> for CertificatePolicies {
    ghost from_gives = { λ v x. x.0 ≡ v };

    fn from(value: Vec<PolicyInformation>) -> CertificatePolicies {
        CertificatePolicies(value)
    }
}

impl From<CertificatePolicies> for Vec<PolicyInformation> {
    ghost from_gives = { λ x v. v ≡ x.0 };

    fn from(value: CertificatePolicies) -> Vec<PolicyInformation> {
        value.0
    }
}

impl AsRef<Vec<PolicyInformation>> for CertificatePolicies {
    fn as_ref(&self) -> &Vec<PolicyInformation>
        ensures { result.now ≡ self.now.0 }
    {
        &self.0
    }
}

impl AsMut<Vec<PolicyInformation>> for CertificatePolicies {
    ghost use Rattle.std.specs.Borrow.{sem, Lends};
    ghost use Rattle.der_core.specs.Rows.{list_row};
    ghost use Rattle.x509_cert_policies.specs.contracts.policy_information.PolicyInformation.{the_row as member_row};
    ghost use Rattle.x509_cert_policies.specs.contracts.certificate_policies.CertificatePolicies.{the_row};

    fn as_mut(&mut self) -> &mut Vec<PolicyInformation>
        ensures* writes_back { sem 𝓛 (Lends the_row (list_row member_row) self.entry result
            (λ w. record { 0 = w })) }
        ensures value { result.now ≡ self.old.0 }
    {
        &mut self.0
    }
}
