ghost use Rattle.std.specs.Prelude.{◌≡◌, []};

use std::alloc::Global;
use x509_cert_general_names::DistributionPoint;
use x509_cert_policies::der::describing::{AsField, Described, Ordered, Wraps};

/// The locations of the delta CRLs for a certificate or a CRL (RFC 5280 4.2.1.15, 5.2.6).
///
/// ```text
/// FreshestCRL ::= CRLDistributionPoints
/// ```
#[derive(Debug, Drop, PartialEq, Eq)]
pub struct FreshestCrl(pub Vec<DistributionPoint>);

impl FreshestCrl {
    /// Returns the extension without distribution points.
    pub fn default(alloc: Global) -> FreshestCrl
        ensures { result.0.items ≡ [] }
    {
        FreshestCrl(Vec::new(alloc))
    }
}

impl Described for FreshestCrl {
    type By = AsField<Vec<DistributionPoint>>;
}

impl Wraps<Vec<DistributionPoint>> for FreshestCrl {
    ghost inner = { λ x. x.0 };

    fn inner(&self) -> &Vec<DistributionPoint> {
        &self.0
    }

    ghost made = { λ _ _ e. e };
}

impl Ordered for FreshestCrl {}

impl From<Vec<DistributionPoint>> for FreshestCrl {
    ghost from_gives = { λ v x. x.0 ≡ v };

    fn from(value: Vec<DistributionPoint>) -> FreshestCrl {
        FreshestCrl(value)
    }
}

impl From<FreshestCrl> for Vec<DistributionPoint> {
    ghost from_gives = { λ x v. v ≡ x.0 };

    fn from(value: FreshestCrl) -> Vec<DistributionPoint> {
        value.0
    }
}

impl AsRef<Vec<DistributionPoint>> for FreshestCrl {
    fn as_ref(&self) -> &Vec<DistributionPoint>
        ensures { result.now ≡ self.now.0 }
    {
        &self.0
    }
}

impl AsMut<Vec<DistributionPoint>> for FreshestCrl {
    ghost use Rattle.std.specs.Borrow.{sem, Lends};
    ghost use Rattle.x509_cert_policies.specs.Der.Rows.{list_row};
    ghost use Rattle.x509_cert_general_names.specs.contracts.distribution_point.DistributionPoint.{the_row as member_row};
    ghost use Rattle.x509_cert_extensions.specs.contracts.freshest_crl.FreshestCrl.{the_row};

    fn as_mut(&mut self) -> &mut Vec<DistributionPoint>
        ensures* writes_back { sem 𝓛 (Lends the_row (list_row member_row) self.entry result
            (λ w. record { 0 = w })) }
        ensures value { result.now ≡ self.old.0 }
    {
        &mut self.0
    }
}
