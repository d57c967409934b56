ghost use Rattle.std.specs.Prelude.{◌≡◌, []};

use std::alloc::Global;
use x509_cert_general_names::GeneralNames;
use x509_cert_policies::der::describing::{AsField, Described, Ordered, Wraps};

/// Alternative names of the issuer (RFC 5280 4.2.1.7, 5.2.2).
///
/// ```text
/// IssuerAltName ::= GeneralNames
/// ```
#[derive(Debug, Drop, PartialEq, Eq)]
pub struct IssuerAltName(pub GeneralNames);

impl IssuerAltName {
    /// Returns the extension without names.
    pub fn default(alloc: Global) -> IssuerAltName
        ensures { result.0.items ≡ [] }
    {
        IssuerAltName(Vec::new(alloc))
    }
}

impl Described for IssuerAltName {
    type By = AsField<GeneralNames>;
}

impl Wraps<GeneralNames> for IssuerAltName {
    ghost inner = { λ x. x.0 };

    fn inner(&self) -> &GeneralNames {
        &self.0
    }

    ghost made = { λ _ _ e. e };
}

impl Ordered for IssuerAltName {}

impl From<GeneralNames> for IssuerAltName {
    ghost from_gives = { λ v x. x.0 ≡ v };

    fn from(value: GeneralNames) -> IssuerAltName {
        IssuerAltName(value)
    }
}

impl From<IssuerAltName> for GeneralNames {
    ghost from_gives = { λ x v. v ≡ x.0 };

    fn from(value: IssuerAltName) -> GeneralNames {
        value.0
    }
}

impl AsRef<GeneralNames> for IssuerAltName {
    fn as_ref(&self) -> &GeneralNames
        ensures { result.now ≡ self.now.0 }
    {
        &self.0
    }
}

impl AsMut<GeneralNames> for IssuerAltName {
    ghost use Rattle.std.specs.Borrow.{sem, Lends};
    ghost use Rattle.x509_cert_policies.specs.Der.Rows.{list_row};
    ghost use Rattle.x509_cert_general_names.specs.contracts.general_name.GeneralName.{the_row as member_row};
    ghost use Rattle.x509_cert_extensions.specs.contracts.issuer_alt_name.IssuerAltName.{the_row};

    fn as_mut(&mut self) -> &mut GeneralNames
        ensures* writes_back { sem 𝓛 (Lends the_row (list_row member_row) self.entry result
            (λ w. record { 0 = w })) }
        ensures value { result.now ≡ self.old.0 }
    {
        &mut self.0
    }
}
