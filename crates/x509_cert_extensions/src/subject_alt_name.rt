ghost use Rattle.std.specs.Prelude.{◌≡◌, []};

use std::alloc::Global;
use x509_cert_general_names::GeneralNames;
use x509_cert_policies::der::describing::{AsField, Described, Ordered, Wraps};

/// Alternative names of the subject, such as DNS names and e-mail addresses (RFC 5280 4.2.1.6).
///
/// ```text
/// SubjectAltName ::= GeneralNames
/// ```
#[derive(Debug, Drop, PartialEq, Eq)]
pub struct SubjectAltName(pub GeneralNames);

impl SubjectAltName {
    /// Returns the extension without names.
    pub fn default(alloc: Global) -> SubjectAltName
        ensures { result.0.items ≡ [] }
    {
        SubjectAltName(Vec::new(alloc))
    }
}

impl Described for SubjectAltName {
    type By = AsField<GeneralNames>;
}

impl Wraps<GeneralNames> for SubjectAltName {
    ghost inner = { λ x. x.0 };

    fn inner(&self) -> &GeneralNames {
        &self.0
    }

    ghost made = { λ _ _ e. e };
}

impl Ordered for SubjectAltName {}

impl From<GeneralNames> for SubjectAltName {
    ghost from_gives = { λ v x. x.0 ≡ v };

    fn from(value: GeneralNames) -> SubjectAltName {
        SubjectAltName(value)
    }
}

impl From<SubjectAltName> for GeneralNames {
    ghost from_gives = { λ x v. v ≡ x.0 };

    fn from(value: SubjectAltName) -> GeneralNames {
        value.0
    }
}

impl AsRef<GeneralNames> for SubjectAltName {
    fn as_ref(&self) -> &GeneralNames
        ensures { result.now ≡ self.now.0 }
    {
        &self.0
    }
}

impl AsMut<GeneralNames> for SubjectAltName {
    ghost use Rattle.std.specs.Borrow.{sem, Lends};
    ghost use Rattle.x509_cert_policies.specs.Der.Rows.{list_row};
    ghost use Rattle.x509_cert_general_names.specs.contracts.general_name.GeneralName.{the_row as member_row};
    ghost use Rattle.x509_cert_extensions.specs.contracts.subject_alt_name.SubjectAltName.{the_row};

    fn as_mut(&mut self) -> &mut GeneralNames
        ensures* writes_back { sem 𝓛 (Lends the_row (list_row member_row) self.entry result
            (λ w. record { 0 = w })) }
        ensures value { result.now ≡ self.old.0 }
    {
        &mut self.0
    }
}
