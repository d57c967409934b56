ghost use Rattle.std.specs.Prelude.{◌≡◌, []};

use std::alloc::Global;
use x509_cert_general_names::cert_names::Attribute;
use x509_cert_policies::der::describing::{AsField, Described, Ordered, Wraps};

/// Attributes of the subject, such as a nationality (RFC 5280 4.2.1.8). The list may be empty.
///
/// ```text
/// SubjectDirectoryAttributes ::= SEQUENCE SIZE (1..MAX) OF Attribute
/// ```
#[derive(Debug, Drop, PartialEq, Eq)]
pub struct SubjectDirectoryAttributes(pub Vec<Attribute>);

impl SubjectDirectoryAttributes {
    /// Returns the extension without attributes.
    pub fn default(alloc: Global) -> SubjectDirectoryAttributes
        ensures { result.0.items ≡ [] }
    {
        SubjectDirectoryAttributes(Vec::new(alloc))
    }
}

impl Described for SubjectDirectoryAttributes {
    type By = AsField<Vec<Attribute>>;
}

impl Wraps<Vec<Attribute>> for SubjectDirectoryAttributes {
    ghost inner = { λ x. x.0 };

    fn inner(&self) -> &Vec<Attribute> {
        &self.0
    }

    ghost made = { λ _ _ e. e };
}

impl Ordered for SubjectDirectoryAttributes {}

impl From<Vec<Attribute>> for SubjectDirectoryAttributes {
    ghost from_gives = { λ v x. x.0 ≡ v };

    fn from(value: Vec<Attribute>) -> SubjectDirectoryAttributes {
        SubjectDirectoryAttributes(value)
    }
}

impl From<SubjectDirectoryAttributes> for Vec<Attribute> {
    ghost from_gives = { λ x v. v ≡ x.0 };

    fn from(value: SubjectDirectoryAttributes) -> Vec<Attribute> {
        value.0
    }
}

impl AsRef<Vec<Attribute>> for SubjectDirectoryAttributes {
    fn as_ref(&self) -> &Vec<Attribute>
        ensures { result.now ≡ self.now.0 }
    {
        &self.0
    }
}

impl AsMut<Vec<Attribute>> for SubjectDirectoryAttributes {
    ghost use Rattle.std.specs.Borrow.{sem, Lends};
    ghost use Rattle.x509_cert_policies.specs.Der.Rows.{list_row};
    ghost use Rattle.x509_cert_general_names.specs.CertNames.contracts.attribute.Attribute.{the_row as member_row};
    ghost use Rattle.x509_cert_extensions.specs.contracts.subject_directory_attributes.SubjectDirectoryAttributes.{the_row};

    fn as_mut(&mut self) -> &mut Vec<Attribute>
        ensures* writes_back { sem 𝓛 (Lends the_row (list_row member_row) self.entry result
            (λ w. record { 0 = w })) }
        ensures value { result.now ≡ self.old.0 }
    {
        &mut self.0
    }
}
