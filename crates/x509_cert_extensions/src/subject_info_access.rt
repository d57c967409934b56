ghost use Rattle.std.specs.Prelude.{◌≡◌, []};

use std::alloc::Global;
use x509_cert_general_names::AccessDescription;
use x509_cert_policies::der::describing::{AsField, Described, Ordered, Wraps};

/// The services of the subject of a certificate, and their locations (RFC 5280 4.2.2.2). The list
/// may be empty.
///
/// ```text
/// SubjectInfoAccessSyntax ::= SEQUENCE SIZE (1..MAX) OF AccessDescription
/// ```
#[derive(Debug, Drop, PartialEq, Eq)]
pub struct SubjectInfoAccessSyntax(pub Vec<AccessDescription>);

impl SubjectInfoAccessSyntax {
    /// Returns the extension without access descriptions.
    pub fn default(alloc: Global) -> SubjectInfoAccessSyntax
        ensures { result.0.items ≡ [] }
    {
        SubjectInfoAccessSyntax(Vec::new(alloc))
    }
}

impl Described for SubjectInfoAccessSyntax {
    type By = AsField<Vec<AccessDescription>>;
}

impl Wraps<Vec<AccessDescription>> for SubjectInfoAccessSyntax {
    ghost inner = { λ x. x.0 };

    fn inner(&self) -> &Vec<AccessDescription> {
        &self.0
    }

    ghost made = { λ _ _ e. e };
}

impl Ordered for SubjectInfoAccessSyntax {}

impl From<Vec<AccessDescription>> for SubjectInfoAccessSyntax {
    ghost from_gives = { λ v x. x.0 ≡ v };

    fn from(value: Vec<AccessDescription>) -> SubjectInfoAccessSyntax {
        SubjectInfoAccessSyntax(value)
    }
}

impl From<SubjectInfoAccessSyntax> for Vec<AccessDescription> {
    ghost from_gives = { λ x v. v ≡ x.0 };

    fn from(value: SubjectInfoAccessSyntax) -> Vec<AccessDescription> {
        value.0
    }
}

impl AsRef<Vec<AccessDescription>> for SubjectInfoAccessSyntax {
    fn as_ref(&self) -> &Vec<AccessDescription>
        ensures { result.now ≡ self.now.0 }
    {
        &self.0
    }
}

impl AsMut<Vec<AccessDescription>> for SubjectInfoAccessSyntax {
    ghost use Rattle.std.specs.Borrow.{sem, Lends};
    ghost use Rattle.x509_cert_policies.specs.Der.Rows.{list_row};
    ghost use Rattle.x509_cert_general_names.specs.contracts.access_description.AccessDescription.{the_row as member_row};
    ghost use Rattle.x509_cert_extensions.specs.contracts.subject_info_access.SubjectInfoAccessSyntax.{the_row};

    fn as_mut(&mut self) -> &mut Vec<AccessDescription>
        ensures* writes_back { sem 𝓛 (Lends the_row (list_row member_row) self.entry result
            (λ w. record { 0 = w })) }
        ensures value { result.now ≡ self.old.0 }
    {
        &mut self.0
    }
}
