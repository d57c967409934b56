ghost use Rattle.std.specs.Prelude.{◌≡◌, []};

use std::alloc::Global;
use x509_cert_general_names::AccessDescription;
use x509_cert_policies::der::describing::{AsField, Described, Ordered, Wraps};

/// The services of the issuer of a certificate or a CRL, and their locations (RFC 5280 4.2.2.1,
/// 5.2.7). The list may be empty.
///
/// ```text
/// AuthorityInfoAccessSyntax ::= SEQUENCE SIZE (1..MAX) OF AccessDescription
/// ```
#[derive(Debug, Drop, PartialEq, Eq)]
pub struct AuthorityInfoAccessSyntax(pub Vec<AccessDescription>);

impl AuthorityInfoAccessSyntax {
    /// Returns the extension without access descriptions.
    pub fn default(alloc: Global) -> AuthorityInfoAccessSyntax
        ensures { result.0.items ≡ [] }
    {
        AuthorityInfoAccessSyntax(Vec::new(alloc))
    }
}

impl Described for AuthorityInfoAccessSyntax {
    type By = AsField<Vec<AccessDescription>>;
}

impl Wraps<Vec<AccessDescription>> for AuthorityInfoAccessSyntax {
    ghost inner = { λ x. x.0 };

    fn inner(&self) -> &Vec<AccessDescription> {
        &self.0
    }

    ghost made = { λ _ _ e. e };
}

impl Ordered for AuthorityInfoAccessSyntax {}

impl From<Vec<AccessDescription>> for AuthorityInfoAccessSyntax {
    ghost from_gives = { λ v x. x.0 ≡ v };

    fn from(value: Vec<AccessDescription>) -> AuthorityInfoAccessSyntax {
        AuthorityInfoAccessSyntax(value)
    }
}

impl From<AuthorityInfoAccessSyntax> for Vec<AccessDescription> {
    ghost from_gives = { λ x v. v ≡ x.0 };

    fn from(value: AuthorityInfoAccessSyntax) -> Vec<AccessDescription> {
        value.0
    }
}

impl AsRef<Vec<AccessDescription>> for AuthorityInfoAccessSyntax {
    fn as_ref(&self) -> &Vec<AccessDescription>
        ensures { result.now ≡ self.now.0 }
    {
        &self.0
    }
}

impl AsMut<Vec<AccessDescription>> for AuthorityInfoAccessSyntax {
    ghost use Rattle.std.specs.Borrow.{sem, Lends};
    ghost use Rattle.x509_cert_policies.specs.Der.Rows.{list_row};
    ghost use Rattle.x509_cert_general_names.specs.contracts.access_description.AccessDescription.{the_row as member_row};
    ghost use Rattle.x509_cert_extensions.specs.contracts.authority_info_access.AuthorityInfoAccessSyntax.{the_row};

    fn as_mut(&mut self) -> &mut Vec<AccessDescription>
        ensures* writes_back { sem 𝓛 (Lends the_row (list_row member_row) self.entry result
            (λ w. record { 0 = w })) }
        ensures value { result.now ≡ self.old.0 }
    {
        &mut self.0
    }
}
