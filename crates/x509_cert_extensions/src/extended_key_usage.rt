ghost use Rattle.std.specs.Prelude.{◌≡◌};

use x509_cert_policies::der::describing::{AsField, Described, Ordered, Wraps};
use x509_cert_policies::oid::ObjectIdentifier;

/// The purposes of a certificate's key, by OID (RFC 5280 4.2.1.12). The list may be empty.
///
/// ```text
/// ExtKeyUsageSyntax ::= SEQUENCE SIZE (1..MAX) OF KeyPurposeId
///
/// KeyPurposeId ::= OBJECT IDENTIFIER
/// ```
#[derive(Debug, Drop, PartialEq, Eq)]
pub struct ExtendedKeyUsage(pub Vec<ObjectIdentifier<39>>);

impl Described for ExtendedKeyUsage {
    type By = AsField<Vec<ObjectIdentifier<39>>>;
}

impl Wraps<Vec<ObjectIdentifier<39>>> for ExtendedKeyUsage {
    ghost inner = { λ x. x.0 };

    fn inner(&self) -> &Vec<ObjectIdentifier<39>> {
        &self.0
    }

    ghost made = { λ _ _ e. e };
}

impl Ordered for ExtendedKeyUsage {}

impl From<Vec<ObjectIdentifier<39>>> for ExtendedKeyUsage {
    ghost from_gives = { λ v x. x.0 ≡ v };

    fn from(value: Vec<ObjectIdentifier<39>>) -> ExtendedKeyUsage {
        ExtendedKeyUsage(value)
    }
}

impl From<ExtendedKeyUsage> for Vec<ObjectIdentifier<39>> {
    ghost from_gives = { λ x v. v ≡ x.0 };

    fn from(value: ExtendedKeyUsage) -> Vec<ObjectIdentifier<39>> {
        value.0
    }
}

impl AsRef<Vec<ObjectIdentifier<39>>> for ExtendedKeyUsage {
    fn as_ref(&self) -> &Vec<ObjectIdentifier<39>>
        ensures { result.now ≡ self.now.0 }
    {
        &self.0
    }
}

impl AsMut<Vec<ObjectIdentifier<39>>> for ExtendedKeyUsage {
    ghost use denote.Param.{number};
    ghost use Rattle.std.specs.Borrow.{sem, Lends};
    ghost use Rattle.x509_cert_policies.specs.Oid.contracts.object_identifier.ObjectIdentifier.{the_row as member_row};
    ghost use Rattle.x509_cert_policies.specs.Der.Rows.{list_row};
    ghost use Rattle.x509_cert_extensions.specs.contracts.extended_key_usage.ExtendedKeyUsage.{the_row};

    fn as_mut(&mut self) -> &mut Vec<ObjectIdentifier<39>>
        ensures* writes_back { sem 𝓛 (Lends the_row (list_row (member_row (number 39))) self.entry
            result (λ w. record { 0 = w })) }
        ensures value { result.now ≡ self.old.0 }
    {
        &mut self.0
    }
}
