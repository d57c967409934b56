ghost use Rattle.std.specs.Prelude.{◌≡◌, IfOk, IfErr};
ghost use Rattle.x509_cert_general_names.specs.KeyIdentifiers.{key_identifier};
ghost use Rattle.x509_cert_policies.specs.CertParts.Views.{key_lent};

use std::alloc::Global;
use x509_cert_general_names::key_identifier_of;
use x509_cert_policies::cert_parts::SubjectPublicKeyInfoRef;
use x509_cert_policies::der::describing::{AsField, Described, Ordered, Wraps};
use x509_cert_policies::der::{Error, ErrorKind};
use x509_cert_policies::types::OctetString;

/// The key identifier of a certificate's key (RFC 5280 4.2.1.2).
///
/// ```text
/// SubjectKeyIdentifier ::= KeyIdentifier
/// ```
#[derive(Debug, Drop, PartialEq, Eq)]
pub struct SubjectKeyIdentifier(pub OctetString);

impl SubjectKeyIdentifier {
    /// Returns the extension with the key identifier of this key (`key_identifier_of`).
    ///
    /// # Errors
    ///
    /// - `OutOfMemory`: memory runs out.
    pub fn try_from_key<'a>(alloc: Global, key: &SubjectPublicKeyInfoRef<'a>) -> Result<Self, Error>
        ensures ok { IfOk result (λ i. i.0 ≡ key_identifier (key_lent key.now)) }
        ensures err { IfErr result (λ e. e.kind ≡ ErrorKind.OutOfMemory) }
    {
        Ok(SubjectKeyIdentifier(key_identifier_of(alloc, key)?))
    }
}

impl Described for SubjectKeyIdentifier {
    type By = AsField<OctetString>;
}

impl Wraps<OctetString> for SubjectKeyIdentifier {
    ghost inner = { λ x. x.0 };

    fn inner(&self) -> &OctetString {
        &self.0
    }

    ghost made = { λ _ _ e. e };
}

impl Ordered for SubjectKeyIdentifier {}

impl From<OctetString> for SubjectKeyIdentifier {
    ghost from_gives = { λ v x. x.0 ≡ v };

    fn from(value: OctetString) -> SubjectKeyIdentifier {
        SubjectKeyIdentifier(value)
    }
}

impl From<SubjectKeyIdentifier> for OctetString {
    ghost from_gives = { λ x v. v ≡ x.0 };

    fn from(value: SubjectKeyIdentifier) -> OctetString {
        value.0
    }
}

impl AsRef<OctetString> for SubjectKeyIdentifier {
    fn as_ref(&self) -> &OctetString
        ensures { result.now ≡ self.now.0 }
    {
        &self.0
    }
}

impl AsMut<OctetString> for SubjectKeyIdentifier {
    ghost use Rattle.std.specs.Borrow.{sem, Lends};
    ghost use Rattle.x509_cert_policies.specs.Types.OctetStringContracts.OctetString.{the_row as inner_row};
    ghost use Rattle.x509_cert_extensions.specs.contracts.subject_key_identifier.SubjectKeyIdentifier.{the_row};

    fn as_mut(&mut self) -> &mut OctetString
        ensures* writes_back { sem 𝓛 (Lends the_row inner_row self.entry result
            (λ w. record { 0 = w })) }
        ensures value { result.now ≡ self.old.0 }
    {
        &mut self.0
    }
}
