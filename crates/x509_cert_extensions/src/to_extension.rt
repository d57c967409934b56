//! Turning values into extensions.

ghost use Rattle.std.specs.Prelude.{◌≡◌, IfOk, IfErr};
ghost use Rattle.x509_cert_policies.specs.CertParts.Views.{extension_plain};
ghost use Rattle.x509_cert_extensions.specs.Making.{extension_of, IsNotMade};

use crate::criticality::Criticality;
use std::alloc::Global;
use x509_cert_general_names::cert_names::Name;
use x509_cert_policies::cert_parts::Extension;
use x509_cert_policies::der::{Encode, Error, ToDer};
use x509_cert_policies::oid::{AssociatedOid, ObjectIdentifier};
use x509_cert_policies::types::OctetString;

/// A value that can be turned into an extension of a certificate or a CRL (RFC 5280 4.2).
pub trait ToExtension {
    ghost use Rattle.std.specs.Prelude.{◌≡◌, List, IfOk, IfErr};
    ghost use Rattle.x509_cert_policies.specs.CertParts.Grammar.{PlainExtension};
    ghost use Rattle.x509_cert_general_names.specs.CertNames.Names.{PlainName};
    ghost use Rattle.x509_cert_policies.specs.CertParts.Views.{extension_plain, extensions_plain};
    ghost use Rattle.x509_cert_general_names.specs.CertNames.Views.{name_plain};

    /// The error of a failed call.
    type Error: From<Error>;

    // The extension, given the subject's name and the extensions that are already present.
    ghost made: { Self → PlainName → List PlainExtension → PlainExtension };

    // The relation between a value and the error with which the call may fail for it.
    ghost refused: { Self → Self.Error → Type 0 };

    /// Returns the extension, given the subject's name and the extensions that are already present.
    ///
    /// # Errors
    ///
    /// - The errors that the implementation states, for example those of encoding the value.
    fn to_extension(
        self,
        alloc: Global,
        subject: &Name,
        extensions: &[Extension],
    ) -> Result<Extension, Self::Error>
        ensures ok { IfOk result
            (λ e. extension_plain e ≡ made self (name_plain subject.now)
            (extensions_plain extensions.now)) }
        ensures err { IfErr result (λ e. refused self e) };
}

/// Returns the extension with this OID whose content is the encoding of the value.
///
/// # Errors
///
/// - The errors of encoding the value.
/// - `OutOfMemory`: memory runs out.
fn extension_of<T: Encode>(
    alloc: Global,
    identifier: ObjectIdentifier<39>,
    critical: bool,
    value: &T,
) -> Result<Extension, Error>
    ensures made { IfOk result
        (λ e. extension_plain e ≡ extension_of identifier critical T.shape (T.written value.now)) }
    ensures refused { IfErr result (λ e. IsNotMade T.shape (T.written value.now) e.kind) }
{
    let content = value.to_der(alloc)?;
    let extn_value = OctetString::new(content)?;
    Ok(Extension {
        extn_id: identifier,
        critical,
        extn_value,
    })
}

/// The extension has the OID and the criticality of the value's type.
impl<'a, T: Encode + AssociatedOid + Criticality> ToExtension for &'a T {
    type Error = Error;

    ghost made = { λ x subject extensions. extension_of T.oid_arcs
        (T.is_critical x.now subject extensions)
        T.shape (T.written x.now) };

    ghost refused = { λ x e. IsNotMade T.shape (T.written x.now) e.kind };

    fn to_extension(
        self,
        alloc: Global,
        subject: &Name,
        extensions: &[Extension],
    ) -> Result<Extension, Error> {
        let critical = self.criticality(subject, extensions);
        extension_of(alloc, T::associated_oid(), critical, self)
    }
}

/// The extension is unchanged.
impl ToExtension for Extension {
    type Error = Error;

    ghost made = { λ x _ _. extension_plain x };

    ghost refused = { λ _ _. ⊥ };

    fn to_extension(
        self,
        _alloc: Global,
        _subject: &Name,
        _extensions: &[Extension],
    ) -> Result<Extension, Error> {
        Ok(self)
    }
}

/// The extension has this OID, and the criticality of the value's type.
impl<'a, T: Encode + Criticality> ToExtension for (ObjectIdentifier<39>, &'a T) {
    type Error = Error;

    ghost made = { λ x subject extensions. extension_of x.0
        (T.is_critical x.1.now subject extensions)
        T.shape (T.written x.1.now) };

    ghost refused = { λ x e. IsNotMade T.shape (T.written x.1.now) e.kind };

    fn to_extension(
        self,
        alloc: Global,
        subject: &Name,
        extensions: &[Extension],
    ) -> Result<Extension, Error> {
        let (identifier, value) = self;
        let critical = value.criticality(subject, extensions);
        extension_of(alloc, identifier, critical, value)
    }
}

/// The extension has this criticality, and the OID of the value's type.
impl<'a, T: Encode + AssociatedOid> ToExtension for (bool, &'a T) {
    type Error = Error;

    ghost made = { λ x _ _. extension_of T.oid_arcs x.0 T.shape (T.written x.1.now) };

    ghost refused = { λ x e. IsNotMade T.shape (T.written x.1.now) e.kind };

    fn to_extension(
        self,
        alloc: Global,
        _subject: &Name,
        _extensions: &[Extension],
    ) -> Result<Extension, Error> {
        let (critical, value) = self;
        extension_of(alloc, T::associated_oid(), critical, value)
    }
}

/// The extension has this OID and this criticality.
impl<'a, T: Encode> ToExtension for (ObjectIdentifier<39>, bool, &'a T) {
    type Error = Error;

    ghost made = { λ x _ _. extension_of x.0 x.1 T.shape (T.written x.2.now) };

    ghost refused = { λ x e. IsNotMade T.shape (T.written x.2.now) e.kind };

    fn to_extension(
        self,
        alloc: Global,
        _subject: &Name,
        _extensions: &[Extension],
    ) -> Result<Extension, Error> {
        let (identifier, critical, value) = self;
        extension_of(alloc, identifier, critical, value)
    }
}
