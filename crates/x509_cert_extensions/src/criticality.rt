//! The criticality that extensions get when they are added to a certificate or a CRL.

ghost use Rattle.x509_cert_policies.specs.CertParts.ExtensionTypes as markings;
ghost use Rattle.x509_cert_policies.specs.CertParts.ExtensionTypes.{marks};

use crate::{
    AuthorityInfoAccessSyntax, BaseCrlNumber, CrlDistributionPoints, CrlNumber, CrlReason,
    ExtendedKeyUsage, FreshestCrl, IssuerAltName, KeyUsage, SubjectAltName,
    SubjectDirectoryAttributes, SubjectInfoAccessSyntax, SubjectKeyIdentifier,
};
use x509_cert_general_names::cert_names::Name;
use x509_cert_general_names::{AuthorityKeyIdentifier, IssuingDistributionPoint, NameConstraints};
use x509_cert_policies::cert_parts::Extension;
use x509_cert_policies::timestamps::SignedCertificateTimestampList;
use x509_cert_policies::{
    BasicConstraints, CertificatePolicies, InhibitAnyPolicy, PolicyConstraints, PolicyMappings,
    PrivateKeyUsagePeriod,
};

/// Determines whether an extension is critical when it is added to a certificate or a CRL (RFC 5280
/// 4.2).
pub trait Criticality {
    ghost use Rattle.std.specs.Prelude.{◌≡◌, Bool, List};
    ghost use Rattle.x509_cert_policies.specs.CertParts.Grammar.{PlainExtension};
    ghost use Rattle.x509_cert_general_names.specs.CertNames.Names.{PlainName};
    ghost use Rattle.x509_cert_policies.specs.CertParts.Views.{extensions_plain};
    ghost use Rattle.x509_cert_general_names.specs.CertNames.Views.{name_plain};

    // The criticality for a subject and the extensions that are already present.
    ghost is_critical: { Self → PlainName → List PlainExtension → Bool };

    /// Returns whether the extension is critical, given the subject's name and the extensions that
    /// are already present.
    fn criticality(&self, subject: &Name, extensions: &[Extension]) -> bool
        ensures { result ≡ is_critical self.now (name_plain subject.now)
            (extensions_plain extensions.now) };
}

/// A rule for the criticality of all extensions of a type.
pub trait Marking {
    ghost use Rattle.std.specs.Prelude.{◌≡◌};
    ghost use Rattle.x509_cert_policies.specs.CertParts.ExtensionTypes.{Marking, marks};
    ghost use Rattle.x509_cert_general_names.specs.CertNames.Views.{name_plain};

    ghost marking: { Marking };

    /// Returns whether an extension of the type is critical in a certificate with this subject.
    fn is_critical_beside(subject: &Name) -> bool
        ensures { result ≡ marks marking (name_plain subject.now) };
}

/// The extensions of the type are always critical.
pub struct Always;

impl Marking for Always {
    ghost marking = { markings.always };

    fn is_critical_beside(_subject: &Name) -> bool {
        true
    }
}

/// The extensions of the type are never critical.
pub struct Never;

impl Marking for Never {
    ghost marking = { markings.never };

    fn is_critical_beside(_subject: &Name) -> bool {
        false
    }
}

/// The extensions of the type are critical if the subject's name is empty.
pub struct WithoutSubject;

impl Marking for WithoutSubject {
    ghost marking = { markings.without_subject };

    fn is_critical_beside(subject: &Name) -> bool {
        subject.is_empty()
    }
}

/// A type of extension whose criticality depends only on the type and the subject (RFC 5280 4.2,
/// 5.2, 5.3; RFC 6962 3.3).
pub trait Marked {
    type By: Marking;
}

impl<T: Marked> Criticality for T {
    ghost is_critical = { λ _ subject _. marks T.By.marking subject };

    fn criticality(&self, subject: &Name, _extensions: &[Extension]) -> bool {
        T::By::is_critical_beside(subject)
    }
}

impl Marked for SubjectAltName {
    type By = WithoutSubject;
}

impl Marked for AuthorityInfoAccessSyntax {
    type By = Never;
}

impl Marked for AuthorityKeyIdentifier {
    type By = Never;
}

impl Marked for BaseCrlNumber {
    type By = Always;
}

impl Marked for BasicConstraints {
    type By = Always;
}

impl Marked for CertificatePolicies {
    type By = Never;
}

impl Marked for CrlDistributionPoints {
    type By = Never;
}

impl Marked for CrlNumber {
    type By = Never;
}

impl Marked for ExtendedKeyUsage {
    type By = Never;
}

impl Marked for FreshestCrl {
    type By = Never;
}

impl Marked for InhibitAnyPolicy {
    type By = Always;
}

impl Marked for IssuerAltName {
    type By = Never;
}

impl Marked for IssuingDistributionPoint {
    type By = Always;
}

impl Marked for KeyUsage {
    type By = Always;
}

impl Marked for NameConstraints {
    type By = Always;
}

impl Marked for PolicyConstraints {
    type By = Always;
}

impl Marked for PolicyMappings {
    type By = Always;
}

impl Marked for PrivateKeyUsagePeriod {
    type By = Never;
}

impl Marked for SubjectInfoAccessSyntax {
    type By = Never;
}

impl Marked for SubjectKeyIdentifier {
    type By = Never;
}

impl Marked for CrlReason {
    type By = Never;
}

impl Marked for SignedCertificateTimestampList {
    type By = Never;
}

impl Marked for SubjectDirectoryAttributes {
    type By = Never;
}
