ghost use Rattle.std.specs.Prelude.{◌≡◌, ◌⊎◌, ◌∷◌, [], true, Ok, IsOk, IfOk, IfErr, IsPermutation};
ghost use Rattle.std.specs.List.{list_all};
ghost use Rattle.x509_cert_certificates.specs.Der.Copies.{IsCopy};
ghost use Rattle.x509_cert_certificates.specs.Der.Grammar.{plain_list};
ghost use Rattle.x509_cert_extensions.specs.CertGeneralNames.GeneralNameViews.{general_name_plain};
ghost use Rattle.x509_cert_certificates.specs.CertNames.Views.{name_plain};
ghost use Rattle.x509_cert_certificates.specs.CertNames.Pairs.{relative_plain};
ghost use Rattle.x509_cert_builders.specs.Naming.{common_name, country, is_among};
ghost use Rattle.x509_cert_builders.specs.Refusals.{IsWantOfMemory};
ghost use Rattle.x509_cert_builders.specs.Subscribers.{HasLongAttribute, KeepsDistinct};
ghost use Rattle.x509_cert_builders.specs.Subscribers.{SameAttributes, all_stays, attributes_left};
ghost use Rattle.x509_cert_builders.specs.Subscribers.{domain_subject, left_of, may_stay};
ghost use Rattle.x509_cert_builders.specs.Subscribers.{type_domains, type_plain, type_subject};

use crate::build_error::Error;
use crate::domain_validated::DomainValidated;
use std::alloc::{AllocError, Global};
use x509_cert_certificates::cert_names::{
    AttributeTypeAndValue, Name, RdnSequence, RelativeDistinguishedName, attribute_types as types,
};
use x509_cert_certificates::oid::ObjectIdentifier;
use x509_cert_extensions::cert_general_names::GeneralNames;

/// The validation that a CA performed for a subscriber (CA/Browser Forum, Baseline Requirements
/// 7.1.2.7.1).
#[derive(Debug, Drop, PartialEq)]
pub enum CertificateType {
    /// The CA validated the domains.
    DomainValidated(DomainValidated),
    /// The CA validated the identity of a person.
    IndividualValidated,
    /// The CA validated the identity of an organization.
    OrganizationValidated,
    /// The CA validated the identity of an organization by the guidelines for extended validation.
    ExtendedValidation,
}

/// Returns whether the subject of a domain-validated certificate may contain an attribute of this
/// type (CA/Browser Forum, Baseline Requirements 7.1.2.7.2).
fn may_stay(oid: &ObjectIdentifier<39>) -> bool
    ensures { result ≡ is_among (country ∷ common_name ∷ []) oid.now }
{
    *oid == types::country() || *oid == types::common_name()
}

/// Returns whether the subject of a domain-validated certificate may contain all of these
/// attributes (CA/Browser Forum, Baseline Requirements 7.1.2.7.2).
pub fn all_stay(attributes: &[AttributeTypeAndValue]) -> bool
    ensures { result ≡ list_all may_stay (relative_plain attributes.now) }
{
    for attribute in attributes {
        if !may_stay(&attribute.oid) {
            return false;
        }
    }
    true
}

/// Returns the attributes of an RDN that the subject of a domain-validated certificate may contain.
///
/// # Errors
///
/// - `Asn1` with `OutOfMemory`: memory runs out.
#[tactic(auto, using(crate::proofs::Subjects::plain_pushed, crate::proofs::Subjects::left_more, crate::proofs::Subjects::left_same, crate::proofs::Subjects::distinct_more, crate::proofs::Subjects::distinct_same))]
fn attributes_left(
    alloc: Global,
    relative: &RelativeDistinguishedName,
) -> Result<Vec<AttributeTypeAndValue>, Error>
    ensures left { IfOk result
        (λ v. relative_plain v.items ≡ left_of (relative_plain relative.now)) }
    ensures distinct { IfOk result (λ v. KeepsDistinct relative.now v.items) }
    ensures refused { IfErr result IsWantOfMemory }
{
    let mut left = Vec::new(alloc);
    for attribute in relative.iter() {
        if may_stay(&attribute.oid) {
            left.push(attribute.clone(alloc)?)?;
        }
    }
    Ok(left)
}

/// Returns the RDN with only the attributes that the subject of a domain-validated certificate may
/// contain.
///
/// # Errors
///
/// - `Asn1` with `Overflow`: the encoding of an attribute has 2^32 bytes or more.
/// - `Asn1` with `OutOfMemory`: memory runs out.
#[tactic(auto, using(crate::proofs::Cited::plain_permutation, crate::proofs::Subjects::left_whole))]
fn left_of(
    alloc: Global,
    relative: &RelativeDistinguishedName,
) -> Result<RelativeDistinguishedName, Error>
    ensures left { IfOk result
        (λ r. IsPermutation (left_of (relative_plain relative.now)) (relative_plain r)) }
    ensures same { list_all may_stay (relative_plain relative.now) ≡ true
        → IfOk result (λ r. relative_plain r ≡ relative_plain relative.now) }
    ensures refused { list_all may_stay (relative_plain relative.now) ≡ true
        → IfErr result IsWantOfMemory }
    ensures long { IfErr result
        (λ e. IsWantOfMemory e ⊎ HasLongAttribute (left_of (relative_plain relative.now)) e) }
{
    if all_stay(relative.as_slice()) {
        return Ok(relative.clone(alloc)?);
    }
    let attributes = attributes_left(alloc, relative)?;
    Ok(RelativeDistinguishedName::try_from_vec(attributes)?)
}

/// Returns the name with only the attributes that the subject of a domain-validated certificate may
/// contain, and without the RDNs that become empty.
///
/// # Errors
///
/// - `Asn1` with `Overflow`: the encoding of an attribute has 2^32 bytes or more.
/// - `Asn1` with `OutOfMemory`: memory runs out.
#[tactic(auto, using(crate::proofs::Subjects::left_none, crate::proofs::Subjects::left_all))]
fn name_left(alloc: Global, name: &Name) -> Result<Name, Error>
    ensures left { IfOk result
        (λ n. SameAttributes (domain_subject (name_plain name.now)) (name_plain n)) }
    ensures same { all_stays (name_plain name.now) ≡ true
        → IfOk result (λ n. name_plain n ≡ name_plain name.now) }
    ensures refused { all_stays (name_plain name.now) ≡ true → IfErr result IsWantOfMemory }
    ensures long { IfErr result
        (λ e. IsWantOfMemory e ⊎ HasLongAttribute (attributes_left (name_plain name.now)) e) }
{
    let mut kept = RdnSequence::default(alloc);
    for relative in name.iter_rdn() {
        let left = left_of(alloc, relative)?;
        if !left.is_empty() {
            kept.push(left)?;
        }
    }
    Ok(Name::hazmat_from_rdn_sequence(kept))
}

impl CertificateType {
    /// Returns the type of a subscriber whose domains were validated.
    ///
    /// Only countries and common names of the subject are kept. Other attributes are left out, and
    /// so are the RDNs that become empty (CA/Browser Forum, Baseline Requirements 7.1.2.7.2). The
    /// domains are in a certificate only if they are also added to its builder.
    ///
    /// # Errors
    ///
    /// - `Asn1` with `Overflow`: the encoding of an attribute has 2^32 bytes or more.
    /// - `Asn1` with `OutOfMemory`: memory runs out.
    pub fn domain_validated(
        alloc: Global,
        subject: Name,
        names: GeneralNames,
    ) -> Result<CertificateType, Error>
        ensures kind { IfOk result (λ t. IsOk (type_subject t)) }
        ensures subject { IfOk result
            (λ t. IfOk (type_subject t) (SameAttributes (domain_subject (name_plain subject)))) }
        ensures domains { IfOk result
            (λ t. type_domains t ≡ plain_list general_name_plain names.items) }
        ensures same { all_stays (name_plain subject) ≡ true
            → IfOk result (λ t. type_subject t ≡ Ok (name_plain subject)) }
        ensures refused { all_stays (name_plain subject) ≡ true → IfErr result IsWantOfMemory }
        ensures long { IfErr result
            (λ e. IsWantOfMemory e ⊎ HasLongAttribute (attributes_left (name_plain subject)) e) }
    {
        let subject = name_left(alloc, &subject)?;
        Ok(CertificateType::DomainValidated(DomainValidated { subject, names }))
    }

    /// Returns a copy.
    ///
    /// # Errors
    ///
    /// - `AllocError`: memory runs out.
    pub fn clone(&self, alloc: Global) -> Result<CertificateType, AllocError>
        ensures { IsCopy self.now result type_plain }
    {
        match self {
            Self::DomainValidated(validated) => Ok(Self::DomainValidated(validated.clone(alloc)?)),
            Self::IndividualValidated => Ok(Self::IndividualValidated),
            Self::OrganizationValidated => Ok(Self::OrganizationValidated),
            Self::ExtendedValidation => Ok(Self::ExtendedValidation),
        }
    }
}
