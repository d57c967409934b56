//! The naming rules for CAs (CA/Browser Forum, Baseline Requirements 7.1.4.1, 7.1.2.10.2).

ghost use Rattle.std.specs.Prelude.{◌≡◌, Ok, Err, not, true, Option, Some, None, IfOk, find};
ghost use Rattle.x509_cert_certificates.specs.CertNames.Views.{name_plain};
ghost use Rattle.x509_cert_builders.specs.Naming.{authority_types, is_among, name_types};
ghost use Rattle.x509_cert_builders.specs.Naming.{has_required, Names, NamesAuthority};

use crate::attribute_types::authority_types;
use crate::build_error::Error;
use crate::types_before::TypesBefore;
use std::alloc::Global;
use x509_cert_certificates::cert_names::{Name, attribute_types as types};
use x509_cert_certificates::oid::ObjectIdentifier;

/// Checks the rules for all names, and returns the attribute types in the order of the name.
///
/// # Errors
///
/// - The errors of `check_names_encoding`.
#[tactic(auto, using(crate::proofs::Subjects::checked_none, crate::proofs::Subjects::checked_more, crate::proofs::Subjects::checked_fault, crate::proofs::Subjects::checked_all))]
fn types_of(
    alloc: Global,
    name: &Name,
    multiple_allowed: bool,
) -> Result<Vec<ObjectIdentifier<39>>, Error>
    ensures rules { Names multiple_allowed (name_plain name.now) result }
    ensures types { IfOk result (λ v. v.items ≡ name_types (name_plain name.now)) }
{
    let mut found = TypesBefore::new(alloc);
    for relative in name.iter_rdn() {
        let oid = found.type_behind(relative, multiple_allowed)?;
        found = found.and(oid)?;
    }
    Ok(found.into_types())
}

/// Checks the rules for all names (CA/Browser Forum, Baseline Requirements 7.1.4.1):
///
/// - Each RDN has exactly one attribute.
/// - No attribute type occurs twice, unless `multiple_allowed` is true.
/// - The attribute types whose order is fixed are in that order, each at most once.
///
/// # Errors
///
/// The error of the first RDN that breaks a rule is returned, unless memory runs out.
///
/// - `NonUniqueRdn`: the RDN doesn't have exactly one attribute.
/// - `NonUniqueATV`: the attribute type occurs twice.
/// - `InvalidAttribute` with the attribute type: it isn't allowed after those before it.
/// - `Asn1` with `OutOfMemory`: memory runs out.
pub fn check_names_encoding(alloc: Global, name: &Name, multiple_allowed: bool) -> Result<(), Error>
    ensures { Names multiple_allowed (name_plain name.now) result }
{
    types_of(alloc, name, multiple_allowed)?;
    Ok(())
}

/// Returns whether the OID is in the list.
fn is_among(types: &[ObjectIdentifier<39>], oid: &ObjectIdentifier<39>) -> bool
    ensures { result ≡ is_among types.now oid.now }
{
    types.contains(oid)
}

/// Returns the first attribute type that the name of a CA must not contain, if any.
fn foreign_type(
    allowed: &[ObjectIdentifier<39>],
    found: &[ObjectIdentifier<39>],
) -> Option<ObjectIdentifier<39>>
    ensures { result ≡ find (λ u. not (is_among allowed.now u)) found.now }
{
    for place in 0..found.len() {
        if !is_among(allowed, &found[place]) {
            return Some(found[place]);
        }
    }
    None
}

/// Returns whether these types include all that the name of a CA must contain.
fn has_required(found: &[ObjectIdentifier<39>]) -> bool
    ensures { result ≡ has_required found.now }
{
    found.contains(&types::country())
        && found.contains(&types::organization())
        && found.contains(&types::common_name())
}

/// Checks the name of a CA (CA/Browser Forum, Baseline Requirements 7.1.2.10.2):
///
/// - It keeps the rules for all names, and no attribute type occurs twice.
/// - It contains a country, an organization and a common name.
/// - Beyond these, it contains at most a state or province, a locality, a postal code and a street
///   address.
///
/// # Errors
///
/// - The errors of `check_names_encoding`.
/// - `InvalidAttribute` with the attribute type: the first that the name must not contain.
/// - `MissingAttributes`: a required attribute is missing.
/// - `Asn1` with `OutOfMemory`: memory runs out.
#[tactic(auto, using(crate::proofs::Subjects::lacking))]
pub fn ca_certificate_naming(alloc: Global, subject: &Name) -> Result<(), Error>
    ensures { NamesAuthority (name_plain subject.now) result }
{
    let found = types_of(alloc, subject, false)?;
    match foreign_type(&authority_types(), found.as_slice()) {
        Some(oid) => return Err(Error::InvalidAttribute { oid }),
        None => {}
    }
    if has_required(found.as_slice()) {
        return Ok(());
    }
    Err(Error::MissingAttributes)
}
