//! Decodes the extensions that a chain is validated by (RFC 5280 4.2.1.3, 4.2.1.6, 4.2.1.9,
//! 4.2.1.12).
ghost use Rattle.std.specs.Prelude.{◌≡◌, ◌≢◌, ◌||◌, ℕ, List, [], true, IfOk, OnErr};
ghost use Rattle.cert_desk_bundle.specs.Oid.Bound.{Bound};
ghost use Rattle.cert_desk_bundle.specs.Oid.Comparing.{owned_eq};
ghost use Rattle.cert_desk_bundle.specs.Der.ErrorTypes.ErrorKind.{ErrorKind};
ghost use Rattle.cert_desk_bundle.specs.Der.Grammar.{plain_list, read_whole};
ghost use Rattle.cert_desk_bundle.specs.Der.Reading.{Gives};
ghost use Rattle.cert_desk_bundle.specs.Der.Shapes.{sequence_of};
ghost use Rattle.cert_desk_bundle.specs.CertParts.Views.{extension_plain, extensions_plain};
ghost use Rattle.cert_desk_rules.specs.Findings.{found, weight_of};
ghost use Rattle.cert_desk_rules.specs.Weighing.{any_purpose, extended_key_usage_in, is_ce};
ghost use Rattle.cert_desk_rules.specs.Weighing.{key_usage_in, may_take_memory, meaning_of};
ghost use Rattle.cert_desk_rules.specs.Weighing.{other_names, purposes, serves};
ghost use Rattle.cert_desk_rules.specs.Weighing.{subject_alt_name_in, uses, weigh};

use crate::constraints::weigh_constraints;
use crate::findings::Findings;
use crate::weight::Weight;
use cert_desk_bundle::cert_names::Name;
use cert_desk_bundle::cert_parts::Extension;
use cert_desk_bundle::der::making::{is_out_of_memory, leaf_from_der, read_whole};
use cert_desk_bundle::der::{Decode, Error, Explicit, Implicit, OneOf8, SliceReader};
use cert_desk_bundle::oid::ObjectIdentifier;
use cert_desk_bundle::types::{FlagSet, Ia5StringRef, OctetStringRef};
use std::alloc::{AllocError, Global};
use x509_cert_extensions::cert_general_names::{EdiPartyName, OtherName};
use x509_cert_extensions::{KeyUsage, KeyUsages};
use x509_cert_kinds::ExtensionKind;

// A GeneralName (RFC 5280 4.2.1.6) whose strings are borrowed from the bytes.
type NameLent<'a> = OneOf8<
    Implicit<OtherName, 0>,
    Implicit<Ia5StringRef<'a>, 1>,
    Implicit<Ia5StringRef<'a>, 2>,
    Explicit<Name, 4>,
    Implicit<EdiPartyName, 5>,
    Implicit<Ia5StringRef<'a>, 6>,
    Implicit<OctetStringRef<'a>, 7>,
    Implicit<ObjectIdentifier<39>, 8>,
>;

/// Returns the findings about the extensions of a certificate. Each is decoded at most once.
///
/// # Errors
///
/// - `AllocError`: memory runs out.
pub fn findings_of(
    alloc: Global,
    extensions: &[Extension],
    purpose: &ObjectIdentifier<39>,
) -> Result<Findings, AllocError>
    ensures found { IfOk result
        (λ findings. findings ≡ found Bound purpose.now (extensions_plain extensions.now)) }
    ensures memory { OnErr result (may_take_memory (extensions_plain extensions.now) ≡ true) }
{
    let mut findings = Findings::none();
    for extension in extensions {
        let weight = weigh(alloc, extension, purpose)?;
        findings.add(extension.critical, weight);
    }
    Ok(findings)
}

// Decodes an extension and returns the facts that the rules need.
fn weigh(
    alloc: Global,
    extension: &Extension,
    purpose: &ObjectIdentifier<39>,
) -> Result<Weight, AllocError>
    ensures weight { IfOk result
        (λ weight. weight ≡ weight_of purpose.now (weigh Bound (extension_plain extension.now))) }
    ensures memory { OnErr result ((is_ce 17 (extension_plain extension.now)
        || is_ce 37 (extension_plain extension.now)) ≡ true) }
{
    let octets = extension.extn_value.as_bytes();
    let Some(kind) = ExtensionKind::of(&extension.extn_id) else {
        return Ok(Weight::Unweighed);
    };
    match kind {
        ExtensionKind::KeyUsage => Ok(weigh_key_usage(alloc, octets)),
        ExtensionKind::SubjectAltName => weigh_names(alloc, octets),
        ExtensionKind::BasicConstraints => Ok(weigh_constraints(alloc, octets)),
        ExtensionKind::ExtKeyUsage => weigh_purposes(alloc, octets, purpose),
        _ => Ok(Weight::Unweighed),
    }
}

// Decodes a keyUsage. It doesn't allocate.
fn weigh_key_usage(alloc: Global, octets: &[u8]) -> Weight
    ensures { (purpose : List ℕ)
        → result ≡ weight_of purpose (meaning_of uses (key_usage_in octets.now)) }
{
    match leaf_from_der::<FlagSet<KeyUsages>>(alloc, octets) {
        Ok(usages) => Weight::KeyUsage {
            certifies: KeyUsage(usages).key_cert_sign(),
        },
        Err(_) => Weight::Malformed,
    }
}

// Decodes a SEQUENCE OF from all of the bytes. It is generic so that the list is checked once for
// all types.
fn list_in<'a, T: Decode<'a, SliceReader<'a>>>(
    alloc: Global,
    octets: &'a [u8],
) -> Result<Vec<T>, Error>
    ensures { Gives (λ list. (plain_list T.plain list.items, [])) result
        (read_whole (sequence_of T.shape) octets.now) }
{
    read_whole(alloc, octets)
}

// Decodes a subjectAltName.
fn weigh_names(alloc: Global, octets: &[u8]) -> Result<Weight, AllocError>
    ensures { IfOk result (λ weight. (purpose : List ℕ)
        → weight
        ≡ weight_of purpose (meaning_of other_names (subject_alt_name_in Bound octets.now))) }
{
    match list_in::<NameLent<'_>>(alloc, octets) {
        Ok(_) => Ok(Weight::AlternativeNames),
        Err(error) => malformed(error),
    }
}

// Decodes an extKeyUsage.
fn weigh_purposes(
    alloc: Global,
    octets: &[u8],
    purpose: &ObjectIdentifier<39>,
) -> Result<Weight, AllocError>
    ensures { IfOk result
        (λ weight. weight
        ≡ weight_of purpose.now
        (meaning_of purposes (extended_key_usage_in Bound octets.now))) }
{
    match list_in::<ObjectIdentifier<39>>(alloc, octets) {
        Ok(listed) => Ok(Weight::Purposes {
            serves: is_listed(purpose, listed.as_slice()),
        }),
        Err(error) => malformed(error),
    }
}

// Returns whether the list has this key purpose, or `anyExtendedKeyUsage`.
fn is_listed(purpose: &ObjectIdentifier<39>, listed: &[ObjectIdentifier<39>]) -> bool
    ensures { result ≡ serves purpose.now (purposes listed.now) }
{
    listed.iter().any(|one| *one == *purpose || is_any(one))
}

// Returns whether the key purpose is `anyExtendedKeyUsage`.
fn is_any(purpose: &ObjectIdentifier<39>) -> bool
    ensures { result ≡ owned_eq purpose.now any_purpose }
{
    purpose.as_bytes() == [0x55, 0x1d, 0x25, 0x00].as_slice()
}

// Returns the result for an extension that can't be decoded, or fails if memory ran out.
fn malformed(error: Error) -> Result<Weight, AllocError>
    ensures { IfOk result (λ weight. (weight ≡ Weight.Malformed)
        × (error.kind ≢ ErrorKind.OutOfMemory)) }
{
    if is_out_of_memory(&error) {
        return Err(AllocError);
    }
    Ok(Weight::Malformed)
}
