//! The extensions that profiles add, and the usages and purposes of keys in them.

ghost use Rattle.std.specs.Prelude.{◌≡◌, ◌⊎◌, ◌<◌, ◌++◌, ◌∷◌, [], false, pos, Some, None, OnOk};
ghost use Rattle.std.specs.Prelude.{IfOk, IfErr};
ghost use Rattle.x509_cert_certificates.specs.Der.Grammar.{plain_option, plain_list};
ghost use Rattle.x509_cert_certificates.specs.Der.Shapes.{IsValid};
ghost use Rattle.x509_cert_certificates.specs.CertNames.Views.{name_plain};
ghost use Rattle.x509_cert_certificates.specs.CertParts.ExtensionTypes.{id_ce};
ghost use Rattle.x509_cert_certificates.specs.CertParts.Views.{extensions_plain, key_lent};
ghost use Rattle.x509_cert_extensions.specs.Making.{extension_of};
ghost use Rattle.x509_cert_builders.specs.Profiles.{authority_key_extension, constraints_extension};
ghost use Rattle.x509_cert_builders.specs.Profiles.{purposes_extension, subject_key_extension};
ghost use Rattle.x509_cert_builders.specs.Profiles.{usage_extension, authority_uses, purposes};
ghost use Rattle.x509_cert_builders.specs.Refusals.{IsUnwritten, IsWantOfMemory};

use crate::build_error::Error;
use crate::identifiers::{client_auth, server_auth, x500};
use std::alloc::Global;
use x509_cert_certificates::cert_names::Name;
use x509_cert_certificates::cert_parts::{Extension, Extensions, SubjectPublicKeyInfoRef};
use x509_cert_certificates::der::Encode;
use x509_cert_certificates::der::making::copies_of;
use x509_cert_certificates::types::FlagSet;
use x509_cert_extensions::cert_general_names::AuthorityKeyIdentifier;
use x509_cert_extensions::policy_types::BasicConstraints;
use x509_cert_extensions::{
    Criticality, ExtendedKeyUsage, KeyUsage, KeyUsages, SubjectKeyIdentifier, ToExtension,
};

/// Appends the extension with this value. Its OID is `id-ce` with this number, and its criticality
/// is that of the value's type.
///
/// # Errors
///
/// - The errors of encoding the value.
/// - `Asn1` with `OutOfMemory`: memory runs out.
#[tactic(auto, using(crate::proofs::Subjects::plain_pushed, crate::proofs::Faults::not_made))]
pub(crate) fn add<T: Encode + Criticality>(
    alloc: Global,
    extensions: &mut Extensions,
    subject: &Name,
    number: u8,
    value: &T,
) -> Result<(), Error>
    requires { number < 128 }
    ensures added { OnOk result (extensions_plain extensions.new.items
        ≡ extensions_plain extensions.old.items
        ++ extension_of (id_ce number)
        (T.is_critical value.now (name_plain subject.now)
        (extensions_plain extensions.old.items)) T.shape (T.written value.now) ∷ []) }
    ensures refused { IsValid T.shape (T.written value.now) → IfErr result IsWantOfMemory }
    ensures fault { IfErr result
        (λ e. IsWantOfMemory e ⊎ IsUnwritten T.shape (T.written value.now) e) }
{
    let named = (x500(29, number), value);
    let extension = named.to_extension(alloc, subject, extensions.as_slice())?;
    extensions.push(extension)?;
    Ok(())
}

/// Appends the authority key identifier for the issuer's key (RFC 5280 4.2.1.1).
///
/// # Errors
///
/// - `Asn1` with `OutOfMemory`: memory runs out.
#[tactic(auto, using(crate::proofs::Encodable::authority_valid, crate::proofs::Encodable::is_digest))]
pub(crate) fn add_authority<'a>(
    alloc: Global,
    extensions: &mut Extensions,
    subject: &Name,
    key: &SubjectPublicKeyInfoRef<'a>,
) -> Result<(), Error>
    ensures added { OnOk result (extensions_plain extensions.new.items
        ≡ extensions_plain extensions.old.items
        ++ authority_key_extension (key_lent key.now) ∷ []) }
    ensures refused { IfErr result IsWantOfMemory }
{
    let authority = AuthorityKeyIdentifier::try_from_key(alloc, key)?;
    add(alloc, extensions, subject, 35, &authority)?;
    Ok(())
}

/// Appends the subject key identifier for the certified key (RFC 5280 4.2.1.2).
///
/// # Errors
///
/// - `Asn1` with `OutOfMemory`: memory runs out.
#[tactic(auto, using(crate::proofs::Encodable::identifier_valid, crate::proofs::Encodable::is_digest))]
pub(crate) fn add_identifier<'a>(
    alloc: Global,
    extensions: &mut Extensions,
    subject: &Name,
    key: &SubjectPublicKeyInfoRef<'a>,
) -> Result<(), Error>
    ensures added { OnOk result (extensions_plain extensions.new.items
        ≡ extensions_plain extensions.old.items
        ++ subject_key_extension (key_lent key.now) ∷ []) }
    ensures refused { IfErr result IsWantOfMemory }
{
    let identifier = SubjectKeyIdentifier::try_from_key(alloc, key)?;
    add(alloc, extensions, subject, 14, &identifier)?;
    Ok(())
}

/// Appends the basic constraints (RFC 5280 4.2.1.9).
///
/// # Errors
///
/// - `Asn1` with `OutOfMemory`: memory runs out.
#[tactic(auto, using(crate::proofs::Encodable::constraints_valid))]
pub(crate) fn add_constraints(
    alloc: Global,
    extensions: &mut Extensions,
    subject: &Name,
    ca: bool,
    path_len_constraint: Option<u8>,
) -> Result<(), Error>
    ensures added { OnOk result (extensions_plain extensions.new.items
        ≡ extensions_plain extensions.old.items
        ++ constraints_extension ca (plain_option (λ n. pos n) path_len_constraint) ∷ []) }
    ensures refused { IfErr result IsWantOfMemory }
{
    let constraints = BasicConstraints {
        ca,
        path_len_constraint,
    };
    add(alloc, extensions, subject, 19, &constraints)?;
    Ok(())
}

/// Appends the key usage (RFC 5280 4.2.1.3).
///
/// # Errors
///
/// - `Asn1` with `OutOfMemory`: memory runs out.
#[tactic(auto, using(crate::proofs::Encodable::use_valid))]
pub(crate) fn add_usage(
    alloc: Global,
    extensions: &mut Extensions,
    subject: &Name,
    usage: KeyUsage,
) -> Result<(), Error>
    ensures added { OnOk result (extensions_plain extensions.new.items
        ≡ extensions_plain extensions.old.items
        ++ usage_extension usage.0.flags.0 ∷ []) }
    ensures refused { IfErr result IsWantOfMemory }
{
    add(alloc, extensions, subject, 15, &usage)?;
    Ok(())
}

/// Appends the extended key usage for TLS servers and, if `clients` is true, TLS clients (RFC 5280
/// 4.2.1.12).
///
/// # Errors
///
/// - `Asn1` with `OutOfMemory`: memory runs out.
#[tactic(auto, using(crate::proofs::Encodable::purposes_valid))]
pub(crate) fn add_purposes(
    alloc: Global,
    extensions: &mut Extensions,
    subject: &Name,
    clients: bool,
) -> Result<(), Error>
    ensures added { OnOk result (extensions_plain extensions.new.items
        ≡ extensions_plain extensions.old.items
        ++ purposes_extension clients ∷ []) }
    ensures refused { IfErr result IsWantOfMemory }
{
    let purposes = purposes_of(alloc, clients)?;
    add(alloc, extensions, subject, 37, &purposes)?;
    Ok(())
}

/// Returns copies of the first extensions, followed by the second ones.
///
/// # Errors
///
/// - `Asn1` with `OutOfMemory`: memory runs out.
pub(crate) fn joined(
    alloc: Global,
    added: &[Extension],
    mut more: Extensions,
) -> Result<Extensions, Error>
    ensures joined { IfOk result (λ v. extensions_plain v.items ≡ extensions_plain added.now
        ++ extensions_plain more.items) }
    ensures refused { IfErr result IsWantOfMemory }
{
    if added.is_empty() {
        return Ok(more);
    }
    let mut all = copies_of(alloc, added, Extension::clone)?;
    all.append(&mut more)?;
    Ok(all)
}

/// Returns the key usage of a CA: signing certificates and CRLs and, if it signs OCSP responses,
/// digital signatures.
pub(crate) fn authority_usage(emits_ocsp_response: bool) -> KeyUsage
    ensures { result.0.flags.0 ≡ authority_uses emits_ocsp_response }
{
    let certificates = FlagSet::from_flag(KeyUsages::KeyCertSign);
    let uses = certificates.union(FlagSet::from_flag(KeyUsages::CRLSign));
    if emits_ocsp_response {
        return KeyUsage(uses.union(FlagSet::from_flag(KeyUsages::DigitalSignature)));
    }
    KeyUsage(uses)
}

/// Returns the extended key usage for TLS servers and, if `clients` is true, TLS clients.
///
/// # Errors
///
/// - `Asn1` with `OutOfMemory`: memory runs out.
pub(crate) fn purposes_of(alloc: Global, clients: bool) -> Result<ExtendedKeyUsage, Error>
    ensures purposes { IfOk result (λ u. plain_list (λ a. a) u.0.items ≡ purposes clients) }
    ensures refused { IfErr result IsWantOfMemory }
{
    let mut purposes = Vec::new(alloc);
    purposes.push(server_auth())?;
    if clients {
        purposes.push(client_auth())?;
    }
    Ok(ExtendedKeyUsage(purposes))
}
