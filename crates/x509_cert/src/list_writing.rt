//! Encoding the signed parts of CRLs and CSRs, and showing that they have an encoding.
//!
//! All parts of a signed part are in range, so that it can lack an encoding only because of its
//! length. This holds for every serial number, whatever the profile accepts. The functions whose
//! names end in `in_range` state such facts as their contracts and do nothing.

ghost use Rattle.std.specs.Prelude.{◌≡◌, ◌⊎◌, None, IfOk, IfErr};
ghost use Rattle.std.specs.List.{AllByRecursion};
ghost use Rattle.x509_cert_anchors.specs.Der.Shapes.{IsValid, octets_of};
ghost use Rattle.x509_cert_anchors.specs.Der.Grammar.{plain_list, plain_option};
ghost use Rattle.x509_cert_anchors.specs.Der.Ranges.{IsInRange};
ghost use Rattle.x509_cert_lists.specs.CertParts.Views.{extensions_plain};
ghost use Rattle.x509_cert_lists.specs.ListViews.{tbs_cert_list_plain, revoked_cert_plain};
ghost use Rattle.x509_cert_builders.specs.Refusals.{IsUnwritten, IsWantOfMemory};
ghost use Rattle.x509_cert.specs.Lists.{list_part, entries_field, extensions_field};
ghost use Rattle.x509_cert.specs.Lists.{raw_entry};

use std::alloc::Global;
use x509_cert_anchors::der::{Encode, InRange, ToDer};
use x509_cert_builders::Error;
use x509_cert_lists::cert_parts::{Extensions, Profile};
use x509_cert_lists::{RevokedCert, TbsCertList};

/// Encodes a value.
///
/// # Errors
///
/// - `Asn1` with the error of encoding the value: it has no encoding.
/// - `Asn1` with `OutOfMemory`: memory runs out.
pub(crate) fn written<T: Encode + InRange>(alloc: Global, value: &T) -> Result<Vec<u8>, Error>
    ensures octets { IfOk result (λ v. v.items ≡ octets_of T.shape (T.written value.now)) }
    ensures valid { IfOk result (λ _. IsValid T.shape (T.written value.now)) }
    ensures refused { IfErr result
        (λ e. IsWantOfMemory e ⊎ IsUnwritten T.shape (T.written value.now) e) }
{
    value.in_range();
    let octets = value.to_der(alloc)?;
    Ok(octets)
}

/// Encodes the signed part of a CRL. If it succeeds, the part has an encoding for every limit on
/// serial numbers.
///
/// # Errors
///
/// - `Asn1` with the error of encoding the part: it has no encoding.
/// - `Asn1` with `OutOfMemory`: memory runs out.
pub(crate) fn list_written<P: Profile>(
    alloc: Global,
    part: &TbsCertList<P>,
) -> Result<Vec<u8>, Error>
    ensures octets { IfOk result
        (λ v. v.items ≡ octets_of (list_part P.serial_limit) (tbs_cert_list_plain part.now)) }
    ensures valid { IfOk result (λ _. IsValid (list_part None) (tbs_cert_list_plain part.now)) }
    ensures refused { IfErr result (λ e. IsWantOfMemory e
        ⊎ IsUnwritten (list_part P.serial_limit) (tbs_cert_list_plain part.now) e) }
{
    list_in_range(part);
    let octets = part.to_der(alloc)?;
    Ok(octets)
}

fn entry_in_range<P: Profile>(entry: &RevokedCert<P>)
    ensures { IsInRange raw_entry (revoked_cert_plain entry.now) }
{
    entry.revocation_date.in_range();
    entry.crl_entry_extensions.in_range();
}

fn entries_in_range<P: Profile>(entries: &[RevokedCert<P>])
    ensures { AllByRecursion (IsInRange raw_entry) (plain_list revoked_cert_plain entries.now) }
{
    for one in entries {
        entry_in_range(one);
    }
}

fn revoked_in_range<P: Profile>(revoked: &Option<Vec<RevokedCert<P>>>)
    ensures { IsInRange entries_field
        (plain_option (λ rs. plain_list revoked_cert_plain rs.items) revoked.now) }
{
    match revoked {
        Some(entries) => entries_in_range(entries.as_slice()),
        None => {}
    }
}

fn field_in_range(made: &Option<Extensions>)
    ensures { IsInRange extensions_field (plain_option (λ e. extensions_plain e.items) made.now) }
{
    match made {
        Some(extensions) => extensions.in_range(),
        None => {}
    }
}

/// States that the signed part of a CRL is in range, for every limit on serial numbers.
pub(crate) fn list_in_range<P: Profile>(part: &TbsCertList<P>)
    ensures { IsInRange (list_part None) (tbs_cert_list_plain part.now) }
{
    part.version.in_range();
    part.signature.in_range();
    part.issuer.in_range();
    part.this_update.in_range();
    part.next_update.in_range();
    revoked_in_range(&part.revoked_certificates);
    field_in_range(&part.crl_extensions);
}
