//! Encoding the TBSCertificate of a builder. All parts of it are in range, so that it can lack an
//! encoding only because of its length.

ghost use Rattle.std.specs.Prelude.{◌≡◌, ◌⊎◌, Some, IfOk, IfErr};
ghost use Rattle.x509_cert_certificates.specs.Oid.Bound.{Bound};
ghost use Rattle.x509_cert_certificates.specs.Der.Ranges.{IsInRange};
ghost use Rattle.x509_cert_certificates.specs.Der.Shapes.{IsValid, octets_of};
ghost use Rattle.x509_cert_certificates.specs.CertParts.SerialNumbers.{serial_octets_max};
ghost use Rattle.x509_cert_certificates.specs.CertParts.Views.{validity_plain};
ghost use Rattle.x509_cert_certificates.specs.CertParts.Grammar.{validity};
ghost use Rattle.x509_cert_certificates.specs.Certificates.{tbs_certificate};
ghost use Rattle.x509_cert_certificates.specs.Views.{tbs_plain};
ghost use Rattle.x509_cert_builders.specs.Refusals.{IsUnwritten, IsWantOfMemory};
ghost use Rattle.x509_cert_builders.specs.SignedParts.{part_shape, written_part, IsPartInRange};

use crate::build_error::Error;
use std::alloc::Global;
use x509_cert_certificates::TbsCertificate;
use x509_cert_certificates::cert_parts::Validity;
use x509_cert_certificates::der::{InRange, ToDer};

/// Encodes a TBSCertificate, with its dates as RFC 5280 4.1.2.5 requires.
///
/// # Errors
///
/// - `Asn1` with the error of encoding the value: it has no encoding.
/// - `Asn1` with `OutOfMemory`: memory runs out.
pub(crate) fn written(alloc: Global, part: &TbsCertificate) -> Result<Vec<u8>, Error>
    ensures octets { IfOk result
        (λ v. v.items ≡ octets_of part_shape (written_part (tbs_plain part.now))) }
    ensures valid { IfOk result (λ _. IsInRange part_shape (written_part (tbs_plain part.now))
        → IsValid part_shape (written_part (tbs_plain part.now))) }
    ensures refused { IfErr result
        (λ e. IsWantOfMemory e ⊎ IsUnwritten (tbs_certificate Bound (Some serial_octets_max))
        (written_part (tbs_plain part.now)) e) }
{
    let octets = part.to_der(alloc)?;
    Ok(octets)
}

/// States that the dates are in range. The function does nothing.
fn validity_in_range(dates: &Validity)
    ensures { IsInRange validity (validity_plain dates.now) }
{
    dates.not_before.in_range();
    dates.not_after.in_range();
}

/// States that the fields of a TBSCertificate are in range. The function does nothing.
pub(crate) fn part_in_range(part: &TbsCertificate)
    ensures { IsPartInRange (tbs_plain part.now) }
{
    part.signature().in_range();
    part.issuer().in_range();
    validity_in_range(part.validity());
    part.subject().in_range();
    part.subject_public_key_info().in_range();
    match part.extensions() {
        Some(extensions) => extensions.in_range(),
        None => {}
    }
}
