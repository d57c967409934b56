//! The parts of a certificate.
ghost use Rattle.std.specs.Prelude.{◌≡◌, ◌≢◌, take};
ghost use Rattle.cert_tool_describe.specs.Types.Seconds.{unix_seconds};
ghost use Rattle.cert_tool_describe.specs.CertCertificates.Certificates.{not_after, not_before};
ghost use Rattle.cert_tool_describe.specs.CertCertificates.Views.{certificate_plain};
ghost use Rattle.cert_desk_listing.specs.DeskIo.declared.exit_status.ExitStatus.TheVariants.{Device};
ghost use Rattle.cert_desk_listing.specs.DeskIo.declared.exit_status.ExitStatus.TheVariants.{Done};
ghost use Rattle.cert_desk_listing.specs.DeskIo.declared.exit_status.ExitStatus.TheVariants.{Faulty};
ghost use Rattle.cert_desk_listing.specs.DeskIo.Statuses.{code_of};
ghost use Rattle.cert_desk_answers.specs.DeskRules.Returned.{IsExactWithMemory, IsFaultyStatus};
ghost use Rattle.cert_desk_answers.specs.DeskRules.Returned.{IsTextStatus, IsValueStatus};
ghost use Rattle.cert_desk_answers.specs.DeskRules.Rooms.{ChangesFront, IsUnsized, Wants};
ghost use Rattle.cert_tool_describe.specs.Files.{IsCertificate};
ghost use Rattle.cert_desk_c.specs.Places.{ArePlaced};
ghost use Rattle.cert_desk_c.specs.Values.{IsIssuerText, IsNoCertificate, IsOfCertificate};
ghost use Rattle.cert_desk_c.specs.Values.{IsSubjectText};

use crate::names::text_of;
use crate::places::{WdSpans, parts_in};
use crate::reading::certificate_of;
use cert_desk_answers::desk_rules::{code, give};
use cert_desk_listing::desk_io::ExitStatus;
use cert_tool_describe::cert_certificates::CertificateInner;
use cert_tool_describe::cert_parts::Raw;
use std::alloc::Global;

/// The validity period of a certificate (RFC 5280 4.1.2.5).
#[repr(C)]
pub struct WdValidity {
    /// The first second of the period, since 1970-01-01T00:00:00Z.
    pub not_before: u64,
    /// The last second of the period, since 1970-01-01T00:00:00Z.
    pub not_after: u64,
}

/// Writes the text of the subject's name (RFC 4514) to `out`. Returns 0, 2 if the bytes aren't a
/// certificate, 5 if the buffer is too small, or 6 if an allocation fails.
#[unsafe(no_mangle)]
pub extern "C" fn wd_subject(alloc: Global, octets: &[u8], out: &mut [u8], size: &mut usize) -> u32
    ensures statuses { IsExactWithMemory (IsTextStatus (IsSubjectText octets.now)
        (IsFaultyStatus (IsNoCertificate octets.now)) out.old) result }
    ensures done { result ≡ code_of Done → IsSubjectText octets.now (take size.new out.new) }
    ensures no_room { result ≡ code_of Device
        → Wants (IsSubjectText octets.now) out.old size.new }
    ensures not_spelled { result ≡ code_of Faulty → IsNoCertificate octets.now }
    ensures front { result ≡ code_of Done → ChangesFront size.new out.old out.new }
    ensures untouched { result ≢ code_of Done → out.new ≡ out.old }
    ensures no_size { IsUnsized result size.new }
{
    *size = 0;
    let certificate = match certificate_of(alloc, octets) {
        Ok(certificate) => certificate,
        Err(status) => return code(status),
    };
    let Ok(text) = text_of(alloc, certificate.tbs_certificate().subject()) else {
        return code(ExitStatus::Memory);
    };
    give(text.as_bytes(), out, size)
}

/// Writes the text of the issuer's name (RFC 4514) to `out`. Returns 0, 2 if the bytes aren't a
/// certificate, 5 if the buffer is too small, or 6 if an allocation fails.
#[unsafe(no_mangle)]
pub extern "C" fn wd_issuer(alloc: Global, octets: &[u8], out: &mut [u8], size: &mut usize) -> u32
    ensures statuses { IsExactWithMemory (IsTextStatus (IsIssuerText octets.now)
        (IsFaultyStatus (IsNoCertificate octets.now)) out.old) result }
    ensures done { result ≡ code_of Done → IsIssuerText octets.now (take size.new out.new) }
    ensures no_room { result ≡ code_of Device
        → Wants (IsIssuerText octets.now) out.old size.new }
    ensures not_spelled { result ≡ code_of Faulty → IsNoCertificate octets.now }
    ensures front { result ≡ code_of Done → ChangesFront size.new out.old out.new }
    ensures untouched { result ≢ code_of Done → out.new ≡ out.old }
    ensures no_size { IsUnsized result size.new }
{
    *size = 0;
    let certificate = match certificate_of(alloc, octets) {
        Ok(certificate) => certificate,
        Err(status) => return code(status),
    };
    let Ok(text) = text_of(alloc, certificate.tbs_certificate().issuer()) else {
        return code(ExitStatus::Memory);
    };
    give(text.as_bytes(), out, size)
}

// Stores the validity period of a certificate.
fn tell_validity(certificate: &CertificateInner<Raw>, dates: &mut WdValidity)
    ensures not_before { dates.new.not_before
        ≡ unix_seconds (not_before (certificate_plain certificate.now)) }
    ensures not_after { dates.new.not_after
        ≡ unix_seconds (not_after (certificate_plain certificate.now)) }
{
    let validity = certificate.tbs_certificate().validity();
    dates.not_before = validity.not_before.to_date_time().unix_seconds();
    dates.not_after = validity.not_after.to_date_time().unix_seconds();
}

/// Stores the validity period of a certificate in `dates`. Returns 0, 2 if the bytes aren't a
/// certificate, or 6 if an allocation fails.
#[unsafe(no_mangle)]
pub extern "C" fn wd_dates(alloc: Global, octets: &[u8], dates: &mut WdValidity) -> u32
    ensures statuses { IsExactWithMemory (IsValueStatus (IsCertificate octets.now)
        (IsNoCertificate octets.now)) result }
    ensures done { result ≡ code_of Done → IsOfCertificate octets.now
        (λ c. (dates.new.not_before ≡ unix_seconds (not_before c))
        × (dates.new.not_after ≡ unix_seconds (not_after c))) }
    ensures not_spelled { result ≡ code_of Faulty → IsNoCertificate octets.now }
    ensures untouched { result ≢ code_of Done → dates.new ≡ dates.old }
{
    let certificate = match certificate_of(alloc, octets) {
        Ok(certificate) => certificate,
        Err(status) => return code(status),
    };
    tell_validity(&certificate, dates);
    code(ExitStatus::Done)
}

/// Stores the positions of the parts of a certificate in `spans`. Returns 0, 2 if the bytes aren't
/// a certificate, or 6 if an allocation fails.
#[unsafe(no_mangle)]
pub extern "C" fn wd_parts(alloc: Global, octets: &[u8], spans: &mut WdSpans) -> u32
    ensures statuses { IsExactWithMemory (IsValueStatus (IsCertificate octets.now)
        (IsNoCertificate octets.now)) result }
    ensures done { result ≡ code_of Done
        → IsOfCertificate octets.now (λ c. ArePlaced octets.now c spans.new) }
    ensures not_spelled { result ≡ code_of Faulty → IsNoCertificate octets.now }
    ensures untouched { result ≢ code_of Done → spans.new ≡ spans.old }
{
    let _certificate = match certificate_of(alloc, octets) {
        Ok(certificate) => certificate,
        Err(status) => return code(status),
    };
    let (all, _) = parts_in(octets);
    *spans = all;
    code(ExitStatus::Done)
}
