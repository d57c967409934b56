//! The extensions of a certificate.
ghost use Rattle.std.specs.Prelude.{◌≡◌, ◌≢◌, ◌++◌, ℕ, List, Some, None};
ghost use Rattle.cert_tool_describe.specs.Oid.Bound.{Bound};
ghost use Rattle.cert_tool_describe.specs.Der.Shapes.{Spells, many, octets_of, body_octets};
ghost use Rattle.cert_tool_describe.specs.Der.Shapes.{IsValid, IsBody};
ghost use Rattle.cert_tool_describe.specs.CertParts.Grammar.{PlainExtension, extension};
ghost use Rattle.cert_tool_describe.specs.CertParts.Grammar.{extension_octets};
ghost use Rattle.cert_tool_describe.specs.CertParts.Grammar.{is_critical};
ghost use Rattle.cert_tool_describe.specs.CertParts.Views.{extensions_plain};
ghost use Rattle.cert_tool_describe.specs.CertCertificates.Certificates.{extensions_of};
ghost use Rattle.cert_tool_describe.specs.CertCertificates.Certificates.{raw_certificate};
ghost use Rattle.cert_tool_describe.specs.CertCertificates.Views.{certificate_plain};
ghost use Rattle.cert_desk_listing.specs.DeskIo.declared.exit_status.ExitStatus.TheVariants.{Done};
ghost use Rattle.cert_desk_listing.specs.DeskIo.declared.exit_status.ExitStatus.TheVariants.{Empty};
ghost use Rattle.cert_desk_listing.specs.DeskIo.declared.exit_status.ExitStatus.TheVariants.{Faulty};
ghost use Rattle.cert_desk_listing.specs.DeskIo.declared.exit_status.ExitStatus.TheVariants.{Memory};
ghost use Rattle.cert_desk_listing.specs.DeskIo.Statuses.{code_of};
ghost use Rattle.cert_desk_answers.specs.DeskRules.Identifiers.{IsSomeIdentifier, SpellsIdentifier};
ghost use Rattle.cert_desk_answers.specs.DeskRules.Returned.{IsExactWithMemory};
ghost use Rattle.cert_desk_c.specs.Places.{IsFound, IsRest, StandsAt};
ghost use Rattle.cert_desk_c.specs.Values.{IsExtensionStatus, IsNoCertificate, IsOfCertificate};
ghost use Rattle.cert_desk_c.specs.Values.{first_extension};

use crate::places::{WdSpan, behind, behind_where, inside, part, parts_in};
use crate::reading::certificate_of;
use cert_desk_answers::desk_rules::code;
use cert_desk_listing::desk_io::ExitStatus;
use cert_tool_describe::cert_certificates::CertificateInner;
use cert_tool_describe::cert_parts::{Extension, Raw};
use cert_tool_describe::oid::ObjectIdentifier;
use std::alloc::Global;

// Returns the position of the content of the extension with which `rest` begins.
fn content_in(octets: &[u8], rest: &[u8], critical: bool) -> WdSpan
    ensures { (e : PlainExtension) (w : List ℕ) → IsRest octets.now rest.now
        → IsValid (extension Bound) e → rest.now ≡ octets_of (extension Bound) e ++ w
        → critical ≡ is_critical e → StandsAt octets.now result (extension_octets e) }
{
    let fields = inside(rest);
    let marking = behind(fields);
    let value = behind_where(marking, critical);
    let content = inside(value);
    let end = behind(value);
    part(octets, content, end)
}

// Finds the first extension with this OID among those with which `rest` begins. Returns the
// position of its content, and whether it is critical.
fn extension_in(
    octets: &[u8],
    identifier: &ObjectIdentifier<39>,
    extensions: &[Extension],
    rest: &[u8],
) -> Option<(WdSpan, bool)>
    ensures { (w : List ℕ) → IsRest octets.now rest.now
        → IsBody (many (extension Bound)) (extensions_plain extensions.now)
        → rest.now ≡ body_octets (many (extension Bound)) (extensions_plain extensions.now) ++ w
        → IsFound octets.now
        (first_extension identifier.now (extensions_plain extensions.now)) result }
{
    let [first, left @ ..] = extensions else {
        return None;
    };
    if first.extn_id == *identifier {
        let content = content_in(octets, rest, first.critical);
        return Some((content, first.critical));
    }
    extension_in(octets, identifier, left, behind(rest))
}

// Finds the first extension with this OID in a certificate. Returns the position of its content in
// the certificate's bytes, and whether it is critical.
fn extension_of(
    octets: &[u8],
    identifier: &ObjectIdentifier<39>,
    certificate: &CertificateInner<Raw>,
) -> Option<(WdSpan, bool)>
    ensures { Spells (raw_certificate Bound) (certificate_plain certificate.now) octets.now
        → IsFound octets.now
        (first_extension identifier.now (extensions_of (certificate_plain certificate.now)))
        result }
{
    let tbs = certificate.tbs_certificate();
    let Some(extensions) = tbs.extensions() else {
        return None;
    };
    let (_, ids) = parts_in(octets);
    let subject_id = behind_where(ids, tbs.issuer_unique_id().is_some());
    let field = behind_where(subject_id, tbs.subject_unique_id().is_some());
    let list = inside(field);
    let rest = inside(list);
    extension_in(octets, identifier, extensions.as_slice(), rest)
}

/// Stores the position of the content of a certificate's first extension with an OID, and whether
/// it is critical. The OID is given as its content bytes. Returns 0, 2 if the bytes aren't a
/// certificate, 3 if it has no such extension, 4 if `identifier` isn't an OID of at most 39 bytes,
/// or 6 if an allocation fails.
#[unsafe(no_mangle)]
pub extern "C" fn wd_extension(
    alloc: Global,
    octets: &[u8],
    identifier: &[u8],
    span: &mut WdSpan,
    critical: &mut bool,
) -> u32
    ensures statuses { IsExactWithMemory (IsExtensionStatus octets.now identifier.now) result }
    ensures done { result ≡ code_of Done → (arcs : List ℕ) × SpellsIdentifier identifier.now arcs
        × IsOfCertificate octets.now (λ c. (e : PlainExtension)
        × (first_extension arcs (extensions_of c) ≡ Some e)
        × StandsAt octets.now span.new (extension_octets e)
        × (critical.new ≡ is_critical e)) }
    ensures absent { result ≡ code_of Empty → (arcs : List ℕ) × SpellsIdentifier identifier.now arcs
        × IsOfCertificate octets.now (λ c. first_extension arcs (extensions_of c) ≡ None) }
    ensures not_spelled { result ≡ code_of Faulty → IsNoCertificate octets.now }
    ensures no_memory { result ≡ code_of Memory → IsSomeIdentifier identifier.now }
    ensures untouched { result ≢ code_of Done
        → (span.new ≡ span.old) × (critical.new ≡ critical.old) }
{
    let Ok(identifier) = ObjectIdentifier::<39>::from_bytes(identifier) else {
        return code(ExitStatus::Arguments);
    };
    let certificate = match certificate_of(alloc, octets) {
        Ok(certificate) => certificate,
        Err(status) => return code(status),
    };
    let Some((content, is_critical)) = extension_of(octets, &identifier, &certificate) else {
        return code(ExitStatus::Empty);
    };
    *span = content;
    *critical = is_critical;
    code(ExitStatus::Done)
}
