//! Object identifiers.
ghost use Rattle.std.specs.Prelude.{◌≡◌, ◌≢◌, ◌≤◌, ℕ, List, Ok, take, length, IfOk, IfErr};
ghost use Rattle.std.specs.Prelude.{IsUtf8, string_bytes};
ghost use Rattle.cert_tool_describe.specs.Oid.Bound.{Bound};
ghost use Rattle.cert_tool_describe.specs.Oid.DottedText.{dotted};
ghost use Rattle.cert_tool_describe.specs.Oid.IdentifierOctets.{IsIdentifier, identifier_octets};
ghost use Rattle.cert_tool_describe.specs.Oid.TextFaults.{IsDottedText};
ghost use Rattle.cert_desk_listing.specs.DeskIo.declared.exit_status.ExitStatus.TheVariants.{Device};
ghost use Rattle.cert_desk_listing.specs.DeskIo.declared.exit_status.ExitStatus.TheVariants.{Done};
ghost use Rattle.cert_desk_listing.specs.DeskIo.declared.exit_status.ExitStatus.TheVariants.{Faulty};
ghost use Rattle.cert_desk_listing.specs.DeskIo.declared.exit_status.ExitStatus.TheVariants.{Memory};
ghost use Rattle.cert_desk_listing.specs.DeskIo.Statuses.{code_of};
ghost use Rattle.cert_desk_answers.specs.DeskRules.Identifiers.{IsNoIdentifier, IsSomeIdentifier};
ghost use Rattle.cert_desk_answers.specs.DeskRules.Returned.{IsExact, IsExactWithMemory};
ghost use Rattle.cert_desk_answers.specs.DeskRules.Returned.{IsFaultyStatus};
ghost use Rattle.cert_desk_answers.specs.DeskRules.Returned.{IsTextStatus};
ghost use Rattle.cert_desk_answers.specs.DeskRules.Rooms.{ChangesFront, IsUnsized, Wants};
ghost use Rattle.cert_desk_c.specs.Values.{IsDottedTextOf, IsIdentifierOf, IsNoDottedText};

use cert_desk_answers::desk_rules::{code, give};
use cert_desk_listing::desk_io::ExitStatus;
use cert_tool_describe::oid::ObjectIdentifier;
use std::alloc::{AllocError, Global};

// Returns the dotted text of an OID.
fn text_of(alloc: Global, identifier: &ObjectIdentifier<39>) -> Result<String, AllocError>
    ensures { IfOk result (λ text. string_bytes text ≡ dotted identifier.now) }
{
    format!(in alloc; "{identifier}")
}

/// Writes the dotted text of an OID, such as `1.2.840.113549`, to `out`. The OID is given as its
/// content bytes (X.690 8.19). Returns 0, 2 if they aren't an OID of at most 39 bytes, 5 if the
/// buffer is too small, or 6 if an allocation fails.
#[unsafe(no_mangle)]
pub extern "C" fn wd_identifier_text(
    alloc: Global,
    octets: &[u8],
    out: &mut [u8],
    size: &mut usize,
) -> u32
    ensures statuses { IsExactWithMemory (IsTextStatus (IsDottedTextOf octets.now)
        (IsFaultyStatus (IsNoIdentifier octets.now)) out.old) result }
    ensures done { result ≡ code_of Done → IsDottedTextOf octets.now (take size.new out.new) }
    ensures no_room { result ≡ code_of Device
        → Wants (IsDottedTextOf octets.now) out.old size.new }
    ensures not_spelled { result ≡ code_of Faulty → IsNoIdentifier octets.now }
    ensures no_memory { result ≡ code_of Memory → IsSomeIdentifier octets.now }
    ensures front { result ≡ code_of Done → ChangesFront size.new out.old out.new }
    ensures untouched { result ≢ code_of Done → out.new ≡ out.old }
    ensures no_size { IsUnsized result size.new }
{
    *size = 0;
    let Ok(identifier) = ObjectIdentifier::<39>::from_bytes(octets) else {
        return code(ExitStatus::Faulty);
    };
    let Ok(text) = text_of(alloc, &identifier) else {
        return code(ExitStatus::Memory);
    };
    give(text.as_bytes(), out, size)
}

// Parses the dotted text of an OID.
fn identifier_of(text: &[u8]) -> Result<ObjectIdentifier<39>, ExitStatus>
    ensures read { IfOk result (λ arcs. IsIdentifierOf text.now (identifier_octets arcs)) }
    ensures status { IfErr result (λ status. status ≡ Faulty) }
    ensures spelled { IsUtf8 text.now → (arcs : List ℕ) → IsDottedText arcs text.now
        → IsIdentifier Bound arcs → length (identifier_octets arcs) ≤ 39 → result ≡ Ok arcs }
{
    let Ok(text) = std::str::from_utf8(text) else {
        return Err(ExitStatus::Faulty);
    };
    match ObjectIdentifier::<39>::new(text) {
        Ok(identifier) => Ok(identifier),
        Err(_) => Err(ExitStatus::Faulty),
    }
}

/// Writes the content bytes of the OID with a dotted text to `out`. Returns 0, 2 if the text isn't
/// that of an OID of at most 39 bytes, or 5 if the buffer is too small.
#[unsafe(no_mangle)]
pub extern "C" fn wd_identifier_of_text(text: &[u8], out: &mut [u8], size: &mut usize) -> u32
    ensures statuses { IsExact (IsTextStatus (IsIdentifierOf text.now)
        (IsFaultyStatus (IsNoDottedText text.now)) out.old) result }
    ensures done { result ≡ code_of Done → IsIdentifierOf text.now (take size.new out.new) }
    ensures no_room { result ≡ code_of Device
        → Wants (IsIdentifierOf text.now) out.old size.new }
    ensures not_spelled { result ≡ code_of Faulty → IsNoDottedText text.now }
    ensures front { result ≡ code_of Done → ChangesFront size.new out.old out.new }
    ensures untouched { result ≢ code_of Done → out.new ≡ out.old }
    ensures no_size { IsUnsized result size.new }
{
    *size = 0;
    let identifier = match identifier_of(text) {
        Ok(identifier) => identifier,
        Err(status) => return code(status),
    };
    give(identifier.as_bytes(), out, size)
}
