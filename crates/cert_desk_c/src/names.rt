//! Names and their texts.
ghost use Rattle.std.specs.Prelude.{◌≡◌, ◌≢◌, take, IfOk, IfErr, IsUtf8, string_bytes};
ghost use Rattle.cert_tool_describe.specs.CertNames.PlainTexts.{name_text};
ghost use Rattle.cert_tool_describe.specs.CertNames.Views.{name_plain};
ghost use Rattle.cert_desk_listing.specs.DeskIo.declared.exit_status.ExitStatus.TheVariants.{Device};
ghost use Rattle.cert_desk_listing.specs.DeskIo.declared.exit_status.ExitStatus.TheVariants.{Done};
ghost use Rattle.cert_desk_listing.specs.DeskIo.declared.exit_status.ExitStatus.TheVariants.{Faulty};
ghost use Rattle.cert_desk_listing.specs.DeskIo.declared.exit_status.ExitStatus.TheVariants.{Memory};
ghost use Rattle.cert_desk_listing.specs.DeskIo.Statuses.{code_of};
ghost use Rattle.cert_desk_answers.specs.DeskRules.Returned.{IsExactWithMemory, IsFaultyStatus};
ghost use Rattle.cert_desk_answers.specs.DeskRules.Returned.{IsTextStatus};
ghost use Rattle.cert_desk_answers.specs.DeskRules.Rooms.{ChangesFront, IsLack, IsUnsized, Wants};
ghost use Rattle.cert_desk_c.specs.Values.{IsEncodedName, IsNameText, IsNoName, IsNoNameText};

use crate::reading::{lack, name_of};
use cert_desk_answers::desk_rules::{code, give};
use cert_desk_listing::desk_io::ExitStatus;
use cert_tool_describe::cert_names::{Name, RdnSequence};
use cert_tool_describe::der::ToDer;
use std::alloc::{AllocError, Global};

/// Returns the text of a name (RFC 4514).
pub(crate) fn text_of(alloc: Global, name: &Name) -> Result<String, AllocError>
    ensures { IfOk result (λ text. string_bytes text ≡ name_text (name_plain name.now)) }
{
    format!(in alloc; "{name}")
}

/// Writes the text of a name (RFC 4514) to `out`. Returns 0, 2 if the bytes aren't a name, 5 if the
/// buffer is too small, or 6 if an allocation fails.
#[unsafe(no_mangle)]
pub extern "C" fn wd_name_text(
    alloc: Global,
    octets: &[u8],
    out: &mut [u8],
    size: &mut usize,
) -> u32
    ensures statuses { IsExactWithMemory (IsTextStatus (IsNameText octets.now)
        (IsFaultyStatus (IsNoName octets.now)) out.old) result }
    ensures done { result ≡ code_of Done → IsNameText octets.now (take size.new out.new) }
    ensures no_room { result ≡ code_of Device
        → Wants (IsNameText octets.now) out.old size.new }
    ensures not_spelled { result ≡ code_of Faulty → IsNoName octets.now }
    ensures front { result ≡ code_of Done → ChangesFront size.new out.old out.new }
    ensures untouched { result ≢ code_of Done → out.new ≡ out.old }
    ensures no_size { IsUnsized result size.new }
{
    *size = 0;
    let name = match name_of(alloc, octets) {
        Ok(name) => name,
        Err(status) => return code(status),
    };
    let Ok(text) = text_of(alloc, &name) else {
        return code(ExitStatus::Memory);
    };
    give(text.as_bytes(), out, size)
}

// Parses the text of a name and returns its encoding, or the status.
fn encoding_of(alloc: Global, text: &[u8]) -> Result<Vec<u8>, ExitStatus>
    ensures read { IfOk result (λ octets. IsEncodedName text.now octets.items) }
    ensures refused { IfErr result (IsLack (IsNoNameText text.now)) }
    ensures no_memory { IfErr result (λ status. status ≡ Memory → IsUtf8 text.now) }
{
    let Ok(text) = std::str::from_utf8(text) else {
        return Err(ExitStatus::Faulty);
    };
    let name = match RdnSequence::from_str(alloc, text) {
        Ok(name) => name,
        Err(error) => return Err(lack(&error)),
    };
    match name.to_der(alloc) {
        Ok(octets) => Ok(octets),
        Err(error) => Err(lack(&error)),
    }
}

/// Writes the encoding of the name with a text (RFC 4514), in UTF-8, to `out`. Returns 0, 2 if the
/// text isn't a name, 5 if the buffer is too small, or 6 if an allocation fails.
#[unsafe(no_mangle)]
pub extern "C" fn wd_name_of_text(
    alloc: Global,
    text: &[u8],
    out: &mut [u8],
    size: &mut usize,
) -> u32
    ensures statuses { IsExactWithMemory (IsTextStatus (IsEncodedName text.now)
        (IsFaultyStatus (IsNoNameText text.now)) out.old) result }
    ensures done { result ≡ code_of Done → IsEncodedName text.now (take size.new out.new) }
    ensures no_room { result ≡ code_of Device
        → Wants (IsEncodedName text.now) out.old size.new }
    ensures not_spelled { result ≡ code_of Faulty → IsNoNameText text.now }
    ensures no_memory { result ≡ code_of Memory → IsUtf8 text.now }
    ensures front { result ≡ code_of Done → ChangesFront size.new out.old out.new }
    ensures untouched { result ≢ code_of Done → out.new ≡ out.old }
    ensures no_size { IsUnsized result size.new }
{
    *size = 0;
    let octets = match encoding_of(alloc, text) {
        Ok(octets) => octets,
        Err(status) => return code(status),
    };
    give(octets.as_slice(), out, size)
}
