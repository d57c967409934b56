//! Descriptions of certificates, CRLs and CSRs.
ghost use Rattle.std.specs.Prelude.{◌≡◌, ◌≢◌, ◌<◌, ◌⊎◌, length, IfSome, None};
ghost use Rattle.cert_tool_describe.specs.Der.ErrorTypes.ErrorKind.TheVariants.{OutOfMemory};
ghost use Rattle.cert_desk_listing.specs.DeskIo.declared.exit_status.ExitStatus.TheVariants.{Device};
ghost use Rattle.cert_desk_listing.specs.DeskIo.declared.exit_status.ExitStatus.TheVariants.{Done};
ghost use Rattle.cert_desk_listing.specs.DeskIo.declared.exit_status.ExitStatus.TheVariants.{Faulty};
ghost use Rattle.cert_desk_listing.specs.DeskIo.declared.exit_status.ExitStatus.TheVariants.{Memory};
ghost use Rattle.cert_desk_listing.specs.DeskIo.Statuses.{code_of};
ghost use Rattle.cert_desk_answers.specs.DeskRules.Returned.{IsExactWithMemory, IsFaultyStatus};
ghost use Rattle.cert_desk_answers.specs.DeskRules.Returned.{IsTextStatus};
ghost use Rattle.cert_desk_answers.specs.DeskRules.Rooms.{ChangesFront, IsUnsized};
ghost use Rattle.cert_tool_describe.specs.Files.{IsCertificate, IsList, IsRequest};
ghost use Rattle.cert_desk_c.specs.Values.{IsNoCertificate, IsNoList, IsNoRequest};

use cert_desk_answers::desk_rules::{code, give};
use cert_desk_listing::desk_io::ExitStatus;
use cert_tool_describe::der::ErrorKind;
use cert_tool_describe::tool_lines::Lines;
use cert_tool_describe::{add_certificate, add_list, add_request};
use std::alloc::Global;

// Writes a description, unless the bytes couldn't be decoded.
fn give_lines(lines: Lines, fault: Option<ErrorKind>, out: &mut [u8], size: &mut usize) -> u32
    ensures given { fault ≡ None → IsExactWithMemory (IsTextStatus
        (λ text. size.new ≡ length text) (λ _. ⊥) out.old) result }
    ensures refused { IfSome fault (λ kind. ((kind ≢ OutOfMemory) × (result ≡ code_of Faulty))
        ⊎ (result ≡ code_of Memory)) }
    ensures no_room { result ≡ code_of Device → length out.old < size.new }
    ensures front { result ≡ code_of Done → ChangesFront size.new out.old out.new }
    ensures untouched { result ≢ code_of Done → out.new ≡ out.old }
    ensures no_size { IsUnsized result size.new }
{
    *size = 0;
    match fault {
        None => {}
        Some(ErrorKind::OutOfMemory) => return code(ExitStatus::Memory),
        Some(_) => return code(ExitStatus::Faulty),
    }
    let Ok(text) = lines.finish() else {
        return code(ExitStatus::Memory);
    };
    give(text.as_slice(), out, size)
}

/// Writes the description of a certificate to `out`, as `cert_tool describe certificate` prints it,
/// as lines or as JSON. Returns 0, 2 if the bytes aren't a certificate, 5 if the buffer is too
/// small, or 6 if an allocation fails.
#[unsafe(no_mangle)]
pub extern "C" fn wd_describe_certificate(
    alloc: Global,
    octets: &[u8],
    json: bool,
    out: &mut [u8],
    size: &mut usize,
) -> u32
    ensures statuses { IsExactWithMemory (IsTextStatus
        (λ text. IsCertificate octets.now × (size.new ≡ length text))
        (IsFaultyStatus (IsNoCertificate octets.now)) out.old) result }
    ensures no_room { result ≡ code_of Device → length out.old < size.new }
    ensures front { result ≡ code_of Done → ChangesFront size.new out.old out.new }
    ensures untouched { result ≢ code_of Done → out.new ≡ out.old }
    ensures no_size { IsUnsized result size.new }
{
    let mut lines = Lines::new(alloc, json);
    let fault = add_certificate(&mut lines, octets);
    give_lines(lines, fault, out, size)
}

/// Writes the description of a CRL to `out`, as lines or as JSON. Returns 0, 2 if the bytes aren't
/// a CRL, 5 if the buffer is too small, or 6 if an allocation fails.
#[unsafe(no_mangle)]
pub extern "C" fn wd_describe_list(
    alloc: Global,
    octets: &[u8],
    json: bool,
    out: &mut [u8],
    size: &mut usize,
) -> u32
    ensures statuses { IsExactWithMemory (IsTextStatus
        (λ text. IsList octets.now × (size.new ≡ length text))
        (IsFaultyStatus (IsNoList octets.now)) out.old) result }
    ensures no_room { result ≡ code_of Device → length out.old < size.new }
    ensures front { result ≡ code_of Done → ChangesFront size.new out.old out.new }
    ensures untouched { result ≢ code_of Done → out.new ≡ out.old }
    ensures no_size { IsUnsized result size.new }
{
    let mut lines = Lines::new(alloc, json);
    let fault = add_list(&mut lines, octets);
    give_lines(lines, fault, out, size)
}

/// Writes the description of a CSR to `out`, as lines or as JSON. Returns 0, 2 if the bytes aren't
/// a CSR, 5 if the buffer is too small, or 6 if an allocation fails.
#[unsafe(no_mangle)]
pub extern "C" fn wd_describe_request(
    alloc: Global,
    octets: &[u8],
    json: bool,
    out: &mut [u8],
    size: &mut usize,
) -> u32
    ensures statuses { IsExactWithMemory (IsTextStatus
        (λ text. IsRequest octets.now × (size.new ≡ length text))
        (IsFaultyStatus (IsNoRequest octets.now)) out.old) result }
    ensures no_room { result ≡ code_of Device → length out.old < size.new }
    ensures front { result ≡ code_of Done → ChangesFront size.new out.old out.new }
    ensures untouched { result ≢ code_of Done → out.new ≡ out.old }
    ensures no_size { IsUnsized result size.new }
{
    let mut lines = Lines::new(alloc, json);
    let fault = add_request(&mut lines, octets);
    give_lines(lines, fault, out, size)
}
