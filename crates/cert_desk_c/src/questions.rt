//! The questions that the signatures of a chain may ask.
ghost use Rattle.std.specs.Prelude.{◌≡◌, ◌≢◌, ◌≤◌, ◌<◌, ◌^◌, ◌⊎◌, length, take, IfOk, IfErr};
ghost use Rattle.std.specs.Prelude.{string_bytes};
ghost use Rattle.cert_tool_describe.specs.Oid.Bound.{Bound};
ghost use Rattle.cert_desk_listing.specs.DeskIo.declared.exit_status.ExitStatus.TheVariants as statuses;
ghost use Rattle.cert_desk_listing.specs.DeskIo.Statuses.{code_of};
ghost use Rattle.cert_desk_answers.specs.DeskRules.Returned.{IsExactWithMemory, IsTextStatus};
ghost use Rattle.cert_desk_answers.specs.DeskRules.Rooms.{ChangesFront, IsUnsized, Wants};
ghost use Rattle.cert_desk_answers.specs.DeskBundle.Chains.{Chain};
ghost use Rattle.cert_desk_c.specs.Judged.{AreQuestions, AreWithin, HasNoQuestions, IsNoChain};

use cert_desk_answers::desk_bundle::{Bundle, Standing};
use cert_desk_answers::desk_checking::{Anchor, chain_lines};
use cert_desk_answers::desk_rules::{code, give};
use cert_desk_answers::{anchors_of, bundle_of};
use cert_desk_listing::desk_io::ExitStatus;
use std::alloc::Global;

// Reads a chain of at least one certificate, or returns the status.
fn chain_of(alloc: Global, limit: u32, octets: &[u8]) -> Result<Bundle, ExitStatus>
    requires { 6 ≤ limit }
    ensures chain { IfOk result (λ b. Chain Bound limit b.certificates octets.now) }
    ensures some { IfOk result (λ b. 0 < length b.certificates) }
    ensures none { IfErr result (λ status. IsNoChain limit octets.now status
        ⊎ (status ≡ statuses.Memory)) }
{
    let bundle = bundle_of(alloc, limit, octets)?;
    match bundle.standing() {
        Standing::Ended => {}
        _ => return Err(ExitStatus::Faulty),
    }
    if bundle.is_empty() {
        return Err(ExitStatus::Empty);
    }
    Ok(bundle)
}

// Returns the questions of a chain under trust anchors, or the status.
fn questions_of(
    alloc: Global,
    anchors: &[u8],
    chain: &[u8],
    limit: u32,
) -> Result<String, ExitStatus>
    requires limit { 6 ≤ limit }
    requires short { length anchors.now < 2 ^ 32 }
    ensures asked { IfOk result
        (λ text. AreQuestions anchors.now chain.now limit (string_bytes text)) }
    ensures none { IfErr result (λ status. HasNoQuestions anchors.now chain.now limit status
        ⊎ (status ≡ statuses.Memory)) }
{
    let anchors: Vec<Anchor> = anchors_of(alloc, anchors)?;
    let bundle = chain_of(alloc, limit, chain)?;
    match chain_lines(alloc, anchors.as_slice(), &bundle) {
        Ok(text) => Ok(text),
        Err(_) => Err(ExitStatus::Memory),
    }
}

/// Writes the questions that the signatures of a chain may ask under trust anchors to `out`, one on
/// each line, as `cert_tool questions` prints them. Returns 0, 2 if the chain isn't a sequence of
/// certificates of at most `limit` bytes each, 3 if it is empty, 4 if the trust anchors or the
/// limit are wrong, 5 if the buffer is too small, or 6 if an allocation fails.
#[unsafe(no_mangle)]
pub extern "C" fn wd_questions(
    alloc: Global,
    anchors: &[u8],
    chain: &[u8],
    limit: u32,
    out: &mut [u8],
    size: &mut usize,
) -> u32
    ensures statuses { IsExactWithMemory (IsTextStatus (AreQuestions anchors.now chain.now limit)
        (HasNoQuestions anchors.now chain.now limit) out.old) result }
    ensures done { result ≡ code_of statuses.Done
        → AreQuestions anchors.now chain.now limit (take size.new out.new) }
    ensures no_room { result ≡ code_of statuses.Device
        → Wants (AreQuestions anchors.now chain.now limit) out.old size.new }
    ensures no_memory { result ≡ code_of statuses.Memory → AreWithin limit anchors.now }
    ensures front { result ≡ code_of statuses.Done → ChangesFront size.new out.old out.new }
    ensures untouched { result ≢ code_of statuses.Done → out.new ≡ out.old }
    ensures no_size { IsUnsized result size.new }
{
    *size = 0;
    if limit < 6 || anchors.len() >= 1 << 32 {
        return code(ExitStatus::Arguments);
    }
    let text = match questions_of(alloc, anchors, chain, limit) {
        Ok(text) => text,
        Err(status) => return code(status),
    };
    give(text.as_bytes(), out, size)
}
