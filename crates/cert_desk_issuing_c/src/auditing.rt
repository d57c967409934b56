//! Validates the chain that orders ask for, whoever signs it.
ghost use Rattle.std.specs.Prelude.{◌≡◌, ◌≢◌, ◌⊎◌, IfOk, IfErr};
ghost use Rattle.cert_desk_orders.specs.CertParts.Views.{algorithm_plain};
ghost use Rattle.cert_desk_checking.specs.DeskIo.declared.exit_status.ExitStatus.TheVariants.{Refused};
ghost use Rattle.cert_desk_checking.specs.DeskIo.Statuses.{code_of};
ghost use Rattle.cert_desk_issuing_c.specs.Auditing.{IsAudit, IsJudged};
ghost use Rattle.cert_desk_issuing_c.specs.Signing.{RefusesEach};

use crate::issuing::{algorithm_of, bits_of, issued_of, orders_of};
use crate::reasons::{WdReason, tell_error, tell_verdict};
use crate::willing_judge::WillingJudge;
use cert_desk::IssueError;
use cert_desk_checking::desk_io::ExitStatus;
use cert_desk_checking::desk_rules::{Verdict, code};
use cert_desk_orders::Order;
use cert_desk_orders::cert_parts::AlgorithmIdentifier;
use cert_desk_orders::oid::ObjectIdentifier;
use cert_desk_orders::types::BitString;
use std::alloc::Global;

// Returns the verdict on the chain that orders ask for, with a verifier that accepts each
// signature.
fn verdict_of(
    alloc: Global,
    orders: &[Order],
    algorithm: &AlgorithmIdentifier,
    signature: &BitString,
    moment: u64,
    purpose: &ObjectIdentifier<39>,
) -> Result<Verdict, IssueError>
    ensures judged { IfOk result (λ verdict. IsJudged orders.now moment purpose.now verdict) }
    ensures refused { IfErr result (λ error. (error ≡ IssueError.OutOfMemory)
        ⊎ RefusesEach orders.now (algorithm_plain algorithm.now) signature.now error) }
{
    let issued = issued_of(alloc, orders, algorithm, signature)?;
    // Shows that the certificates are those of the chain's bytes.
    issued.stream();
    let mut judge = WillingJudge { questions: 0 };
    match issued.audit(alloc, u32::MAX, moment, purpose, &mut judge) {
        Ok(checked) => Ok(checked.verdict),
        Err(_) => Err(IssueError::OutOfMemory),
    }
}

// Does the work of `wd_audit`, and returns the status.
fn audit_of(
    alloc: Global,
    orders: &[u8],
    algorithm: &[u8],
    moment: u64,
    purpose: &[u8],
    told: &mut WdReason,
) -> ExitStatus
    ensures audit { IsAudit orders.now algorithm.now moment purpose.now told.new.place
        told.new.number result }
    ensures untouched { result ≢ Refused → told.new ≡ told.old }
{
    let Ok(purpose) = ObjectIdentifier::<39>::from_bytes(purpose) else {
        return ExitStatus::Arguments;
    };
    let said = match orders_of(alloc, orders) {
        Ok(said) => said,
        Err(status) => return status,
    };
    let by = match algorithm_of(alloc, algorithm) {
        Ok(by) => by,
        Err(status) => return status,
    };
    let bits = match bits_of(alloc, &[]) {
        Ok(bits) => bits,
        Err(status) => return status,
    };
    match verdict_of(alloc, said.as_slice(), &by, &bits, moment, &purpose) {
        Ok(verdict) => tell_verdict(verdict, told),
        Err(error) => tell_error(&error, told),
    }
}

/// Checks whether each chain that an orders file asks for, signed by this algorithm, is trusted
/// under its own root if its signatures are valid, at a validation time (seconds since
/// 1970-01-01T00:00:00Z) and for a key purpose (the content bytes of its OID). The status is
///
/// - 0 if it is;
/// - 1 if the orders are rejected or a rule is broken: `told` gets the index of the order, and the
///   number of the reason or rule;
/// - 4 if the orders file, the algorithm or the purpose can't be decoded;
/// - 6 if an allocation fails.
#[unsafe(no_mangle)]
pub extern "C" fn wd_audit(
    alloc: Global,
    orders: &[u8],
    algorithm: &[u8],
    moment: u64,
    purpose: &[u8],
    told: &mut WdReason,
) -> u32
    ensures { (status : ExitStatus) × (result ≡ code_of status)
        × IsAudit orders.now algorithm.now moment purpose.now told.new.place told.new.number
        status × (status ≢ Refused → told.new ≡ told.old) }
{
    code(audit_of(alloc, orders, algorithm, moment, purpose, told))
}
