//! Validates certificate chains.
ghost use Rattle.std.specs.Prelude.{◌≡◌, ◌≢◌, ◌≤◌, ◌<◌, ◌^◌, ◌⊎◌, ℕ, List, [], length, Ok};
ghost use Rattle.cert_tool_describe.specs.Oid.Bound.{Bound};
ghost use Rattle.cert_tool_describe.specs.Oid.IdentifierOctets.{IsIdentifier, identifier_octets};
ghost use Rattle.cert_desk_listing.specs.DeskIo.declared.exit_status.ExitStatus.TheVariants.{Done};
ghost use Rattle.cert_desk_listing.specs.DeskIo.declared.exit_status.ExitStatus.TheVariants.{Empty};
ghost use Rattle.cert_desk_listing.specs.DeskIo.declared.exit_status.ExitStatus.TheVariants.{Faulty};
ghost use Rattle.cert_desk_listing.specs.DeskIo.declared.exit_status.ExitStatus.TheVariants.{Memory};
ghost use Rattle.cert_desk_listing.specs.DeskIo.declared.exit_status.ExitStatus.TheVariants.{Refused as Breach};
ghost use Rattle.cert_desk_listing.specs.DeskIo.Statuses.{code_of};
ghost use Rattle.cert_desk_answers.specs.DeskRules.Identifiers.{IsSomeIdentifier};
ghost use Rattle.cert_desk_answers.specs.DeskRules.Returned.{IsExactWithMemory};
ghost use Rattle.cert_desk_answers.specs.DeskBundle.declared.fault_kind.FaultKind.{FaultKind};
ghost use Rattle.cert_desk_answers.specs.DeskBundle.Faults.{rank};
ghost use Rattle.cert_desk_answers.specs.DeskRules.declared.rule.Rule.{Rule};
ghost use Rattle.cert_desk_answers.specs.DeskRules.Answers.{only_yes_to};
ghost use Rattle.cert_desk_answers.specs.DeskRules.Judging.{PlainAnchor, number};
ghost use Rattle.cert_desk_answers.specs.DeskRules.Questions.{Question};
ghost use Rattle.cert_desk_answers.specs.DeskRules.Verdicts.{Trusted, Refused, Faulty as IsFaulty};
ghost use Rattle.cert_desk_answers.specs.DeskChecking.AnchorFiles.{IsAnchorFile};
ghost use Rattle.cert_desk_answers.specs.DeskChecking.Runs.{run_terms};
ghost use Rattle.cert_desk_answers.specs.AnswerLines.{file_says};
ghost use Rattle.cert_desk_c.specs.Judged.{AreWithin, IsVerdictStatus, UnderTerms};

use crate::numbers::{WdPlace, tell};
use cert_desk_answers::desk_rules::{Verdict, code};
use cert_desk_answers::verdict_of;
use cert_desk_listing::desk_io::ExitStatus;
use cert_tool_describe::oid::ObjectIdentifier;
use std::alloc::Global;

/// Validates a certificate chain under trust anchors, at a validation time in seconds since
/// 1970-01-01T00:00:00Z, for a key purpose (the content bytes of its OID). A signature is accepted
/// exactly if the answers list it. The status is
///
/// - 0 if the chain is trusted;
/// - 1 if it is rejected: `told` gets the index of the certificate, and the number of the rule that
///   it breaks;
/// - 2 if it isn't a sequence of certificates of at most `limit` bytes each: `told` gets the index,
///   the offset, and the number of the kind of error;
/// - 3 if it is empty;
/// - 4 if the trust anchors can't be used or have 2^32 bytes or more, the answers can't be parsed,
///   the purpose isn't an OID of at most 39 bytes, or the limit is below 6;
/// - 6 if an allocation fails.
///
/// With any other status than 1 and 2, `told` is unchanged.
#[unsafe(no_mangle)]
pub extern "C" fn wd_verify(
    alloc: Global,
    answers: &[u8],
    anchors: &[u8],
    chain: &[u8],
    moment: u64,
    purpose: &[u8],
    limit: u32,
    told: &mut WdPlace,
) -> u32
    ensures statuses { IsExactWithMemory (IsVerdictStatus answers.now anchors.now chain.now moment
        purpose.now limit) result }
    ensures trusted { result ≡ code_of Done
        → UnderTerms anchors.now answers.now moment purpose.now (λ t. Trusted t limit chain.now) }
    ensures refused { result ≡ code_of Breach
        → UnderTerms anchors.now answers.now moment purpose.now
        (λ t. (rule : Rule) × (told.new.number ≡ number rule)
        × Refused t limit chain.now told.new.place rule) }
    ensures faulty { result ≡ code_of Faulty
        → UnderTerms anchors.now answers.now moment purpose.now
        (λ t. (kind : FaultKind) × (told.new.number ≡ rank kind)
        × IsFaulty t limit chain.now told.new.place told.new.offset kind) }
    ensures empty { result ≡ code_of Empty → chain.now ≡ [] }
    // A trusted chain is reported as trusted, unless memory runs out.
    ensures only { (given : List PlainAnchor) (listing : List Question) (arcs : List ℕ) → 6 ≤ limit
        → length anchors.now < 2 ^ 32
        → IsAnchorFile anchors.now given → file_says answers.now ≡ Ok listing
        → purpose.now ≡ identifier_octets arcs → IsIdentifier Bound arcs → length purpose.now ≤ 39
        → Trusted (run_terms given moment arcs (only_yes_to listing)) limit chain.now
        → (result ≡ code_of Done) ⊎ (result ≡ code_of Memory) }
    ensures no_memory { result ≡ code_of Memory
        → AreWithin limit anchors.now × IsSomeIdentifier purpose.now }
    ensures untouched { result ≢ code_of Breach → result ≢ code_of Faulty → told.new ≡ told.old }
    ensures offset { result ≢ code_of Faulty → told.new.offset ≡ told.old.offset }
{
    if limit < 6 || anchors.len() >= 1 << 32 {
        return code(ExitStatus::Arguments);
    }
    let Ok(purpose) = ObjectIdentifier::<39>::from_bytes(purpose) else {
        return code(ExitStatus::Arguments);
    };
    let verdict: Verdict = match verdict_of(
        alloc, answers, anchors, chain, moment, &purpose, limit,
    ) {
        Ok(verdict) => verdict,
        Err(status) => return code(status),
    };
    tell(verdict, told)
}
