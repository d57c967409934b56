//! Reports on a trusted chain and the demands that it must meet.

ghost use Rattle.std.specs.Prelude.{◌≡◌, ◌≤◌, IfOk, length, string_bytes};
ghost use Rattle.cert_tool_explain.specs.DeskIo.Devices.{sink};
ghost use Rattle.cert_tool_explain.specs.DeskIo.Whole.{most_octets};
ghost use Rattle.cert_tool_explain.specs.DeskRules.Judges.{judge_answers};
ghost use Rattle.cert_tool.specs.DemandReports.{IsChainReported, IsDemandResultReported};
ghost use Rattle.cert_tool.specs.DemandReports.{IsReportedWith, demand_result_text, ends_text};
ghost use Rattle.cert_tool.specs.DemandReports.{anchor_ends_text, end_date, ends_at_text};
ghost use Rattle.cert_tool.specs.DemandReports.{has_checked_demands, unmet_text};
ghost use Rattle.cert_tool.specs.Verifying.{IsUnjudgedIf};

use crate::end_entity::{end_entity_with, trusted_text};
use crate::option_values::Terms;
use crate::status::Status;
use crate::verifying::report_verdict;
use cert_tool_explain::desk_bundle::Bundle;
use cert_tool_explain::desk_io::{ExitStatus, Output, answer, tell_memory};
use cert_tool_explain::desk_rules::{AnswersJudge, Checked, Verdict};
use cert_tool_limits::{DemandResult, Demands, Unmet, hold, unjudged_text};
use std::alloc::{AllocError, Global};

// Returns whether the demands are checked: the chain is trusted, and there are demands.
pub(crate) fn has_checked_demands(demands: &Demands<'_>, verdict: Verdict) -> bool
    ensures { result ≡ has_checked_demands demands.now verdict }
{
    match verdict {
        Verdict::Trusted => demands.are_made(),
        _ => false,
    }
}

// Returns the report on a chain that doesn't meet a demand.
fn unmet_text(
    alloc: Global,
    unmet: Unmet,
    calls: u64,
    json: bool,
    unjudged: &str,
) -> Result<String, AllocError>
    ensures { IfOk result (λ text. string_bytes text
        ≡ unmet_text json unjudged.now unmet calls) }
{
    let (place, limit) = (unmet.place, unmet.limit);
    if json {
        format!(in alloc;
            "{{\"verdict\":\"refused\",\"place\":{place},\"rule\":\"{limit}\",\
            \"calls\":{calls}{unjudged}}}\n"
        )
    } else {
        format!(in alloc; "refused {place} {limit} calls={calls}\n")
    }
}

// Returns the notAfter of the certificate at this index.
fn end_date(alloc: Global, bundle: &Bundle, place: usize) -> Result<String, AllocError>
    ensures { IfOk result (λ text. string_bytes text
        ≡ end_date bundle.now.certificates place) }
{
    let Some(entry) = bundle.get(place) else {
        return Ok(String::new(alloc));
    };
    let validity = entry.certificate.tbs_certificate().validity();
    let date = validity.not_after.to_date_time();
    format!(in alloc; "{date}")
}

// Returns the report on a trusted chain of which this certificate ends soon, on this date.
fn ends_at_text(
    alloc: Global,
    whom: &str,
    place: usize,
    date: &str,
    calls: u64,
    json: bool,
) -> Result<String, AllocError>
    ensures { IfOk result (λ text. string_bytes text
        ≡ ends_at_text json whom.now place date.now calls) }
{
    if json {
        format!(in alloc;
            "{{\"verdict\":\"trusted\",\"calls\":{calls}{whom},\"ends\":{place},\
            \"notAfter\":\"{date}\"}}\n"
        )
    } else {
        format!(in alloc; "trusted calls={calls}{whom}\nends {place} {date}\n")
    }
}

// Returns the report on a trusted chain whose trust anchor ends soon.
fn anchor_ends_text(alloc: Global, whom: &str, calls: u64, json: bool) -> Result<String, AllocError>
    ensures { IfOk result (λ text. string_bytes text ≡ anchor_ends_text json whom.now calls) }
{
    if json {
        format!(in alloc;
            "{{\"verdict\":\"trusted\",\"calls\":{calls}{whom},\"ends\":\"anchor\"}}\n"
        )
    } else {
        format!(in alloc; "trusted calls={calls}{whom}\nends anchor\n")
    }
}

// Returns the report on a trusted chain that ends soon. It has the index and the notAfter of the
// certificate that ends, or `anchor`.
fn ends_text(
    alloc: Global,
    whom: &str,
    bundle: &Bundle,
    place: Option<usize>,
    calls: u64,
    json: bool,
) -> Result<String, AllocError>
    ensures { IfOk result (λ text. string_bytes text
        ≡ ends_text json whom.now bundle.now.certificates place calls) }
{
    match place {
        Some(place) => {
            let date = end_date(alloc, bundle, place)?;
            ends_at_text(alloc, whom, place, date.as_str(), calls, json)
        }
        None => anchor_ends_text(alloc, whom, calls, json),
    }
}

// Returns the report on a trusted chain after its demands were checked.
fn demand_result_text(
    alloc: Global,
    bundle: &Bundle,
    held: DemandResult,
    calls: u64,
    json: bool,
    unjudged: &str,
) -> Result<String, AllocError>
    ensures { IfOk result (λ text. string_bytes text
        ≡ demand_result_text json unjudged.now bundle.now.certificates held calls) }
{
    match held {
        DemandResult::Met => {
            let whom = end_entity_with(alloc, bundle, json, unjudged)?;
            trusted_text(alloc, whom.as_str(), calls, json)
        }
        DemandResult::Unmet(unmet) => unmet_text(alloc, unmet, calls, json, unjudged),
        DemandResult::Ends(place) => {
            let whom = end_entity_with(alloc, bundle, json, unjudged)?;
            ends_text(alloc, whom.as_str(), bundle, place, calls, json)
        }
    }
}

// Writes the report, and returns the exit status.
pub(crate) fn write_demand_result<O: Output, E: Output>(
    held: DemandResult,
    text: &[u8],
    out: &mut O,
    err: &mut E,
) -> Status
    ensures { IsDemandResultReported (sink O.gives O.failures out.old out.new)
        (sink E.gives E.failures err.old err.new) text.now held result }
{
    match held {
        DemandResult::Met => Status::Exit(answer(out, err, text, ExitStatus::Done)),
        DemandResult::Unmet(_) => Status::Exit(answer(out, err, text, ExitStatus::Refused)),
        DemandResult::Ends(_) => Status::warned(answer(out, err, text, ExitStatus::Done)),
    }
}

// Returns the member of a JSON object with what isn't checked, or no text for a line.
fn unjudged_if(
    alloc: Global,
    octets: &[u8],
    bundle: &Bundle,
    terms: &Terms<'_>,
) -> Result<String, AllocError>
    requires { length octets.now ≤ most_octets }
    ensures { IfOk result (λ text. IsUnjudgedIf terms.now.is_json terms.now.demands.is_strict
        terms.now.purpose octets.now bundle.now.certificates (string_bytes text)) }
{
    if terms.is_json {
        unjudged_text(
            alloc,
            octets,
            bundle,
            terms.demands.is_strict,
            &terms.purpose,
        )
    } else {
        Ok(String::new(alloc))
    }
}

// Reports a verdict with what no rule checks. For a trusted chain, the demands are checked first,
// with the trust anchors that these bytes encode.
fn report_with<O: Output, E: Output>(
    alloc: Global,
    octets: &[u8],
    bundle: &Bundle,
    checked: Checked,
    terms: &Terms<'_>,
    unjudged: &str,
    judge: &mut AnswersJudge,
    out: &mut O,
    err: &mut E,
) -> Status
    requires { length octets.now ≤ most_octets }
    ensures told { IsReportedWith unjudged.now terms.now (judge_answers judge.old) octets.now
        bundle.now.certificates (sink O.gives O.failures out.old out.new)
        (sink E.gives E.failures err.old err.new) checked result }
{
    let is_json = terms.is_json;
    if !has_checked_demands(&terms.demands, checked.verdict) {
        let status = report_verdict(alloc, bundle, checked, is_json, unjudged, out, err);
        return Status::Exit(status);
    }
    let held = match hold(
        alloc,
        octets,
        bundle,
        &terms.demands,
        terms.moment,
        &terms.purpose,
        judge,
    ) {
        Ok(held) => held,
        Err(_) => return Status::Exit(tell_memory(err)),
    };
    match demand_result_text(alloc, bundle, held, checked.calls, is_json, unjudged) {
        Ok(text) => write_demand_result(held, text.as_bytes(), out, err),
        Err(_) => Status::Exit(tell_memory(err)),
    }
}

// Reports a verdict. For a trusted chain, the demands are checked first, with the trust anchors
// that these bytes encode.
pub(crate) fn report_chain<O: Output, E: Output>(
    alloc: Global,
    octets: &[u8],
    bundle: &Bundle,
    checked: Checked,
    terms: &Terms<'_>,
    judge: &mut AnswersJudge,
    out: &mut O,
    err: &mut E,
) -> Status
    requires { length octets.now ≤ most_octets }
    ensures told { IsChainReported terms.now (judge_answers judge.old) octets.now
        bundle.now.certificates (sink O.gives O.failures out.old out.new)
        (sink E.gives E.failures err.old err.new) checked result }
{
    match unjudged_if(alloc, octets, bundle, terms) {
        Ok(unjudged) => report_with(
            alloc,
            octets,
            bundle,
            checked,
            terms,
            unjudged.as_str(),
            judge,
            out,
            err,
        ),
        Err(_) => Status::Exit(tell_memory(err)),
    }
}
