//! The lines of `explain chain` about demands that a trusted chain doesn't meet.

use cert_tool_explain::tool_lines::Lines;
use cert_tool_limits::desk_rules::Rule;
use cert_tool_limits::{DemandResult, Limit, Unmet};

// Returns the reason for which a trust anchor breaks a rule of certificates.
fn anchor_reason(rule: Rule) -> &'static str {
    match rule {
        Rule::DuplicateExtension => "the trust anchor has an extension twice",
        Rule::MalformedExtension => "an extension of the trust anchor is malformed",
        Rule::UnweighedCritical => "a critical extension of the trust anchor isn't checked",
        Rule::NotYetValid => "the trust anchor isn't valid yet",
        Rule::Expired => "the trust anchor has expired",
        Rule::AgainstPurpose => "the trust anchor doesn't allow the key purpose",
        Rule::NotAuthority => "the trust anchor isn't a CA's",
        Rule::PathTooLong => "the chain is longer than the trust anchor allows",
        Rule::AlgorithmsDiffer | Rule::WrongIssuer | Rule::WrongSignature => {
            "no trust anchor issued the chain"
        }
    }
}

// Returns the reason for which a limit is broken, and the section that specifies it.
fn reason_of(limit: Limit) -> (&'static str, &'static str) {
    match limit {
        Limit::WrongHost => (
            "the subjectAltName has neither this DNS name nor this address",
            "RFC 9525 6",
        ),
        Limit::WrongKeyUsage => (
            "keyUsage isn't consistent with the key purpose",
            "RFC 5280 4.2.1.12",
        ),
        Limit::ConstrainedNames => ("nameConstraints aren't checked", "RFC 5280 4.2.1.10"),
        Limit::AnchorConstrainedNames => (
            "nameConstraints of the trust anchor aren't checked",
            "RFC 5280 4.2.1.10",
        ),
        Limit::Anchor(rule) => (anchor_reason(rule), ""),
    }
}

// Adds the demand that isn't met, and the reason.
fn add_unmet(lines: &mut Lines, unmet: Unmet) {
    let (reason, section) = reason_of(unmet.limit);
    lines.entry("not met at");
    lines.count_member("place", unmet.place as u64);
    lines.tail(": ");
    lines.key("limit");
    lines.value(unmet.limit);
    lines.tail(": ");
    lines.key("reason");
    lines.begin();
    lines.push(reason);
    lines.end();
    lines.section(section);
    lines.close();
}

// Adds whether a chain meets the demands, if it doesn't.
pub(crate) fn add_demand_result(lines: &mut Lines, held: DemandResult) {
    if let DemandResult::Unmet(unmet) = held {
        add_unmet(lines, unmet);
    }
}
