//! Explains why a certificate breaks a rule on its extensions or on path lengths.

use crate::chain_entry::ChainEntry;
use crate::content_errors::add_content_fault;
use crate::remark_lines::end_remark;
use cert_desk_checking::desk_bundle::Bundle;
use cert_desk_checking::desk_rules::{KeptRules, Reason, Rule};
use cert_desk_checking::reason_of;
use cert_tool_describe::cert_kinds::ExtensionKind as Kind;
use cert_tool_describe::cert_parts::Extension;
use cert_tool_describe::content_fault;
use cert_tool_describe::oid::ObjectIdentifier;
use cert_tool_describe::tool_lines::Lines;

// Begins a broken rule and its reason.
pub(crate) fn begin_breach(lines: &mut Lines, rule: Rule) {
    lines.entry("");
    lines.key("rule");
    lines.value(rule);
    lines.tail(": ");
    lines.key("reason");
    lines.begin();
}

// Begins a text in the array of details.
pub(crate) fn begin_detail(lines: &mut Lines) {
    lines.item("");
    lines.begin();
}

// Adds how an extension breaks a rule by itself. Returns the section that it violates.
fn add_against(
    lines: &mut Lines,
    rule: Rule,
    extension: &Extension,
    purpose: &ObjectIdentifier<39>,
) -> &'static str {
    let kind = &extension.extn_id;
    match rule {
        Rule::MalformedExtension => match content_fault(lines.alloc, extension) {
            Some(error) => add_content_fault(lines, extension, &error),
            None => {
                lines.identifier("", kind, " is malformed");
                ""
            }
        },
        Rule::UnweighedCritical => {
            lines.identifier("", kind, " is critical, and isn't processed here");
            "RFC 5280 4.2"
        }
        Rule::AgainstPurpose => {
            lines.identifier("", kind, " lacks ");
            lines.identifier("", purpose, "");
            "RFC 5280 4.2.1.12"
        }
        Rule::NotAuthority => {
            lines.identifier("", kind, " lacks keyCertSign");
            "RFC 5280 6.1.4 (n)"
        }
        // No extension is the reason for the other rules.
        _ => "",
    }
}

// Adds which extensions are duplicates. Returns the section that they violate.
fn add_twins(
    lines: &mut Lines,
    place: &ChainEntry<'_>,
    first: usize,
    second: usize,
) -> &'static str {
    if let Some(extension) = place.extensions().get(first) {
        lines.show("extensions ", first as u64, " and ");
        lines.show("", second as u64, " are both ");
        lines.identifier("", &extension.extn_id, "");
    }
    "RFC 5280 4.2"
}

// Returns whether the certificate has basicConstraints that can't be decoded.
fn has_malformed_constraints(lines: &mut Lines, place: &ChainEntry<'_>) -> bool {
    for extension in place.extensions() {
        if let Some(Kind::BasicConstraints) = Kind::of(&extension.extn_id) {
            if content_fault(lines.alloc, extension).is_some() {
                return true;
            }
        }
    }
    false
}

// Adds a reason. Returns the section that it violates.
fn add_reason(
    lines: &mut Lines,
    place: &ChainEntry<'_>,
    rule: Rule,
    reason: Reason,
    purpose: &ObjectIdentifier<39>,
) -> &'static str {
    match reason {
        Reason::Extension(number) => match place.extensions().get(number) {
            Some(extension) => add_against(lines, rule, extension, purpose),
            None => "",
        },
        Reason::Twins { first, second } => add_twins(lines, place, first, second),
        Reason::NoConstraints => {
            let is_malformed = has_malformed_constraints(lines, place);
            lines.push(if is_malformed {
                "its basicConstraints can't be decoded"
            } else {
                "it has no basicConstraints with cA"
            });
            "RFC 5280 6.1.4 (k)"
        }
        Reason::PathLength { place } => {
            let number = place as u64;
            lines.show("more CAs follow than certificate ", number, " allows");
            "RFC 5280 4.2.1.9"
        }
    }
}

// Adds a line for a broken rule.
fn add_broken(
    lines: &mut Lines,
    place: &ChainEntry<'_>,
    rule: Rule,
    reason: Reason,
    purpose: &ObjectIdentifier<39>,
) {
    begin_breach(lines, rule);
    let section = add_reason(lines, place, rule, reason, purpose);
    end_remark(lines, section);
}

// Returns the first reason for which a certificate breaks a rule.
fn first_reason(
    lines: &mut Lines,
    bundle: &Bundle,
    number: usize,
    rule: Rule,
    purpose: &ObjectIdentifier<39>,
) -> Option<Reason> {
    match reason_of(lines.alloc, bundle, number, rule, purpose) {
        Ok(reason) => reason,
        Err(_) => {
            lines.fail();
            None
        }
    }
}

// Adds that a certificate breaks a rule, with its first reason.
pub(crate) fn add_reason_of(
    lines: &mut Lines,
    place: &ChainEntry<'_>,
    rule: Rule,
    purpose: &ObjectIdentifier<39>,
) {
    if let Some(reason) = first_reason(lines, place.bundle, place.number, rule, purpose) {
        add_broken(lines, place, rule, reason, purpose);
    }
}

// Returns the index of the malformed extension for which a certificate breaks
// `Rule::MalformedExtension`, or `None` if it keeps the rule.
pub(crate) fn malformed_extension(
    lines: &mut Lines,
    place: &ChainEntry<'_>,
    kept: &KeptRules,
    purpose: &ObjectIdentifier<39>,
) -> Option<usize> {
    let rule = Rule::MalformedExtension;
    if kept.keeps(rule) {
        return None;
    }
    match first_reason(lines, place.bundle, place.number, rule, purpose) {
        Some(Reason::Extension(number)) => Some(number),
        _ => None,
    }
}

// Finds the reasons for paths that are too long. The later a certificate is, the earlier is the
// first one whose path length it exceeds. So once a certificate has the same reason as the last
// one, all later ones do; and since a path length is at most 255, at most that many come before.
#[derive(Drop)]
pub(crate) struct LengthReasons {
    last: Option<Reason>,
    // Whether the previous certificate had the same reason as the last one.
    is_settled: bool,
}

impl LengthReasons {
    // Begins with the reason of the last certificate whose path is too long.
    pub(crate) fn of(
        lines: &mut Lines,
        bundle: &Bundle,
        judged: &[KeptRules],
        purpose: &ObjectIdentifier<39>,
    ) -> LengthReasons {
        let mut last = None;
        for (number, kept) in judged.iter().enumerate() {
            if !kept.keeps(Rule::PathTooLong) {
                last = Some(number);
            }
        }
        LengthReasons {
            last: match last {
                Some(number) => first_reason(lines, bundle, number, Rule::PathTooLong, purpose),
                None => None,
            },
            is_settled: false,
        }
    }

    // Adds that the path to a certificate is too long, with the first reason.
    pub(crate) fn add(
        &mut self,
        lines: &mut Lines,
        place: &ChainEntry<'_>,
        purpose: &ObjectIdentifier<39>,
    ) {
        let rule = Rule::PathTooLong;
        let reason = if self.is_settled {
            self.last
        } else {
            first_reason(lines, place.bundle, place.number, rule, purpose)
        };
        self.is_settled = reason == self.last;
        if let Some(reason) = reason {
            add_broken(lines, place, rule, reason, purpose);
        }
    }
}
