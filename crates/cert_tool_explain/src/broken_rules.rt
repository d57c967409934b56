//! Prints which rules the certificates of a chain break, and why.

ghost use Rattle.std.specs.Prelude.{◌≡◌};
ghost use Rattle.cert_tool_explain.specs.KeptChains.{are_kept, keeps_each_rule};

use crate::anchors::{Scope, add_unchecked};
use crate::chain_entry::ChainEntry;
use crate::reasons::{
    LengthReasons, add_reason_of, begin_breach, begin_detail, malformed_extension,
};
use crate::remark_lines::end_remark;
use crate::remarks::add_remarks;
use crate::serial_numbers::SerialNumbers;
use crate::signed_answers::{SignedAnswers, add_algorithm};
use crate::similar_names::{add_differences, are_similar};
use crate::stream_report::is_leaf_first;
use crate::unchecked_extensions::add_unchecked_extensions;
use cert_desk_checking::Anchor;
use cert_desk_checking::desk_bundle::Bundle;
use cert_desk_checking::desk_rules::{KeptRules, RULES, Rule};
use cert_tool_describe::cert_names::Name;
use cert_tool_describe::cert_parts::Time;
use cert_tool_describe::oid::ObjectIdentifier;
use cert_tool_describe::tool_lines::Lines;

// The message for a chain that was read in the order of TLS. `--leaf-first` turns the order of the
// file around.
const READ_LEAF_FIRST: &str =
    "the certificates were read in the order of TLS (the server's first), but the server's must be \
     the last: give --leaf-first, or leave it out if it was given";

/// The result of validating a chain.
#[derive(Clone, Copy)]
pub struct ValidatedChain<'a> {
    /// The rules that each certificate keeps.
    pub kept: &'a [KeptRules],
    /// The trust anchors.
    pub anchors: &'a [Anchor],
    /// The encoding of the trust anchors.
    pub anchor_octets: &'a [u8],
    /// The answers, by their signed bytes.
    pub heard: &'a SignedAnswers,
    /// The key purpose.
    pub purpose: &'a ObjectIdentifier<39>,
    /// Whether `--strict` is given.
    pub is_strict: bool,
    /// Whether `--strict` is given and checks the key usage of the end entity for this key purpose.
    pub checks_key_usage: bool,
}

// Returns whether a certificate keeps every rule.
fn keeps_each_rule(kept: &KeptRules) -> bool
    ensures { result ≡ keeps_each_rule kept.now }
{
    RULES.iter().all(|rule| kept.keeps(*rule))
}

/// Returns whether each certificate keeps every rule.
pub fn are_kept(judged: &[KeptRules]) -> bool
    ensures { result ≡ are_kept judged.now }
{
    judged.iter().all(|kept| keeps_each_rule(kept))
}

// Adds the differences between the issuer's name and similar names of trust anchors.
fn add_near_anchors(lines: &mut Lines, issuer: &Name, anchors: &[Anchor]) {
    for anchor in anchors {
        if are_similar(issuer, anchor.name()) {
            begin_detail(lines);
            lines.name("but a trust anchor has the name ", anchor.name(), "");
            lines.end();
            add_differences(lines, issuer, anchor.name());
        }
    }
}

// Adds that the issuer isn't the subject of the certificate before, or isn't a trust anchor (RFC
// 5280 6.1.3 (a) (4)).
fn add_wrong_issuer(lines: &mut Lines, place: &ChainEntry<'_>, anchors: &[Anchor]) {
    let issuer = place.issuer();
    begin_breach(lines, Rule::WrongIssuer);
    match place.before() {
        None => {
            if anchors.is_empty() {
                lines.name("there is no trust anchor, and the issuer is ", issuer, "");
            } else {
                lines.name("no trust anchor has the issuer's name ", issuer, "");
            }
            begin_details(lines);
            add_near_anchors(lines, issuer, anchors);
        }
        Some(before) => {
            lines.name("the issuer is ", issuer, "");
            begin_details(lines);
            begin_detail(lines);
            lines.name(
                "but the subject of the certificate before is ",
                before.subject(),
                "",
            );
            lines.end();
            if are_similar(issuer, before.subject()) {
                add_differences(lines, issuer, before.subject());
            }
        }
    }
    end_details(lines);
}

// Ends the reason, and begins its details.
fn begin_details(lines: &mut Lines) {
    lines.end();
    lines.list("details");
}

// Ends the details and the rule.
fn end_details(lines: &mut Lines) {
    lines.end_list();
    lines.close();
}

// Adds the difference between the two signature algorithms (RFC 5280 4.1.1.2).
fn add_algorithms(lines: &mut Lines, place: &ChainEntry<'_>) {
    let signed = &place.certificate.tbs_certificate().signature().oid;
    let outside = &place.certificate.signature_algorithm().oid;
    begin_breach(lines, Rule::AlgorithmsDiffer);
    lines.identifier("the signed algorithm is ", signed, ", but the outer one ");
    if signed == outside {
        lines.push("has other parameters");
    } else {
        lines.identifier("is ", outside, "");
    }
    end_remark(lines, "RFC 5280 4.1.1.2");
}

// Returns whether there is a certificate before, or a trust anchor with the issuer's name.
fn has_issuer(place: &ChainEntry<'_>, anchors: &[Anchor]) -> bool {
    for anchor in anchors {
        if anchor.name().has_octets_of(place.issuer()) {
            return true;
        }
    }
    place.number > 0
}

// Adds that no answer says that the signature is valid (RFC 5280 6.1.3 (a) (1)).
fn add_wrong_signature(lines: &mut Lines, place: &ChainEntry<'_>, judged: &ValidatedChain<'_>) {
    begin_breach(lines, Rule::WrongSignature);
    lines.push("no answer says that the signature is valid under ");
    lines.push(if place.number == 0 {
        "a trust anchor's key"
    } else {
        "the issuer's key"
    });
    begin_details(lines);
    add_algorithm(lines, &place.certificate.signature_algorithm().oid);
    let has_issuer = has_issuer(place, judged.anchors);
    judged.heard.add(lines, place.signed, has_issuer);
    end_details(lines);
}

// Adds that the validation time is outside the validity period.
fn add_date_breach(lines: &mut Lines, rule: Rule, words: &str, date: &Time, behind: &str) {
    begin_breach(lines, rule);
    lines.show(words, date, behind);
    end_remark(lines, "");
}

// Adds that a certificate breaks a rule, and why.
fn add_breach(
    lines: &mut Lines,
    place: &ChainEntry<'_>,
    rule: Rule,
    lengths: &mut LengthReasons,
    judged: &ValidatedChain<'_>,
) {
    let purpose = judged.purpose;
    let validity = place.certificate.tbs_certificate().validity();
    match rule {
        Rule::AlgorithmsDiffer => add_algorithms(lines, place),
        Rule::WrongIssuer => add_wrong_issuer(lines, place, judged.anchors),
        Rule::NotYetValid => {
            let words = "it is valid from ";
            add_date_breach(lines, rule, words, &validity.not_before, " on");
        }
        Rule::Expired => {
            add_date_breach(lines, rule, "it was valid until ", &validity.not_after, "");
        }
        Rule::PathTooLong => lengths.add(lines, place, purpose),
        Rule::WrongSignature => add_wrong_signature(lines, place, judged),
        Rule::DuplicateExtension
        | Rule::MalformedExtension
        | Rule::UnweighedCritical
        | Rule::AgainstPurpose
        | Rule::NotAuthority => add_reason_of(lines, place, rule, purpose),
    }
}

// Adds the rules that a certificate breaks, in the order in which they are checked.
fn add_breaches(
    lines: &mut Lines,
    place: &ChainEntry<'_>,
    kept: &KeptRules,
    lengths: &mut LengthReasons,
    judged: &ValidatedChain<'_>,
) {
    if keeps_each_rule(kept) {
        lines.finding("every rule is kept");
    }
    for rule in RULES.as_slice() {
        if !kept.keeps(*rule) {
            add_breach(lines, place, *rule, lengths, judged);
        }
    }
}

// Begins the entry of a certificate.
fn begin_place(lines: &mut Lines, place: &ChainEntry<'_>) {
    lines.entry("certificate");
    lines.count_member("certificate", place.number as u64);
    lines.tail(", ");
    lines.key("subject");
    lines.name_value(place.certificate.tbs_certificate().subject());
    lines.list("findings");
}

// Adds the rules that each certificate breaks, and the remarks on it.
fn add_entries_of_chain(
    lines: &mut Lines,
    bundle: &Bundle,
    judged: &ValidatedChain<'_>,
    lengths: &mut LengthReasons,
    serial_numbers: &mut SerialNumbers,
) {
    for (number, kept) in judged.kept.iter().enumerate() {
        if let Some(place) = ChainEntry::at(bundle, number) {
            let twin = serial_numbers.take(lines, &place);
            begin_place(lines, &place);
            add_breaches(lines, &place, kept, lengths, judged);
            add_unchecked_extensions(lines, &place, judged.is_strict, judged.checks_key_usage);
            let reported = malformed_extension(lines, &place, kept, judged.purpose);
            add_remarks(lines, &place, twin, reported);
            end_details(lines);
        }
    }
}

/// Adds the explanation of a validated chain: the unchecked fields of the trust anchors with the
/// issuer's name, the rules that each certificate breaks, each with its first reason, and the
/// remarks.
pub fn add_chain(lines: &mut Lines, bundle: &Bundle, judged: &ValidatedChain<'_>) {
    if is_leaf_first(bundle) {
        lines.finding(READ_LEAF_FIRST);
    }
    if let Some(first) = ChainEntry::at(bundle, 0) {
        let scope = Scope {
            issuer: Some(first.issuer()),
            is_strict: judged.is_strict,
        };
        add_unchecked(lines, judged.anchor_octets, scope);
    }
    let mut lengths = LengthReasons::of(lines, bundle, judged.kept, judged.purpose);
    let mut serial_numbers = SerialNumbers::new(lines.alloc);
    add_entries_of_chain(lines, bundle, judged, &mut lengths, &mut serial_numbers);
}
