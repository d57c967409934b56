//! Answers the questions on lines.

use crate::refusal::Refusal;
use crate::{
    audits, bundles, certificates, chains, checks, cuts, devices, digests, errors, issues,
    listings, readings, splits,
};
use std::alloc::Global;
use std::io;
use std::io::Write;

/// Writes the answer to a line.
pub fn answer<W: Write>(alloc: Global, line: &str, out: &mut W) -> io::Result<()> {
    if line.is_empty() || line.starts_with('#') {
        return writeln!(out, "{line}");
    }
    match answer_of(alloc, line) {
        Ok(text) => writeln!(out, "{text}"),
        Err(refusal) => writeln!(out, "{refusal}"),
    }
}

/// Returns the answer to a question, whose first word says what it is about.
fn answer_of(alloc: Global, line: &str) -> Result<String, Refusal> {
    if line == "errors" {
        return errors::answer(alloc);
    }
    let (word, rest) = line.split_once(' ').ok_or(Refusal::Unread)?;
    match word {
        "certificate" => certificates::answer(alloc, rest),
        "sha256" => digests::answer_of_certificate(alloc, rest),
        "pieces" => {
            let (schedules, line) = rest.split_once(' ').ok_or(Refusal::Unread)?;
            checks::answer(alloc, schedules, line)
        }
        "bundle" => bundles::answer(alloc, rest),
        "split" => splits::answer(alloc, rest),
        "cuts" => cuts::answer(alloc, rest),
        "fronts" => cuts::answer_of_fronts(alloc, rest),
        "again" => cuts::answer_again(alloc, rest),
        "input" => devices::answer_of_input(alloc, rest),
        "output" => devices::answer_of_output(alloc, rest),
        "listing" => answer_of_listing(alloc, rest),
        "issue" => answer_of_issue(alloc, rest),
        _ => checks::answer(alloc, "-/-/-/-", line),
    }
}

/// Answers a question about listings.
fn answer_of_listing(alloc: Global, line: &str) -> Result<String, Refusal> {
    let (word, rest) = line.split_once(' ').ok_or(Refusal::Unread)?;
    match word {
        "show" => listings::answer(alloc, "-/-/-", rest),
        "pieces" => {
            let (schedules, rest) = rest.split_once(' ').ok_or(Refusal::Unread)?;
            listings::answer(alloc, schedules, rest)
        }
        "call" => {
            let (schedule, rest) = rest.split_once(' ').ok_or(Refusal::Unread)?;
            listings::answer_of_call(alloc, schedule, rest)
        }
        _ => Err(Refusal::Unread),
    }
}

/// Answers a question about orders and issued chains.
fn answer_of_issue(alloc: Global, line: &str) -> Result<String, Refusal> {
    let (word, rest) = line.split_once(' ').ok_or(Refusal::Unread)?;
    match word {
        "read" => readings::answer(alloc, rest),
        "run" => issues::answer(alloc, "-/-/-", false, rest),
        "why" => {
            let (schedules, file) = rest.split_once(' ').ok_or(Refusal::Unread)?;
            issues::answer(alloc, schedules, true, file)
        }
        "pieces" => {
            let (schedules, file) = rest.split_once(' ').ok_or(Refusal::Unread)?;
            issues::answer(alloc, schedules, false, file)
        }
        "call" => {
            let (schedules, file) = rest.split_once(' ').ok_or(Refusal::Unread)?;
            issues::answer_of_call(alloc, schedules, file)
        }
        "digest" => digests::answer(alloc, rest),
        "audit" => audits::answer(alloc, rest),
        "again" => audits::answer_again(alloc, rest),
        "check" => chains::answer_of_check(alloc, rest),
        "show" => chains::answer_of_show(alloc, rest),
        _ => Err(Refusal::Unread),
    }
}
