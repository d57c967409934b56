//! Answers questions.

use crate::drawn::{drawn, generated};
use crate::made::{digest_of, made_of};
use crate::names::names_of;
use crate::questions::{
    Asked, Question, answer_of_described, answer_of_members, answer_of_ordered, answer_with_order,
    asked_by,
};
use crate::refusals::Refusal;
use crate::requests_and_names::{value_placed, values_of};
use crate::shown::octets_of;
use crate::tls_values::rewritten;
use crate::whole_extensions::{certificate_of, usages_of};
use crate::{building, distinguished_names, extensions, name_texts};
use std::alloc::Global;
use std::io;
use std::io::Write;
use x509_cert::{
    AlgorithmIdentifier, AlgorithmIdentifierRef, Extension, SubjectPublicKeyInfo,
    SubjectPublicKeyInfoRef, Time, Version,
};

/// Writes the answer to a line.
pub fn answer<W: Write>(alloc: Global, line: &str, out: &mut W) -> io::Result<()> {
    if line.is_empty() || line.starts_with('#') {
        return writeln!(out, "{line}");
    }
    let (word, rest) = line.split_once(' ').unwrap_or((line, ""));
    if building::is_asked(word, rest) {
        return building::answer(alloc, word, rest, out);
    }
    match answer_to(alloc, word, rest) {
        Ok(text) if text.is_empty() => out.write_all(b"ok\n"),
        Ok(text) => writeln!(out, "ok {text}"),
        Err(refusal) => writeln!(out, "{refusal}"),
    }
}

/// Returns the text after `ok`.
fn answer_to(alloc: Global, word: &str, rest: &str) -> Result<String, Refusal> {
    match word {
        "usages" => usages_of(alloc, rest),
        _ => distinguished_names::answer(alloc, word, rest),
    }
}

/// Answers a question whose words are a type's name and the text after it.
pub fn answer_of_type(alloc: Global, word: &str, rest: &str) -> Result<String, Refusal> {
    let (kind, values) = rest.split_once(' ').unwrap_or((rest, ""));
    answer_about(alloc, word, kind, values)
}

/// Answers a question about a type.
fn answer_about(alloc: Global, word: &str, kind: &str, values: &str) -> Result<String, Refusal> {
    match word {
        "text" => name_texts::printed(alloc, kind, values),
        "first" => distinguished_names::first(alloc, kind, values),
        "by-oid" => distinguished_names::by_oid(alloc, kind, values),
        "tls" => rewritten(alloc, kind, values),
        "from" => made_of(alloc, kind, values),
        "names" => names_of(alloc, kind, values),
        "values" => values_of(alloc, kind, values),
        "insert" => value_placed(alloc, kind, values),
        "get" => got_of(alloc, kind, values),
        "sha1" => digest_of(alloc, kind, values),
        "generate" => generated(alloc, kind, values),
        "draw" => drawn(alloc, kind, values),
        _ => answer_of_values(alloc, asked_by(word)?, kind, values),
    }
}

/// Answers a question about encoded values.
fn answer_of_values(
    alloc: Global,
    asked: Asked<'_>,
    kind: &str,
    values: &str,
) -> Result<String, Refusal> {
    let (first, second) = match asked {
        Asked::Order | Asked::Exchange | Asked::Extension => values
            .split_once(' ')
            .ok_or(Refusal::Unread)?,
        _ => (values, ""),
    };
    let first = octets_of(alloc, first)?;
    let second = octets_of(alloc, second)?;
    let question = Question {
        asked,
        first: first.as_slice(),
        second: second.as_slice(),
    };
    answer_of_parts(alloc, kind, &question)
}

/// Returns the single value of a type among the extensions of a certificate.
fn got_of(alloc: Global, kind: &str, octets: &str) -> Result<String, Refusal> {
    let certificate = certificate_of(alloc, octets)?;
    let question = Question {
        asked: Asked::Get(certificate.tbs_certificate()),
        first: &[],
        second: &[],
    };
    answer_of_parts(alloc, kind, &question)
}

/// Returns the answer for a part of a certificate, or for a type of a later module.
fn answer_of_parts(alloc: Global, kind: &str, question: &Question<'_>) -> Result<String, Refusal> {
    match kind {
        "AlgorithmIdentifier" => answer_of_ordered::<AlgorithmIdentifier>(alloc, question),
        "AlgorithmIdentifierRef" => answer_of_described::<AlgorithmIdentifierRef>(alloc, question),
        "SubjectPublicKeyInfo" => answer_of_described::<SubjectPublicKeyInfo>(alloc, question),
        "SubjectPublicKeyInfoRef" => answer_of_described::<SubjectPublicKeyInfoRef>(
            alloc, question,
        ),
        "Version" => answer_of_ordered::<Version>(alloc, question),
        "Extension" => answer_of_ordered::<Extension>(alloc, question),
        "Extensions" => answer_of_members::<Extension>(alloc, question),
        "Time" => answer_with_order::<Time>(alloc, question),
        _ => extensions::answer(alloc, kind, question),
    }
}
