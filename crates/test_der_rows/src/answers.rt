//! Answers questions.

use crate::refusals::Refusal;
use crate::shown::front_of;
use crate::{contents, fields, headers, kinds, made, object_identifiers, readers, times, writers};
use std::alloc::Global;
use std::io;
use std::io::Write;

/// Writes the answer to a line.
pub fn answer<W: Write>(alloc: Global, line: &str, out: &mut W) -> io::Result<()> {
    if line.is_empty() || line.starts_with('#') {
        return writeln!(out, "{line}");
    }
    match answer_of(alloc, line) {
        Ok(text) if text.is_empty() => out.write_all(b"ok\n"),
        Ok(text) => writeln!(out, "ok {text}"),
        Err(refusal) => writeln!(out, "{refusal}"),
    }
}

/// Returns the text after `ok`. For `why` and `place`, it is about the error of the question after
/// them.
fn answer_of(alloc: Global, line: &str) -> Result<String, Refusal> {
    match line.split_once(' ') {
        Some(("why", question)) => refusal_of(alloc, question)?.reason(alloc),
        Some(("place", question)) => refusal_of(alloc, question)?.place(alloc),
        _ => answer_of_words(alloc, line),
    }
}

/// Returns why a question fails.
fn refusal_of(alloc: Global, question: &str) -> Result<Refusal, Refusal> {
    match answer_of_words(alloc, question) {
        Ok(_) => Err(Refusal::Unread),
        Err(refusal) => Ok(refusal),
    }
}

/// Returns the answer of the first module that knows the first word.
fn answer_of_words(alloc: Global, line: &str) -> Result<String, Refusal> {
    let (word, rest) = front_of(line);
    match word {
        "der"
        | "ber"
        | "order"
        | "contents"
        | "compare"
        | "text"
        | "front"
        | "twice"
        | "content"
        | "by-ord"
        | "copy"
        | "member"
        | "leaf"
        | "again" => kinds::answer(alloc, word, rest),
        "date" | "seconds" => times::answer_of_dates(alloc, word, rest),
        "new" => made::of_octets(alloc, rest),
        "from" => made::of_text(alloc, rest),
        "explicit" | "implicit" => fields::answer_of_number(alloc, word, rest),
        "prefix" => contents::answer_of_prefixes(alloc, rest),
        "reader" => readers::answer(alloc, rest),
        "writer" => writers::answer(alloc, rest),
        "slice" | "slice-value" => writers::answer_of_slices(alloc, word, rest),
        "vector" => writers::answer_of_vectors(alloc, rest),
        _ if word.starts_with("any-") || word.starts_with("set-") => {
            kinds::answer(alloc, word, rest)
        }
        _ if word.starts_with("oid") => object_identifiers::answer(alloc, word, rest),
        _ => headers::answer(alloc, word, rest),
    }
}
