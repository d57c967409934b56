//! Answers questions about builders.

mod builders;
mod certificates;
mod digest_signer;
mod keys;
mod names;
mod refusals;
mod requests;
mod revocation_lists;
mod words;

use builders::Manner;
use refusals::Refusal;
use std::alloc::Global;
use std::io;
use std::io::Write;

/// Returns whether a question is about builders. `names`, `list` and `again` are only about
/// builders if a name, a way or a profile follows.
pub fn is_asked(word: &str, rest: &str) -> bool {
    let (second, _) = rest.split_once(' ').unwrap_or((rest, ""));
    match word {
        "repeats" | "authority" | "key" | "request" => true,
        "names" => rest.is_empty() || rest.contains('='),
        "list" => Manner::parse(second).is_ok(),
        "again" => certificates::is_profile(second),
        _ => Manner::parse(word).is_ok(),
    }
}

/// Writes the answer to a question.
pub fn answer<W: Write>(alloc: Global, word: &str, rest: &str, out: &mut W) -> io::Result<()> {
    match answer_of(alloc, word, rest) {
        Ok(text) => writeln!(out, "{text}"),
        Err(refusal) => writeln!(out, "{refusal}"),
    }
}

/// Returns the answer to a question, whose first word says what it is about.
fn answer_of(alloc: Global, word: &str, rest: &str) -> Result<String, Refusal> {
    let octets = match word {
        "names" => return names::answer(alloc, false, rest),
        "repeats" => return names::answer(alloc, true, rest),
        "authority" => return names::answer_of_authority(alloc, rest),
        "key" => return keys::answer(alloc, rest),
        "list" => revocation_lists::answer(alloc, rest)?,
        "request" => requests::answer(alloc, rest)?,
        _ => certificates::answer(alloc, Manner::parse(word)?, rest)?,
    };
    let text = hex::encode(alloc, octets.as_slice())?;
    Ok(format!(in alloc; "ok {text}")?)
}
