//! Messages for arguments that don't begin with a command.

use crate::messages::{line_of, line_with};
use crate::parsed_arguments::{ParsedArguments, parse_arguments};
use crate::tasks::{of_word, of_words};
use std::alloc::{AllocError, Global};

// Returns the kinds that a command takes as its second word.
fn kinds_of(word: &str) -> Option<&'static str> {
    match word {
        "describe" => Some(
            "certificate, list, request, ocsp-request, ocsp-response, message, key, timestamp, \
            stream",
        ),
        "explain" => Some(
            "certificate, list, request, ocsp-request, ocsp-response, message, key, timestamp, \
            anchors, stream, chain",
        ),
        _ => None,
    }
}

// Describes what is missing or unexpected after a command of one word.
fn line_after_command(alloc: Global, given: &ParsedArguments<'_>) -> Result<String, AllocError> {
    match given.third {
        Some(word) => line_with(alloc, "unexpected argument ", word, ""),
        None => line_of(alloc, "the file is missing", "", ""),
    }
}

// Reports that a word isn't one of these kinds.
fn kinds_line(alloc: Global, kind: &str, kinds: &str) -> Result<String, AllocError> {
    format!(in alloc; "{kind:?} isn't one of {kinds}")
}

// Describes what is missing or wrong after a command that takes a kind.
fn kind_line(
    alloc: Global,
    word: &str,
    kind: Option<&str>,
    kinds: &str,
) -> Result<String, AllocError> {
    match kind {
        None => line_of(alloc, "the kind is missing: ", kinds, ""),
        Some(kind) if of_words(word, kind).is_none() => kinds_line(alloc, kind, kinds),
        Some(_) => line_of(alloc, "the file is missing", "", ""),
    }
}

// Describes why arguments aren't a command with a file.
pub(crate) fn no_command_line(alloc: Global, words: &[&str]) -> Result<String, AllocError> {
    let given = match parse_arguments(words) {
        Ok(given) => given,
        Err(_) => return line_of(alloc, "no command with a file after it", "", ""),
    };
    let Some(word) = given.first else {
        return line_of(alloc, "the command is missing", "", "");
    };
    if let Some(kinds) = kinds_of(word) {
        return kind_line(alloc, word, given.second, kinds);
    }
    if word == "serve" {
        return line_of(
            alloc,
            "`serve` takes no arguments, and can't be a request",
            "",
            "",
        );
    }
    if of_word(word).is_none() {
        return line_with(alloc, "unknown command ", word, "");
    }
    line_after_command(alloc, &given)
}
