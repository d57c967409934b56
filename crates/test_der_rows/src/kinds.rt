//! Finds types by their names.

use crate::questions::{Question, asked_by};
use crate::refusals::Refusal;
use crate::shown::{front_of, octets_of};
use crate::{again, any_values, contents, copies, leaves, lists};
use std::alloc::Global;

/// Answers a question about a type, whose bytes follow its name. This function owns the bytes and
/// all modules borrow them.
pub fn answer(alloc: Global, word: &str, rest: &str) -> Result<String, Refusal> {
    let (kind, rest) = front_of(rest);
    let (first, second) = front_of(rest);
    let first = octets_of(alloc, first)?;
    let second = octets_of(alloc, second)?;
    answer_of(alloc, word, kind, first.as_slice(), second.as_slice())
}

/// Answers a question about a type and bytes. For `member`, the type's name is an index, and for
/// `again` it is a word.
fn answer_of(
    alloc: Global,
    word: &str,
    kind: &str,
    first: &[u8],
    second: &[u8],
) -> Result<String, Refusal> {
    match word {
        "content" => contents::answer(alloc, kind, first, second),
        "by-ord" => contents::answer_by_ord(alloc, kind, first, second),
        "copy" => copies::answer(alloc, kind, first),
        "member" => copies::answer_of_member(alloc, kind, first),
        "leaf" => leaves::answer_of_leaves(alloc, kind, first),
        "again" => again::answer(alloc, kind, first),
        _ if word.starts_with("any-") => {
            any_values::answer_of_conversions(alloc, word, kind, first)
        }
        _ if word.starts_with("set-") => lists::answer_of_members(alloc, word, kind, first),
        _ => {
            let asked = asked_by(word)?;
            let question = Question {
                asked,
                first,
                second,
            };
            leaves::answer(alloc, kind, &question)
        }
    }
}
