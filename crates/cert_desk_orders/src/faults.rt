//! Finds wrong lines in an orders file.
ghost use Rattle.std.specs.Prelude.{◌≡◌, ◌<◌, [], length, IfOk};
ghost use Rattle.cert_desk_orders.specs.OrderReading.{line_plain, lines_plain};
ghost use Rattle.cert_desk_orders.specs.OrdersFile.{fits, first_faulty, is_faulty, is_repeated};
ghost use Rattle.cert_desk_orders.specs.OrdersFile.{is_whole, order_fault, stands_alone, takes};

use crate::line::{Line, stands};
use crate::line_values::{key_of, length_of, octets_of};
use std::alloc::{AllocError, Global};

// Returns whether a word has no value.
pub(crate) fn stands_alone(word: &str) -> bool
    ensures { result ≡ stands_alone word.now }
{
    word == "order" || word == "client" || word == "ocsp"
}

// Returns whether a value is allowed for a word.
pub(crate) fn takes(alloc: Global, word: &str, value: &str) -> Result<bool, AllocError>
    ensures { IfOk result (λ taken. taken ≡ takes word.now value.now) }
{
    match word {
        "name" | "from" | "until" | "dns" => Ok(true),
        "serial" => Ok(octets_of(alloc, value)?.is_some()),
        "key" => Ok(key_of(alloc, value)?.is_some()),
        "path" => Ok(length_of(value).is_some()),
        _ => Ok(false),
    }
}

// Returns whether a line has a known word, with a value if and only if the word needs one.
fn fits(alloc: Global, line: &Line<'_>) -> Result<bool, AllocError>
    ensures { IfOk result (λ right. right ≡ fits line.now.word.now (line_plain line.now).value) }
{
    match line.value {
        None => Ok(stands_alone(line.word)),
        Some(value) => takes(alloc, line.word, value),
    }
}

// Returns whether the word of a line occurs before, and may occur only once.
pub(crate) fn is_repeated(before: &[Line<'_>], line: &Line<'_>) -> bool
    ensures { result ≡ is_repeated (lines_plain before.now) (line_plain line.now) }
{
    !line.has("dns") && stands(before, line.word)
}

// Returns whether a line is wrong after these lines.
fn is_faulty(alloc: Global, before: &[Line<'_>], line: &Line<'_>) -> Result<bool, AllocError>
    ensures { IfOk result
        (λ faulty. faulty ≡ is_faulty (lines_plain before.now) (line_plain line.now)) }
{
    let fits = fits(alloc, line)?;
    Ok(!fits || is_repeated(before, line))
}

// Returns the number of the first line of an order that is wrong by itself.
fn first_faulty(alloc: Global, lines: &[Line<'_>]) -> Result<Option<u64>, AllocError>
    ensures { IfOk result (λ faulty. faulty ≡ first_faulty [] (lines_plain lines.now)) }
{
    for (index, line) in lines.iter().enumerate() {
        if is_faulty(alloc, &lines[..index], line)? {
            return Ok(Some(line.number));
        }
    }
    Ok(None)
}

// Returns whether an order has all words that it needs.
fn is_whole(lines: &[Line<'_>]) -> bool
    ensures { result ≡ is_whole (lines_plain lines.now) }
{
    stands(lines, "name")
        && stands(lines, "from")
        && stands(lines, "until")
        && stands(lines, "serial")
        && stands(lines, "key")
}

// Returns the number of the wrong line of an order, or `None` if the order is valid.
pub(crate) fn order_fault(alloc: Global, lines: &[Line<'_>]) -> Result<Option<u64>, AllocError>
    requires { 0 < length lines.now }
    ensures { IfOk result (λ faulty. faulty ≡ order_fault (lines_plain lines.now)) }
{
    let first = lines[0];
    if first.has("order") && is_whole(lines) {
        return first_faulty(alloc, lines);
    }
    Ok(Some(first.number))
}
