//! Finds out what is wrong with an orders file.
ghost use Rattle.std.specs.Prelude.{◌≡◌, ◌<◌, [], length, IfOk};
ghost use Rattle.x509_cert_parts.specs.Der.Grammar.{plain_option};
ghost use Rattle.cert_desk_orders.specs.OrderReading.{line_plain, lines_plain, wrong_plain};
ghost use Rattle.cert_desk_orders.specs.Reasons.{first_unknown, first_wrong, is_known, is_unread};
ghost use Rattle.cert_desk_orders.specs.Reasons.{line_at, missing_word, order_wrong, wrong_after};
ghost use Rattle.cert_desk_orders.specs.Reasons.{wrong_at, wrong_line, wrong_value, wrong_word};

use crate::faults::{is_repeated, stands_alone, takes};
use crate::line::{Line, find, lines_of, stands};
use crate::orders_file::grouped;
use crate::wrong_lines::{Why, WrongLine};
use std::alloc::{AllocError, Global};

// Returns whether there is such a word.
fn is_known(word: &str) -> bool
    ensures { result ≡ is_known word.now }
{
    match word {
        "name" | "from" | "until" | "dns" | "serial" | "key" | "path" => true,
        _ => stands_alone(word),
    }
}

// Returns what is wrong with the value of a known word.
fn wrong_value(alloc: Global, line: &Line<'_>) -> Result<Option<Why>, AllocError>
    ensures { IfOk result
        (λ why. why ≡ wrong_value line.now.word.now (line_plain line.now).value) }
{
    let alone = stands_alone(line.word);
    match line.value {
        None if alone => Ok(None),
        None => Ok(Some(Why::NoValue)),
        Some(_) if alone => Ok(Some(Why::HasValue)),
        Some(value) => {
            if takes(alloc, line.word, value)? {
                return Ok(None);
            }
            Ok(Some(Why::BadValue))
        }
    }
}

// Returns what is wrong with a line that has none of the words.
fn wrong_word(line: &Line<'_>) -> Why
    ensures { result ≡ wrong_word (line_plain line.now) }
{
    match line.value {
        None if line.word.is_empty() => Why::NotUtf8,
        _ => Why::UnknownWord,
    }
}

// Returns what is wrong with a line after these lines of its order.
fn wrong_after(
    alloc: Global,
    before: &[Line<'_>],
    line: &Line<'_>,
) -> Result<Option<Why>, AllocError>
    ensures { IfOk result (λ it. it ≡ wrong_after (lines_plain before.now) (line_plain line.now)) }
{
    if !is_known(line.word) {
        return Ok(Some(wrong_word(line)));
    }
    let why = wrong_value(alloc, line)?;
    if why.is_none() && is_repeated(before, line) {
        return Ok(Some(Why::Repeated));
    }
    Ok(why)
}

// Returns the line with what is wrong with it.
fn wrong_at<'a>(line: &Line<'a>, why: Why) -> WrongLine<'a>
    ensures { wrong_plain result ≡ wrong_at (line_plain line.now) why }
{
    WrongLine {
        number: line.number,
        word: line.word,
        why,
    }
}

// Returns the first wrong line of an order.
fn first_wrong<'a>(alloc: Global, lines: &[Line<'a>]) -> Result<Option<WrongLine<'a>>, AllocError>
    ensures { IfOk result
        (λ wrong. plain_option wrong_plain wrong ≡ first_wrong [] (lines_plain lines.now)) }
{
    for (index, line) in lines.iter().enumerate() {
        if let Some(why) = wrong_after(alloc, &lines[..index], line)? {
            return Ok(Some(wrong_at(line, why)));
        }
    }
    Ok(None)
}

// Returns the first line of an order that has none of the words.
fn first_unknown<'a>(lines: &[Line<'a>]) -> Option<WrongLine<'a>>
    ensures { plain_option wrong_plain result ≡ first_unknown (lines_plain lines.now) }
{
    for line in lines {
        if !is_known(line.word) {
            return Some(wrong_at(line, wrong_word(line)));
        }
    }
    None
}

// Returns the first word that an order needs and lacks.
fn missing_word(lines: &[Line<'_>]) -> Option<&'static str>
    ensures { plain_option (λ word. word.now) result ≡ missing_word (lines_plain lines.now) }
{
    if !stands(lines, "name") {
        return Some("name");
    }
    if !stands(lines, "from") {
        return Some("from");
    }
    if !stands(lines, "until") {
        return Some("until");
    }
    if !stands(lines, "serial") {
        return Some("serial");
    }
    if !stands(lines, "key") {
        return Some("key");
    }
    None
}

// Returns the wrong line of an order, or `None` if the order is valid.
fn order_wrong<'a>(alloc: Global, lines: &[Line<'a>]) -> Result<Option<WrongLine<'a>>, AllocError>
    requires { 0 < length lines.now }
    ensures { IfOk result
        (λ wrong. plain_option wrong_plain wrong ≡ order_wrong (lines_plain lines.now)) }
{
    let first = lines[0];
    if !first.has("order") {
        if !is_known(first.word) {
            return Ok(Some(wrong_at(&first, wrong_word(&first))));
        }
        return Ok(Some(wrong_at(&first, Why::BeforeOrders)));
    }
    let Some(word) = missing_word(lines) else {
        let wrong = first_wrong(alloc, lines)?;
        return Ok(wrong);
    };
    if let Some(unknown) = first_unknown(lines) {
        return Ok(Some(unknown));
    }
    Ok(Some(WrongLine {
        number: first.number,
        word,
        why: Why::MissingWord,
    }))
}

/// Returns what is wrong with the first wrong order of a file, or `None` if no line is wrong.
///
/// If the order lacks a word and has a line with an unknown word, that line is returned, because it
/// may be misspelled. If it lacks a word otherwise, its line `order` is returned, with the word.
/// Otherwise, the first wrong line is returned.
///
/// # Errors
///
/// - `AllocError`: memory runs out.
pub fn wrong_line<'a>(alloc: Global, octets: &'a [u8]) -> Result<Option<WrongLine<'a>>, AllocError>
    ensures { IfOk result (λ wrong. plain_option wrong_plain wrong ≡ wrong_line octets.now) }
{
    let lines = lines_of(alloc, octets)?;
    let orders = grouped(alloc, lines.as_slice())?;
    for order in orders.as_slice() {
        if order.is_empty() {
            continue;
        }
        if let Some(wrong) = order_wrong(alloc, *order)? {
            return Ok(Some(wrong));
        }
    }
    Ok(None)
}

/// Returns the first line with a word, in the order at an index of a file, counted from 0.
///
/// # Errors
///
/// - `AllocError`: memory runs out.
pub fn line_at<'a>(
    alloc: Global,
    octets: &'a [u8],
    place: usize,
    word: &str,
) -> Result<Option<Line<'a>>, AllocError>
    ensures { IfOk result
        (λ line. plain_option line_plain line ≡ line_at octets.now place word.now) }
{
    let lines = lines_of(alloc, octets)?;
    let orders = grouped(alloc, lines.as_slice())?;
    match orders.as_slice().get(place) {
        Some(order) => Ok(find(*order, word)),
        None => Ok(None),
    }
}
