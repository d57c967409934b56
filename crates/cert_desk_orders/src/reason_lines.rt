//! Lines that say what is wrong with an orders file.
ghost use Rattle.std.specs.Prelude.{◌≡◌, IfOk, string_bytes};
ghost use Rattle.cert_desk_orders.specs.OrderReading.{wrong_plain};
ghost use Rattle.cert_desk_orders.specs.Reasons.{is_shown, reason_line, value_reason, word_line};

use crate::wrong_lines::{Why, WrongLine};
use std::alloc::{AllocError, Global};

// Returns whether a word is printed: it is short, and printable ASCII.
fn is_shown(word: &str) -> bool
    ensures { result ≡ is_shown word.now }
{
    if word.len() > 32 {
        return false;
    }
    for octet in word.as_bytes() {
        if *octet <= 32 || *octet >= 127 {
            return false;
        }
    }
    true
}

// Returns what is said about the wrong value of a word.
fn value_reason(word: &str) -> &'static str
    ensures { result.now ≡ value_reason word.now }
{
    match word {
        "serial" => ": not bytes in base 16",
        "key" => ": not a SubjectPublicKeyInfo in base 16",
        _ => ": not a number up to 255",
    }
}

// Returns the line that says something about a word.
fn word_line(alloc: Global, number: u64, word: &str, reason: &str) -> Result<String, AllocError>
    ensures { IfOk result (λ text. string_bytes text ≡ word_line number word.now reason.now) }
{
    let mut text = format!(in alloc; "orders: line {number} ")?;
    text.push_str(word)?;
    text.push_str(reason)?;
    text.push_str("\n")?;
    Ok(text)
}

/// Returns the line that says what is wrong with a line of an orders file.
///
/// # Errors
///
/// - `AllocError`: memory runs out.
pub fn reason_line(alloc: Global, wrong: &WrongLine<'_>) -> Result<String, AllocError>
    ensures { IfOk result (λ text. string_bytes text ≡ reason_line (wrong_plain wrong.now)) }
{
    let number = wrong.number;
    let word = wrong.word;
    match wrong.why {
        Why::NotUtf8 => format!(in alloc; "orders: line {number}: not UTF-8\n"),
        Why::UnknownWord => {
            if is_shown(word) {
                return format!(in alloc; "orders: line {number}: no word \"{word}\"\n");
            }
            format!(in alloc; "orders: line {number}: no such word, and it isn't printable\n")
        }
        Why::BeforeOrders => word_line(alloc, number, word, ": before the first order"),
        Why::MissingWord => format!(in alloc; "orders: line {number}: no line \"{word}\"\n"),
        Why::NoValue => word_line(alloc, number, word, ": no value"),
        Why::HasValue => word_line(alloc, number, word, ": nothing may follow"),
        Why::BadValue => word_line(alloc, number, word, value_reason(word)),
        Why::Repeated => word_line(alloc, number, word, ": repeated"),
    }
}
