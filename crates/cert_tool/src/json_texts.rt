//! JSON strings (RFC 8259 7).

ghost use Rattle.std.specs.Prelude.{◌≡◌, ◌<◌, ◌^◌, ◌++◌, IfOk, OnOk, string_bytes};
ghost use Rattle.std.specs.List.{list_all};
ghost use Rattle.cert_tool.specs.JsonTexts.{is_plain, unit_escape, letter_text};
ghost use Rattle.cert_tool.specs.JsonTexts.{letter_escape, escaped_text, place_object};

use std::alloc::{AllocError, Global};

// Returns whether a character needs no escape.
fn is_plain(letter: char) -> bool
    ensures { result ≡ is_plain letter }
{
    letter > '\x1f' && letter < '\x7f' && letter != '"' && letter != '\\'
}

// Returns whether no byte of a text needs an escape.
fn is_plain_text(text: &[u8]) -> bool
    ensures { result ≡ list_all is_plain text.now }
{
    text.iter().all(|octet| is_plain(char::from(*octet)))
}

// Returns the escape of a UTF-16 code unit.
fn unit_escape(alloc: Global, unit: u32) -> Result<String, AllocError>
    requires { unit < 2 ^ 16 }
    ensures { IfOk result (λ text. string_bytes text ≡ unit_escape unit) }
{
    let octets = [(unit / 256) as u8, (unit % 256) as u8];
    let digits = hex::encode(alloc, octets.as_slice())?;
    let digits = digits.as_str();
    format!(in alloc; "\\u{digits}")
}

// Returns the escape of a character, which is one or two UTF-16 code units.
fn letter_escape(alloc: Global, letter: char) -> Result<String, AllocError>
    ensures { IfOk result (λ text. string_bytes text ≡ letter_escape letter) }
{
    let number = letter as u32;
    if number < 65536 {
        return unit_escape(alloc, number);
    }
    let behind = number - 65536;
    let first = unit_escape(alloc, 55296 + behind / 1024)?;
    let second = unit_escape(alloc, 56320 + behind % 1024)?;
    let (first, second) = (first.as_str(), second.as_str());
    format!(in alloc; "{first}{second}")
}

// Appends a character, escaped if it must be.
fn add_letter(alloc: Global, text: &mut String, letter: char) -> Result<(), AllocError>
    ensures { OnOk result (string_bytes text.new ≡ string_bytes text.old ++ letter_text letter) }
{
    if is_plain(letter) {
        return text.push(letter);
    }
    let escape = letter_escape(alloc, letter)?;
    text.push_str(escape.as_str())?;
    Ok(())
}

// Returns a text as it is written between the quotes of a JSON string. Printable ASCII characters
// are written as they are; quotes, backslashes and all other characters are written as `\u` escapes
// in UTF-16.
pub(crate) fn escaped_text(alloc: Global, text: &str) -> Result<String, AllocError>
    ensures { IfOk result (λ escaped. string_bytes escaped ≡ escaped_text text.now) }
{
    if is_plain_text(text.as_bytes()) {
        return String::from_str(alloc, text);
    }
    let mut escaped = String::new(alloc);
    for letter in text.chars() {
        add_letter(alloc, &mut escaped, letter)?;
    }
    Ok(escaped)
}

// Returns the JSON object with the index, offset, length and subject of a certificate. The subject
// must already be escaped.
pub(crate) fn place_object(
    alloc: Global,
    place: usize,
    offset: u64,
    len: usize,
    subject: &str,
) -> Result<String, AllocError>
    ensures { IfOk result (λ text. string_bytes text
        ≡ place_object place offset len subject.now) }
{
    format!(in alloc;
        "{{\"place\":{place},\"offset\":{offset},\"length\":{len},\"subject\":\"{subject}\"}}"
    )
}
