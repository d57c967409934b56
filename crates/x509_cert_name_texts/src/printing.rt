//! Printing the values in a name: escapes and hexadecimal digits (RFC 4514 2.4).

ghost use Rattle.std.specs.Prelude.{◌≡◌, ◌<◌, ◌∷◌, [], IsTrue, chars};
ghost use Rattle.std.specs.Fmt.{WritesOnOk};
ghost use Rattle.x509_cert_name_texts.specs.Escapes.{escaped_char, escaped, hex_digits, in_hex};
ghost use Rattle.x509_cert_name_texts.specs.Escapes.{is_escaped_sign};

use std::fmt;

/// Returns whether a character is escaped at every position in a value (RFC 4514 2.4).
fn is_escaped_sign(c: char) -> bool
    ensures { result ≡ is_escaped_sign c }
{
    matches!(c, '"' | '+' | ',' | ';' | '<' | '>' | '\\')
}

/// Writes a byte as two lowercase hexadecimal digits.
#[tactic(auto, using(std::proofs::lemmas::Fmt::hex_byte))]
fn write_hex_octet<W: fmt::Write>(octet: u8, f: &mut fmt::Formatter<W>) -> fmt::Result
    ensures { WritesOnOk W.write_str_gives f.old result (hex_digits octet) f.new }
{
    write!(f, "{octet:02x}")
}

/// Writes bytes as lowercase hexadecimal digits, two for each byte.
pub fn write_hex<W: fmt::Write>(octets: &[u8], f: &mut fmt::Formatter<W>) -> fmt::Result
    ensures { WritesOnOk W.write_str_gives f.old result (in_hex octets.now) f.new }
{
    for octet in octets {
        write_hex_octet(*octet, f)?;
    }
    Ok(())
}

/// Writes a byte as a backslash and two lowercase hexadecimal digits.
#[tactic(auto, using(std::proofs::lemmas::Fmt::hex_byte))]
fn write_escaped_octet<W: fmt::Write>(octet: u8, f: &mut fmt::Formatter<W>) -> fmt::Result
    ensures { WritesOnOk W.write_str_gives f.old result (92 ∷ hex_digits octet) f.new }
{
    write!(f, "\\{octet:02x}")
}

/// Writes a character of a value, escaped if its position requires it. `first` and `last` say that
/// it is the first or the last character.
fn write_escaped_char<W: fmt::Write>(
    c: char,
    first: bool,
    last: bool,
    f: &mut fmt::Formatter<W>,
) -> fmt::Result
    ensures { WritesOnOk W.write_str_gives f.old result (escaped_char first last c) f.new }
{
    if is_escaped_sign(c) || (c == '#' && first) || (c == ' ' && (first || last)) {
        return write!(f, "\\{c}");
    }
    if c < ' ' || c == '\x7f' {
        return write_escaped_octet(c as u8, f);
    }
    write!(f, "{c}")
}

/// Returns `true` only if this ASCII character is written without an escape.
fn stands_bare(octet: u8, first: bool, last: bool) -> bool
    ensures { IsTrue result → escaped_char first last octet ≡ octet ∷ [] }
{
    match octet {
        b'"' | b'+' | b',' | b';' | b'<' | b'>' | b'\\' => false,
        b'#' => !first,
        b' ' => !first && !last,
        b'!'..=b'~' => true,
        _ => false,
    }
}

/// Returns `true` only if no character of this ASCII text needs an escape. Most texts need none, so
/// they are written with one call.
fn is_bare(text: &[u8]) -> bool
    ensures { IsTrue result → escaped text.now ≡ text.now }
{
    let mut left = text;
    let mut first = true;
    while let Some((octet, rest)) = left.split_first() {
        if !stands_bare(*octet, first, rest.is_empty()) {
            return false;
        }
        left = rest;
        first = false;
    }
    true
}

/// Writes a value in the string form of RFC 4514 2.4.
///
/// A backslash comes before each of `"+,;<>\`, before a `#` that is first, and before a space that
/// is first or last. An ASCII control character is written as a backslash and two lowercase
/// hexadecimal digits.
#[tactic(auto, using(crate::proofs::TextSteps::ascii_texts))]
pub fn write_escaped<W: fmt::Write>(text: &str, f: &mut fmt::Formatter<W>) -> fmt::Result
    ensures { WritesOnOk W.write_str_gives f.old result (escaped (chars text.now)) f.new }
{
    if text.is_ascii() && is_bare(text.as_bytes()) {
        return f.write_str(text);
    }
    write_each(text, f)
}

/// Writes a value character by character, with its escapes.
fn write_each<W: fmt::Write>(text: &str, f: &mut fmt::Formatter<W>) -> fmt::Result
    ensures { WritesOnOk W.write_str_gives f.old result (escaped (chars text.now)) f.new }
{
    let mut left = text.chars();
    let mut first = true;
    while let Some(c) = left.next() {
        let last = left.as_str().is_empty();
        write_escaped_char(c, first, last, f)?;
        first = false;
    }
    Ok(())
}
