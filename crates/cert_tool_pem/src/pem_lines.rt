//! The lines of a text, and the lines that begin and end blocks (RFC 7468 3).
ghost use Rattle.std.specs.Prelude.{◌≡◌, map, option_map, IfOk};
ghost use Rattle.std.specs.List.{list_any};
ghost use Rattle.cert_tool_pem.specs.Pem.{after_blanks, after_mark, before_blanks, begun_by, closed};
ghost use Rattle.cert_tool_pem.specs.Pem.{ended_by, eol_of, is_blank, is_boundary, label_after};
ghost use Rattle.cert_tool_pem.specs.Pem.{lines_of, parts_of, trimmed};

use std::alloc::{AllocError, Global};

const BEGIN: &[u8] = b"-----BEGIN ";

const END: &[u8] = b"-----END ";

const DASHES: &[u8] = b"-----";

// The byte order mark of UTF-8 (RFC 3629 6).
const MARK: &[u8] = b"\xEF\xBB\xBF";

// Returns the byte that ends the lines of a text.
fn eol_of(text: &[u8]) -> u8
    ensures { result ≡ eol_of text.now }
{
    if text.contains(&b'\n') { b'\n' } else { b'\r' }
}

// Splits a text at this byte.
fn parts_of(alloc: Global, text: &[u8], eol: u8) -> Result<Vec<&[u8]>, AllocError>
    ensures { IfOk result (λ parts. map (λ part. part.now) parts.items ≡ parts_of eol text.now) }
{
    text.split(|octet| *octet == eol).collect(alloc)
}

// Returns the lines of a text.
pub(crate) fn lines_of(alloc: Global, text: &[u8]) -> Result<Vec<&[u8]>, AllocError>
    ensures { IfOk result (λ lines. map (λ line. line.now) lines.items ≡ lines_of text.now) }
{
    let lines = parts_of(alloc, text, eol_of(text))?;
    Ok(lines)
}

// Returns whether a byte is white space.
fn is_blank(octet: u8) -> bool
    ensures { result ≡ is_blank octet }
{
    octet == b' ' || octet == b'\t' || octet == b'\r'
}

// Returns a line without the white space at its start.
fn after_blanks(line: &[u8]) -> &[u8]
    ensures { result.now ≡ after_blanks line.now }
{
    let mut left = line;
    'blanks: while let [first, rest @ ..] = left {
        if !is_blank(*first) {
            return left;
        }
        left = rest;
    }
    left
}

// Returns a line without the white space at its end.
fn before_blanks(line: &[u8]) -> &[u8]
    ensures { result.now ≡ before_blanks line.now }
{
    let mut end = line.len();
    while end > 0 {
        if !is_blank(line[end - 1]) {
            return &line[..end];
        }
        end -= 1;
    }
    &line[..0]
}

// Returns a line without the white space at either end.
#[tactic(auto, unfolding(crate::specs::Pem::trimmed))]
pub(crate) fn trimmed(line: &[u8]) -> &[u8]
    ensures { result.now ≡ trimmed line.now }
{
    before_blanks(after_blanks(line))
}

// Returns the text before the five dashes at its end.
fn closed(text: &[u8]) -> Option<&[u8]>
    ensures { option_map (λ label. label.now) result ≡ closed text.now }
{
    if !text.ends_with(DASHES) {
        return None;
    }
    Some(&text[..text.len() - DASHES.len()])
}

// Returns the label of a boundary line that begins with `start`.
fn label_after<'a>(start: &[u8], line: &'a [u8]) -> Option<&'a [u8]>
    ensures { option_map (λ label. label.now) result ≡ label_after start.now line.now }
{
    if !line.starts_with(start) {
        return None;
    }
    closed(&line[start.len()..])
}

// Returns a line without the byte order mark at its start.
fn after_mark(line: &[u8]) -> &[u8]
    ensures { result.now ≡ after_mark line.now }
{
    if !line.starts_with(MARK) {
        return line;
    }
    &line[MARK.len()..]
}

// Returns the label of the block that a line begins.
#[tactic(auto, unfolding(crate::specs::Pem::begun_by))]
pub(crate) fn begun_by(line: &[u8]) -> Option<&[u8]>
    ensures { option_map (λ label. label.now) result ≡ begun_by line.now }
{
    label_after(BEGIN, after_mark(trimmed(line)))
}

// Returns the label of the block that a line ends.
#[tactic(auto, unfolding(crate::specs::Pem::ended_by))]
pub(crate) fn ended_by(line: &[u8]) -> Option<&[u8]>
    ensures { option_map (λ label. label.now) result ≡ ended_by line.now }
{
    label_after(END, trimmed(line))
}

// Returns whether a line begins or ends a block.
fn is_boundary(line: &[u8]) -> bool
    ensures { result ≡ is_boundary line.now }
{
    begun_by(line).is_some() || ended_by(line).is_some()
}

// Returns whether one of these lines begins or ends a block.
pub(crate) fn has_boundary(lines: &[&[u8]]) -> bool
    ensures { result ≡ list_any (λ line. is_boundary line.now) lines.now }
{
    lines.iter().any(|line| is_boundary(line))
}

/// Returns the label of the block that the line with this number begins; lines are counted from 1.
pub fn label_at(text: &[u8], number: u64) -> Option<&[u8]> {
    let eol = eol_of(text);
    let mut before = number;
    for line in text.split(|octet| *octet == eol) {
        before = before.saturating_sub(1);
        if before == 0 {
            return begun_by(line);
        }
    }
    None
}
