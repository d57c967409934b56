//! The lines of an orders file.
ghost use Rattle.std.specs.Prelude.{◌≡◌, find, map, IfOk};
ghost use Rattle.x509_cert_parts.specs.Der.Grammar.{plain_option};
ghost use Rattle.cert_desk_orders.specs.OrderReading.{line_plain, lines_plain};
ghost use Rattle.cert_desk_orders.specs.OrdersFile.{value_if, value_of};
ghost use Rattle.cert_desk_orders.specs.OrdersFile.{has, line_of, lines_in, parts_in, stands};

use std::alloc::{AllocError, Global};
use std::str;

/// A line of an orders file that isn't empty.
#[derive(Clone, Copy)]
pub struct Line<'a> {
    /// The number of the line, counted from 1.
    pub number: u64,
    /// The text before the first space. It is empty if the line isn't UTF-8.
    pub word: &'a str,
    /// The text after the first space, if there is one.
    pub value: Option<&'a str>,
}

impl<'a> Line<'a> {
    // Returns the line with these bytes.
    fn new(number: u64, octets: &'a [u8]) -> Line<'a>
        ensures { line_plain result ≡ line_of number octets.now }
    {
        let Ok(text) = str::from_utf8(octets) else {
            return Line {
                number,
                word: "",
                value: None,
            };
        };
        match text.split_once(' ') {
            Some((word, value)) => Line {
                number,
                word,
                value: Some(value),
            },
            None => Line {
                number,
                word: text,
                value: None,
            },
        }
    }

    // Returns whether the line has this word.
    pub(crate) fn has(&self, word: &str) -> bool
        ensures { result ≡ has word.now (line_plain self.now) }
    {
        self.word == word
    }

    // Returns the value of the line, if the line has this word.
    pub(crate) fn value_if(&self, word: &str) -> Option<&'a str>
        ensures { plain_option (λ value. value.now) result
            ≡ value_if word.now (line_plain self.now) }
    {
        if !self.has(word) {
            return None;
        }
        self.value
    }
}

// Returns the parts of a file between line ends.
fn parts_of(alloc: Global, octets: &[u8]) -> Result<Vec<&[u8]>, AllocError>
    ensures { IfOk result (λ parts. map (λ part. part.now) parts.items ≡ parts_in octets.now) }
{
    octets.split(|octet| *octet == b'\n').collect(alloc)
}

// Returns the nonempty lines of a file.
pub(crate) fn lines_of(alloc: Global, octets: &[u8]) -> Result<Vec<Line<'_>>, AllocError>
    ensures { IfOk result (λ lines. lines_plain lines.items ≡ lines_in octets.now) }
{
    let parts = parts_of(alloc, octets)?;
    let mut lines = Vec::new(alloc);
    let mut number: u64 = 0;
    for part in parts.as_slice() {
        number = number.saturating_add(1);
        if !part.is_empty() {
            lines.push(Line::new(number, part))?;
        }
    }
    Ok(lines)
}

// Returns whether a line has this word.
pub(crate) fn stands(lines: &[Line<'_>], word: &str) -> bool
    ensures { result ≡ stands word.now (lines_plain lines.now) }
{
    lines.iter().any(|line| line.has(word))
}

// Returns the first line with this word.
pub(crate) fn find<'a>(lines: &[Line<'a>], word: &str) -> Option<Line<'a>>
    ensures { plain_option line_plain result ≡ find (has word.now) (lines_plain lines.now) }
{
    lines.iter().find(|line| line.has(word)).copied()
}

// Returns the value of the first line with this word.
pub(crate) fn value_of<'a>(lines: &[Line<'a>], word: &str) -> Option<&'a str>
    ensures { plain_option (λ value. value.now) result ≡ value_of word.now (lines_plain lines.now) }
{
    let Some(line) = find(lines, word) else {
        return None;
    };
    line.value
}
