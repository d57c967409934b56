//! A writer of texts that are either lines or one JSON document (RFC 8259), with the same calls for
//! both.

use crate::known_names::known_name;
use std::alloc::{AllocError, Global};
use std::fmt;
use std::fmt::Write;
use ucd_category::GeneralCategory;
use x509_cert_parts::Time;
use x509_cert_parts::der::ErrorKind;
use x509_cert_parts::oid::ObjectIdentifier;

// The hexadecimal digits.
const DIGITS: [u8; 16] = *b"0123456789ABCDEF";

/// A text to which parts are appended. If an allocation fails, that is recorded, and `finish`
/// returns the error; so the calls that append have no errors of their own.
///
/// As lines, a part comes after the indentation, and a value comes after its words and a space. As
/// JSON, the calls between `open` and `close` append the members of an object, each beginning with
/// its key, and those between `list` and `end_list` append the items of an array. The document is
/// one object.
#[derive(Drop)]
pub struct Lines {
    pub alloc: Global,
    pub is_json: bool,
    // Whether a description includes digests.
    pub has_digests: bool,
    // Whether an explanation has a remark, an error or a broken rule.
    pub has_remarks: bool,
    text: Vec<u8>,
    // The nesting depth of the line.
    depth: u32,
    // Whether nothing precedes the next part on the line, or in the object or array.
    is_first: bool,
    // Whether an allocation failed.
    has_failed: bool,
}

impl Lines {
    /// Returns an empty text, or the beginning of a document.
    pub fn new(alloc: Global, is_json: bool) -> Lines {
        let mut lines = Lines {
            alloc,
            is_json,
            has_digests: false,
            has_remarks: false,
            text: Vec::new(alloc),
            depth: 0,
            is_first: true,
            has_failed: false,
        };
        if is_json {
            lines.add(b"{");
        }
        lines
    }

    /// Returns the lines, or the document.
    pub fn finish(mut self) -> Result<Vec<u8>, AllocError> {
        if self.is_json {
            self.add(b"}\n");
        } else if !self.text.is_empty() {
            self.add(b"\n");
        }
        if self.has_failed {
            return Err(AllocError);
        }
        Ok(self.text)
    }

    /// Records that an allocation failed.
    pub fn fail(&mut self) {
        self.has_failed = true;
    }

    /// Records that an allocation failed, if that is the kind of the error.
    pub fn note(&mut self, kind: ErrorKind) {
        if kind == ErrorKind::OutOfMemory {
            self.has_failed = true;
        }
    }

    // Appends bytes.
    fn add(&mut self, octets: &[u8]) {
        if self.text.extend_from_slice(octets).is_err() {
            self.has_failed = true;
        }
    }

    // Appends a byte.
    fn add_one(&mut self, octet: u8) {
        if self.text.push(octet).is_err() {
            self.has_failed = true;
        }
    }

    // Appends the separator between the previous part and the next one.
    fn part(&mut self, separator: u8) {
        if !self.is_first {
            self.add_one(separator);
        }
        self.is_first = false;
    }

    /// Begins a line.
    pub fn line(&mut self) {
        if self.is_json {
            return;
        }
        if !self.text.is_empty() {
            self.add_one(b'\n');
        }
        for _ in 0..self.depth {
            self.add(b"  ");
        }
        self.is_first = true;
    }

    /// Appends words to a line; nothing if they are empty.
    pub fn word(&mut self, word: &str) {
        if !self.is_json && !word.is_empty() {
            self.part(b' ');
            self.add(word.as_bytes());
        }
    }

    /// Appends text to a line without a separator before it.
    pub fn tail(&mut self, tail: &str) {
        if !self.is_json {
            self.add(tail.as_bytes());
            self.is_first = true;
        }
    }

    /// Begins a member of an object.
    pub fn key(&mut self, key: &str) {
        if self.is_json {
            self.part(b',');
            self.add_one(b'"');
            self.add(key.as_bytes());
            self.add(b"\":");
        }
    }

    /// Begins a member on a line of its own, which begins with this word.
    pub fn row(&mut self, word: &str, key: &str) {
        self.line();
        self.word(word);
        self.key(key);
    }

    /// Appends a member with a text that needs no escapes.
    pub fn text_member(&mut self, key: &str, text: &str) {
        self.key(key);
        self.text(text);
    }

    /// Appends a member with a decimal number.
    pub fn count_member(&mut self, key: &str, count: u64) {
        self.key(key);
        self.count(count);
    }

    /// Appends a member with a text that needs no escapes, on a line of its own that begins with
    /// this word.
    pub fn text_row(&mut self, word: &str, key: &str, text: &str) {
        self.row(word, key);
        self.text(text);
    }

    /// Appends a member with a decimal number, on a line of its own.
    pub fn count_row(&mut self, word: &str, key: &str, count: u64) {
        self.row(word, key);
        self.count(count);
    }

    /// Appends a member with a date, on a line of its own.
    pub fn date_row(&mut self, word: &str, key: &str, date: &Time) {
        self.row(word, key);
        self.date(date);
    }

    /// Appends a member with bytes in hex, on a line of its own.
    pub fn octets_row(&mut self, word: &str, key: &str, octets: &[u8]) {
        self.row(word, key);
        self.octets(octets);
    }

    /// Appends a member with the INTEGER that has these content bytes, on a line of its own.
    pub fn number_row(&mut self, word: &str, key: &str, octets: &[u8]) {
        self.row(word, key);
        self.number(octets);
    }

    /// Begins an item of an array on a line of its own, which begins with this word.
    pub fn item(&mut self, word: &str) {
        self.comma();
        self.line();
        self.word(word);
    }

    /// Begins an item of an array whose members are on lines of their own.
    pub fn comma(&mut self) {
        if self.is_json {
            self.part(b',');
        }
    }

    /// Begins an object whose members aren't indented further.
    pub fn brace(&mut self) {
        if self.is_json {
            self.add_one(b'{');
            self.is_first = true;
        }
    }

    /// Ends an object that `brace` began.
    pub fn end_brace(&mut self) {
        if self.is_json {
            self.add_one(b'}');
            self.is_first = false;
        }
    }

    /// Begins an object whose members are indented further.
    pub fn open(&mut self) {
        self.depth = self.depth.saturating_add(1);
        self.brace();
    }

    /// Ends an object that `open` began.
    pub fn close(&mut self) {
        self.depth = self.depth.saturating_sub(1);
        self.end_brace();
    }

    /// Begins a member with an object, on a line of its own.
    pub fn node(&mut self, word: &str, key: &str) {
        self.row(word, key);
        self.open();
    }

    /// Begins an item with an object, on a line of its own.
    pub fn entry(&mut self, word: &str) {
        self.item(word);
        self.open();
    }

    /// Begins a member that is an array.
    pub fn list(&mut self, key: &str) {
        if self.is_json {
            self.key(key);
            self.add_one(b'[');
            self.is_first = true;
        }
    }

    /// Ends an array.
    pub fn end_list(&mut self) {
        if self.is_json {
            self.add_one(b']');
            self.is_first = false;
        }
    }

    /// Begins a text.
    pub fn begin(&mut self) {
        if self.is_json {
            self.add_one(b'"');
        } else {
            self.part(b' ');
        }
    }

    /// Ends a text.
    pub fn end(&mut self) {
        if self.is_json {
            self.add_one(b'"');
        }
    }

    /// Appends a part of a text that needs no escapes.
    pub fn push(&mut self, part: &str) {
        self.add(part.as_bytes());
    }

    /// Appends a part of a text with `Display`, between two others; none of them needs escapes.
    pub fn show<D: fmt::Display + Drop>(&mut self, before: &str, value: D, behind: &str) {
        self.push(before);
        if write!(self, "{value}").is_err() {
            self.has_failed = true;
        }
        self.push(behind);
    }

    // Appends an object identifier in dotted arcs to a text. Most arcs have one digit.
    fn arcs(&mut self, identifier: &ObjectIdentifier<39>) {
        let mut is_first = true;
        for arc in identifier.arcs() {
            if !is_first {
                self.add_one(b'.');
            }
            is_first = false;
            if arc < 10 {
                self.add_one(b'0' + arc as u8);
            } else {
                self.show("", arc, "");
            }
        }
    }

    /// Appends an object identifier to a text, with its name if it has one.
    pub fn identifier(&mut self, before: &str, identifier: &ObjectIdentifier<39>, behind: &str) {
        self.push(before);
        match known_name(identifier.as_bytes()) {
            Some(name) => {
                self.push(name);
                self.push(" (");
                self.arcs(identifier);
                self.push(")");
            }
            None => self.arcs(identifier),
        }
        self.push(behind);
    }

    /// Appends the name of an object identifier to a text, or the dotted arcs if it has none.
    pub fn short_identifier(&mut self, identifier: &ObjectIdentifier<39>) {
        match known_name(identifier.as_bytes()) {
            Some(name) => self.push(name),
            None => self.arcs(identifier),
        }
    }

    /// Appends a name, or a part of one, to a text (RFC 4514, in which a backslash begins an
    /// escape).
    pub fn name<D: fmt::Display>(&mut self, before: &str, name: &D, behind: &str) {
        self.push(before);
        match name.to_string(self.alloc) {
            Ok(printed) => self.printed(printed.as_str()),
            Err(_) => self.fail(),
        }
        self.push(behind);
    }

    // Appends a text that `Display` printed. On a line, a character that isn't printable is written
    // as `\XX` for each byte of its UTF-8.
    pub fn printed(&mut self, text: &str) {
        if is_plain(text.as_bytes()) || (!self.is_json && is_ascii_printable(text.as_bytes())) {
            self.push(text);
        } else {
            for letter in text.chars() {
                self.printable(letter);
            }
        }
    }

    /// Appends a text from a file. On a line, backslashes are escaped too, so that different texts
    /// are never printed alike.
    pub fn plain(&mut self, text: &str) {
        if is_plain(text.as_bytes()) {
            self.push(text);
        } else {
            for letter in text.chars() {
                self.letter(letter);
            }
        }
    }

    /// Appends a character of a text from a file.
    pub fn letter(&mut self, letter: char) {
        if letter == '\\' && !self.is_json {
            self.push("\\5C");
        } else {
            self.printable(letter);
        }
    }

    // Appends a character, or its escape.
    fn printable(&mut self, letter: char) {
        let mut octets = [0; 4];
        if self.is_json {
            self.escaped(letter);
        } else if is_printable(letter) {
            self.add(letter.encode_utf8(&mut octets).as_bytes());
        } else {
            self.pairs(
                "\\",
                letter.encode_utf8(&mut octets).as_bytes(),
                Some(b'\\'),
            );
        }
    }

    // Appends a character of a JSON string (RFC 8259 7). Quotes and backslashes follow a backslash,
    // and characters that aren't printable are `\u` escapes in UTF-16.
    fn escaped(&mut self, letter: char) {
        if letter == '"' || letter == '\\' {
            self.add_one(b'\\');
        }
        if is_printable(letter) {
            let mut octets = [0; 4];
            self.add(letter.encode_utf8(&mut octets).as_bytes());
        } else {
            let mut units = [0; 2];
            for unit in letter.encode_utf16(&mut units) {
                let [high, low] = unit.to_be_bytes();
                self.pairs("\\u", &[high, low], None);
            }
        }
    }

    // Appends a byte in hex.
    fn pair(&mut self, octet: u8) {
        let [high, low] = pair_of(octet);
        self.add_one(high);
        self.add_one(low);
    }

    // Appends bytes in hex without separators.
    fn joined_pairs(&mut self, octets: &[u8]) {
        let (groups, rest) = octets.as_chunks::<16>();
        for group in groups {
            self.add(&pairs_of(group));
        }
        for octet in rest {
            self.pair(*octet);
        }
    }

    // Appends bytes in hex, each after this separator.
    fn pairs_after(&mut self, octets: &[u8], separator: u8) {
        let (groups, rest) = octets.as_chunks::<16>();
        for group in groups {
            self.add(&separated_pairs_of(group, separator));
        }
        for octet in rest {
            self.add_one(separator);
            self.pair(*octet);
        }
    }

    /// Appends bytes in hex, with this separator between them, if there is one.
    pub fn pairs(&mut self, before: &str, octets: &[u8], separator: Option<u8>) {
        self.push(before);
        match (separator, octets) {
            (Some(separator), [first, rest @ ..]) => {
                self.pair(*first);
                self.pairs_after(rest, separator);
            }
            (_, octets) => self.joined_pairs(octets),
        }
    }

    /// Appends a text that needs no escapes, as a value.
    pub fn text(&mut self, text: &str) {
        self.begin();
        self.push(text);
        self.end();
    }

    /// Appends a value with `Display`.
    pub fn value<D: fmt::Display + Drop>(&mut self, value: D) {
        self.begin();
        self.show("", value, "");
        self.end();
    }

    /// Appends a decimal number.
    pub fn count(&mut self, count: u64) {
        if !self.is_json {
            self.part(b' ');
        }
        self.show("", count, "");
    }

    /// Appends a boolean.
    pub fn truth(&mut self, holds: bool) {
        if self.is_json {
            self.push(if holds { "true" } else { "false" });
        } else {
            self.word(if holds { "yes" } else { "no" });
        }
    }

    /// Appends a boolean member. As a line, it is these words, if the boolean is true.
    pub fn mark(&mut self, words: &str, key: &str, holds: bool) {
        self.key(key);
        if self.is_json {
            self.truth(holds);
        } else if holds {
            self.word(words);
        }
    }

    /// Appends that a content is malformed.
    pub fn malformed(&mut self, key: &str, kind: ErrorKind) {
        self.note(kind);
        self.line();
        self.mark("malformed", key, true);
    }

    /// Appends a date.
    pub fn date(&mut self, date: &Time) {
        self.value(date);
    }

    /// Appends the position of a byte, and the offset of the value that has it.
    pub fn place(&mut self, offset: u64, octet: u64) {
        self.word("octet");
        if self.is_json || offset > 0 {
            self.count_member("offset", offset);
            self.word("+");
        }
        self.count_member("octet", octet);
    }

    /// Appends the members of an object identifier: its dotted arcs, and its name if it has one.
    pub fn members_of(&mut self, identifier: &ObjectIdentifier<39>) {
        if self.is_json {
            self.key("id");
            self.begin();
            self.arcs(identifier);
            self.end();
            if let Some(name) = known_name(identifier.as_bytes()) {
                self.text_member("name", name);
            }
        } else {
            self.begin();
            self.identifier("", identifier, "");
        }
    }

    /// Appends a text from a file, as a value.
    pub fn plain_value(&mut self, text: &str) {
        self.begin();
        self.plain(text);
        self.end();
    }

    /// Appends the text of a name, or of a part of one.
    pub fn name_value<D: fmt::Display>(&mut self, name: &D) {
        self.begin();
        self.name("", name, "");
        self.end();
    }

    /// Appends bytes in hex, with colons between them.
    pub fn octets(&mut self, octets: &[u8]) {
        self.begin();
        self.pairs("", octets, Some(b':'));
        self.end();
    }

    /// Appends a natural number in hex after `0x`.
    pub fn natural(&mut self, octets: &[u8]) {
        self.begin();
        self.pairs("0x", octets, None);
        self.end();
    }

    /// Appends the INTEGER with these content bytes in hex, as OpenSSL prints it: without a leading
    /// zero byte, and with a sign before the absolute value of a negative one.
    pub fn number(&mut self, octets: &[u8]) {
        match octets {
            [0, rest @ ..] if !rest.is_empty() => self.natural(rest),
            [first, ..] if *first >= 0x80 => {
                self.begin();
                self.push("-0x");
                self.opposite(octets);
                self.end();
            }
            octets => self.natural(octets),
        }
    }

    // Appends the absolute value of a negative INTEGER: the two's complement, without a leading
    // zero byte.
    fn opposite(&mut self, octets: &[u8]) {
        let mut last = 0;
        for place in 0..octets.len() {
            if octets[place] != 0 {
                last = place;
            }
        }
        for place in 0..octets.len() {
            let complement = 255 - octets[place];
            if place >= last {
                self.pair(complement.wrapping_add(1));
            } else if place > 0 || complement > 0 {
                self.pair(complement);
            }
        }
    }

    /// Appends the section that a finding refers to, if there is one.
    pub fn section(&mut self, section: &str) {
        if self.is_json && !section.is_empty() {
            self.text_member("section", section);
        } else if !section.is_empty() {
            self.show(" (", section, ")");
        }
    }

    /// Appends an item with this text.
    pub fn finding(&mut self, finding: &str) {
        self.entry("");
        self.text_member("finding", finding);
        self.close();
    }
}

// Lets `Display` append to the text.
impl Write for Lines {
    fn write_str(&mut self, part: &str) -> fmt::Result {
        self.push(part);
        Ok(())
    }
}

// Returns the hexadecimal digits of a byte.
fn pair_of(octet: u8) -> [u8; 2] {
    [
        DIGITS[usize::from(octet >> 4)],
        DIGITS[usize::from(octet & 15)],
    ]
}

// Returns the hexadecimal digits of sixteen bytes.
fn pairs_of(octets: &[u8; 16]) -> [u8; 32] {
    let mut text = [0; 32];
    for place in 0..16 {
        let [high, low] = pair_of(octets[place]);
        text[2 * place] = high;
        text[2 * place + 1] = low;
    }
    text
}

// Returns the hexadecimal digits of sixteen bytes, each after this separator.
fn separated_pairs_of(octets: &[u8; 16], separator: u8) -> [u8; 48] {
    let mut text = [separator; 48];
    for place in 0..16 {
        let [high, low] = pair_of(octets[place]);
        text[3 * place + 1] = high;
        text[3 * place + 2] = low;
    }
    text
}

// Returns whether bytes are printable ASCII.
fn is_ascii_printable(text: &[u8]) -> bool {
    for octet in text {
        if *octet < b' ' || *octet > b'~' {
            return false;
        }
    }
    true
}

// Returns whether bytes are printable ASCII without characters that are escaped.
fn is_plain(text: &[u8]) -> bool {
    for octet in text {
        if *octet < b' ' || *octet > b'~' || *octet == b'\\' || *octet == b'"' {
            return false;
        }
    }
    true
}

// Returns whether a character needs no escape in a line: it is a space, or Unicode calls it a
// letter, mark, number, punctuation or symbol.
fn is_printable(letter: char) -> bool {
    if letter.is_ascii() {
        return letter >= ' ' && letter != '\x7f';
    }
    !matches!(
        GeneralCategory::for_char(letter),
        GeneralCategory::SpaceSeparator
            | GeneralCategory::LineSeparator
            | GeneralCategory::ParagraphSeparator
            | GeneralCategory::Control
            | GeneralCategory::Format
            | GeneralCategory::Surrogate
            | GeneralCategory::PrivateUse
            | GeneralCategory::Unassigned
    )
}
