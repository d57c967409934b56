//! Finds the fields that enclose a decoding error.

use crate::content_error::{Content, ContentError};
use crate::expected_fields::{Fields, MatchedField};
use crate::parts::{Node, Part};
use crate::unsupported::unsupported_text;
use std::alloc::{AllocError, Global};
use x509_cert_lists::der::{Error, ErrorKind, MAX_LEVELS, Tag, header_of};

/// A TLV in the input.
#[derive(Clone, Copy)]
pub struct Value {
    // The offsets of the TLV, of its content, and of the end of its content.
    pub start: usize,
    pub content: usize,
    pub end: usize,
    // The length that the header has. The input may have fewer bytes.
    pub len: usize,
    pub tag: Tag,
    // The first byte of the tag.
    first: u8,
}

impl Value {
    // Returns whether the content begins at this offset and is truncated.
    fn is_cut_at(&self, place: usize) -> bool {
        self.content == place && self.len > self.end.saturating_sub(self.content)
    }
}

// Returns the TLV at an offset, up to the end of the input, if it has a header.
fn headed_at(octets: &[u8], start: usize) -> Option<Value> {
    if start >= octets.len() {
        return None;
    }
    let rest = &octets[start..];
    let Ok((header, taken)) = header_of(rest) else {
        return None;
    };
    if taken == 0 || taken > rest.len() {
        return None;
    }
    let len = header.length.value as usize;
    Some(Value {
        start,
        content: start + taken,
        end: start + taken + len.min(rest.len() - taken),
        len,
        tag: header.tag,
        first: rest[0],
    })
}

// Returns the TLV at an offset, up to the end of the input. If its length can't be decoded, its
// content is empty.
fn value_at(octets: &[u8], start: usize) -> Option<Value> {
    if let Some(value) = headed_at(octets, start) {
        return Some(value);
    }
    let Some(rest) = octets.get(start..) else {
        return None;
    };
    match (Tag::peek(rest), rest) {
        (Ok(tag), [first, ..]) => Some(Value {
            start,
            content: octets.len(),
            end: octets.len(),
            len: 0,
            tag,
            first: *first,
        }),
        _ => None,
    }
}

/// Returns the offset of the content of the TLV at an offset.
pub fn content_place(octets: &[u8], place: usize) -> usize {
    match headed_at(octets, place) {
        Some(value) => value.content,
        None => place,
    }
}

// Returns the content of the TLV at an offset, or an empty slice if there is none.
pub fn content_at(octets: &[u8], place: usize) -> &[u8] {
    match headed_at(octets, place) {
        Some(value) if value.content <= value.end && value.end <= octets.len() => {
            &octets[value.content..value.end]
        }
        _ => &[],
    }
}

// Returns whether the first TLV ends at this offset and a SEQUENCE begins there.
pub fn is_followed(octets: &[u8], place: usize) -> bool {
    match (headed_at(octets, 0), octets.get(place)) {
        (Some(first), Some(0x30)) => first.end == place,
        _ => false,
    }
}

/// An iterator over the TLVs inside another one.
#[derive(Clone, Copy)]
pub struct Inside<'a> {
    octets: &'a [u8],
    // The offset of the next TLV, and of the end of the enclosing one.
    at: usize,
    end: usize,
}

impl<'a> Inside<'a> {
    /// Returns the TLVs inside the one at an offset.
    pub fn of(octets: &'a [u8], start: usize) -> Inside<'a> {
        match headed_at(octets, start) {
            Some(value) => Inside {
                octets,
                at: value.content,
                end: value.end,
            },
            None => Inside {
                octets,
                at: octets.len(),
                end: octets.len(),
            },
        }
    }

    // Returns the next TLV, if there is one, and advances.
    fn step(&mut self) -> Option<Value> {
        if self.at >= self.end {
            return None;
        }
        let value = headed_at(self.octets, self.at);
        self.at = match value {
            Some(value) => value.end,
            None => self.end,
        };
        value
    }

    /// Returns whether there are no more TLVs.
    pub fn is_ended(&self) -> bool {
        self.at >= self.end
    }

    /// Returns the offset of the next TLV, or of the end, and advances.
    pub fn next(&mut self) -> usize {
        let start = self.at;
        match self.step() {
            Some(value) => value.start,
            None => start,
        }
    }

    /// Returns the offset of the TLV with this number, counted from 0, or of the end.
    pub fn nth(&mut self, number: usize) -> usize {
        for _ in 0..number {
            if self.step().is_none() {
                return self.at;
            }
        }
        self.next()
    }

    /// Returns the offset of the last TLV.
    pub fn last(&mut self) -> usize {
        let mut last = self.at;
        for _ in 0..self.octets.len() {
            match self.step() {
                Some(value) => last = value.start,
                None => return last,
            }
        }
        last
    }
}

// Returns the offset of a field of the value at an offset, and what is inside the field; `None` if
// the field is absent.
fn part_in(octets: &[u8], start: usize, node: Node, name: &str) -> Option<(usize, Node)> {
    let mut values = Inside::of(octets, start);
    let mut fields = Fields::of(node);
    for _ in 0..octets.len() {
        let Some(value) = values.step() else {
            return None;
        };
        let Some((taken, behind)) = fields.take(value.first) else {
            return None;
        };
        if taken.name == name {
            return Some((value.start, taken.node));
        }
        fields = behind;
    }
    None
}

/// Returns the offset of the field at the end of a path of names that begins at the value at an
/// offset. If a field on the path is absent, returns the offset of the one before it.
pub fn place_of(octets: &[u8], start: usize, node: Node, path: &str) -> usize {
    let mut at = start;
    let mut around = node;
    if path.is_empty() {
        return at;
    }
    for name in path.split('.') {
        match part_in(octets, at, around, name) {
            Some((place, inside)) => {
                at = place;
                around = inside;
            }
            None => return at,
        }
    }
    at
}

/// A TLV that matches a field.
#[derive(Clone, Copy)]
pub struct Step {
    pub taken: MatchedField,
    pub value: Value,
}

impl Step {
    // Returns the fields inside it and the bytes up to its end; `None` if the fields have no names.
    fn inside<'a>(&self, octets: &'a [u8]) -> Option<(Fields, &'a [u8])> {
        let fields = Fields::of(self.taken.node);
        if !fields.is_named() || !self.value.tag.is_constructed() {
            return None;
        }
        match octets.get(..self.value.end) {
            Some(octets) => Some((fields, octets)),
            None => None,
        }
    }
}

// Matches TLVs with fields from an offset on. Returns the last match and the fields that may
// follow.
fn last_from(octets: &[u8], start: usize, fields: Fields) -> (Option<Step>, Fields) {
    let mut last = None;
    let mut at = start;
    let mut fields = fields;
    for _ in 0..octets.len() {
        let Some(value) = value_at(octets, at) else {
            return (last, fields);
        };
        let Some((taken, behind)) = fields.take(value.first) else {
            return (last, fields);
        };
        last = Some(Step { taken, value });
        fields = behind;
        at = value.end;
    }
    (last, fields)
}

// Returns whether a required field is missing at the end of this value, or of its last descendant.
fn is_short(octets: &[u8], value: Step) -> bool {
    let mut around = value;
    for _ in 0..MAX_LEVELS {
        let Some((fields, inner)) = around.inside(octets) else {
            return false;
        };
        let (last, behind) = last_from(inner, around.value.content, fields);
        if behind.is_required() {
            return true;
        }
        match last {
            Some(step) if step.value.end == around.value.end => around = step,
            _ => return false,
        }
    }
    false
}

// The error to find: its offset, and whether bytes are missing there.
#[derive(Clone, Copy)]
struct Target {
    place: usize,
    is_end: bool,
}

impl Target {
    // Returns whether the error is inside this value.
    fn is_in(&self, octets: &[u8], step: Step) -> bool {
        let end = step.value.end;
        let is_required = self.is_end
            && (step.value.is_cut_at(self.place) || is_short(octets, step));
        self.place < end || (self.place == end && is_required)
    }
}

// The result of a search in a sequence of TLVs.
#[derive(Clone, Copy)]
enum Found {
    // The TLV that encloses the error.
    In(Step),
    // The offset of the first TLV that matches no field, or the end, and the fields that were
    // possible there.
    Between(usize, Fields),
}

// Searches the TLVs from an offset on for an error.
fn find(octets: &[u8], start: usize, fields: Fields, sought: Target) -> Found {
    let mut at = start;
    let mut fields = fields;
    for _ in 0..octets.len() {
        let Some(value) = value_at(octets, at) else {
            return Found::Between(at, fields);
        };
        let Some((taken, behind)) = fields.take(value.first) else {
            return Found::Between(at, fields);
        };
        let step = Step { taken, value };
        if sought.is_in(octets, step) {
            return Found::In(step);
        }
        fields = behind;
        at = value.end;
    }
    Found::Between(at, fields)
}

/// The path to a decoding error.
#[derive(Drop)]
pub struct ErrorPath {
    // The values that enclose it, the outermost first.
    pub steps: Vec<Step>,
    // The offset of the error.
    pub place: usize,
    // The fields that are expected there, if none of them matches.
    pub wanted: &'static [Part],
}

impl ErrorPath {
    // Follows an error of this kind, at the offset `place`, into the value at the offset `start`,
    // which is one of these fields. For a CHOICE with an unexpected tag, the error's position is
    // that of the enclosing value.
    fn follow(
        &mut self,
        octets: &[u8],
        start: usize,
        root: &'static [Part],
        place: usize,
        kind: ErrorKind,
    ) -> Result<(), AllocError> {
        self.place = place;
        let mut sought = Target {
            place,
            is_end: kind == ErrorKind::Incomplete,
        };
        let mut fields = Fields::new(root, false);
        let mut start = start;
        let mut inner = octets;
        for _ in 0..MAX_LEVELS {
            match find(inner, start, fields, sought) {
                Found::In(step) => {
                    self.steps.push(step)?;
                    if is_of_tag(kind) && step.value.start == place {
                        sought.place = usize::MAX;
                    }
                    let is_cut = sought.is_end && step.value.is_cut_at(place);
                    if is_cut || step.value.content > sought.place {
                        return Ok(());
                    }
                    let Some((parts, octets)) = step.inside(inner) else {
                        return Ok(());
                    };
                    fields = parts;
                    start = step.value.content;
                    inner = octets;
                }
                Found::Between(at, behind) => {
                    let is_misfit = at < inner.len() && sought.place == usize::MAX;
                    if is_of_parts(kind) && (at == place || is_misfit) {
                        self.place = at;
                        self.wanted = behind.next();
                    }
                    return Ok(());
                }
            }
        }
        Ok(())
    }

    // Returns the name of the innermost enclosing value that has one.
    pub fn name(&self) -> &'static str {
        let mut innermost = "";
        for step in &self.steps {
            for name in [step.taken.name, step.taken.choice] {
                if !name.is_empty() {
                    innermost = name;
                }
            }
        }
        innermost
    }
}

// Returns whether the kind of error is that a tag is unexpected or unknown.
fn is_of_tag(kind: ErrorKind) -> bool {
    match kind {
        ErrorKind::TagUnexpected | ErrorKind::TagUnknown | ErrorKind::TagNumberInvalid => true,
        _ => false,
    }
}

// Returns whether an error of this kind lists the expected fields.
fn is_of_parts(kind: ErrorKind) -> bool {
    match kind {
        ErrorKind::TrailingData | ErrorKind::Incomplete => true,
        kind => is_of_tag(kind),
    }
}

// Returns the offset of an error in the value that begins at the offset `start`.
fn place_in(start: usize, error: &Error) -> usize {
    match error.position {
        Some(position) => start.saturating_add(position.value as usize),
        None => start,
    }
}

// Returns the path to an error in the value at the beginning of the bytes, which is one of these
// fields.
pub fn path_to(
    alloc: Global,
    octets: &[u8],
    root: &'static [Part],
    error: &Error,
) -> Result<ErrorPath, AllocError> {
    let mut way = ErrorPath::new(alloc);
    way.follow(octets, 0, root, place_in(0, error), error.kind)?;
    Ok(way)
}

/// Returns the path to an error in a content of the value at the beginning of the bytes, which is
/// one of these fields.
pub fn path_into(
    alloc: Global,
    octets: &[u8],
    root: &'static [Part],
    fault: &ContentError,
) -> Result<ErrorPath, AllocError> {
    let mut way = ErrorPath::new(alloc);
    let content = fault.content;
    match fault.around {
        Some(around) => {
            way.lead_to(octets, 0, root, around)?;
            way.lead_to(octets, around.start, around.root, content)?;
        }
        None => way.lead_to(octets, 0, root, content)?,
    }
    let place = place_in(content.start, &fault.error);
    way.follow(octets, content.start, content.root, place, fault.error.kind)?;
    Ok(way)
}

impl ErrorPath {
    // Returns a path without steps.
    fn new(alloc: Global) -> ErrorPath {
        ErrorPath {
            steps: Vec::new(alloc),
            place: 0,
            wanted: &[],
        }
    }

    // Adds the values that enclose a content, from the value at the offset `start`, which is one of
    // these fields, to the field that has the content.
    fn lead_to(
        &mut self,
        octets: &[u8],
        start: usize,
        root: &'static [Part],
        content: Content,
    ) -> Result<(), AllocError> {
        self.follow(octets, start, root, content.field, ErrorKind::Failed)
    }

    /// Returns the bytes from the error on.
    pub fn rest<'a>(&self, octets: &'a [u8]) -> &'a [u8] {
        match octets.get(self.place..) {
            Some(rest) => rest,
            None => &[],
        }
    }

    /// Returns the kind of the innermost enclosing value that has fields with names.
    pub fn around(&self) -> Node {
        let mut around = Node::Leaf;
        for step in &self.steps {
            if Fields::of(step.taken.node).is_named() {
                around = step.taken.node;
            }
        }
        around
    }

    /// Returns the description of the value at the error, if it is valid and isn't supported; empty
    /// if it isn't valid.
    pub fn unread(&self, octets: &[u8], kind: ErrorKind) -> &'static str {
        let rest = self.rest(octets);
        let content = content_at(rest, 0);
        unsupported_text(kind, rest, content, self.name(), self.around(), self.wanted)
    }
}
