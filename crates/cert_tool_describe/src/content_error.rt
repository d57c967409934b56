//! Errors in contents that the decoder of a file keeps as bytes.

use crate::described::Describe;
use crate::error_path::{content_at, content_place, place_of};
use crate::parts::{Node, Part};
use std::alloc::Global;
use x509_cert_lists::der::Error;

/// A content that the decoder of a file keeps as bytes, such as the SignedData of a message.
#[derive(Clone, Copy)]
pub struct Content {
    /// The offset in the file of the field that has the content.
    pub field: usize,
    /// The offset of its first byte.
    pub start: usize,
    /// The offset of its end.
    pub end: usize,
    /// The value that it encodes, as a list of one field.
    pub root: &'static [Part],
}

impl Content {
    /// Returns the content of the field at the end of a path of names that begins at the value at
    /// an offset.
    pub fn of(
        octets: &[u8],
        start: usize,
        node: Node,
        path: &str,
        root: &'static [Part],
    ) -> Content {
        let field = place_of(octets, start, node, path);
        let start = content_place(octets, field);
        let len = content_at(octets, field).len();
        Content {
            field,
            start,
            end: start.saturating_add(len),
            root,
        }
    }

    /// Returns the bytes of the content in a file.
    pub fn octets_in<'a>(&self, octets: &'a [u8]) -> &'a [u8] {
        match octets.get(self.start..self.end) {
            Some(octets) => octets,
            None => &[],
        }
    }
}

/// An error in a content of a file.
#[derive(Clone, Copy)]
pub struct ContentError {
    /// The content that has the error.
    pub content: Content,
    /// The content around it, if the file isn't directly around it.
    pub around: Option<Content>,
    /// The error. Its position is counted from the beginning of the content.
    pub error: Error,
}

/// Returns the error in a content that should encode a value of type `T`, if there is one.
pub fn error_in<T: Describe + Drop>(
    alloc: Global,
    octets: &[u8],
    content: Content,
    around: Option<Content>,
) -> Option<ContentError> {
    match T::read_content(alloc, content.octets_in(octets)) {
        Ok(_) => None,
        Err(error) => Some(ContentError {
            content,
            around,
            error,
        }),
    }
}
