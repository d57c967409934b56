//! Headers.

ghost use Rattle.std.specs.Prelude.{◌≡◌, ◌≢◌, ◌++◌, ℕ, List, None, Ok};
ghost use Rattle.der_core_head.specs.Tags.{is_constructed};
ghost use Rattle.der_core_head.specs.Heads.{head_at};
ghost use Rattle.der_core_head.specs.Reading.{GivesNow};
ghost use Rattle.der_core_head.specs.Fronts.{alone};
ghost use Rattle.der_core_octets.specs.Headers.{Scans, head_of};

use crate::parse::header_of;
use der_core_head::{Error, ErrorKind, Length, Tag};

/// A tag and the length of the content (X.690 8.1.2, 8.1.3).
#[derive(Clone, Copy, Debug, PartialEq, Eq)]
pub struct Header {
    /// The tag.
    pub tag: Tag,
    /// The number of content bytes that follow the header.
    pub length: Length,
}

impl Header {
    /// Returns the header with this tag and this length of the content.
    pub fn new(tag: Tag, length: Length) -> Header
        ensures { result ≡ record { tag = tag; length = length } }
    {
        Header { tag, length }
    }

    /// Returns the tag.
    pub fn tag(&self) -> Tag
        ensures { result ≡ self.now.tag }
    {
        self.tag
    }

    /// Returns the length of the content.
    pub fn length(&self) -> Length
        ensures { result ≡ self.now.length }
    {
        self.length
    }

    /// Returns whether the tag is that of a constructed value (X.690 8.1.2.5).
    pub fn is_constructed(&self) -> bool
        ensures { result ≡ is_constructed self.now.tag }
    {
        self.tag.is_constructed()
    }

    /// Returns the header with the same tag and this length of the content.
    pub fn with_length(&self, length: Length) -> Header
        ensures { result ≡ record self.now { length = length } }
    {
        Header {
            tag: self.tag,
            length,
        }
    }

    /// Returns the header with which the bytes begin, under DER, and its length in bytes. Returns
    /// `None` if the bytes end inside the header.
    ///
    /// # Errors
    ///
    /// - The errors of `peek`, except `Incomplete`.
    pub fn scan(octets: &[u8]) -> Result<Option<(Header, usize)>, Error>
        ensures exact { Scans octets.now result }
        // A result other than `None` is the result for every longer input.
        ensures longer { result ≢ Ok None → (more : List ℕ) → Scans (octets.now ++ more) result }
    {
        match header_of(octets) {
            Ok(front) => Ok(Some(front)),
            Err(error) => match error.kind {
                ErrorKind::Incomplete => Ok(None),
                _ => Err(error),
            },
        }
    }

    /// Returns the header with which the bytes begin, under DER (X.690 8.1.2, 8.1.3, 10.1).
    ///
    /// # Errors
    ///
    /// - The errors of its tag, and then of its length. `Incomplete` if the bytes end too early.
    pub fn peek(octets: &[u8]) -> Result<Header, Error>
        ensures { GivesNow head_of result (alone (head_at octets.now)) }
    {
        let (header, _count) = header_of(octets)?;
        Ok(header)
    }
}
