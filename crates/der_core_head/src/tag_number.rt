//! The numbers of tags.

ghost use Rattle.std.specs.Prelude.{◌≡◌, Some};

use crate::tag::Tag;
use std::fmt;

/// The number of a tag, from 0 to 2^32 - 1 (X.690 8.1.2).
#[derive(Clone, Copy, Debug, PartialEq, Eq, PartialOrd, Ord, Hash)]
pub struct TagNumber {
    /// The number.
    pub value: u32,
}

impl TagNumber {
    /// Returns the tag number with this value.
    pub fn new(value: u32) -> TagNumber
        ensures { result.value ≡ value }
    {
        TagNumber { value }
    }

    /// Returns the tag of the application class with this number.
    pub fn application(self, constructed: bool) -> Tag
        ensures { result ≡ Tag.Application constructed self }
    {
        Tag::Application {
            constructed,
            number: self,
        }
    }

    /// Returns the context-specific tag with this number.
    pub fn context_specific(self, constructed: bool) -> Tag
        ensures { result ≡ Tag.ContextSpecific constructed self }
    {
        Tag::ContextSpecific {
            constructed,
            number: self,
        }
    }

    /// Returns the private tag with this number.
    pub fn private(self, constructed: bool) -> Tag
        ensures { result ≡ Tag.Private constructed self }
    {
        Tag::Private {
            constructed,
            number: self,
        }
    }

    /// Returns the number.
    pub fn value(self) -> u32
        ensures { result ≡ self.value }
    {
        self.value
    }
}

impl From<u32> for TagNumber {
    ghost from_gives = { λ n number. number.value ≡ n };

    fn from(value: u32) -> TagNumber {
        TagNumber { value }
    }
}

impl From<TagNumber> for u32 {
    ghost from_gives = { λ number n. n ≡ number.value };

    fn from(number: TagNumber) -> u32 {
        number.value
    }
}

/// Prints the number in decimal.
impl fmt::Display for TagNumber {
    ghost output = { λ number. ⟦<u32 as fmt::Display>⟧.output number.value };

    fn fmt<W: fmt::Write>(&self, f: &mut fmt::Formatter<W>) -> fmt::Result {
        let value = self.value;
        write!(f, "{value}")
    }
}
