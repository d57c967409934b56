//! Borrowed text of at most 2^32 - 1 bytes.

ghost use Rattle.std.specs.Prelude.{◌≡◌, ◌↔◌, ◌<◌, [], length, IsTrue, true};
ghost use Rattle.std.specs.Str.{is_utf8};
ghost use Rattle.der_core_head.specs.Heads.{Fits};
ghost use Rattle.der_core_head.specs.Lengths.{counted, counted_text};

use der_core_head::{Error, ErrorKind, Length};
use std::convert::AsStr;
use std::str;

/// Borrowed text, at most `Length::MAX` bytes of UTF-8.
#[derive(Clone, Copy, Debug, PartialEq, Eq, PartialOrd, Ord, Hash)]
pub struct StringRef<'a> {
    text: &'a str,
    ghost short: { Fits text.now },
}

impl<'a> StringRef<'a> {
    ghost use Rattle.der_core_octets.specs.Held.{held_text};
    ghost use Rattle.der_core_head.specs.Reading.{GivesNow};

    /// Wraps this text.
    ///
    /// # Errors
    ///
    /// - `Overflow`: the text has 2^32 bytes or more.
    pub fn new(text: &'a str) -> Result<StringRef<'a>, Error>
        ensures { GivesNow held_text result (counted text.now) }
    {
        if text.len() > Length::MAX.value as usize {
            return Err(Error::from(ErrorKind::Overflow));
        }
        Ok(StringRef { text })
    }

    /// Wraps the text of these bytes.
    ///
    /// # Errors
    ///
    /// - `Utf8`: the bytes aren't UTF-8.
    /// - `Overflow`: there are 2^32 bytes or more.
    #[tactic(auto, using(der_core_head::proofs::TextLaws::utf8_reads))]
    pub fn from_bytes(bytes: &'a [u8]) -> Result<StringRef<'a>, Error>
        ensures { GivesNow held_text result (counted_text bytes.now) }
    {
        let text = str::from_utf8(bytes)?;
        StringRef::new(text)
    }

    /// Returns the text.
    pub fn as_str(&self) -> &'a str
        ensures text { result.now ≡ held_text self.now }
        ensures short { Fits result.now }
    {
        self.text
    }

    /// Returns the bytes.
    #[tactic(auto, using(der_core_head::proofs::TextLaws::utf8_reads))]
    pub fn as_bytes(&self) -> &'a [u8]
        ensures octets { result.now ≡ held_text self.now }
        ensures utf8 { is_utf8 result.now ≡ true }
        ensures short { Fits result.now }
    {
        self.text.as_bytes()
    }

    /// Returns the number of bytes.
    pub fn len(&self) -> Length
        ensures { result.value ≡ length (held_text self.now) }
    {
        Length::new(self.text.len() as u32)
    }

    /// Returns whether the text is empty.
    pub fn is_empty(&self) -> bool
        ensures { IsTrue result ↔ (held_text self.now ≡ []) }
    {
        self.text.is_empty()
    }
}

impl AsStr for StringRef<'_> {
    ghost use Rattle.der_core_octets.specs.Held.{held_text};

    ghost text = { held_text };

    fn as_str(&self) -> &str {
        self.text
    }
}
