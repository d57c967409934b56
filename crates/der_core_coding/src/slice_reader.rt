//! The reader of a slice.

ghost use Rattle.std.specs.Prelude.{◌≡◌, ◌≤◌, ◌<◌, length, [], false, IfOk, IfErr, IsSomeAnd, ⊤};
ghost use Rattle.der_core_values.specs.CoreHead.Limits.{length_max, levels_max};
ghost use Rattle.der_core_values.specs.CoreHead.Heads.{Fits};
ghost use Rattle.der_core_values.specs.CoreHead.Reading.{State, unread, broken};
ghost use Rattle.der_core_coding.specs.Slices.{unread_within};
ghost use Rattle.der_core_values.specs.CoreOctets.Places.{IsAt};

use der_core_values::core_head::{EncodingRules, Error, ErrorKind, Length, MAX_LEVELS};
use der_core_values::core_octets::Reader;
use std::alloc::AllocError;
use std::marker::Model;

/// A reader of a slice of at most `Length::MAX` bytes.
#[derive(Drop)]
pub struct SliceReader<'a> {
    bytes: &'a [u8],
    encoding: EncodingRules,
    position: usize,
    end: usize,
    depth: usize,
    failed: bool,
}

impl<'a> Model for SliceReader<'a> {
    ghost use Rattle.der_core_values.specs.CoreHead.Reading.{State};

    ghost Value = { State };

    ghost use Rattle.der_core_coding.specs.Slices.{view_of, IsReader};

    ghost view = { view_of };

    ghost invariant = { IsReader };
}

impl<'a> SliceReader<'a> {
    /// Returns a reader of all bytes, under DER.
    ///
    /// # Errors
    ///
    /// - `Overflow`: there are 2^32 bytes or more.
    pub fn new(bytes: &'a [u8]) -> Result<SliceReader<'a>, Error>
        ensures ok { IfOk result (λ r. Fits bytes.now × (r ≡ unread EncodingRules.Der bytes.now)) }
        ensures err { IfErr result (λ e. (length_max < length bytes.now)
            × (e.kind ≡ ErrorKind.Overflow)) }
    {
        Ok(SliceReader::new_with_encoding_rules(bytes, EncodingRules::Der)?)
    }

    /// Returns a reader of all bytes, under these encoding rules.
    ///
    /// # Errors
    ///
    /// - `Overflow`: there are 2^32 bytes or more.
    pub fn new_with_encoding_rules(
        bytes: &'a [u8],
        encoding_rules: EncodingRules,
    ) -> Result<SliceReader<'a>, Error>
        ensures ok { IfOk result (λ r. Fits bytes.now × (r ≡ unread encoding_rules bytes.now)) }
        ensures err { IfErr result (λ e. (length_max < length bytes.now)
            × (e.kind ≡ ErrorKind.Overflow)) }
    {
        if bytes.len() > Length::MAX.value as usize {
            return Err(Error::from(ErrorKind::Overflow));
        }
        Ok(SliceReader {
            bytes,
            encoding: encoding_rules,
            position: 0,
            end: bytes.len(),
            depth: 0,
            failed: false,
        })
    }

    /// Returns a reader of all bytes, under DER, that may open this many levels of nesting.
    ///
    /// # Errors
    ///
    /// - `Overflow`: there are 2^32 bytes or more.
    pub fn new_with_levels(bytes: &'a [u8], levels: usize) -> Result<SliceReader<'a>, Error>
        requires { levels ≤ levels_max }
        ensures ok { IfOk result (λ r. Fits bytes.now × (r ≡ unread_within levels bytes.now)) }
        ensures err { IfErr result (λ e. (length_max < length bytes.now)
            × (e.kind ≡ ErrorKind.Overflow)) }
    {
        let mut reader = SliceReader::new(bytes)?;
        reader.depth = MAX_LEVELS - levels;
        Ok(reader)
    }

    /// Returns an error at the position of the reader, and marks the reader as failed.
    pub fn error(&mut self, kind: ErrorKind) -> Error
        ensures kind { result.kind ≡ kind }
        ensures place { IsSomeAnd result.position (λ p. IsAt p.value self.old) }
        ensures failed { self.new ≡ broken self.old }
    {
        self.failed = true;
        Error {
            kind,
            position: Some(Length::new(self.position as u32)),
        }
    }
}

/// Returns another reader of the same bytes in the same state. It doesn't allocate.
impl<'a> Clone for SliceReader<'a> {
    ghost is_clone = { λ x y. y ≡ x };

    ghost is_infallible = { λ _. ⊤ };

    fn clone(&self) -> Result<SliceReader<'a>, AllocError> {
        Ok(SliceReader {
            bytes: self.bytes,
            encoding: self.encoding,
            position: self.position,
            end: self.end,
            depth: self.depth,
            failed: self.failed,
        })
    }
}

impl<'r> Reader<'r> for SliceReader<'r> {
    ghost state = { λ s. s };

    fn encoding_rules(&self) -> EncodingRules {
        self.encoding
    }

    fn set_encoding_rules(&mut self, encoding_rules: EncodingRules) {
        self.encoding = encoding_rules;
    }

    fn input_len(&self) -> Length {
        Length::new(self.bytes.len() as u32)
    }

    fn position(&self) -> Length {
        Length::new(self.position as u32)
    }

    fn levels_left(&self) -> usize {
        MAX_LEVELS - self.depth
    }

    fn is_failed(&self) -> bool {
        self.failed
    }

    fn remaining(&self) -> &'r [u8] {
        &self.bytes[self.position..self.end]
    }

    fn skip(&mut self, len: usize) {
        self.position += len;
    }

    fn fail(&mut self) {
        self.failed = true;
    }

    fn begin_nested(&mut self, len: Length) -> Result<Length, Error> {
        if self.failed {
            return Err(Error::from(ErrorKind::Failed));
        }
        let len = len.value as usize;
        let left = self.end - self.position;
        if left < len {
            return Err(self.error(ErrorKind::Incomplete));
        }
        if self.depth == MAX_LEVELS {
            return Err(self.error(ErrorKind::NestingDepth));
        }
        let behind = left - len;
        self.end -= behind;
        self.depth += 1;
        Ok(Length {
            value: behind as u32,
        })
    }

    fn end_nested(&mut self, behind: Length, failed: bool) -> Result<(), Error> {
        let finished = self.position == self.end;
        self.end += behind.value as usize;
        self.depth -= 1;
        if failed {
            self.failed = true;
            return Ok(());
        }
        if !finished {
            self.failed = true;
            let value = self.position as u32;
            return Err(ErrorKind::TrailingData.at(Length { value }));
        }
        Ok(())
    }
}
