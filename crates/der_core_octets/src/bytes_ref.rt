//! Borrowed bytes, of which there are at most 2^32 - 1.

ghost use Rattle.std.specs.Prelude.{◌≡◌, ◌↔◌, ◌<◌, ◌≤◌, [], length, take, IsTrue, IfOk, IfErr};
ghost use Rattle.der_core_head.specs.Heads.{Fits};
ghost use Rattle.der_core_head.specs.Lengths.{counted};

use der_core_head::{Error, ErrorKind, Length};
use std::convert::AsSlice;

/// Borrowed bytes, at most `Length::MAX` of them.
#[derive(Clone, Copy, Debug, PartialEq, Eq, PartialOrd, Ord, Hash)]
pub struct BytesRef<'a> {
    bytes: &'a [u8],
    ghost short: { Fits bytes.now },
}

impl<'a> BytesRef<'a> {
    ghost use Rattle.der_core_octets.specs.Held.{held_octets};
    ghost use Rattle.der_core_head.specs.Reading.{GivesNow};

    /// No bytes.
    pub const EMPTY: BytesRef<'static> = BytesRef { bytes: &[] };

    /// Wraps these bytes.
    ///
    /// # Errors
    ///
    /// - `Overflow`: there are 2^32 bytes or more.
    pub fn new(bytes: &'a [u8]) -> Result<BytesRef<'a>, Error>
        ensures { GivesNow held_octets result (counted bytes.now) }
    {
        if bytes.len() > Length::MAX.value as usize {
            return Err(Error::from(ErrorKind::Overflow));
        }
        Ok(BytesRef { bytes })
    }

    /// Returns the bytes.
    pub fn as_slice(&self) -> &'a [u8]
        ensures octets { result.now ≡ held_octets self.now }
        ensures short { Fits result.now }
    {
        self.bytes
    }

    /// Returns the number of bytes.
    pub fn len(&self) -> Length
        ensures { result.value ≡ length (held_octets self.now) }
    {
        Length::new(self.bytes.len() as u32)
    }

    /// Returns whether there are no bytes.
    pub fn is_empty(&self) -> bool
        ensures { IsTrue result ↔ (held_octets self.now ≡ []) }
    {
        self.bytes.is_empty()
    }

    /// Returns the first `len` bytes.
    ///
    /// # Errors
    ///
    /// - `Incomplete`: there are fewer bytes. The position of the error is after the last one.
    pub fn prefix(&self, len: Length) -> Result<BytesRef<'a>, Error>
        ensures ok { IfOk result
            (λ front. (len.value ≤ length (held_octets self.now))
            × (held_octets front ≡ take len.value (held_octets self.now))) }
        ensures err { IfErr result
            (λ e. (length (held_octets self.now) < len.value) × (e.kind ≡ ErrorKind.Incomplete)) }
    {
        let bytes = self.bytes;
        let len = len.value as usize;
        if bytes.len() < len {
            return Err(Error::incomplete(self.len()));
        }
        Ok(BytesRef {
            bytes: &bytes[..len],
        })
    }
}

impl AsSlice<u8> for BytesRef<'_> {
    ghost use Rattle.der_core_octets.specs.Held.{held_octets};

    ghost items = { held_octets };

    fn as_slice(&self) -> &[u8] {
        self.bytes
    }
}

/// Wraps these bytes. The error is `Overflow` if there are 2^32 bytes or more.
impl<'a> TryFrom<&'a [u8]> for BytesRef<'a> {
    ghost use Rattle.der_core_octets.specs.Held.{held_octets};
    ghost use Rattle.der_core_head.specs.Reading.{GivesNow};
    ghost use Rattle.der_core_head.specs.Lengths.{counted};

    type Error = Error;

    ghost try_from_gives = { λ bytes r. GivesNow held_octets r (counted bytes.now) };

    fn try_from(bytes: &'a [u8]) -> Result<BytesRef<'a>, Error> {
        BytesRef::new(bytes)
    }
}
