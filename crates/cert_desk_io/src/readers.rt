//! Readers as inputs.

ghost use Rattle.std.specs.Prelude.{◌≡◌, ◌<◌, ◌≤◌, ◌↔◌, [], length, take, IfOk, OnOk, OnErr};
ghost use Rattle.std.specs.Io.KnownBytes.{Consumes};
ghost use Rattle.cert_desk_io.specs.Devices.{one_more};
ghost use Rattle.cert_desk_io.specs.Readers.{reader_of, read_failures, HasEnded};
ghost use Rattle.std.proofs.KnownBytes.{Consumes-nil, Consumes-trans};

use super::{DeviceError, Input};
use std::io::Read;

/// A reader as an input, which counts the reader's errors.
///
/// A failed read isn't tried again, not even an interrupted one.
#[derive(Drop)]
pub struct FromRead<R> {
    reader: R,
    has_ended: bool,
    failures: u64,
}

impl<R: Read> FromRead<R> {
    /// Returns an input over this reader.
    pub fn new(reader: R) -> Self
        ensures reader { reader_of result ≡ reader }
        ensures not_ended { ¬ HasEnded R.remaining result }
        ensures sound { read_failures result ≡ 0 }
    {
        FromRead {
            reader,
            has_ended: false,
            failures: 0,
        }
    }

    /// Returns the number of failed reads. The count stays at 2^64 - 1.
    pub fn failures(&self) -> u64
        ensures { result ≡ read_failures self.now }
    {
        self.failures
    }

    /// Returns the reader.
    pub fn into_inner(self) -> R
        ensures { result ≡ reader_of self }
    {
        let FromRead { reader, .. } = self;
        reader
    }
}

impl<R: Read> Input for FromRead<R> {
    ghost takes = { λ a octets b.
        Consumes (R.remaining (reader_of a)) (R.remaining (reader_of b)) octets };

    ghost is_ended = { λ a. HasEnded R.remaining a };

    ghost failures = { read_failures };

    fn read(&mut self, buffer: &mut [u8]) -> Result<usize, DeviceError>
        requires room { 0 < length buffer.old }
        ensures bound { IfOk result (λ count. count ≤ length buffer.new) }
        ensures taken { IfOk result (λ count. Consumes (R.remaining (reader_of self.old))
            (R.remaining (reader_of self.new)) (take count buffer.new)) }
        ensures end { IfOk result (λ count. (count ≡ 0) ↔ HasEnded R.remaining self.new) }
        ensures sound { OnOk result (read_failures self.new ≡ read_failures self.old) }

        // After a failed read.
        ensures none_taken { OnErr result (Consumes (R.remaining (reader_of self.old))
            (R.remaining (reader_of self.new)) []) }
        ensures not_ended { OnErr result (¬ HasEnded R.remaining self.new) }
        ensures once { OnErr result (read_failures self.new ≡ one_more (read_failures self.old)) }
    {
        match self.reader.read(buffer) {
            Ok(count) => {
                self.has_ended = count == 0;
                Ok(count)
            }
            Err(_) => {
                self.has_ended = false;
                self.failures = self.failures.saturating_add(1);
                Err(DeviceError)
            }
        }
    }

    ghost takes_nothing = { λ a. Consumes-nil (R.remaining (reader_of a)) };

    ghost takes_in_turn = { λ a b c first second. Consumes-trans (R.remaining (reader_of a))
        (R.remaining (reader_of b)) (R.remaining (reader_of c)) first second };
}
