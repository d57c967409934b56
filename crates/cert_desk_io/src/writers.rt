//! Writers as outputs.

ghost use Rattle.std.specs.Prelude.{◌≡◌, ◌<◌, ◌≤◌, [], length, take, IfOk, OnOk, OnErr};
ghost use Rattle.std.specs.Io.KnownBytes.{Appends};
ghost use Rattle.std.proofs.KnownBytes.{Appends-nil, Appends-trans};
ghost use Rattle.cert_desk_io.specs.Devices.{one_more};
ghost use Rattle.cert_desk_io.specs.Writers.{writer_of, write_failures};

use super::{DeviceError, Output};
use std::io::Write;

/// A writer as an output, which counts the writer's errors.
///
/// A write that accepts 0 bytes counts as failed. A failed write isn't tried again, not even an
/// interrupted one. The writer is never flushed.
#[derive(Drop)]
pub struct ToWrite<W> {
    writer: W,
    failures: u64,
}

impl<W: Write> ToWrite<W> {
    /// Returns an output over this writer.
    pub fn new(writer: W) -> Self
        ensures writer { writer_of result ≡ writer }
        ensures sound { write_failures result ≡ 0 }
    {
        ToWrite {
            writer,
            failures: 0,
        }
    }

    /// Returns the number of failed writes. The count stays at 2^64 - 1.
    pub fn failures(&self) -> u64
        ensures { result ≡ write_failures self.now }
    {
        self.failures
    }

    /// Returns the writer.
    pub fn into_inner(self) -> W
        ensures { result ≡ writer_of self }
    {
        let ToWrite { writer, .. } = self;
        writer
    }
}

impl<W: Write> Output for ToWrite<W> {
    ghost gives = { λ a octets b.
        Appends (W.contents (writer_of a)) (W.contents (writer_of b)) octets };

    ghost failures = { write_failures };

    fn write(&mut self, octets: &[u8]) -> Result<usize, DeviceError>
        requires some { 0 < length octets.now }
        ensures moves { IfOk result (λ count. 0 < count) }
        ensures bound { IfOk result (λ count. count ≤ length octets.now) }
        ensures given { IfOk result (λ count. Appends (W.contents (writer_of self.old))
            (W.contents (writer_of self.new)) (take count octets.now)) }
        ensures sound { OnOk result (write_failures self.new ≡ write_failures self.old) }

        // After a failed write.
        ensures none_given { OnErr result (Appends (W.contents (writer_of self.old))
            (W.contents (writer_of self.new)) []) }
        ensures once { OnErr result (write_failures self.new ≡ one_more (write_failures self.old)) }
    {
        match self.writer.write(octets) {
            Ok(count) if count > 0 => Ok(count),
            _ => {
                self.failures = self.failures.saturating_add(1);
                Err(DeviceError)
            }
        }
    }

    ghost gives_nothing = { λ a. Appends-nil (W.contents (writer_of a)) };

    ghost gives_in_turn = { λ a b c first second. Appends-trans (W.contents (writer_of a))
        (W.contents (writer_of b)) (W.contents (writer_of c)) first second };
}
