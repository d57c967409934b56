//! Inputs over memory.

ghost use Rattle.std.specs.Prelude.{◌≡◌, ◌<◌, ◌≤◌, ◌↔◌, [], ◌++◌, length, take, drop, min, IsErr};
ghost use Rattle.std.specs.Prelude.{IfOk, OnOk, OnErr};
ghost use Rattle.std.proofs.Common.{refl, sym, ap, ◌∙◌, append_assoc};
ghost use Rattle.cert_desk_io.specs.Devices.{one_more};
ghost use Rattle.cert_desk_io.specs.Pieces.{ArePieceSizes, after_call, next_piece};
ghost use Rattle.cert_desk_io.specs.Memory.{octets_left, read_sizes, failing_read, read_failures};
ghost use Rattle.cert_desk_io.specs.Memory.{HasEnded};

use super::schedule::Schedule;
use super::{DeviceError, Input};

/// An input over bytes in memory, for tests. It gives them in pieces of chosen sizes, and one of
/// its reads can fail.
#[derive(Drop)]
pub struct MemoryInput<'a> {
    octets: &'a [u8],
    schedule: Schedule<'a>,
    has_ended: bool,
    failures: u64,
}

impl<'a> MemoryInput<'a> {
    /// Returns an input over these bytes. Each successful read gives up to the next of these sizes,
    /// each of which is at least 1. After the last size, a read fills its buffer as far as bytes
    /// are left. The read with the number `failing` fails and takes no byte; the first read has the
    /// number 1, so 0 means none. Reads after it succeed.
    pub fn new(octets: &'a [u8], sizes: &'a [usize], failing: Option<u64>) -> MemoryInput<'a>
        requires { ArePieceSizes sizes.now }
        ensures octets { octets_left result ≡ octets.now }
        ensures sizes { read_sizes result ≡ sizes.now }
        ensures failing { failing_read result ≡ failing }
        ensures not_ended { ¬ HasEnded result }
        ensures sound { read_failures result ≡ 0 }
    {
        MemoryInput {
            octets,
            schedule: Schedule::new(sizes, failing),
            has_ended: false,
            failures: 0,
        }
    }

    /// Returns the bytes that are left to read.
    pub fn left(&self) -> &'a [u8]
        ensures { result.now ≡ octets_left self.now }
    {
        self.octets
    }

    /// Returns the number of failed reads. The count stays at 2^64 - 1.
    pub fn failures(&self) -> u64
        ensures { result ≡ read_failures self.now }
    {
        self.failures
    }
}

impl Input for MemoryInput<'_> {
    ghost takes = { λ a octets b. octets_left a ≡ octets ++ octets_left b };

    ghost is_ended = { HasEnded };

    ghost failures = { read_failures };

    fn read(&mut self, buffer: &mut [u8]) -> Result<usize, DeviceError>
        requires room { 0 < length buffer.old }
        ensures bound { IfOk result (λ count. count ≤ length buffer.new) }
        ensures taken { IfOk result
            (λ count. octets_left self.old ≡ take count buffer.new ++ octets_left self.new) }
        ensures end { IfOk result (λ count. (count ≡ 0) ↔ HasEnded self.new) }
        ensures sound { OnOk result (read_failures self.new ≡ read_failures self.old) }

        // After a failed read.
        ensures none_taken { OnErr result (octets_left self.old ≡ [] ++ octets_left self.new) }
        ensures not_ended { OnErr result (¬ HasEnded self.new) }
        ensures once { OnErr result (read_failures self.new ≡ one_more (read_failures self.old)) }

        // The reads that fail, and the number of bytes that the others give.
        ensures fails { IsErr result ↔ (failing_read self.old ≡ Some 1) }
        ensures counted { failing_read self.new ≡ after_call (failing_read self.old) }
        ensures count { IfOk result (λ count.
            count ≡ min (next_piece (read_sizes self.old) (length buffer.old))
            (length (octets_left self.old))) }
        ensures used { OnOk result (read_sizes self.new ≡ drop 1 (read_sizes self.old)) }
        ensures unused { OnErr result (read_sizes self.new ≡ read_sizes self.old) }
    {
        let Some(most) = self.schedule.next(buffer.len()) else {
            self.has_ended = false;
            self.failures = self.failures.saturating_add(1);
            return Err(DeviceError);
        };
        let count = most.min(self.octets.len());
        buffer[..count].copy_from_slice(&self.octets[..count]);
        self.octets = &self.octets[count..];
        self.has_ended = count == 0;
        Ok(count)
    }

    ghost takes_nothing = { λ a. refl };

    ghost takes_in_turn = { λ a b c first second p q.
        p ∙ ap (λ x. first ++ x) q ∙ sym (append_assoc first second (octets_left c)) };
}
