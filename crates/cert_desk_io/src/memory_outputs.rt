//! Outputs into memory.

ghost use Rattle.std.specs.Prelude.{◌≡◌, ◌-◌, ◌<◌, ◌≤◌, ◌↔◌, ◌⊎◌, [], ◌++◌, length, take, drop};
ghost use Rattle.std.specs.Prelude.{min, IsErr, IfOk, OnOk, OnErr};
ghost use Rattle.std.proofs.Common.{refl, sym, ap, ◌∙◌, append_assoc, append-nil};
ghost use Rattle.cert_desk_io.specs.Devices.{one_more};
ghost use Rattle.cert_desk_io.specs.Pieces.{ArePieceSizes, after_call, next_piece};

use super::schedule::Schedule;
use super::{DeviceError, Output};

/// An output into borrowed memory, for tests. It accepts bytes in pieces of chosen sizes, and one
/// of its writes can fail.
///
/// A write beyond the capacity fails, as an I/O error.
#[derive(Drop)]
pub struct MemoryOutput<'a> {
    room: &'a mut [u8],
    len: usize,
    schedule: Schedule<'a>,
    failures: u64,
    ghost within: { len ≤ length room.now },
}

impl<'a> MemoryOutput<'a> {
    ghost use Rattle.cert_desk_io.specs.Memory.{Gives, IsFull, capacity, failing_write, written};
    ghost use Rattle.cert_desk_io.specs.Memory.{write_failures, write_sizes};

    /// Returns an output that stores up to `room.len()` bytes. Each successful write accepts up to
    /// the next of these sizes, each of which is at least 1. After the last size, a write accepts
    /// all bytes for which there is capacity. The write with the number `failing` fails and accepts
    /// no byte; the first write has the number 1, so 0 means none. Writes after it succeed while
    /// there is capacity.
    ///
    /// The accepted bytes are at the beginning of `room`, and stay there after the output is
    /// dropped.
    pub fn new(room: &'a mut [u8], sizes: &'a [usize], failing: Option<u64>) -> MemoryOutput<'a>
        requires { ArePieceSizes sizes.now }
        ensures written { written result ≡ [] }
        ensures lent { result.room.ghost_name ≡ room.entry.ghost_name }
        ensures capacity { capacity result ≡ length room.old }
        ensures sizes { write_sizes result ≡ sizes.now }
        ensures failing { failing_write result ≡ failing }
        ensures sound { write_failures result ≡ 0 }
    {
        MemoryOutput {
            room,
            len: 0,
            schedule: Schedule::new(sizes, failing),
            failures: 0,
        }
    }

    /// Returns the accepted bytes.
    pub fn written(&self) -> &[u8]
        ensures { result.now ≡ written self.now }
    {
        &self.room[..self.len]
    }

    /// Returns the number of failed writes. The count stays at 2^64 - 1.
    pub fn failures(&self) -> u64
        ensures { result ≡ write_failures self.now }
    {
        self.failures
    }
}

impl Output for MemoryOutput<'_> {
    ghost use Rattle.cert_desk_io.specs.Memory.{Gives, IsFull, capacity, failing_write, written};
    ghost use Rattle.cert_desk_io.specs.Memory.{write_failures, write_sizes};

    ghost gives = { Gives };

    ghost failures = { write_failures };

    fn write(&mut self, octets: &[u8]) -> Result<usize, DeviceError>
        requires some { 0 < length octets.now }
        ensures moves { IfOk result (λ count. 0 < count) }
        ensures bound { IfOk result (λ count. count ≤ length octets.now) }
        ensures given { IfOk result
            (λ count. Gives self.old (take count octets.now) self.new) }
        ensures sound { OnOk result (write_failures self.new ≡ write_failures self.old) }

        // After a failed write.
        ensures none_given { OnErr result (Gives self.old [] self.new) }
        ensures once { OnErr result (write_failures self.new ≡ one_more (write_failures self.old)) }

        // The writes that fail, and the number of bytes that the others accept.
        ensures fails { IsErr result ↔ ((failing_write self.old ≡ Some 1) ⊎ IsFull self.old) }
        ensures counted { failing_write self.new ≡ after_call (failing_write self.old) }
        ensures count { IfOk result (λ count. count ≡ next_piece (write_sizes self.old)
            (min (length octets.now) (capacity self.old - length (written self.old)))) }
        ensures used { OnOk result (write_sizes self.new ≡ drop 1 (write_sizes self.old)) }
        ensures unused { OnErr result (write_sizes self.new ≡ write_sizes self.old) }
        ensures capacity { capacity self.new ≡ capacity self.old }
    {
        let most = octets.len().min(self.room.len() - self.len);
        let Some(count) = self.schedule.next(most) else {
            self.failures = self.failures.saturating_add(1);
            return Err(DeviceError);
        };
        let end = self.len + count;
        self.room[self.len..end].copy_from_slice(&octets[..count]);
        self.len = end;
        Ok(count)
    }

    ghost gives_nothing = { λ a. (sym (append-nil (written a)), refl) };

    ghost gives_in_turn = { λ a b c first second p q.
        (q.0 ∙ ap (λ x. x ++ second) p.0 ∙ append_assoc (written a) first second, q.1 ∙ p.1) };
}
