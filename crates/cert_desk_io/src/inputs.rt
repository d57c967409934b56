//! Inputs: sources of bytes.

ghost use Rattle.std.specs.Prelude.{◌≡◌, ℕ, ◌<◌, ◌≤◌, ◌↔◌, List, [], ◌++◌, length, take, IfOk};
ghost use Rattle.std.specs.Prelude.{IfErr, OnOk, OnErr};
ghost use Rattle.cert_desk_io.specs.Devices.{one_more, source};
ghost use Rattle.cert_desk_io.specs.Whole.{IsWhole, IsUnread};

use super::{DeviceError, ReadAllError};
use std::alloc::Global;

/// A source of bytes, which gives them in pieces of any size.
pub trait Input {
    /// Between these two states, the input gave exactly these bytes, in this order.
    ghost takes: { Self → List ℕ → Self → Type 0 };

    /// The last read met the end of the input.
    ghost is_ended: { Self → Type 0 };

    /// The number of failed reads. The count stays at 2^64 - 1.
    ghost failures: { Self → ℕ };

    /// Reads bytes into the first part of the buffer and returns their number, which is 0 at the
    /// end of the input.
    ///
    /// # Errors
    ///
    /// - `DeviceError`: an I/O error. The read took no byte, and a later call may succeed.
    fn read(&mut self, buffer: &mut [u8]) -> Result<usize, DeviceError>
        requires room { 0 < length buffer.old }
        ensures bound { IfOk result (λ count. count ≤ length buffer.new) }
        ensures taken { IfOk result (λ count. takes self.old (take count buffer.new) self.new) }
        ensures end { IfOk result (λ count. (count ≡ 0) ↔ is_ended self.new) }
        ensures sound { OnOk result (failures self.new ≡ failures self.old) }

        // After a failed read.
        ensures none_taken { OnErr result (takes self.old [] self.new) }
        ensures not_ended { OnErr result (¬ is_ended self.new) }
        ensures once { OnErr result (failures self.new ≡ one_more (failures self.old)) };

    /// Between a state and itself, the input gave no byte.
    ghost takes_nothing: { (a : Self) → takes a [] a };

    /// The bytes given from one state to a second, followed by those given from there to a third,
    /// are the bytes given from the first to the third.
    ghost takes_in_turn: { (a b c : Self) (first second : List ℕ)
        → takes a first b → takes b second c → takes a (first ++ second) c };
}

impl<I: Input> Input for &mut I {
    ghost takes = { λ a octets b. I.takes a.now octets b.now };

    ghost is_ended = { λ a. I.is_ended a.now };

    ghost failures = { λ a. I.failures a.now };

    fn read(&mut self, buffer: &mut [u8]) -> Result<usize, DeviceError> {
        Input::read(&mut **self, buffer)
    }

    ghost takes_nothing = { λ a. I.takes_nothing a.now };

    ghost takes_in_turn = { λ a b c. I.takes_in_turn a.now b.now c.now };
}

/// Reads an input to its end. It may have at most `most` bytes.
///
/// # Errors
///
/// - `TooMuch`: there are more bytes. One more than `most` was read.
/// - `Device`: a read failed.
/// - `OutOfMemory`: memory runs out.
///
/// A failed read isn't tried again.
pub fn read_all<I: Input>(alloc: Global, input: &mut I, most: u32) -> Result<Vec<u8>, ReadAllError>
    ensures whole { IfOk result
        (λ octets. IsWhole (source I.takes I.is_ended I.failures input.old input.new) most
        octets.items) }
    ensures unread { IfErr result
        (IsUnread (source I.takes I.is_ended I.failures input.old input.new) most) }
{
    let most = most as usize;
    let mut octets = Vec::new(alloc);
    let mut buffer = [0; 2048];
    loop {
        let room = (most + 1 - octets.len()).min(buffer.len());
        let Ok(count) = input.read(&mut buffer[..room]) else {
            return Err(ReadAllError::Device);
        };
        if count == 0 {
            return Ok(octets);
        }
        if octets.extend_from_slice(&buffer[..count]).is_err() {
            return Err(ReadAllError::OutOfMemory);
        }
        if octets.len() > most {
            return Err(ReadAllError::TooMuch);
        }
    }
}
