//! Outputs: destinations of bytes.

ghost use Rattle.std.specs.Prelude.{◌≡◌, ℕ, ◌<◌, ◌≤◌, List, [], ◌++◌, length, take, IfOk, OnOk};
ghost use Rattle.std.specs.Prelude.{OnErr};
ghost use Rattle.cert_desk_io.specs.Devices.{one_more, IsCut, IsWritten, sink};

use super::DeviceError;

/// A destination of bytes, which accepts them in pieces of any size.
pub trait Output {
    /// Between these two states, the output accepted exactly these bytes, in this order.
    ghost gives: { Self → List ℕ → Self → Type 0 };

    /// The number of failed writes. The count stays at 2^64 - 1.
    ghost failures: { Self → ℕ };

    /// Writes a nonempty prefix of the bytes and returns its length.
    ///
    /// # Errors
    ///
    /// - `DeviceError`: an I/O error. No byte was accepted, and a later call may succeed.
    fn write(&mut self, octets: &[u8]) -> Result<usize, DeviceError>
        requires some { 0 < length octets.now }
        ensures moves { IfOk result (λ count. 0 < count) }
        ensures bound { IfOk result (λ count. count ≤ length octets.now) }
        ensures given { IfOk result (λ count. gives self.old (take count octets.now) self.new) }
        ensures sound { OnOk result (failures self.new ≡ failures self.old) }

        // After a failed write.
        ensures none_given { OnErr result (gives self.old [] self.new) }
        ensures once { OnErr result (failures self.new ≡ one_more (failures self.old)) };

    /// Between a state and itself, the output accepted no byte.
    ghost gives_nothing: { (a : Self) → gives a [] a };

    /// The bytes accepted from one state to a second, followed by those accepted from there to a
    /// third, are the bytes accepted from the first to the third.
    ghost gives_in_turn: { (a b c : Self) (first second : List ℕ)
        → gives a first b → gives b second c → gives a (first ++ second) c };
}

impl<O: Output> Output for &mut O {
    ghost gives = { λ a octets b. O.gives a.now octets b.now };

    ghost failures = { λ a. O.failures a.now };

    fn write(&mut self, octets: &[u8]) -> Result<usize, DeviceError> {
        Output::write(&mut **self, octets)
    }

    ghost gives_nothing = { λ a. O.gives_nothing a.now };

    ghost gives_in_turn = { λ a b c. O.gives_in_turn a.now b.now c.now };
}

/// Writes the whole text, in as many writes as the output needs.
///
/// # Errors
///
/// - `DeviceError`: a write failed. It isn't tried again, and only a prefix of the text was
///   written.
pub fn write_all<O: Output>(output: &mut O, text: &[u8]) -> Result<(), DeviceError>
    ensures written { OnOk result
        (IsWritten (sink O.gives O.failures output.old output.new) text.now) }
    ensures cut { OnErr result (IsCut (sink O.gives O.failures output.old output.new) text.now) }
{
    let mut sent = 0;
    while sent < text.len() {
        sent += output.write(&text[sent..])?;
    }
    Ok(())
}
