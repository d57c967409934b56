//! An input of bytes in memory that are followed by another input.
ghost use Rattle.std.specs.Prelude.{◌≡◌, ◌+◌, ◌<◌, ◌≤◌, ◌++◌, drop, length, option_map, take};

use cert_desk_io::{DeviceError, Input};

/// An input that returns bytes in memory, and then those of another input, if there is one.
#[derive(Drop)]
pub struct FileInput<I> {
    front: Vec<u8>,
    taken: usize,
    rest: Option<I>,
    has_ended: bool,
    ghost within: { taken ≤ length front.items },
}

impl<I> FileInput<I> {
    ghost use Rattle.cert_tool_pem.specs.FileInputs.{front_of, rest_of};

    /// Returns an input of these bytes that are followed by another input.
    pub fn new(front: Vec<u8>, rest: Option<I>) -> FileInput<I>
        ensures front { front_of result ≡ front.items }
        ensures rest { rest_of result ≡ rest }
    {
        FileInput {
            front,
            taken: 0,
            rest,
            has_ended: false,
        }
    }

    /// Returns whether there are no bytes in memory. Then an input that [`input_of`] returns has no
    /// bytes at all, unless it has to contain lines.
    ///
    /// [`input_of`]: crate::input_of
    pub fn is_empty(&self) -> bool {
        self.front.is_empty()
    }

    /// Returns the other input, if there is one.
    pub fn rest(&self) -> Option<&I>
        ensures { option_map (λ rest. rest.now) result ≡ rest_of self.now }
    {
        self.rest.as_ref()
    }

    // Copies the next bytes in memory to the start of a buffer, and returns their number.
    fn copy_front(&self, buffer: &mut [u8]) -> usize
        ensures len { length buffer.new ≡ length buffer.old }
        ensures room { result ≤ length buffer.new }
        ensures within { result ≤ length (front_of self.now) }
        ensures all { result < length buffer.new → result ≡ length (front_of self.now) }
        ensures copied { front_of self.now
            ≡ take result buffer.new ++ drop (self.now.taken + result) self.now.front.items }
    {
        let left = &self.front[self.taken..];
        let count = left.len().min(buffer.len());
        buffer[..count].copy_from_slice(&left[..count]);
        count
    }
}

impl<I: Input> Input for FileInput<I> {
    ghost use Rattle.cert_tool_pem.specs.FileInputs.{HasEnded, Takes, failures_of, takes_in_turn};
    ghost use Rattle.cert_tool_pem.specs.FileInputs.{takes_nothing};

    ghost takes = { λ a octets b. Takes I.takes a octets b };

    ghost is_ended = { λ a. HasEnded I.is_ended a };

    ghost failures = { λ a. failures_of I.failures a };

    fn read(&mut self, buffer: &mut [u8]) -> Result<usize, DeviceError> {
        let count = self.copy_front(buffer);
        if count == buffer.len() {
            self.taken += count;
            self.has_ended = false;
            return Ok(count);
        }
        let Some(rest) = &mut self.rest else {
            self.taken += count;
            self.has_ended = count == 0;
            return Ok(count);
        };
        match rest.read(&mut buffer[count..]) {
            Ok(more) => {
                self.taken += count;
                self.has_ended = count + more == 0;
                Ok(count + more)
            }
            // The bytes in memory aren't taken: the next read returns them.
            Err(error) => {
                self.has_ended = false;
                Err(error)
            }
        }
    }

    ghost takes_nothing = { λ a. takes_nothing I.takes I.takes_nothing a };

    ghost takes_in_turn = { λ a b c first second.
        takes_in_turn I.takes I.takes_in_turn a b c first second };
}
