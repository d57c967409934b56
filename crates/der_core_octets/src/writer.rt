//! Writers of bytes.

ghost use Rattle.std.specs.Prelude.{◌≡◌, [], ◌∷◌, None, length, Bool, true, false, OnErr};
ghost use Rattle.der_core_head.specs.Writing.{Out, Writes, put};
ghost use Rattle.der_core_octets.specs.Outputs.{Continues, IsRefused};

use der_core_head::Error;

/// A destination of bytes.
pub trait Writer: Drop {
    /// The abstract state of the writer.
    ghost out: { Self → Out };

    /// True if a write may fail because memory runs out.
    ghost takes_memory: { Bool };

    /// Appends bytes.
    ///
    /// If a call fails, nothing is written, and a writer that doesn't allocate has failed.
    ///
    /// # Errors
    ///
    /// - `Failed`: the writer failed before.
    /// - `Overlength`: there isn't enough room.
    /// - `OutOfMemory`: memory runs out.
    fn write(&mut self, octets: &[u8]) -> Result<(), Error>
        ensures exact { Writes takes_memory (out self.old) (out self.new) result (put octets.now) }
        ensures refused { OnErr result (IsRefused takes_memory (out self.old) (out self.new)) }
        ensures kept { Continues (out self.old) (out self.new) };

    /// Appends a byte.
    ///
    /// # Errors
    ///
    /// - The errors of `write`.
    final fn write_byte(&mut self, octet: u8) -> Result<(), Error>
        ensures exact { Writes takes_memory (out self.old) (out self.new) result
            (put (octet ∷ [])) }
        ensures refused { OnErr result (IsRefused takes_memory (out self.old) (out self.new)) }
        ensures kept { Continues (out self.old) (out self.new) }
    {
        self.write(&[octet])
    }
}

impl Writer for Vec<u8> {
    ghost out = { λ v. record { written = v.items; room = None; failed = false } };

    ghost takes_memory = { true };

    #[tactic(auto, unfolding(der_core_head::specs::Writing::put))]
    fn write(&mut self, octets: &[u8]) -> Result<(), Error> {
        self.extend_from_slice(octets)?;
        Ok(())
    }
}
