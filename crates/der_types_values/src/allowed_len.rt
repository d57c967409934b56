//! Bit strings with a restricted number of bits.

ghost use Rattle.std.specs.Prelude.{◌≡◌, ◌≤◌, ◌↔◌, ℕ, IsOk, IfErr};

use der_core::{Error, ErrorKind, Tag};

/// A BIT STRING type with a restricted number of bits (X.680 51.5).
pub trait AllowedLenBitString {
    /// The smallest number of bits.
    ghost least: { ℕ };

    /// The greatest number of bits.
    ghost greatest: { ℕ };

    /// Returns the smallest number of bits.
    fn min_bit_len() -> u16
        ensures { result ≡ least };

    /// Returns the greatest number of bits.
    fn max_bit_len() -> u16
        ensures { result ≡ greatest };

    /// Checks that a number of bits is within the bounds.
    ///
    /// # Errors
    ///
    /// - `Length`: it is outside of the bounds.
    fn check_bit_len(bit_len: u16) -> Result<(), Error>
        ensures within { IsOk result ↔ ((least ≤ bit_len) × (bit_len ≤ greatest)) }
        ensures refused { IfErr result (λ e. e.kind ≡ ErrorKind.Length Tag.BitString) }
    {
        if Self::min_bit_len() <= bit_len && bit_len <= Self::max_bit_len() {
            Ok(())
        } else {
            Err(Error::from(ErrorKind::Length {
                tag: Tag::BitString,
            }))
        }
    }
}
