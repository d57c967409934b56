//! Contents that consist of one byte and further bytes.

ghost use Rattle.std.specs.Prelude.{◌≡◌, ◌+◌, ◌∷◌};
ghost use Rattle.der_core_values.specs.CoreHead.Reading.{GivesNow};
ghost use Rattle.der_core_values.specs.CoreHead.Writing.{Writes, put, fit_len};
ghost use Rattle.der_core_values.specs.CoreOctets.Outputs.{AddsFront, Continues};

use der_core_values::core_head::{Error, Length};
use der_core_values::core_octets::Writer;

/// Returns the length of one byte and the given number of bytes.
///
/// # Errors
///
/// - `Overflow`: the length is 2^32 or more.
pub fn len_behind(octets: Length) -> Result<Length, Error>
    ensures { GivesNow (λ l. l.value) result (fit_len (octets.value + 1)) }
{
    octets + Length { value: 1 }
}

/// Writes one byte, and then the given bytes.
///
/// # Errors
///
/// - The errors of the writer.
#[tactic(auto, using(crate::proofs::Cited::refused_adds))]
pub fn encode_behind<W: Writer>(writer: &mut W, first: u8, octets: &[u8]) -> Result<(), Error>
    ensures exact { Writes W.takes_memory (W.out writer.old) (W.out writer.new) result
        (put (first ∷ octets.now)) }
    ensures kept { Continues (W.out writer.old) (W.out writer.new) }
    ensures front { AddsFront (first ∷ octets.now) (W.out writer.old) (W.out writer.new) }
{
    writer.write_byte(first)?;
    writer.write(octets)
}
