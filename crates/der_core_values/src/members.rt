//! Encodings of several values, one after another.

ghost use Rattle.der_core_octets.specs.CoreHead.Shapes.{body_octets, many};
ghost use Rattle.der_core_octets.specs.CoreHead.Grammar.{plain_list};
ghost use Rattle.der_core_octets.specs.CoreHead.Reading.{GivesNow};
ghost use Rattle.der_core_octets.specs.CoreHead.Writing.{Writes, size_body, write_body};
ghost use Rattle.der_core_octets.specs.Outputs.{AddsFront, Continues};

use crate::encode::Encode;
use der_core_octets::Writer;
use der_core_octets::core_head::{Error, Length};

/// Returns the total length of the encodings.
///
/// # Errors
///
/// - `Overflow`: the length is 2^32 or more.
pub fn members_len<T: Encode>(members: &[T]) -> Result<Length, Error>
    ensures { GivesNow (λ l. l.value) result
        (size_body (many T.shape) (plain_list T.written members.now)) }
{
    let mut len = Length { value: 0 };
    for member in members {
        len = (len + member.encoded_len()?)?;
    }
    Ok(len)
}

/// Encodes the members, one after another.
///
/// # Errors
///
/// - `Overflow`: a length exceeds 2^32 - 1.
/// - The errors of the writer.
pub fn encode_members<T: Encode, W: Writer>(members: &[T], writer: &mut W) -> Result<(), Error>
    ensures exact { Writes W.takes_memory (W.out writer.old) (W.out writer.new) result
        (write_body (many T.shape) (plain_list T.written members.now)) }
    ensures kept { Continues (W.out writer.old) (W.out writer.new) }
    ensures front { AddsFront (body_octets (many T.shape) (plain_list T.written members.now))
        (W.out writer.old) (W.out writer.new) }
{
    for member in members {
        member.encode(writer)?;
    }
    Ok(())
}
