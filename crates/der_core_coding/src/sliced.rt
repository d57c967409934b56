//! Values together with the bytes from which they were decoded.

ghost use Rattle.std.specs.Prelude.{◌≡◌, ◌++◌, IfOk};
ghost use Rattle.der_core_values.specs.CoreHead.Shapes.{octets_of};
ghost use Rattle.der_core_values.specs.CoreHead.Reading.{Reads, IsDer, read_at};

use der_core_values::core_head::Error;
use der_core_values::core_octets::Reader;
use der_core_values::{Decode, Member};
use std::alloc::Global;

/// Decodes the next value, and returns it with its bytes, under either encoding rules. Under DER,
/// the bytes are its encoding.
///
/// # Errors
///
/// - The first error that decoding meets.
/// - `OutOfMemory`: memory runs out.
/// - `Failed`: the reader failed before.
pub fn decode_sliced<'a, R: Reader<'a>, T: Decode<'a, R> + Member>(
    alloc: Global,
    reader: &mut R,
) -> Result<(T, &'a [u8]), Error>
    ensures reads { Reads (λ x. T.plain x.0) (R.state reader.old) (R.state reader.new) result
        (read_at (R.state reader.old) T.shape) }
    // The bytes are those between the earlier and the later position of the reader.
    ensures stand { IfOk result (λ x. (R.state reader.old).rest ≡ x.1.now
        ++ (R.state reader.new).rest) }
    // Under DER, they are the encoding of the value.
    ensures octets { IsDer (R.state reader.old)
        → IfOk result (λ x. x.1.now ≡ octets_of T.shape (T.plain x.0)) }
{
    let before = reader.remaining();
    let value = T::decode(alloc, reader)?;
    let octets = &before[..before.len().saturating_sub(reader.remaining().len())];
    Ok((value, octets))
}
