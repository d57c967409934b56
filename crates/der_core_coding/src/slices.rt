//! Headers of values, and contents that are encoded into slices.

ghost use Rattle.std.specs.Prelude.{◌≡◌, ◌≤◌, length, Ok, IfOk, IsOkAnd};
ghost use Rattle.der_core_values.specs.CoreHead.Ranges.{IsContentInRange};
ghost use Rattle.der_core_values.specs.CoreHead.Shapes.{IsContent, contents};
ghost use Rattle.der_core_values.specs.CoreHead.Reading.{GivesNow};
ghost use Rattle.der_core_values.specs.CoreHead.Writing.{size_content, write_content};
ghost use Rattle.der_core_values.specs.CoreOctets.Outputs.{filled};

use crate::slice_writer::SliceWriter;
use crate::tagged::Tagged;
use der_core_values::EncodeValue;
use der_core_values::core_head::Error;
use der_core_values::core_octets::Header;

/// Returns the header of a value: its tag and the length of its content.
///
/// # Errors
///
/// - `Overflow`: the content has 2^32 bytes or more.
pub fn value_header<T: EncodeValue + Tagged>(value: &T) -> Result<Header, Error>
    ensures length { GivesNow (λ header. header.length.value) result
        (size_content T.content (T.value_written value.now)) }
    ensures tag { IfOk result (λ header. header.tag ≡ T.own_tag value.now) }
{
    let length = value.value_len()?;
    Ok(Header::new(value.tag(), length))
}

/// Encodes the content of a value at the beginning of a slice, and returns the encoded bytes. It
/// doesn't allocate.
///
/// # Errors
///
/// - `Overlength`: the slice is too short.
/// - `Overflow`: a length exceeds 2^32 - 1.
/// - `SetOrdering`, `SetDuplicate`: a strict set in the value isn't in ascending order (X.690
///   11.6).
pub fn encode_value_to_slice<'a, T: EncodeValue>(
    value: &T,
    bytes: &'a mut [u8],
) -> Result<&'a [u8], Error>
    // The result is the content of the value.
    ensures octets { IfOk result
        (λ octets. octets.now ≡ contents T.content (T.value_written value.now)) }
    // The content is valid if its parts are in their ranges.
    ensures valid { IfOk result (λ _. IsContentInRange T.content (T.value_written value.now)
        → IsContent T.content (T.value_written value.now)) }
    // A valid content is encoded if there is room for it.
    ensures spelled { IsContent T.content (T.value_written value.now)
        → length (contents T.content (T.value_written value.now)) ≤ length bytes.entry.now
        → IsOkAnd result (λ octets. octets.now ≡ contents T.content (T.value_written value.now)) }
    // The result is that of the definition, including the kind of the error.
    ensures exact { GivesNow (λ octets. octets.now) result
        (filled (write_content T.content (T.value_written value.now)) (length bytes.entry.now)) }
{
    fill_content(value, bytes)
}

/// Encodes the content of a value at the beginning of a slice.
fn fill_content<'a, T: EncodeValue>(value: &T, bytes: &'a mut [u8]) -> Result<&'a [u8], Error>
    ensures { GivesNow (λ octets. octets.now) result
        (filled (write_content T.content (T.value_written value.now)) (length bytes.entry.now)) }
{
    let mut writer = SliceWriter::new(bytes);
    value.encode_value(&mut writer)?;
    writer.finish()
}
