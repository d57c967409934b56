//! Types whose values always have their parts in range, so that encoding fails only because of a
//! length, the order of a set, or the writer.
//!
//! Each function here is a law about the values of a type. It does nothing, and its contract is the
//! law.

ghost use Rattle.der_core_octets.specs.CoreHead.Octets.{IsOctets};
ghost use Rattle.der_core_octets.specs.CoreHead.Texts.{IsUtf8Text};
ghost use Rattle.der_core_octets.specs.CoreHead.Ranges.{IsInRange, IsContentInRange, IsBodyInRange};

use crate::decode::{FixedTag, Shaped, ShapedValue};
use crate::fields::FieldRow;
use der_core_octets::core_head::number_of;

/// A type whose values are in range.
pub trait InRange: Shaped {
    /// The value that is encoded is in range.
    fn in_range(&self)
        ensures { IsInRange Self.shape (Self.written self.now) };
}

/// A type whose contents are in range.
pub trait InRangeValue: ShapedValue {
    /// The content that is encoded is in range.
    fn value_in_range(&self)
        ensures { IsContentInRange Self.content (Self.value_written self.now) };
}

/// A row of fields that are in range.
pub trait InRangeFields: FieldRow {
    /// The fields that are encoded are in range.
    fn fields_in_range(&self)
        ensures { IsBodyInRange Self.fields (Self.fields_written self.now) };
}

/// A slice of bytes is in range.
pub fn octets_in_range(octets: &[u8])
    ensures { IsOctets octets.now }
{}

/// A text is in range: its bytes are UTF-8.
pub fn text_in_range(text: &str)
    ensures { IsUtf8Text text.now }
{
    octets_in_range(text.as_bytes());
}

/// A type with one tag has values in range if its contents are in range.
impl<T: InRangeValue + FixedTag> InRange for T {
    fn in_range(&self) {
        // `number_of` returns a `u32`, so the tag number fits 32 bits.
        let _number = number_of(T::tag());
        self.value_in_range();
    }
}
