//! Types whose values have exactly one encoding each, and types that are encoded as they are
//! decoded.

ghost use Rattle.std.specs.Prelude.{◌≡◌, true, refl};
ghost use Rattle.der_core_octets.specs.CoreHead.Spelling.{is_apart, is_element, is_content_apart};

use crate::decode::{FixedTag, Shaped, ShapedValue};

/// A type whose first tags are unambiguous, so that each value has one encoding.
pub trait Member: Shaped {
    /// The first tags of the shape are unambiguous.
    ghost apart: { is_apart Self.shape ≡ true };
}

/// A type whose contents have unambiguous first tags, so that each content has one encoding.
pub trait ApartValue: ShapedValue {
    /// The first tags in the content are unambiguous.
    ghost apart_value: { is_content_apart Self.content ≡ true };
}

/// A type whose encodings always have a header.
pub trait Element: Shaped {
    /// Each encoding is exactly one header with its content.
    ghost element: { is_element Self.shape ≡ true };
}

/// A type whose values are encoded as they are decoded.
pub trait AsRead: Shaped {
    /// The value that is encoded is the value that was decoded.
    ghost as_read: { (v : Self) → Self.written v ≡ Self.plain v };
}

/// A type whose contents are encoded as they are decoded.
pub trait AsReadValue: ShapedValue {
    /// The content that is encoded is the content that was decoded.
    ghost as_read_value: { (v : Self) → Self.value_written v ≡ Self.value_plain v };
}

impl<T: ShapedValue + FixedTag> Element for T {
    ghost element = { refl };
}

/// A type with one tag has unambiguous first tags if its contents do.
impl<T: ApartValue + FixedTag> Member for T {
    ghost apart = { T.apart_value };
}

/// A type with one tag is encoded as it is decoded if its contents are.
impl<T: AsReadValue + FixedTag> AsRead for T {
    ghost as_read = { T.as_read_value };
}
