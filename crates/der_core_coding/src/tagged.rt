//! The tags of values.

ghost use Rattle.std.specs.Prelude.{◌≡◌, Bool, Ok};
ghost use Rattle.der_core_values.specs.CoreHead.declared.tag.Tag.{Tag};
ghost use Rattle.der_core_values.specs.CoreHead.Tags.{is_constructed};

use der_core_values::core_head::{Error, Length, Tag};
use der_core_values::core_octets::Writer;
use der_core_values::{ApartValue, AsReadValue, EncodeValue, FixedTag, InRangeValue, ShapedValue};

/// A value that has a tag.
pub trait Tagged {
    /// Maps a value to its tag.
    ghost own_tag: { Self → Tag };

    /// Returns the tag.
    fn tag(&self) -> Tag
        ensures { result ≡ own_tag self.now };
}

impl<T: FixedTag> Tagged for T {
    ghost own_tag = { λ _. T.fixed_tag };

    fn tag(&self) -> Tag {
        <T as FixedTag>::tag()
    }
}

/// A type whose values are all constructed, or all primitive.
pub trait IsConstructed {
    /// True if the values are constructed.
    ghost constructed: { Bool };

    /// Returns whether the values are constructed (X.690 8.1.2.5).
    fn is_constructed() -> bool
        ensures { result ≡ constructed };
}

impl<T: FixedTag> IsConstructed for T {
    ghost constructed = { is_constructed T.fixed_tag };

    fn is_constructed() -> bool {
        <T as FixedTag>::tag().is_constructed()
    }
}

/// A reference to a value, with the same content.
#[derive(Drop)]
pub struct EncodeValueRef<'a, T>(pub &'a T);

impl<'a, T> AsRef<T> for EncodeValueRef<'a, T> {
    fn as_ref(&self) -> &T
        ensures { result.now ≡ self.now.0.now }
    {
        self.0
    }
}

impl<'a, T: ShapedValue> ShapedValue for EncodeValueRef<'a, T> {
    ghost content = { T.content };

    ghost value_plain = { λ r. T.value_plain r.0.now };

    ghost value_written = { λ r. T.value_written r.0.now };
}

impl<'a, T: EncodeValue> EncodeValue for EncodeValueRef<'a, T> {
    fn value_len(&self) -> Result<Length, Error> {
        self.0.value_len()
    }

    fn encode_value<W: Writer>(&self, writer: &mut W) -> Result<(), Error> {
        self.0.encode_value(writer)
    }
}

impl<'a, T: Tagged> Tagged for EncodeValueRef<'a, T> {
    ghost own_tag = { λ r. T.own_tag r.0.now };

    fn tag(&self) -> Tag {
        self.0.tag()
    }
}

impl<'a, T: ApartValue> ApartValue for EncodeValueRef<'a, T> {
    ghost apart_value = { T.apart_value };
}

impl<'a, T: AsReadValue> AsReadValue for EncodeValueRef<'a, T> {
    ghost as_read_value = { λ r. T.as_read_value r.0.now };
}

impl<'a, T: InRangeValue> InRangeValue for EncodeValueRef<'a, T> {
    fn value_in_range(&self) {
        self.0.value_in_range();
    }
}
