//! The traits of types that are decoded.

ghost use Rattle.std.specs.Prelude.{◌≡◌};
ghost use Rattle.der_core_octets.specs.CoreHead.declared.tag.Tag.{Tag};
ghost use Rattle.der_core_octets.specs.CoreHead.Shapes.{Shape, Content, Value, ContentValue};
ghost use Rattle.der_core_octets.specs.CoreHead.Shapes.{tagged, begins};
ghost use Rattle.der_core_octets.specs.CoreHead.Grammar.{value_at};
ghost use Rattle.der_core_octets.specs.CoreHead.Reading.{Reads, read_at, read_content_at};

use der_core_octets::core_head::{Error, Tag, is_same_tag};
use der_core_octets::{Header, Reader};
use std::alloc::Global;

/// A type whose values have one tag.
pub trait FixedTag {
    /// The tag.
    ghost fixed_tag: { Tag };

    /// Returns the tag of the type's values.
    fn tag() -> Tag
        ensures { result ≡ fixed_tag };
}

/// A type with its abstract values and their encodings.
pub trait Shaped {
    /// The shape, which says what the abstract values and their encodings are.
    ghost shape: { Shape };

    /// Maps a value to its abstract value.
    ghost plain: { Self → Value shape };

    /// The value that is encoded. It is the value itself, unless a profile re-encodes it.
    ghost written: { Self → Value shape };
}

/// A type that is decoded from bytes, with its header.
pub trait Decode<'a, R: Reader<'a>>: Shaped + Drop {
    /// Decodes the next value. Headers are decoded under the reader's encoding rules. After an
    /// error the reader has failed.
    ///
    /// # Errors
    ///
    /// - The first error that decoding meets.
    /// - `OutOfMemory`: memory runs out.
    /// - `Failed`: the reader failed before.
    fn decode(alloc: Global, reader: &mut R) -> Result<Self, Error>
        ensures { Reads Self.plain (R.state reader.old) (R.state reader.new) result
            (read_at (R.state reader.old) Self.shape) };
}

/// A type with its abstract values and the encodings of their contents.
pub trait ShapedValue {
    /// The part of the shape after the header.
    ghost content: { Content };

    /// Maps a value to its abstract value.
    ghost value_plain: { Self → ContentValue content };

    /// The content that is encoded. It is the content itself, unless a profile re-encodes it.
    ghost value_written: { Self → ContentValue content };
}

/// A type that is decoded from the bytes after a header.
pub trait DecodeValue<'a, R: Reader<'a>>: ShapedValue + Drop {
    /// Decodes the next content, after a header that was decoded. After an error the reader has
    /// failed.
    ///
    /// # Errors
    ///
    /// - The first error that decoding meets.
    /// - `OutOfMemory`: memory runs out.
    /// - `Failed`: the reader failed before.
    fn decode_value(alloc: Global, reader: &mut R, header: Header) -> Result<Self, Error>
        ensures { Reads Self.value_plain (R.state reader.old) (R.state reader.new) result
            (value_at (read_content_at (R.state reader.old) Self.content header.tag)
            header.length.value) };
}

impl<T: ShapedValue + FixedTag> Shaped for T {
    ghost shape = { tagged T.fixed_tag T.content };

    ghost plain = { T.value_plain };

    ghost written = { T.value_written };
}

/// Decodes the next value, which must have the tag of the type.
///
/// # Errors
///
/// - `TagUnexpected`: the tag is another one.
/// - The first error that decoding meets.
/// - `OutOfMemory`: memory runs out.
/// - `Failed`: the reader failed before.
#[inline(always)]
#[tactic(auto, unfolding(crate::specs::Opened::tlv_at))]
fn decode_tagged<'a, R: Reader<'a>, T: DecodeValue<'a, R> + FixedTag>(
    alloc: Global,
    reader: &mut R,
) -> Result<T, Error>
    ensures { Reads T.value_plain (R.state reader.old) (R.state reader.new) result
        (read_at (R.state reader.old) (tagged T.fixed_tag T.content)) }
{
    let header = reader.read_header_of(T::tag())?;
    T::decode_value(alloc, reader, header)
}

impl<'a, R: Reader<'a>, T: DecodeValue<'a, R> + FixedTag> Decode<'a, R> for T {
    /// An error without a position gets the position of the header.
    #[inline(always)]
    fn decode(alloc: Global, reader: &mut R) -> Result<T, Error> {
        let place = reader.position();
        match decode_tagged(alloc, reader) {
            Ok(value) => Ok(value),
            Err(error) => Err(error.found_at(place)),
        }
    }
}

/// A type that knows the tags with which its values may begin.
pub trait Choice: Shaped {
    /// Returns whether a value of the type may begin with this tag.
    fn can_decode(tag: Tag) -> bool
        ensures { result ≡ begins Self.shape tag };
}

impl<T: ShapedValue + FixedTag> Choice for T {
    fn can_decode(tag: Tag) -> bool {
        is_same_tag(T::tag(), tag)
    }
}
