//! Decoding the next value of a reader.

ghost use Rattle.std.specs.Prelude.{◌≡◌, OnErr, true};
ghost use Rattle.der_core_values.specs.CoreHead.Tags.{context, implicit_tag};
ghost use Rattle.der_core_values.specs.CoreHead.Shapes.{nested, only, optional, tagged};
ghost use Rattle.der_core_values.specs.CoreHead.Grammar.{value_at, plain_option};
ghost use Rattle.der_core_values.specs.CoreHead.Reading.{Reads, read_at, read_content_at};

use der_core_values::core_head::{Error, Tag, TagMode, TagNumber, is_constructed, is_same_tag};
use der_core_values::core_octets::{Header, Reader};
use der_core_values::{Decode, DecodeValue, FixedTag};
use std::alloc::Global;

/// Decodes a value that must use all bytes of a content.
fn read_only<'a, R: Reader<'a>, T: Decode<'a, R>>(
    alloc: Global,
    reader: &mut R,
    header: Header,
) -> Result<T, Error>
    ensures { Reads T.plain (R.state reader.old) (R.state reader.new) result
        (value_at (read_content_at (R.state reader.old) (nested (only T.shape)) header.tag)
        header.length.value) }
{
    let behind = reader.begin_nested(header.length)?;
    match T::decode(alloc, reader) {
        Ok(value) => {
            reader.end_nested(behind, false)?;
            Ok(value)
        }
        Err(error) => {
            reader.end_nested(behind, true)?;
            Err(error)
        }
    }
}

/// Decodes a value with an explicit tag before its own (X.690 8.14.2).
///
/// # Errors
///
/// - `TagUnexpected`: the tag is another one.
/// - The first error that decoding meets.
/// - `OutOfMemory`: memory runs out.
/// - `Failed`: the reader failed before.
#[tactic(auto, unfolding(crate::specs::Opened::tlv_at))]
pub fn read_explicit<'a, R: Reader<'a>, T: Decode<'a, R>>(
    alloc: Global,
    reader: &mut R,
    tag: Tag,
) -> Result<T, Error>
    ensures { Reads T.plain (R.state reader.old) (R.state reader.new) result
        (read_at (R.state reader.old) (tagged tag (nested (only T.shape)))) }
{
    let header = reader.read_header_of(tag)?;
    read_only(alloc, reader, header)
}

/// Decodes a value whose tag is replaced by another one.
#[tactic(auto, unfolding(crate::specs::Opened::tlv_at))]
fn read_implicit<'a, R: Reader<'a>, T: DecodeValue<'a, R>>(
    alloc: Global,
    reader: &mut R,
    tag: Tag,
) -> Result<T, Error>
    ensures { Reads T.value_plain (R.state reader.old) (R.state reader.new) result
        (read_at (R.state reader.old) (tagged tag T.content)) }
{
    let header = reader.read_header_of(tag)?;
    T::decode_value(alloc, reader, header)
}

/// Decodes a value with an explicit tag before its own, if that tag is next (X.690 8.14.2).
///
/// # Errors
///
/// - The first error that decoding meets.
/// - `OutOfMemory`: memory runs out.
/// - `Failed`: the reader failed before.
#[tactic(auto, unfolding(crate::specs::Opened::opt_at))]
pub fn optional_explicit<'a, R: Reader<'a>, T: Decode<'a, R>>(
    alloc: Global,
    reader: &mut R,
    tag: Tag,
) -> Result<Option<T>, Error>
    ensures { Reads (plain_option T.plain) (R.state reader.old) (R.state reader.new) result
        (read_at (R.state reader.old) (optional (tagged tag (nested (only T.shape))))) }
{
    let Some(first) = reader.next_tag_or_end()? else {
        return Ok(None);
    };
    if is_same_tag(tag, first) {
        Ok(Some(read_explicit(alloc, reader, tag)?))
    } else {
        Ok(None)
    }
}

/// Decodes a value whose tag is replaced by another one, if that tag is next (X.690 8.14.3).
///
/// # Errors
///
/// - The first error that decoding meets.
/// - `OutOfMemory`: memory runs out.
/// - `Failed`: the reader failed before.
#[tactic(auto, unfolding(crate::specs::Opened::opt_at))]
pub fn optional_implicit<'a, R: Reader<'a>, T: DecodeValue<'a, R>>(
    alloc: Global,
    reader: &mut R,
    tag: Tag,
) -> Result<Option<T>, Error>
    ensures { Reads (plain_option T.value_plain) (R.state reader.old) (R.state reader.new) result
        (read_at (R.state reader.old) (optional (tagged tag T.content))) }
{
    let Some(first) = reader.next_tag_or_end()? else {
        return Ok(None);
    };
    if is_same_tag(tag, first) {
        Ok(Some(read_implicit(alloc, reader, tag)?))
    } else {
        Ok(None)
    }
}

/// A reader that decodes values of any type.
pub trait Reading<'r>: Reader<'r> + Sized {
    /// Decodes the next value. After an error the reader has failed.
    ///
    /// # Errors
    ///
    /// - The first error that decoding meets.
    /// - `OutOfMemory`: memory runs out.
    /// - `Failed`: the reader failed before.
    final fn decode<T: Decode<'r, Self>>(&mut self, alloc: Global) -> Result<T, Error>
        ensures reads { Reads T.plain (Self.state self.old) (Self.state self.new) result
            (read_at (Self.state self.old) T.shape) }
        ensures refused { OnErr result ((Self.state self.new).failed ≡ true) }
    {
        Ok(T::decode(alloc, self)?)
    }

    /// Decodes a value with the context-specific tag with this number, if that tag is next (X.690
    /// 8.14). Otherwise it returns `None`.
    ///
    /// # Errors
    ///
    /// - The first error that decoding meets.
    /// - `OutOfMemory`: memory runs out.
    /// - `Failed`: the reader failed before.
    final fn context_specific<T: DecodeValue<'r, Self> + FixedTag>(
        &mut self,
        alloc: Global,
        tag_number: TagNumber,
        tag_mode: TagMode,
    ) -> Result<Option<T>, Error>
        ensures explicit { tag_mode ≡ TagMode.Explicit
            → Reads (plain_option T.value_plain) (Self.state self.old) (Self.state self.new) result
            (read_at (Self.state self.old)
            (optional
            (tagged (context true tag_number.value)
            (nested (only (tagged T.fixed_tag T.content)))))) }
        ensures implicit { tag_mode ≡ TagMode.Implicit
            → Reads (plain_option T.value_plain) (Self.state self.old) (Self.state self.new) result
            (read_at (Self.state self.old)
            (optional (tagged (implicit_tag tag_number.value T.fixed_tag) T.content))) }
    {
        let number = tag_number;
        match tag_mode {
            TagMode::Explicit => {
                let constructed = true;
                let tag = Tag::ContextSpecific {
                    constructed,
                    number,
                };
                optional_explicit(alloc, self, tag)
            }
            TagMode::Implicit => {
                let constructed = is_constructed(T::tag());
                let tag = Tag::ContextSpecific {
                    constructed,
                    number,
                };
                optional_implicit(alloc, self, tag)
            }
        }
    }
}

impl<'r, R: Reader<'r>> Reading<'r> for R {}
