//! Types whose content isn't a sequence of values.

ghost use Rattle.std.specs.Prelude.{◌≡◌, Bool, true, false, IfOk, IfErr, Err};
ghost use Rattle.der_core_octets.specs.CoreHead.Heads.{Fits};
ghost use Rattle.der_core_octets.specs.CoreHead.Shapes.{leaf};
ghost use Rattle.der_core_octets.specs.CoreHead.Grammar.{value_at};
ghost use Rattle.der_core_octets.specs.CoreHead.Reading.{Reads, TakesContent, read_content_at};
ghost use Rattle.der_core_values.specs.Memory.{GivesTaking};
ghost use Rattle.der_core_octets.specs.CoreHead.Leaves.{Leaf as LeafKind, LeafValue, leaf_read};

use der_core_octets::core_head::{Error, Tag};
use der_core_octets::{Header, Reader};
use std::alloc::Global;

/// A type whose content isn't a sequence of values.
pub trait Primitive {
    /// The kind of content.
    ghost kind: { LeafKind };

    /// Maps a value to its abstract value.
    ghost leaf_plain: { Self → LeafValue kind };
}

/// A type whose values are decoded from the bytes of their content.
pub trait Leaf<'a>: Primitive + Drop {
    /// True if decoding may fail because memory runs out.
    ghost takes_memory: { Bool } = { true };

    /// Decodes a content after its tag. The content has at most 2^32 - 1 bytes.
    ///
    /// # Errors
    ///
    /// - The error of the bytes.
    /// - `OutOfMemory`: memory runs out.
    fn from_content(alloc: Global, tag: Tag, octets: &'a [u8]) -> Result<Self, Error>
        requires { Fits octets.now }
        ensures { GivesTaking takes_memory Self.leaf_plain result
            (leaf_read Self.kind tag octets.now) };
}

/// Returns the content bytes after a header.
///
/// # Errors
///
/// - `Incomplete`: there are fewer bytes.
pub fn read_content<'a, R: Reader<'a>>(reader: &mut R, header: Header) -> Result<&'a [u8], Error>
    ensures takes { TakesContent (R.state reader.old) (R.state reader.new) result
        header.length.value }
    ensures short { IfOk result (λ octets. Fits octets.now) }
{
    reader.read_slice(header.length)
}

/// Decodes a value from its content. After an error the reader has failed.
///
/// # Errors
///
/// - `Incomplete`: there are fewer bytes.
/// - The error of the bytes.
/// - `OutOfMemory`: memory runs out.
#[inline(always)]
pub fn decode_leaf<'a, R: Reader<'a>, T: Leaf<'a>>(
    alloc: Global,
    reader: &mut R,
    header: Header,
) -> Result<T, Error>
    ensures reads { Reads T.leaf_plain (R.state reader.old) (R.state reader.new) result
        (value_at (read_content_at (R.state reader.old) (leaf T.kind) header.tag)
        header.length.value) }
    // If the type doesn't allocate, the error is that of the bytes.
    ensures fault { T.takes_memory ≡ false → IfErr result (λ e. (R.state reader.old).failed ≡ false
        → value_at (read_content_at (R.state reader.old) (leaf T.kind) header.tag)
        header.length.value
        (R.state reader.old).rest ≡ Err e.kind) }
{
    let octets = read_content(reader, header)?;
    match T::from_content(alloc, header.tag, octets) {
        Ok(value) => Ok(value),
        Err(error) => {
            reader.fail();
            Err(error)
        }
    }
}
