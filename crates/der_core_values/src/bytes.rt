//! Contents that are kept undecoded, whatever tag they have (X.690 8.7).

ghost use Rattle.std.specs.Prelude.{◌≡◌, false};
ghost use Rattle.der_core_octets.specs.CoreHead.Grammar.{slice_at, value_at};
ghost use Rattle.der_core_octets.specs.Held.{held_octets};
ghost use Rattle.der_core_octets.specs.CoreHead.Leaves.{octets};
ghost use Rattle.der_core_octets.specs.CoreHead.Reading.{Reads, read_content_at};
ghost use Rattle.der_core_octets.specs.CoreHead.Shapes.{leaf};

use crate::in_range::octets_in_range;
use crate::leaf_ways::{AsOctets, Octets};
use crate::leaves::{Leaf, Primitive};
use crate::ways::Described;
use der_core_octets::core_head::{Error, Tag};
use der_core_octets::{BytesOwned, BytesRef, Header, Reader};
use std::alloc::Global;

impl<'a> Described for BytesRef<'a> {
    type By = AsOctets;
}

impl<'a> Primitive for BytesRef<'a> {
    ghost kind = { octets };

    ghost leaf_plain = { held_octets };
}

impl<'a> Leaf<'a> for BytesRef<'a> {
    ghost takes_memory = { false };

    fn from_content(_alloc: Global, _tag: Tag, octets: &'a [u8]) -> Result<BytesRef<'a>, Error> {
        BytesRef::new(octets)
    }
}

impl<'a> Octets for BytesRef<'a> {
    fn content(&self) -> &[u8] {
        octets_in_range(self.as_slice());
        self.as_slice()
    }
}

impl Described for BytesOwned {
    type By = AsOctets;
}

impl Primitive for BytesOwned {
    ghost kind = { octets };

    ghost leaf_plain = { λ bytes. bytes };
}

/// Decoding copies the content.
impl<'a> Leaf<'a> for BytesOwned {
    fn from_content(alloc: Global, _tag: Tag, octets: &'a [u8]) -> Result<BytesOwned, Error> {
        let bytes = Vec::from_slice(alloc, octets)?;
        BytesOwned::new(bytes)
    }
}

impl Octets for BytesOwned {
    fn content(&self) -> &[u8] {
        octets_in_range(self.as_slice());
        self.as_slice()
    }
}

/// Returns a copy of the content bytes after a header, under either encoding rules. After an error
/// the reader has failed.
///
/// Under BER, if a string is in constructed form, its content is the encodings of its parts.
///
/// # Errors
///
/// - `Incomplete`: there are fewer bytes.
/// - `OutOfMemory`: memory runs out.
/// - `Failed`: the reader failed before.
pub fn decode_octets<'a, R: Reader<'a>>(
    alloc: Global,
    reader: &mut R,
    header: Header,
) -> Result<BytesOwned, Error>
    ensures octets { Reads (λ bytes. bytes) (R.state reader.old) (R.state reader.new) result
        (slice_at header.length.value) }
    // The result is the one that decoding a content gives.
    ensures content { Reads (λ bytes. bytes) (R.state reader.old) (R.state reader.new) result
        (value_at (read_content_at (R.state reader.old) (leaf octets) header.tag)
        header.length.value) }
{
    copy_content(alloc, reader, header)
}

/// Returns a copy of the content bytes after a header.
fn copy_content<'a, R: Reader<'a>>(
    alloc: Global,
    reader: &mut R,
    header: Header,
) -> Result<BytesOwned, Error>
    ensures { Reads (λ bytes. bytes) (R.state reader.old) (R.state reader.new) result
        (slice_at header.length.value) }
{
    let octets = reader.read_vec(alloc, header.length)?;
    match BytesOwned::new(octets) {
        Ok(bytes) => Ok(bytes),
        Err(error) => {
            reader.fail();
            Err(error)
        }
    }
}
