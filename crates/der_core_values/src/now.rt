//! Types with one tag whose content isn't a sequence of values.

ghost use Rattle.std.specs.Prelude.{◌≡◌, false, IfErr, Err};
ghost use Rattle.der_core_octets.specs.CoreHead.Shapes.{leaf, tagged};
ghost use Rattle.der_core_octets.specs.CoreHead.Reading.{Reads, read_at};

use crate::decode::FixedTag;
use crate::leaves::{Leaf, decode_leaf};
use der_core_octets::Reader;
use der_core_octets::core_head::Error;
use std::alloc::Global;

/// Decodes the next value, which must have the tag of the type. After an error the reader has
/// failed.
///
/// # Errors
///
/// - `TagUnexpected`: the tag is another one.
/// - The first error that decoding meets.
/// - `OutOfMemory`: the type allocates, and memory runs out.
/// - `Failed`: the reader failed before.
#[tactic(auto, unfolding(crate::specs::Opened::tlv_at))]
pub fn decode_leaf_of_tag<'a, R: Reader<'a>, T: Leaf<'a> + FixedTag>(
    alloc: Global,
    reader: &mut R,
) -> Result<T, Error>
    ensures reads { Reads T.leaf_plain (R.state reader.old) (R.state reader.new) result
        (read_at (R.state reader.old) (tagged T.fixed_tag (leaf T.kind))) }
    // If the type doesn't allocate, the error is that of the bytes.
    ensures fault { T.takes_memory ≡ false → IfErr result (λ e. (R.state reader.old).failed ≡ false
        → read_at (R.state reader.old) (tagged T.fixed_tag (leaf T.kind)) (R.state reader.old).rest
        ≡ Err e.kind) }
{
    let header = reader.read_header_of(T::tag())?;
    decode_leaf(alloc, reader, header)
}
