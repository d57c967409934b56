//! Checking that the members of a content are in ascending order.

ghost use Rattle.std.specs.Prelude.{◌≤◌, IfOk, IfErr};
ghost use Rattle.der_core.specs.Limits.{levels_max};
ghost use Rattle.der_core.specs.Heads.{Fits};
ghost use Rattle.der_core.specs.Shapes.{not_below, ascending};
ghost use Rattle.der_core.specs.Grammar.{follows_last, read_body};
ghost use Rattle.der_core.specs.Reading.{Fails, GivesNow};
ghost use Rattle.der_core.specs.OctetsFronts.{octets_at};
ghost use Rattle.der_types_sets.specs.Ascending.{IsCount};

use der_core::making::decode_sliced;
use der_core::{Decode, Error, ErrorKind, Length, Member, Reader, SliceReader};
use std::alloc::Global;
use std::cmp::Ordering;

/// Checks that an encoding may follow the one before it. `place` is the position for an error.
///
/// # Errors
///
/// - `SetOrdering`: the encoding is less than the one before it.
fn check_behind(last: Option<&[u8]>, octets: &[u8], place: Length) -> Result<(), Error>
    ensures { GivesNow (λ x. x) result (follows_last not_below (octets_at last.entry) octets.now) }
{
    let Some(last) = last else {
        return Ok(());
    };
    match last.cmp(octets) {
        Ordering::Less | Ordering::Equal => Ok(()),
        Ordering::Greater => Err(ErrorKind::SetOrdering.at(place)),
    }
}

/// Decodes the members of a content under DER, and returns their number. No encoding may be less
/// than the one before it. `levels` is the number of levels that may be opened in them.
///
/// # Errors
///
/// - The first error of a member.
/// - `SetOrdering`: an encoding is less than the one before it.
/// - `OutOfMemory`: memory runs out.
pub(crate) fn count_ascending<'a, T: Decode<'a, SliceReader<'a>> + Member>(
    alloc: Global,
    octets: &'a [u8],
    levels: usize,
) -> Result<usize, Error>
    requires short { Fits octets.now }
    requires levels { levels ≤ levels_max }
    ensures read { IfOk result (IsCount (read_body (ascending T.shape) levels octets.now)) }
    ensures refused { IfErr result
        (λ e. Fails e.kind (read_body (ascending T.shape) levels octets.now)) }
{
    let mut reader = SliceReader::new_with_levels(octets, levels)?;
    let mut last = None;
    for count in 0..octets.len() {
        if reader.is_finished() {
            return Ok(count);
        }
        let place = reader.position();
        let (_value, encoding) = decode_sliced::<SliceReader, T>(alloc, &mut reader)?;
        check_behind(last, encoding, place)?;
        last = Some(encoding);
    }
    if reader.is_finished() {
        Ok(octets.len())
    } else {
        Err(Error::from(ErrorKind::TrailingData))
    }
}
