//! Comparison of the encodings of values with bytes.

ghost use Rattle.std.specs.Prelude.{◌≡◌, Ok, Err, IfErr};
ghost use Rattle.der_core.specs.Shapes.{many, IsBody, body_octets};
ghost use Rattle.der_core.specs.Grammar.{plain_list};
ghost use Rattle.der_core.specs.Reading.{Gives};
ghost use Rattle.der_core.specs.Orders.{octets_cmp};
ghost use Rattle.der_types_sets.specs.Lent.{IsUnwritten};

use der_core::{Encode, Error, ToDer};
use std::alloc::Global;
use std::cmp::Ordering;

/// Compares the concatenated encodings of values with bytes. Only one encoding at a time is in
/// memory.
///
/// # Errors
///
/// - `Overflow`: an encoding has 2^32 bytes or more.
/// - `SetOrdering`, `SetDuplicate`: a strict set in a value isn't in ascending order.
/// - `OutOfMemory`: memory runs out.
pub(crate) fn joined_cmp<T: Encode>(
    alloc: Global,
    values: &[T],
    octets: &[u8],
) -> Result<Ordering, Error>
    // If all values are valid, there is a result, unless memory runs out.
    ensures order { IsBody (many T.shape) (plain_list T.written values.now)
        → Gives (λ o. o) result (Ok (octets_cmp
        (body_octets (many T.shape) (plain_list T.written values.now)) octets.now)) }
    ensures refused { IfErr result (IsUnwritten T.shape (plain_list T.written values.now)) }
{
    let mut left = octets;
    for value in values {
        let encoding = value.to_der(alloc)?;
        let Some(behind) = left.strip_prefix(encoding.as_slice()) else {
            return Ok(encoding.as_slice().cmp(left));
        };
        left = behind;
    }
    if left.is_empty() {
        Ok(Ordering::Equal)
    } else {
        Ok(Ordering::Less)
    }
}
