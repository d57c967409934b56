//! Peeking at the next tag.

ghost use Rattle.der_core_head.specs.Grammar.{peek_at};
ghost use Rattle.der_core_head.specs.Reading.{Peeks};
ghost use Rattle.der_core_head.specs.Fronts.{matches_at};

use crate::reader::Reader;
use der_core_head::{Class, Error, TagNumber};

/// Returns whether the next tag has this class and this number, or `false` if no bytes are left.
///
/// # Errors
///
/// The errors of `peek_tag`.
pub fn peek_matches<'a, R: Reader<'a>>(
    reader: &R,
    class: Class,
    number: TagNumber,
) -> Result<bool, Error>
    ensures { Peeks (λ b. b) (R.state reader.now) result
        (matches_at class number.value
        (peek_at (R.state reader.now).source.encoding (R.state reader.now).rest)) }
{
    let Some(tag) = reader.peek_tag_or_end()? else {
        return Ok(false);
    };
    Ok(tag.class() == class && tag.number().value == number.value)
}
