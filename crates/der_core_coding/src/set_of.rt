//! SET OF, whose members are in ascending order (X.690 8.12, 11.6).

ghost use Rattle.der_core_values.specs.CoreHead.Shapes.{ascending, in_order, rising};
ghost use Rattle.der_core_values.specs.CoreHead.Grammar.{plain_list, follows_last};
ghost use Rattle.der_core_values.specs.CoreHead.Reading.{Reads, IsDer, read_body_at, Gives};
ghost use Rattle.der_core_values.specs.CoreOctets.Fronts.{octets_at};
ghost use Rattle.der_core_coding.specs.Steps.{step_of};

use crate::sliced::decode_sliced;
use der_core_values::core_head::{EncodingRules, Error, ErrorKind, Length};
use der_core_values::core_octets::Reader;
use der_core_values::{Decode, Member};
use std::alloc::Global;
use std::cmp::Ordering;

/// Checks that an encoding may follow the one before it in a set. `equal` says whether equal
/// members are allowed, and `place` is the position for an error.
///
/// # Errors
///
/// - `SetDuplicate`: the encodings are equal, and equal members aren't allowed.
/// - `SetOrdering`: the encoding is less than the one before it.
fn check_follows(
    last: Option<&[u8]>,
    octets: &[u8],
    equal: bool,
    place: Length,
) -> Result<(), Error>
    ensures { Gives (λ x. x) result
        (follows_last (step_of equal) (octets_at last.entry) octets.now) }
{
    let Some(last) = last else {
        return Ok(());
    };
    match last.cmp(octets) {
        Ordering::Less => Ok(()),
        Ordering::Equal => {
            if equal {
                Ok(())
            } else {
                Err(ErrorKind::SetDuplicate.at(place))
            }
        }
        Ordering::Greater => Err(ErrorKind::SetOrdering.at(place)),
    }
}

/// Decodes values up to the end, under DER. No encoding may be less than the one before it, or
/// equal to it unless equal members are allowed.
///
/// # Errors
///
/// The errors of `read_rising`.
fn read_members_by_der<'a, R: Reader<'a>, T: Decode<'a, R> + Member>(
    alloc: Global,
    reader: &mut R,
    equal: bool,
) -> Result<Vec<T>, Error>
    requires { IsDer (R.state reader.old) }
    ensures { Reads (λ v. plain_list T.plain v.items) (R.state reader.old) (R.state reader.new)
        result (read_body_at (R.state reader.old) (in_order (step_of equal) T.shape)) }
{
    if reader.is_failed() {
        return Err(Error::from(ErrorKind::Failed));
    }
    // Most sets have one member, and an empty vector allocates for four when it grows.
    let mut values = match Vec::with_capacity(alloc, 1) {
        Ok(values) => values,
        Err(error) => {
            reader.fail();
            return Err(Error::from(error));
        }
    };
    let mut last = None;
    let len = reader.remaining_len().value;
    for _ in 0..len {
        if reader.is_finished() {
            break;
        }
        let place = reader.position();
        let (value, octets) = decode_sliced::<R, T>(alloc, reader)?;
        match check_follows(last, octets, equal, place) {
            Ok(()) => {}
            Err(error) => {
                reader.fail();
                return Err(error);
            }
        }
        last = Some(octets);
        match values.push(value) {
            Ok(()) => {}
            Err(error) => {
                reader.fail();
                return Err(Error::from(error));
            }
        }
    }
    if reader.is_finished() {
        Ok(values)
    } else {
        reader.fail();
        Err(Error::from(ErrorKind::TrailingData))
    }
}

/// Decodes values up to the end. Their encodings must be in order. `equal` says whether equal
/// members are allowed.
///
/// The order is a rule of DER (X.690 11.6), so the values are decoded under DER, whatever the
/// reader's encoding rules are.
///
/// # Errors
///
/// The errors of `read_rising`.
fn read_members<'a, R: Reader<'a>, T: Decode<'a, R> + Member>(
    alloc: Global,
    reader: &mut R,
    equal: bool,
) -> Result<Vec<T>, Error>
    ensures { Reads (λ v. plain_list T.plain v.items) (R.state reader.old) (R.state reader.new)
        result (read_body_at (R.state reader.old) (in_order (step_of equal) T.shape)) }
{
    let rules = reader.encoding_rules();
    reader.set_encoding_rules(EncodingRules::Der);
    let values = read_members_by_der(alloc, reader, equal);
    reader.set_encoding_rules(rules);
    values
}

/// Decodes values up to the end, under DER. Each encoding must be greater than the one before it.
///
/// # Errors
///
/// - The first error of a value.
/// - `SetDuplicate`, `SetOrdering`: an encoding isn't greater than the one before it.
/// - `OutOfMemory`: memory runs out.
/// - `Failed`: the reader failed before.
pub fn read_rising<'a, R: Reader<'a>, T: Decode<'a, R> + Member>(
    alloc: Global,
    reader: &mut R,
) -> Result<Vec<T>, Error>
    ensures { Reads (λ v. plain_list T.plain v.items) (R.state reader.old) (R.state reader.new)
        result (read_body_at (R.state reader.old) (rising T.shape)) }
{
    read_members(alloc, reader, false)
}

/// Decodes values up to the end, under DER. No encoding may be less than the one before it.
///
/// # Errors
///
/// - The first error of a value.
/// - `SetOrdering`: an encoding is less than the one before it.
/// - `OutOfMemory`: memory runs out.
/// - `Failed`: the reader failed before.
pub fn read_ascending<'a, R: Reader<'a>, T: Decode<'a, R> + Member>(
    alloc: Global,
    reader: &mut R,
) -> Result<Vec<T>, Error>
    ensures { Reads (λ v. plain_list T.plain v.items) (R.state reader.old) (R.state reader.new)
        result (read_body_at (R.state reader.old) (ascending T.shape)) }
{
    read_members(alloc, reader, true)
}
