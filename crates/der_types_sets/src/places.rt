//! Positions in a list whose members are in ascending order of their encodings.

ghost use Rattle.std.specs.Prelude.{◌≡◌, ◌⊎◌, ◌<◌, ◌≤◌, [], ◌∷◌, ◌++◌, List, length, take, IfOk};
ghost use Rattle.std.specs.Prelude.{OnOk, IfErr, insert, IsPermutation};
ghost use Rattle.der_types_sets.specs.Sets.{Ascends, IsPlace, TooLong, IsBelowLast, IsOutOfOrder};
ghost use Rattle.der_types_sets.specs.Sets.{IsArranged, StopsBehind};

use der_core::{DerOrd, Error, ErrorKind, Member};
use std::cmp::Ordering;

/// Returns the position at which an item would be inserted among members in ascending order: after
/// those that aren't greater.
///
/// # Errors
///
/// - `Overflow`: a member has no encoding, for example because its length exceeds 2^32 - 1.
pub fn place_of<T: DerOrd + Member>(members: &[T], item: &T) -> Result<usize, Error>
    ensures place { IfOk result (IsPlace T.shape T.written members.now item.now) }
    ensures refused { IfErr result (TooLong T.shape T.written (item.now ∷ members.now)) }
{
    let mut low = 0;
    let mut high = members.len();
    while low < high {
        // The last member is compared first, because most items come after it.
        let middle = if high == members.len() {
            high - 1
        } else {
            low + (high - low) / 2
        };
        match members[middle].der_cmp(item)? {
            Ordering::Greater => high = middle,
            Ordering::Less | Ordering::Equal => low = middle + 1,
        }
    }
    Ok(low)
}

/// Checks that an item may follow members in ascending order.
///
/// # Errors
///
/// - `SetOrdering`: the item is less than the last member.
/// - `Overflow`: a member has no encoding, for example because its length exceeds 2^32 - 1.
pub(crate) fn check_last<T: DerOrd + Member>(members: &[T], item: &T) -> Result<(), Error>
    ensures ok { OnOk result (IsPlace T.shape T.written members.now item.now (length members.now)) }
    ensures refused { IfErr result
        (λ e. (e.kind ≡ ErrorKind.SetOrdering × IsBelowLast T.shape T.written members.now item.now)
        ⊎ TooLong T.shape T.written (item.now ∷ members.now) e) }
{
    if members.is_empty() {
        return Ok(());
    }
    match members[members.len() - 1].der_cmp(item)? {
        Ordering::Greater => Err(Error::from(ErrorKind::SetOrdering)),
        Ordering::Less | Ordering::Equal => Ok(()),
    }
}

/// Checks that no member is less than the one before it. It doesn't allocate.
///
/// # Errors
///
/// - `SetOrdering`: a member is less than the one before it.
/// - `Overflow`: a member has no encoding, for example because its length exceeds 2^32 - 1.
pub(crate) fn check_ascending<T: DerOrd + Member>(members: &[T]) -> Result<(), Error>
    ensures ok { OnOk result (Ascends T.shape T.written members.now) }
    ensures refused { IfErr result (λ e. IsOutOfOrder T.shape T.written members.now e
        ⊎ TooLong T.shape T.written members.now e) }
{
    for end in 0..members.len() {
        check_last(&members[..end], &members[end])?;
    }
    Ok(())
}

/// Moves the last item to a position, and the items from there on up by one.
fn last_to<T>(items: &mut [T], place: usize)
    requires { place < length items.old }
    ensures { (front : List T) (last : T) → items.old ≡ front ++ last ∷ []
        → items.new ≡ insert front place last }
{
    items[place..].rotate_right(1);
}

/// Brings members into ascending order, of which the first ones are already in order. Equal members
/// keep their order. It doesn't allocate.
///
/// # Errors
///
/// - `Overflow`: a member has no encoding, for example because its length exceeds 2^32 - 1. The
///   number of members before the rejected one is returned as well. These are in order, and the
///   others haven't moved.
pub(crate) fn arrange_from<T: DerOrd + Member>(
    members: &mut [T],
    first: usize,
) -> Result<(), (usize, Error)>
    requires within { first ≤ length members.old }
    requires ascend { Ascends T.shape T.written (take first members.old) }
    ensures same { IsPermutation members.old members.new }
    ensures arranged { OnOk result (IsArranged T.shape T.written members.old members.new) }
    ensures ascend { OnOk result (Ascends T.shape T.written members.new) }
    ensures stopped { IfErr result (λ stop. Ascends T.shape T.written (take stop.0 members.new)) }
    ensures refused { IfErr result
        (λ stop. StopsBehind T.shape T.written first members.old (take stop.0 members.new) stop.0
        stop.1) }
{
    for end in first..members.len() {
        let shared = &members[..];
        match place_of(&shared[..end], &shared[end]) {
            Ok(place) => last_to(&mut members[..=end], place),
            Err(error) => return Err((end, error)),
        }
    }
    Ok(())
}

/// Brings members into ascending order. Equal members keep their order. It doesn't allocate.
///
/// # Errors
///
/// - `Overflow`: a member has no encoding, for example because its length exceeds 2^32 - 1.
pub(crate) fn arrange<T: DerOrd + Member>(members: &mut [T]) -> Result<(), Error>
    ensures same { IsPermutation members.old members.new }
    ensures ok { OnOk result (Ascends T.shape T.written members.new) }
    ensures refused { IfErr result (TooLong T.shape T.written members.old) }
{
    match arrange_from(members, 0) {
        Ok(()) => Ok(()),
        Err((_, error)) => Err(error),
    }
}
