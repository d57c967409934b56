//! Sorting members by way of their indexes, so that no member moves before the order of all is
//! known.

ghost use Rattle.std.specs.Prelude.{◌≡◌, ℕ, ◌≤◌, ◌<◌, ◌+◌, List, [], ◌++◌, IsTrue, not, length};
ghost use Rattle.std.specs.Prelude.{map, take, Some, IfSome, IfOk, IfErr, OnOk, OnErr, ⊤};
ghost use Rattle.std.specs.Prelude.{IsPermutation, vec_len, vec_capacity};
ghost use Rattle.std.specs.List.{range_with_len};
ghost use Rattle.der_core.specs.Shapes.{IsValid};
ghost use Rattle.der_core.specs.Orders.{octets_cmp, encodings_cmp};
ghost use Rattle.der_core.specs.Placed.{AllValid};
ghost use Rattle.der_types_sets.specs.Sets.{Ascends, IsArranged, StopsBehind};
ghost use Rattle.der_types_sets.specs.Rearranged.{member_at, members_at, AscendsAt};
ghost use Rattle.der_types_sets.specs.Rearranged.{member_encoding, KeepsPlaces};

use crate::places::{arrange_from, check_ascending};
use der_core::{DerOrd, Error, Member};
use std::alloc::{AllocError, Global};
use std::cmp::Ordering;
use std::mem;

/// Compares the encodings of two members, if both are valid.
fn order_of<T: DerOrd + Member>(member: &T, other: &T) -> Ordering
    ensures { IsValid T.shape (T.written member.now) → IsValid T.shape (T.written other.now)
        → result ≡ encodings_cmp T.shape (T.written member.now) (T.written other.now) }
{
    member.der_cmp(other).unwrap_or(Ordering::Equal)
}

/// Returns the member at an index, or another one if there are fewer members.
fn at<'m, T>(members: &'m [T], place: usize, other: &'m T) -> &'m T
    ensures { result.now ≡ member_at members.now other.now place }
{
    members.get(place).unwrap_or(other)
}

/// Compares the encodings of the members at two indexes, if they are valid. If there is no member
/// at an index, the first one is taken.
fn order_at<T: DerOrd + Member>(members: &[T], place: usize, other: usize) -> Ordering
    ensures { AllValid T.shape T.written members.now
        → result ≡ octets_cmp (member_encoding T.shape T.written members.now place)
        (member_encoding T.shape T.written members.now other) }
{
    let [first, ..] = members else {
        return Ordering::Equal;
    };
    order_of(at(members, place, first), at(members, other, first))
}

/// Returns whether no member at one of the indexes is greater than the member at the next one. If
/// two members can't be compared, it returns false.
fn ascend_at<T: DerOrd + Member>(members: &[T], places: &[usize]) -> bool
    ensures { IsTrue result → AscendsAt T.shape T.written members.now places.now
        (length places.now) }
{
    for end in 1..places.len() {
        let (Some(member), Some(next)) = (members.get(places[end - 1]), members.get(places[end]))
        else {
            return false;
        };
        match member.der_cmp(next) {
            Ok(Ordering::Less | Ordering::Equal) => {}
            Ok(Ordering::Greater) | Err(_) => return false,
        }
    }
    true
}

/// Returns the indexes from 0 to `count - 1`.
fn places(alloc: Global, count: usize) -> Result<Vec<usize>, AllocError>
    ensures { IfOk result (λ places. places.items ≡ range_with_len 0 count) }
{
    (0..count).collect::<Vec<usize>>(alloc)
}

/// Returns the indexes of members in ascending order of their encodings, in which equal members
/// keep their order. Returns `None` if memory runs out, or if members can't be compared.
fn ascending_places<T: DerOrd + Member>(alloc: Global, members: &[T]) -> Option<Vec<usize>>
    ensures same { IfSome result
        (λ places. IsPermutation (range_with_len 0 (length members.now)) places.items) }
    ensures ascend { IfSome result
        (λ places. AscendsAt T.shape T.written members.now places.items (length places.items)) }
    ensures equals { IfSome result (λ places. AllValid T.shape T.written members.now
        → KeepsPlaces T.shape T.written members.now places.items) }
{
    let mut places = places(alloc, members.len()).ok()?;
    places
        .sort_by(|place, other| order_at(members, *place, *other))
        .ok()?;
    if ascend_at(members, places.as_slice()) {
        Some(places)
    } else {
        None
    }
}

/// Moves members into options, from which they can be taken separately.
fn put_apart<T: Drop>(members: Vec<T>, apart: &mut Vec<Option<T>>)
    requires { vec_len apart.old + length members.items ≤ vec_capacity apart.old }
    ensures { apart.new.items ≡ apart.old.items ++ map (λ x. Some x) members.items }
{
    for member in members {
        apart.push_reserved(Some(member));
    }
}

/// Takes the members at these indexes, one after another.
fn take_at<T: Drop>(apart: &mut [Option<T>], places: &[usize], taken: &mut Vec<T>)
    requires places { IsPermutation (range_with_len 0 (length apart.old)) places.now }
    requires none { taken.old.items ≡ [] }
    requires room { length places.now ≤ vec_capacity taken.old }
    ensures { (xs : List T) (d : T) → apart.old ≡ map (λ x. Some x) xs → taken.new.items
        ≡ members_at xs d places.now }
{
    for count in 0..places.len() {
        // No index occurs twice, so the member is still there.
        let Some(member) = apart[places[count]].take() else {
            return;
        };
        taken.push_reserved(member);
    }
}

/// Brings members into the order of the indexes, if there is memory.
fn rearrange<T: Drop>(
    alloc: Global,
    members: &mut Vec<T>,
    places: &[usize],
) -> Result<(), AllocError>
    requires { IsPermutation (range_with_len 0 (length members.old.items)) places.now }
    ensures ok { OnOk result
        ((d : T) → members.new.items ≡ members_at members.old.items d places.now) }
    ensures err { OnErr result (members.new.items ≡ members.old.items) }
{
    let mut apart = Vec::with_capacity(alloc, members.len())?;
    let moved = Vec::with_capacity(alloc, members.len())?;
    put_apart(mem::replace(members, moved), &mut apart);
    take_at(apart.as_mut_slice(), places, members);
    Ok(())
}

/// Sorts members by their encodings, if there is memory and all can be compared. Equal members keep
/// their order. Returns false if no member was moved.
fn sort<T: DerOrd + Member + Drop>(members: &mut Vec<T>) -> bool
    requires { 0 < length members.old.items }
    ensures arranged { IsTrue result → IsArranged T.shape T.written members.old.items
        members.new.items }
    ensures ascend { IsTrue result → Ascends T.shape T.written members.new.items }
    ensures unmoved { IsTrue (not result) → members.new.items ≡ members.old.items }
{
    let alloc = *members.allocator();
    let Some(places) = ascending_places(alloc, members.as_slice()) else {
        return false;
    };
    match rearrange(alloc, members, places.as_slice()) {
        Ok(()) => true,
        Err(AllocError) => false,
    }
}

/// Brings members into ascending order, of which the first ones are already in order. Equal members
/// keep their order.
///
/// It makes O(n log n) comparisons. If there is memory for a sort, it also makes O(n log n) moves.
/// Without memory, or if members can't be compared, each member is inserted by itself.
///
/// # Errors
///
/// - `Overflow`: a member has no encoding, for example because its length exceeds 2^32 - 1. The
///   members before the rejected one are in order then, and the rejected one and those after it
///   were dropped.
pub(crate) fn arrange_behind_first<T: DerOrd + Member + Drop>(
    members: &mut Vec<T>,
    first: usize,
) -> Result<(), Error>
    requires within { first ≤ length members.old.items }
    requires ascend { Ascends T.shape T.written (take first members.old.items) }
    ensures ascend { Ascends T.shape T.written members.new.items }
    ensures arranged { OnOk result
        (IsArranged T.shape T.written members.old.items members.new.items) }
    ensures refused { IfErr result
        (λ e. (count : ℕ) × StopsBehind T.shape T.written first members.old.items
        members.new.items count e) }
{
    let Err(_) = check_ascending(members.as_slice()) else {
        return Ok(());
    };
    if sort(members) {
        return Ok(());
    }
    match arrange_from(members.as_mut_slice(), first) {
        Ok(()) => Ok(()),
        Err((count, error)) => {
            members.truncate(count);
            Err(error)
        }
    }
}
