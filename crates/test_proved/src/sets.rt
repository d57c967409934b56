//! Sets and lists of bounded capacity: states after errors, and iterators.
//!
//! A test calls functions that borrow its values, so that a value that needs to be dropped is owned
//! by a function that rarely returns early. The test vectors `again`, `copy` and `member` of
//! `test_der_rows` run out of memory: `tests/rows/memory.py` lets each of their allocations fail,
//! one after another.

use der_core::{Decode, Encode, EncodeValue, Error, ErrorKind, FromDer, Member, SliceReader};
use der_types::{SequenceOf, SetOf, SetOfRef, SetOfVec};
use std::alloc::Global;
use std::cmp::Ordering;
use std::convert::AsSlice;
use std::hash::{DefaultHasher, Hash, Hasher};
use std::test::Fail;

/// Returns whether a result is an error of this kind.
fn is_refused<T: Drop>(answer: Result<T, Error>, kind: ErrorKind) -> bool {
    match answer {
        Ok(_) => false,
        Err(error) => error.kind == kind,
    }
}

/// Returns the hash of a value.
fn hash_of<T: Hash>(value: &T) -> u64 {
    let mut state = DefaultHasher::new();
    value.hash(&mut state);
    state.finish()
}

/// Returns a set that borrows the bytes of its encoding.
fn lent<'a, T: Decode<'a, SliceReader<'a>> + Member>(
    alloc: Global,
    octets: &'a [u8],
) -> Result<SetOfRef<'a, T>, Error> {
    SetOfRef::from_der(alloc, octets)
}

/// A list with a capacity of two.
type Few = SequenceOf<u8, 2>;

/// Returns whether a list accepts 7 and 5, and doesn't change when `add` fails.
fn is_filled(list: &mut Few) -> Result<bool, Error> {
    let was_empty = list.is_empty();
    list.add(7)?;
    list.add(5)?;
    let refused = is_refused(list.add(6), ErrorKind::Overlength);
    let members = list.get(1).copied() == Some(5) && list.get(2).is_none();
    Ok(was_empty && refused && members && list.len() == 2)
}

/// Returns whether a list equals its copy, and no longer does after it is reversed.
fn is_turned(list: &mut Few) -> Result<bool, Error> {
    let copy = list.clone()?;
    let same = *list == copy && hash_of(list) == hash_of(&copy);
    list.as_mut_slice().reverse();
    Ok(same && *list != copy && hash_of(list) != hash_of(&copy))
}

/// Returns whether the iterator of a list yields 5 and 7.
fn gives_members(list: &Few) -> bool {
    let mut members = list.iter();
    let first = members.next().copied();
    let left = members.size_hint();
    let second = members.next().copied();
    let ended = members.next().is_none() && members.len() == 0;
    first == Some(5) && left == (1, Some(1)) && second == Some(7) && ended
}

#[test]
fn lists(rt: HostRuntime) -> Result<(), Fail> {
    let mut list = Few::default();
    assert!(rt; is_filled(&mut list)?);
    assert!(rt; is_turned(&mut list)?);
    assert!(rt; gives_members(&list));
    assert!(rt; AsSlice::as_slice(&list) == list.as_slice());
    assert!(rt; list.into_inner().as_slice() == [5, 7].as_slice());
    Ok(())
}

/// Returns whether a set accepts members in any order, and doesn't change when one is rejected. 200
/// has two bytes of content, so it comes after 5.
fn is_extended(set: &mut SetOfVec<u8>) -> Result<bool, Error> {
    let was_empty = set.is_empty();
    set.extend([5, 200])?;
    set.extend([5, 1])?;
    let refused = is_refused(set.insert_ordered(5), ErrorKind::SetOrdering);
    let members = set.as_slice() == [1, 5, 5, 200].as_slice();
    set.insert_ordered(201)?;
    let last = set.get(4).copied() == Some(201) && set.get(5).is_none();
    Ok(was_empty && refused && members && last && set.len() == 5)
}

/// Returns whether two sets are equal, by each comparison.
fn are_same(set: &SetOfVec<u8>, same: &SetOfVec<u8>) -> bool {
    let order = set.partial_cmp(same) == Some(Ordering::Equal);
    set == same && order && AsSlice::as_slice(set) == same.as_slice()
}

#[test]
fn sets(rt: HostRuntime) -> Result<(), Fail> {
    let alloc = rt.alloc();
    let mut set = SetOfVec::<u8>::default(alloc);
    assert!(rt; is_extended(&mut set)?);
    let same = SetOfVec::from_iter(alloc, set.clone(alloc)?.into_vec())?;
    assert!(rt; are_same(&set, &same));
    Ok(())
}

/// A set with a capacity of three.
type Three = SetOf<u8, 3>;

/// Returns whether a set of bounded capacity accepts 5, 1 and 5, and doesn't change when members
/// are rejected.
fn is_inserted(set: &mut Three) -> Result<bool, Error> {
    let was_empty = set.is_empty();
    set.insert(5)?;
    set.insert(1)?;
    let falls = is_refused(set.insert_ordered(4), ErrorKind::SetOrdering);
    set.insert_ordered(5)?;
    let full = is_refused(set.insert(9), ErrorKind::Overlength);
    let full_behind = is_refused(set.insert_ordered(9), ErrorKind::Overlength);
    let first = set.get(0).copied() == Some(1);
    Ok(was_empty && falls && full && full_behind && first && set.len() == 3)
}

/// Returns whether the iterator of a set yields 1, and has two more members.
fn gives_first(set: &Three) -> bool {
    let mut members = set.iter();
    members.next().copied() == Some(1) && members.size_hint() == (2, Some(2))
}

/// Returns whether a set equals the set made of its members, and its copy.
fn is_same(set: &Three) -> Result<bool, Error> {
    let same = SetOf::try_from([5, 1, 5])?;
    let order = set.partial_cmp(&same) == Some(Ordering::Equal);
    Ok(same == *set && order && same.clone()? == *set)
}

#[test]
fn sets_of_bounded_room(rt: HostRuntime) -> Result<(), Fail> {
    let mut set = Three::default();
    assert!(rt; is_inserted(&mut set)?);
    assert!(rt; gives_first(&set));
    assert!(rt; is_same(&set)?);
    assert!(rt; AsSlice::as_slice(&set) == set.as_slice());
    assert!(rt; set.into_inner().as_slice() == [1, 5, 5].as_slice());
    Ok(())
}

/// Returns whether the iterator of a borrowed set yields these numbers, and no more.
fn gives(alloc: Global, set: &SetOfRef<'_, u8>, numbers: &[u8]) -> Result<bool, Error> {
    let mut members = set.iter(alloc);
    let mut are_these = members.size_hint() == (numbers.len(), Some(numbers.len()));
    for number in numbers {
        are_these = are_these && members.next() == Some(Ok(*number));
    }
    Ok(are_these && members.next().is_none() && members.len() == 0)
}

/// Returns whether a borrowed set has 1, 1 and 2, because equal members are kept.
fn has_three(alloc: Global, set: &SetOfRef<'_, u8>) -> Result<bool, Error> {
    let lens = set.len() == 3 && set.value_len()?.value == 9 && set.encoded_len()?.value == 11;
    let last = set.get(alloc, 2)? == Some(2) && set.get(alloc, 3)?.is_none();
    Ok(lens && last && gives(alloc, set, &[1, 1, 2])?)
}

/// A set that borrows bytes, and one that borrows values.
#[test]
fn borrowed_sets(rt: HostRuntime) -> Result<(), Fail> {
    let alloc = rt.alloc();
    let octets = lent::<u8>(alloc, b"\x31\x09\x02\x01\x01\x02\x01\x01\x02\x01\x02")?;
    let owned = octets.ref_to_owned(alloc)?;
    assert!(rt; owned.as_slice() == [1, 1, 2].as_slice());
    assert!(rt; has_three(alloc, &octets.clone()?)?);
    assert!(rt; has_three(alloc, &owned.owned_to_ref())?);
    assert!(rt; SetOfRef::from(&octets).ref_to_owned(alloc)? == owned);
    Ok(())
}

/// The first member of an empty borrowed set, and of a borrowed set of bounded capacity.
#[test]
fn members_of_borrowed_sets(rt: HostRuntime) -> Result<(), Fail> {
    let alloc = rt.alloc();
    assert!(rt; lent::<u8>(alloc, b"\x31\x00")?.is_empty());
    let few = SetOf::<u8, 2>::try_from([9, 8])?;
    assert!(rt; few.owned_to_ref().get(alloc, 0)? == Some(8));
    Ok(())
}
