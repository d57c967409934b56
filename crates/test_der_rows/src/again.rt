//! Calls that are repeated after memory runs out. The value that such a call would change must be
//! as before.

use crate::lists::list_of;
use crate::refusals::Refusal;
use crate::shown::written;
use crate::small::Small;
use der_core::{Error, ErrorKind};
use der_types::SetOfVec;
use std::alloc::Global;

/// Returns the encoding of the set of these members, which is filled with the calls that the word
/// names.
pub fn answer(alloc: Global, word: &str, octets: &[u8]) -> Result<String, Refusal> {
    let members: Vec<Small> = list_of(alloc, octets)?;
    let members = members.as_slice();
    match word {
        "insert" | "append" => set_written(alloc, placed(alloc, word, members)),
        "extend" => set_written(alloc, extended(alloc, members)),
        _ => Err(Refusal::Unread),
    }
}

/// Returns the encoding of a set.
fn set_written(
    alloc: Global,
    outcome: Result<SetOfVec<Small>, Refusal>,
) -> Result<String, Refusal> {
    written(alloc, &outcome?)
}

/// Returns whether a call failed because memory ran out.
fn found_no_memory(outcome: Result<(), Error>) -> Result<bool, Refusal> {
    match outcome {
        Ok(()) => Ok(false),
        Err(error) => match error.kind {
            ErrorKind::OutOfMemory => Ok(true),
            _ => Err(Refusal::Der(error)),
        },
    }
}

/// Adds a member with the call that the word names.
fn place(set: &mut SetOfVec<Small>, word: &str, member: Small) -> Result<(), Error> {
    if word == "insert" {
        set.insert(member)
    } else {
        set.insert_ordered(member)
    }
}

/// Returns the set to which the members are added one at a time.
fn placed(alloc: Global, word: &str, members: &[Small]) -> Result<SetOfVec<Small>, Refusal> {
    let mut set = SetOfVec::new(alloc);
    for member in members {
        place_again(alloc, &mut set, word, *member)?;
    }
    Ok(set)
}

/// Adds a member, with a second call if memory runs out in the first.
fn place_again(
    alloc: Global,
    set: &mut SetOfVec<Small>,
    word: &str,
    member: Small,
) -> Result<(), Refusal> {
    let before = set.as_slice().to_vec(alloc)?;
    if !found_no_memory(place(set, word, member))? {
        return Ok(());
    }
    if set.as_slice() != before.as_slice() {
        return Err(Refusal::Changed);
    }
    Ok(place(set, word, member)?)
}

/// Returns a set that is extended by the members. If memory runs out, it is extended again by those
/// that weren't added.
fn extended(alloc: Global, members: &[Small]) -> Result<SetOfVec<Small>, Refusal> {
    let mut set = SetOfVec::new(alloc);
    if found_no_memory(set.extend(members.iter().copied()))? {
        let placed = set.len().min(members.len());
        if !is_of(alloc, &set, &members[..placed])? {
            return Err(Refusal::Changed);
        }
        set.extend(members[placed..].iter().copied())?;
    }
    Ok(set)
}

/// Returns whether a set has these members and no others.
fn is_of(alloc: Global, set: &SetOfVec<Small>, members: &[Small]) -> Result<bool, Refusal> {
    let same = SetOfVec::from_vec(members.to_vec(alloc)?)?;
    Ok(set.as_slice() == same.as_slice())
}
