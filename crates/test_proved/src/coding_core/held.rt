//! Owned bytes and texts.

use der_core::{BytesOwned, BytesRef, Error, StringOwned, StringRef};
use std::alloc::{AllocError, Global};
use std::cmp::Ordering::Less;
use std::fmt::Debug;
use std::hash::{DefaultHasher, Hash, Hasher};
use std::test::Fail;

/// Returns the hash of a value.
fn hash_of<T: Hash>(value: &T) -> u64 {
    let mut state = DefaultHasher::new();
    value.hash(&mut state);
    state.finish()
}

/// Returns whether the `Debug` output of a value is this text.
fn is_shown<T: Debug>(alloc: Global, value: &T, text: &str) -> Result<bool, AllocError> {
    Ok(format!(in alloc; "{value:?}")?.as_str() == text)
}

/// Returns whether a value is less than another one, and isn't equal to it.
fn is_less<T: Ord>(value: &T, greater: &T) -> bool {
    *value != *greater && value.cmp(greater) == Less
}

/// Returns whether owned bytes equal their copy, and borrowed ones have the same hash.
fn are_octets(alloc: Global, octets: &BytesOwned) -> Result<bool, Error> {
    let same = octets.clone(alloc)? == *octets;
    Ok(same && hash_of(octets) == hash_of(&BytesRef::new(octets.as_slice())?))
}

#[test]
fn held_octets(rt: HostRuntime) -> Result<(), Fail> {
    let alloc = rt.alloc();
    let octets = BytesOwned::new([1, 2].to_vec(alloc)?)?;
    assert!(rt; are_octets(alloc, &octets)?);
    assert!(rt; is_less(&octets, &BytesOwned::new([1, 2, 0].to_vec(alloc)?)?));
    assert!(rt; is_shown(alloc, &octets, "BytesOwned { bytes: [1, 2] }")?);
    assert!(rt; octets.into_vec().as_slice() == [1, 2].as_slice());
    Ok(())
}

/// Returns whether an owned text equals its copy, and a borrowed one has the same hash.
fn is_text(alloc: Global, text: &StringOwned) -> Result<bool, Error> {
    let same = text.clone(alloc)? == *text;
    Ok(same && hash_of(text) == hash_of(&StringRef::new(text.as_str())?))
}

#[test]
fn held_texts(rt: HostRuntime) -> Result<(), Fail> {
    let alloc = rt.alloc();
    let text = StringOwned::from_bytes(alloc, b"ab")?;
    assert!(rt; is_text(alloc, &text)?);
    assert!(rt; is_less(&text, &StringOwned::from_bytes(alloc, b"abc")?));
    assert!(rt; is_shown(alloc, &text, "StringOwned { text: \"ab\" }")?);
    assert!(rt; text.into_string().as_str() == "ab");
    Ok(())
}
