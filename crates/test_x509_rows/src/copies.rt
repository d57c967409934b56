//! Copies of values, and values whose fields are exchanged.

use crate::refusals::Refusal;
use crate::shown::{joined, written};
use der_core::{Encode, Error};
use std::alloc::{AllocError, Global};
use std::mem;

/// Returns the encoding of a copy of a value, if the copy is equal to the value.
pub fn copied<T: Encode + PartialEq + Drop, C: FnOnce(&T, Global) -> Result<T, AllocError>>(
    alloc: Global,
    value: Result<T, Error>,
    copy: C,
) -> Result<String, Refusal>
    requires { C.IsAlwaysCallable copy }
{
    let value = value?;
    let copy = copy(&value, alloc)?;
    if copy != value {
        return Err(Refusal::Unread);
    }
    written(alloc, &copy)
}

/// Exchanges the fields of two values and returns their encodings.
pub fn exchanged<T: Encode + AsMut<F> + Drop, F>(
    alloc: Global,
    first: T,
    second: T,
) -> Result<String, Refusal> {
    let mut first = first;
    let mut second = second;
    mem::swap(first.as_mut(), second.as_mut());
    joined(written(alloc, &first), " ", written(alloc, &second))
}
