//! Copies of lists and of optional values, made with a given allocator.

ghost use Rattle.std.specs.Prelude.{◌≡◌, IfOk};
ghost use Rattle.der_core_coding.specs.CoreHead.Grammar.{plain_list, plain_option};

use der_core_coding::core_values::Shaped;
use std::alloc::{AllocError, Global};

/// Copies the members of a list with `copy`.
///
/// # Errors
///
/// - `AllocError`: memory runs out.
pub fn copies_of<T: Shaped + Drop, F: Fn(&T, Global) -> Result<T, AllocError>>(
    alloc: Global,
    members: &[T],
    copy: F,
) -> Result<Vec<T>, AllocError>
    requires called { F.IsAlwaysCallable copy }
    requires same { (x : _) (r : _) → F.post copy x alloc r
        → IfOk r (λ c. T.plain c ≡ T.plain x.now) }
    ensures { IfOk result (λ v. plain_list T.plain v.items ≡ plain_list T.plain members.now) }
{
    let mut copies = Vec::with_capacity(alloc, members.len())?;
    for member in members {
        let one = copy(member, alloc)?;
        copies.push(one)?;
    }
    Ok(copies)
}

/// Copies an optional value with `copy`.
///
/// # Errors
///
/// - `AllocError`: memory runs out.
pub fn copy_of_option<T: Shaped + Drop, F: Fn(&T, Global) -> Result<T, AllocError>>(
    alloc: Global,
    value: &Option<T>,
    copy: F,
) -> Result<Option<T>, AllocError>
    requires called { F.IsAlwaysCallable copy }
    requires same { (x : _) (r : _) → F.post copy x alloc r
        → IfOk r (λ c. T.plain c ≡ T.plain x.now) }
    ensures { IfOk result (λ v. plain_option T.plain v ≡ plain_option T.plain value.now) }
{
    match value {
        Some(value) => Ok(Some(copy(value, alloc)?)),
        None => Ok(None),
    }
}

/// Copies the members of an optional list with `copy`.
///
/// # Errors
///
/// - `AllocError`: memory runs out.
pub fn copies_of_option<T: Shaped + Drop, F: Fn(&T, Global) -> Result<T, AllocError>>(
    alloc: Global,
    members: &Option<Vec<T>>,
    copy: F,
) -> Result<Option<Vec<T>>, AllocError>
    requires called { F.IsAlwaysCallable copy }
    requires same { (x : _) (r : _) → F.post copy x alloc r
        → IfOk r (λ c. T.plain c ≡ T.plain x.now) }
    ensures { IfOk result (λ v. plain_option (λ l. plain_list T.plain l.items) v
        ≡ plain_option (λ l. plain_list T.plain l.items) members.now) }
{
    match members {
        Some(members) => Ok(Some(copies_of(alloc, members.as_slice(), copy)?)),
        None => Ok(None),
    }
}
