//! Iterators over the members of lists and sets.

use std::slice::Iter;

/// An iterator over the members of a `SequenceOf`, in order.
pub type SequenceOfIter<'a, T> = Iter<'a, T>;

/// An iterator over the members of a set, in ascending order of their encodings.
pub type SetOfIter<'a, T> = Iter<'a, T>;
