//! Comparison of values with implicit tags.

use crate::order::ValueOrd;
use der_core_coding::core_head::Error;
use der_core_coding::{Implicit, ImplicitRef};
use std::cmp::Ordering;

/// The content is that of the value (X.690 8.14.3).
impl<T: ValueOrd, const N: u32> ValueOrd for Implicit<T, N> {
    fn value_cmp(&self, other: &Self) -> Result<Ordering, Error> {
        self.value.value_cmp(&other.value)
    }
}

impl<'a, T: ValueOrd, const N: u32> ValueOrd for ImplicitRef<'a, T, N> {
    fn value_cmp(&self, other: &Self) -> Result<Ordering, Error> {
        self.value.value_cmp(other.value)
    }
}
