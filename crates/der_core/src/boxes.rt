//! Comparison of values in a box.

use crate::order::ValueOrd;
use der_core_coding::core_head::Error;
use std::cmp::Ordering;

impl<T: ValueOrd> ValueOrd for Box<T> {
    fn value_cmp(&self, other: &Self) -> Result<Ordering, Error> {
        (**self).value_cmp(&**other)
    }
}
