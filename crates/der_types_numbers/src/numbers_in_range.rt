//! Impls that state that integers are in range: the types have every integer, or every one that
//! isn't negative.

use crate::int::Int;
use crate::uint_ref::UintRef;
use der_core::InRangeValue;

impl InRangeValue for Int {
    fn value_in_range(&self) {}
}

impl<'a> InRangeValue for UintRef<'a> {
    fn value_in_range(&self) {}
}
