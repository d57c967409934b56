//! Impls that state that sets are in range if their members are.

use crate::set_of::SetOf;
use crate::set_of_vec::SetOfVec;
use der_core::making::list_in_range;
use der_core::{InRange, InRangeValue};

impl<T: InRange, const N: usize> InRangeValue for SetOf<T, N> {
    #[tactic(auto, using(crate::proofs::AscendingSteps::length_plain_list))]
    fn value_in_range(&self) {
        list_in_range(self.members.as_slice());
    }
}

impl<T: InRange> InRangeValue for SetOfVec<T> {
    fn value_in_range(&self) {
        list_in_range(self.as_slice());
    }
}
