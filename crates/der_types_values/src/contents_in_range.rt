//! Impls that state that values are in range: contents are bytes, unused bits are zero, and set
//! bits have names.

use crate::bit_string::BitString;
use crate::bit_string_ref::{AsBitStringRef, BitStringRef};
use crate::flag_set::{FlagSet, NamedBits};
use crate::null::Null;
use der_core::InRangeValue;
use der_core::making::octets_in_range;

impl<'a> InRangeValue for BitStringRef<'a> {
    fn value_in_range(&self) {
        octets_in_range(self.raw_bytes());
    }
}

impl InRangeValue for BitString {
    fn value_in_range(&self) {
        self.as_bit_string_ref().value_in_range();
    }
}

impl<F: NamedBits> InRangeValue for FlagSet<F> {
    fn value_in_range(&self) {
        let _set = *self;
    }
}

impl InRangeValue for Null {
    fn value_in_range(&self) {}
}
