//! Impls that state that values of any type are in range: the tag number fits, and the content
//! consists of bytes.

use crate::any::Any;
use crate::any_ref::AnyRef;
use der_types_text::der::InRange;
use der_types_text::der::making::{number_of, octets_in_range};

impl<'a> InRange for AnyRef<'a> {
    fn in_range(&self) {
        // `number_of` returns a `u32`, so the tag number fits 32 bits.
        let _number = number_of(self.tag());
        octets_in_range(self.value());
    }
}

impl InRange for Any {
    fn in_range(&self) {
        // As for a borrowed value.
        let _number = number_of(self.tag());
        octets_in_range(self.value());
    }
}
