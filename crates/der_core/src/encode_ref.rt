//! Comparison of values through references.

use crate::order::{DerOrd, FirstTag, ValueOrd};
use der_core_coding::core_head::{Error, Tag};
use der_core_coding::{EncodeRef, EncodeValueRef};
use std::cmp::Ordering;

/// Compares the contents of the values.
impl<'a, T: ValueOrd> ValueOrd for EncodeValueRef<'a, T> {
    fn value_cmp(&self, other: &Self) -> Result<Ordering, Error> {
        self.0.value_cmp(other.0)
    }
}

/// The first tag and the order are those of the value.
impl<'a, T: DerOrd> DerOrd for EncodeRef<'a, T> {
    fn der_cmp(&self, other: &Self) -> Result<Ordering, Error> {
        self.0.der_cmp(other.0)
    }
}

impl<'a, T: FirstTag> FirstTag for EncodeRef<'a, T> {
    fn first_tag(&self) -> Option<Tag> {
        self.0.first_tag()
    }
}
