//! Comparison of fields with a default value.

use crate::order::{DerOrd, FirstTag};
use der_core_coding::core_head::{Error, Tag};
use der_core_coding::{DefaultValue, WithDefault};
use std::cmp::Ordering;

/// The encoding of the default is empty, which is less than any other encoding (X.690 11.5).
impl<T: DerOrd + DefaultValue> DerOrd for WithDefault<T> {
    fn der_cmp(&self, other: &Self) -> Result<Ordering, Error> {
        match (self.value.is_default(), other.value.is_default()) {
            (false, false) => self.value.der_cmp(&other.value),
            (false, true) => Ok(Ordering::Greater),
            (true, false) => Ok(Ordering::Less),
            (true, true) => Ok(Ordering::Equal),
        }
    }
}

impl<T: FirstTag + DefaultValue> FirstTag for WithDefault<T> {
    fn first_tag(&self) -> Option<Tag> {
        if self.value.is_default() {
            None
        } else {
            self.value.first_tag()
        }
    }
}
