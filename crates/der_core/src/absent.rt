//! Comparison of fields without bytes.

use crate::order::{DerOrd, FirstTag};
use der_core_coding::core_head::{Error, Tag};
use std::cmp::Ordering;
use std::marker::PhantomData;

/// All values have the same encoding, which is empty.
impl<T> DerOrd for PhantomData<T> {
    #[tactic(auto, unfolding(crate::specs::Opened::octets_of))]
    fn der_cmp(&self, _other: &Self) -> Result<Ordering, Error> {
        Ok(Ordering::Equal)
    }
}

impl<T> FirstTag for PhantomData<T> {
    #[tactic(auto, unfolding(crate::specs::Opened::octets_of))]
    fn first_tag(&self) -> Option<Tag> {
        None
    }
}
