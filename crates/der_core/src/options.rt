//! Comparison of optional values.

ghost use Rattle.std.specs.Prelude.{Ok};
ghost use Rattle.der_core_coding.specs.CoreHead.Shapes.{IsValid, octets_of};

use crate::order::{DerOrd, FirstTag};
use der_core_coding::core_head::{Error, Tag};
use std::cmp::Ordering;

/// `None`, whose encoding is empty, is less than any value with an encoding.
impl<T: DerOrd> DerOrd for Option<T> {
    #[tactic(auto, using(crate::proofs::ShapeOrders::option_orders))]
    fn der_cmp(&self, other: &Self) -> Result<Ordering, Error> {
        match (self, other) {
            (Some(value), Some(other)) => value.der_cmp(other),
            (Some(_), None) => Ok(Ordering::Greater),
            (None, Some(_)) => Ok(Ordering::Less),
            (None, None) => Ok(Ordering::Equal),
        }
    }
}

impl<T: FirstTag> FirstTag for Option<T> {
    #[tactic(auto, unfolding(crate::specs::Opened::octets_of, crate::specs::Opened::IsValid))]
    fn first_tag(&self) -> Option<Tag> {
        self.as_ref()?.first_tag()
    }
}
