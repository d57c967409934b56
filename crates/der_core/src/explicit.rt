//! Comparison of values with explicit tags.

use crate::order::{DerOrd, ValueOrd};
use der_core_coding::Explicit;
use der_core_coding::core_head::Error;
use std::cmp::Ordering;

/// The content is the whole encoding of the value (X.690 8.14.2).
impl<T: DerOrd, const N: u32> ValueOrd for Explicit<T, N> {
    #[tactic(auto, unfolding(crate::specs::Opened::contents, crate::specs::Opened::IsContent, crate::specs::Opened::body_octets, crate::specs::Opened::IsBody))]
    fn value_cmp(&self, other: &Self) -> Result<Ordering, Error> {
        self.value.der_cmp(&other.value)
    }
}
