//! Comparison of arrays, and of fields without bytes.

use crate::lists::elements_cmp;
use crate::order::{DerOrd, ValueOrd};
use der_core_coding::core_head::Error;
use std::cmp::Ordering;

/// SEQUENCE OF with exactly `N` values (X.690 8.10).
impl<T: DerOrd, const N: usize> ValueOrd for [T; N] {
    #[tactic(auto, unfolding(crate::specs::Opened::contents, crate::specs::Opened::IsContent, crate::specs::Opened::body_octets, crate::specs::Opened::IsBody))]
    fn value_cmp(&self, other: &Self) -> Result<Ordering, Error> {
        elements_cmp(self.as_slice(), other.as_slice())
    }
}
