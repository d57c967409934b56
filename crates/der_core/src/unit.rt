//! Comparison of NULL values.

ghost use Rattle.std.specs.Prelude.{Ok};
ghost use Rattle.der_core.specs.OrdLaws.{null_order};

use crate::by_ord::OrdIsValueOrd;
use crate::order::ValueOrd;
use der_core_coding::core_head::Error;
use std::cmp::Ordering;

/// All values have the same content, which is empty.
impl ValueOrd for () {
    #[tactic(auto, using(crate::proofs::OrderLaws::null_contents))]
    fn value_cmp(&self, _other: &Self) -> Result<Ordering, Error> {
        Ok(Ordering::Equal)
    }
}

impl OrdIsValueOrd for () {
    ghost order = { null_order };
}
