//! Comparison of BOOLEAN values.

ghost use Rattle.std.specs.Prelude.{true, Ok};
ghost use Rattle.der_core.specs.OrdLaws.{bool_order};

use crate::by_ord::OrdIsValueOrd;
use crate::order::ValueOrd;
use der_core_coding::core_head::Error;
use std::cmp::Ordering;

/// False, `0x00`, is below true, `0xFF` (X.690 11.1).
impl ValueOrd for bool {
    #[tactic(auto, using(crate::proofs::OrderLaws::bool_contents))]
    fn value_cmp(&self, other: &Self) -> Result<Ordering, Error> {
        Ok(self.cmp(other))
    }
}

impl OrdIsValueOrd for bool {
    ghost order = { bool_order };
}
