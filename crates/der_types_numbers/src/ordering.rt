//! Comparison of contents.

ghost use Rattle.der_types_numbers.specs.NumberOrders.{integer_order, natural_order};

use crate::fewest::lead_of;
use crate::int::Int;
use crate::int_ref::IntRef;
use crate::uint::Uint;
use crate::uint_ref::UintRef;
use der_core::making::{value_cmp_behind, value_cmp_by_contents};
use der_core::{Error, OrdIsValueOrd, ValueOrd};
use std::cmp::Ordering;

impl<'a> OrdIsValueOrd for IntRef<'a> {
    ghost use Rattle.der_types_numbers.specs.Ints.{integer_lent};

    ghost order = { λ v w. integer_order (integer_lent v) (integer_lent w) };
}

/// Compares the contents, two's complement in the fewest bytes (X.690 8.3), as lists of bytes. For
/// example, 128 (`00 80`) is less than 127 (`7F`).
impl ValueOrd for Int {
    #[tactic(auto, using(der_core::proofs::OrderLaws::leaf_contents))]
    fn value_cmp(&self, other: &Self) -> Result<Ordering, Error> {
        Ok(value_cmp_by_contents(self.as_bytes(), other.as_bytes()))
    }
}

impl OrdIsValueOrd for Int {
    ghost order = { integer_order };
}

/// Compares the contents, which are the digits, after a zero if their first bit is one (X.690 8.3).
impl<'a> ValueOrd for UintRef<'a> {
    #[tactic(auto, using(der_core::proofs::OrderLaws::leaf_contents))]
    fn value_cmp(&self, other: &Self) -> Result<Ordering, Error> {
        Ok(value_cmp_behind(
            lead_of(self.as_bytes()),
            self.as_bytes(),
            lead_of(other.as_bytes()),
            other.as_bytes(),
        ))
    }
}

impl<'a> OrdIsValueOrd for UintRef<'a> {
    ghost use Rattle.der_types_numbers.specs.Ints.{natural_lent};

    ghost order = { λ v w. natural_order (natural_lent v) (natural_lent w) };
}

impl OrdIsValueOrd for Uint {
    ghost order = { natural_order };
}
