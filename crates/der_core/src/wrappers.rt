//! Comparison of types of one field.

use crate::order::{OrderWay, ValueOrd};
use der_core_coding::core_head::Error;
use der_core_coding::core_values::describing::{AsField, Wraps};
use der_core_coding::core_values::{ApartValue, EncodeValue};
use std::cmp::Ordering;

/// Compares the contents of the fields.
impl<F: EncodeValue + ApartValue + ValueOrd, T: Wraps<F>> OrderWay<T> for AsField<F> {
    fn cmp_by(value: &T, other: &T) -> Result<Ordering, Error> {
        value.inner().value_cmp(other.inner())
    }
}
