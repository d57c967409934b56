//! Comparison of values whose content isn't a sequence of values.

ghost use Rattle.std.specs.Prelude.{◌≡◌};
ghost use Rattle.der_core_coding.specs.CoreHead.Integers.{integer_octets};
ghost use Rattle.der_core.specs.Orders.{octets_cmp};

use crate::order::{OrderWay, Ordered};
use der_core_coding::core_head::Error;
use der_core_coding::core_octets::{
    BytesOwned, BytesRef, StringOwned, StringRef, integer_octets_of,
};
use der_core_coding::core_values::Integer;
use der_core_coding::core_values::describing::{AsInteger, AsNumbered, AsOctets, Numbered, Octets};
use der_core_coding::oid::ObjectIdentifier;
use std::cmp::Ordering;

/// Compares the contents of two integers (X.690 8.3). This isn't the order of the numbers: 127 is
/// `7F`, 128 is `00 80`, and -1 is `FF`.
fn integer_cmp<T: Integer>(a: &T, b: &T) -> Ordering
    ensures { result ≡ octets_cmp (integer_octets (T.number a.now))
        (integer_octets (T.number b.now)) }
{
    let (negative, number) = a.sign_and_bits();
    let (octets, start) = integer_octets_of(negative, number);
    let (other_negative, other_number) = b.sign_and_bits();
    let (other_octets, other_start) = integer_octets_of(other_negative, other_number);
    octets[start..].cmp(&other_octets[other_start..])
}

impl<T: Integer> OrderWay<T> for AsInteger {
    #[tactic(auto, using(crate::proofs::OrderLaws::leaf_contents))]
    fn cmp_by(value: &T, other: &T) -> Result<Ordering, Error> {
        Ok(integer_cmp(value, other))
    }
}

impl<T: Numbered, K> OrderWay<T> for AsNumbered<K> {
    #[tactic(auto, using(crate::proofs::OrderLaws::leaf_contents))]
    fn cmp_by(value: &T, other: &T) -> Result<Ordering, Error> {
        Ok(integer_cmp(&value.to_number(), &other.to_number()))
    }
}

/// Compares the stored bytes.
impl<T: Octets> OrderWay<T> for AsOctets {
    #[tactic(auto, using(crate::proofs::OrderLaws::leaf_contents))]
    fn cmp_by(value: &T, other: &T) -> Result<Ordering, Error> {
        Ok(value.content().cmp(other.content()))
    }
}

impl Ordered for u8 {}

impl Ordered for u16 {}

impl Ordered for u32 {}

impl Ordered for u64 {}

impl Ordered for u128 {}

impl Ordered for i8 {}

impl Ordered for i16 {}

impl Ordered for i32 {}

impl Ordered for i64 {}

impl Ordered for i128 {}

impl<const MAX_SIZE: usize> Ordered for ObjectIdentifier<MAX_SIZE> {}

impl<'a> Ordered for &'a str {}

impl Ordered for String {}

impl<'a> Ordered for BytesRef<'a> {}

impl Ordered for BytesOwned {}

impl<'a> Ordered for StringRef<'a> {}

impl Ordered for StringOwned {}
