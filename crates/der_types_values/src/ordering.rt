//! Comparison of contents.

ghost use Rattle.der_core.specs.Leaves.{octets};
ghost use Rattle.der_core.specs.OrdLaws.{octets_order, null_order};
ghost use Rattle.der_types_values.specs.OctetStrings.{octets_lent};
ghost use Rattle.der_types_values.specs.Sequences.{fields_lent};

use crate::bit_string::BitString;
use crate::bit_string_ref::BitStringRef;
use crate::null::Null;
use crate::octet_string::OctetString;
use crate::octet_string_ref::OctetStringRef;
use crate::sequence_ref::SequenceRef;
use der_core::making::value_cmp_behind;
use der_core::{Error, OrdIsValueOrd, ValueOrd};
use std::cmp::Ordering;

impl<'a> OrdIsValueOrd for OctetStringRef<'a> {
    ghost order = { λ v w. octets_order octets (octets_lent v) (octets_lent w) };
}

impl OrdIsValueOrd for OctetString {
    ghost order = { octets_order octets };
}

/// All values have the same content, which is empty.
impl ValueOrd for Null {
    #[tactic(auto, using(der_core::proofs::OrderLaws::null_contents))]
    fn value_cmp(&self, _other: &Self) -> Result<Ordering, Error> {
        Ok(Ordering::Equal)
    }
}

impl OrdIsValueOrd for Null {
    ghost order = { λ _ _. null_order tt tt };
}

impl<'a> OrdIsValueOrd for SequenceRef<'a> {
    ghost order = { λ v w. octets_order octets (fields_lent v) (fields_lent w) };
}

/// Compares the numbers of unused bits, and then the bytes (X.690 8.6.2).
impl<'a> ValueOrd for BitStringRef<'a> {
    #[tactic(auto, using(der_core::proofs::OrderLaws::leaf_contents))]
    fn value_cmp(&self, other: &Self) -> Result<Ordering, Error> {
        Ok(value_cmp_behind(
            Some(self.unused_bits()),
            self.raw_bytes(),
            Some(other.unused_bits()),
            other.raw_bytes(),
        ))
    }
}

/// Compares the numbers of unused bits, and then the bytes (X.690 8.6.2).
impl ValueOrd for BitString {
    fn value_cmp(&self, other: &Self) -> Result<Ordering, Error> {
        self.owned_to_ref().value_cmp(&other.owned_to_ref())
    }
}
