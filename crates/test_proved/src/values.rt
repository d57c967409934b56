//! Numbers, octet strings and bit strings: both forms of each, and the bits in order.

use der_core::{Error, Tag};
use der_types::{
    AllowedLenBitString, AsBitStringRef, AsIntRef, AsUintRef, BitString, BitStringRef, Int, IntRef,
    OctetString, OctetStringRef, SequenceRef, Uint, UintRef,
};
use std::alloc::Global;
use std::test::Fail;

/// Returns whether the owned form of a number can be borrowed as this one, and equals its copy.
fn lends_integer(alloc: Global, owned: &Int, lent: IntRef<'_>) -> Result<bool, Error> {
    let same = owned.as_int_ref() == lent && owned.clone(alloc)? == *owned;
    Ok(same && owned.as_bytes() == [0, 128].as_slice() && owned.len().value == 2)
}

/// 128 in both forms, and as a nonnegative number.
#[test]
fn integers(rt: HostRuntime) -> Result<(), Fail> {
    let alloc = rt.alloc();
    let lent = IntRef::new(&[0, 0, 128])?;
    let owned = lent.ref_to_owned(alloc)?;
    assert!(rt; lends_integer(alloc, &owned, lent)? && !owned.is_empty());
    assert!(rt; Int::from(Uint::new(alloc, &[128])?) == owned);
    Ok(())
}

/// Returns whether the owned form of a nonnegative number can be borrowed as this one, and equals
/// its copy.
fn lends_natural(alloc: Global, owned: &Uint, lent: UintRef<'_>) -> Result<bool, Error> {
    let same = owned.as_uint_ref() == lent && owned.clone(alloc)? == *owned;
    Ok(same && owned.as_bytes() == [128].as_slice() && owned.len().value == 1)
}

#[test]
fn naturals(rt: HostRuntime) -> Result<(), Fail> {
    let alloc = rt.alloc();
    let lent = UintRef::of_content(Tag::Integer, &[0, 128])?;
    let owned = lent.ref_to_owned(alloc)?;
    assert!(rt; lends_natural(alloc, &owned, lent)? && !owned.is_empty());
    Ok(())
}

/// Returns whether the owned form of an octet string can be borrowed as this one, and equals its
/// copy.
fn lends_octets(
    alloc: Global,
    owned: &OctetString,
    lent: OctetStringRef<'_>,
) -> Result<bool, Error> {
    let same = owned.owned_to_ref() == lent;
    Ok(same && owned.clone(alloc)? == *owned && owned.len().value == 3 && !owned.is_empty())
}

#[test]
fn octets(rt: HostRuntime) -> Result<(), Fail> {
    let alloc = rt.alloc();
    let octets = [2, 1, 7];
    let lent = OctetStringRef::try_from(octets.as_slice())?;
    let owned = lent.ref_to_owned(alloc)?;
    assert!(rt; lends_octets(alloc, &owned, OctetStringRef::of_content(&octets))?);
    let content = SequenceRef::of_content(&octets);
    assert!(rt; content.as_bytes() == owned.into_bytes().as_slice());
    Ok(())
}

/// Returns whether both forms of a string of ten bits agree.
fn has_ten_bits(alloc: Global, owned: &BitString, lent: BitStringRef<'_>) -> Result<bool, Error> {
    let same = owned.as_bit_string_ref() == lent && owned.clone(alloc)? == *owned;
    let lens = owned.bit_len() == 10 && lent.byte_len().value == 2 && owned.as_bytes().is_none();
    let bits = owned.get(9) == Some(true) && owned.get(10).is_none();
    let unused = owned.unused_bits() == 6 && owned.has_unused_bits() && !owned.is_empty();
    Ok(same && lens && bits && unused && lent.ref_to_owned(alloc)? == *owned)
}

/// The bit string `10100000 01`.
#[test]
fn bits(rt: HostRuntime) -> Result<(), Fail> {
    let alloc = rt.alloc();
    let lent = BitStringRef::new(6, &[0xa0, 0x40])?;
    let owned = BitString::new(6, [0xa0, 0x40].to_vec(alloc)?)?;
    assert!(rt; has_ten_bits(alloc, &owned, lent)?);
    Ok(())
}

#[test]
fn bits_in_turn(rt: HostRuntime) -> Result<(), Fail> {
    let lent = BitStringRef::new(6, &[0xa0, 0x40])?;
    let mut bits = lent.bits();
    assert!(rt; bits.size_hint() == (10, Some(10)));
    assert!(rt; bits.next() == Some(true) && bits.len() == 9);
    let octets = [0xa0, 0x40];
    let whole = BitStringRef::try_from(octets.as_slice())?;
    assert!(rt; whole.as_bytes() == Some(octets.as_slice()));
    Ok(())
}

/// Bit strings of 3 to 9 bits.
struct Few;

impl AllowedLenBitString for Few {
    ghost least = { 3 };

    ghost greatest = { 9 };

    fn min_bit_len() -> u16 {
        3
    }

    fn max_bit_len() -> u16 {
        9
    }
}

#[test]
fn lengths_of_bits(rt: HostRuntime) {
    assert!(rt; Few::check_bit_len(3).is_ok() && Few::check_bit_len(9).is_ok());
    assert!(rt; Few::check_bit_len(2).is_err() && Few::check_bit_len(10).is_err());
    assert!(rt; BitString::MAX_UNUSED_BITS == BitStringRef::MAX_UNUSED_BITS);
}
