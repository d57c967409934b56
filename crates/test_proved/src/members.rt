//! Types as members of sets. `test_der_rows` tests those of the coding core, and types that are
//! built from others.

use der_core::{
    ApartValue, AsRead, AsReadValue, Decode, DecodeValue, DerOrd, Encode, EncodeValue, Error,
    FixedTag, InRange, InRangeValue, Member, SliceReader, StrictSetOf, ToDer, ValueOrd,
};
use der_types::{
    Any, AnyRef, BitString, BitStringRef, BmpString, DateTime, GeneralStringRef, GeneralizedTime,
    Ia5StringRef, Int, IntRef, Null, OctetString, PrintableString, SequenceRef, SetOfVec, Uint,
    UintRef, UtcTime, Utf8StringRef,
};
use std::alloc::Global;
use std::test::Fail;

/// Returns whether the members that the bytes encode can be added to a set one at a time, and the
/// set is encoded as these bytes, also as a strict set.
fn go_into_a_set<'a, T>(alloc: Global, octets: &'a [u8]) -> Result<bool, Error>
where
    T: Decode<'a, SliceReader<'a>> + AsRead + DerOrd + Encode + Member + InRange,
{
    let read = SetOfVec::<T>::from_der(alloc, octets)?;
    let mut set = SetOfVec::new(alloc);
    for member in read.into_vec() {
        set.insert(member)?;
    }
    let written = set.to_der(alloc)?;
    let strict = StrictSetOf {
        values: set.into_vec(),
    };
    let strictly = strict.to_der(alloc)?;
    Ok(written.as_slice() == octets && strictly.as_slice() == octets)
}

/// Does the same as `go_into_a_set` for a type with one tag. Requires only the traits of the
/// contents, because each required trait costs the check of every type that is named.
fn goes_into_a_set<'a, T>(alloc: Global, octets: &'a [u8]) -> Result<bool, Error>
where
    T: DecodeValue<'a, SliceReader<'a>>
        + AsReadValue
        + ValueOrd
        + EncodeValue
        + ApartValue
        + InRangeValue
        + FixedTag,
{
    go_into_a_set::<T>(alloc, octets)
}

/// The numbers 127 and 128.
#[test]
fn numbers(rt: HostRuntime) -> Result<(), Fail> {
    let alloc = rt.alloc();
    let octets = b"\x31\x07\x02\x01\x7f\x02\x02\x00\x80";
    assert!(rt; goes_into_a_set::<Int>(alloc, octets)?);
    assert!(rt; goes_into_a_set::<IntRef<'_>>(alloc, octets)?);
    assert!(rt; goes_into_a_set::<Uint>(alloc, octets)?);
    assert!(rt; goes_into_a_set::<UintRef<'_>>(alloc, octets)?);
    Ok(())
}

/// One byte, ten bits, NULL, and an empty SEQUENCE.
#[test]
fn values(rt: HostRuntime) -> Result<(), Fail> {
    let alloc = rt.alloc();
    assert!(rt; goes_into_a_set::<OctetString>(alloc, b"\x31\x03\x04\x01\x07")?);
    assert!(rt; goes_into_a_set::<BitString>(alloc, b"\x31\x05\x03\x03\x06\xa0\x40")?);
    assert!(rt; goes_into_a_set::<BitStringRef<'_>>(alloc, b"\x31\x05\x03\x03\x06\xa0\x40")?);
    assert!(rt; goes_into_a_set::<Null>(alloc, b"\x31\x02\x05\x00")?);
    assert!(rt; goes_into_a_set::<SequenceRef<'_>>(alloc, b"\x31\x02\x30\x00")?);
    Ok(())
}

/// The letter `a` in each string type, owned and borrowed.
#[test]
fn texts(rt: HostRuntime) -> Result<(), Fail> {
    let alloc = rt.alloc();
    assert!(rt; goes_into_a_set::<PrintableString>(alloc, b"\x31\x03\x13\x01a")?);
    assert!(rt; goes_into_a_set::<Ia5StringRef<'_>>(alloc, b"\x31\x03\x16\x01a")?);
    assert!(rt; goes_into_a_set::<GeneralStringRef<'_>>(alloc, b"\x31\x03\x1b\x01a")?);
    assert!(rt; goes_into_a_set::<Utf8StringRef<'_>>(alloc, b"\x31\x03\x0c\x01a")?);
    assert!(rt; goes_into_a_set::<BmpString>(alloc, b"\x31\x04\x1e\x02\x00a")?);
    Ok(())
}

/// 1970-01-01T00:00:00Z, in each type.
#[test]
fn dates(rt: HostRuntime) -> Result<(), Fail> {
    let alloc = rt.alloc();
    let octets = b"\x31\x11\x18\x0f19700101000000Z";
    assert!(rt; goes_into_a_set::<UtcTime>(alloc, b"\x31\x0f\x17\x0d700101000000Z")?);
    assert!(rt; goes_into_a_set::<GeneralizedTime>(alloc, octets)?);
    assert!(rt; goes_into_a_set::<DateTime>(alloc, octets)?);
    Ok(())
}

/// TRUE, and a value with a context-specific tag.
#[test]
fn any_values(rt: HostRuntime) -> Result<(), Fail> {
    let alloc = rt.alloc();
    let octets = b"\x31\x06\x01\x01\xff\x80\x01\x07";
    assert!(rt; go_into_a_set::<Any>(alloc, octets)?);
    assert!(rt; go_into_a_set::<AnyRef<'_>>(alloc, octets)?);
    Ok(())
}
