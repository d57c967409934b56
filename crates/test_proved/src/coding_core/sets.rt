//! Strict sets that a program builds.

use der_core::laws::in_range_is_spelled;
use der_core::{
    Decode, Error, ErrorKind, FromDer, Member, SliceReader, StrictSetOf, ToDer,
    encode_value_to_slice,
};
use std::alloc::{AllocError, Global};
use std::test::Fail;

/// Returns whether a result is an error of this kind.
fn is_refused<T: Drop>(answer: Result<T, Error>, kind: ErrorKind) -> bool {
    match answer {
        Ok(_) => false,
        Err(error) => error.kind() == kind,
    }
}

/// Returns a set of two numbers.
fn pair(alloc: Global, values: [u8; 2]) -> Result<StrictSetOf<u8>, AllocError> {
    Ok(StrictSetOf {
        values: Vec::from_array(alloc, values)?,
    })
}

/// Decodes a set. It is generic, so that the requirements on members are checked once.
fn read<'a, T: Decode<'a, SliceReader<'a>> + Member>(
    alloc: Global,
    octets: &'a [u8],
) -> Result<StrictSetOf<T>, Error> {
    StrictSetOf::from_der(alloc, octets)
}

/// Returns whether the bytes decode to a set that equals this one.
fn is_read(alloc: Global, set: &StrictSetOf<u8>, octets: &[u8]) -> Result<bool, Error> {
    let again: StrictSetOf<u8> = read(alloc, octets)?;
    Ok(again.values.as_slice() == [1, 2].as_slice() && again == *set && again.clone()? == *set)
}

#[test]
fn a_set_is_written_where_it_rises(rt: HostRuntime) -> Result<(), Fail> {
    let alloc = rt.alloc();
    let set = pair(alloc, [1, 2])?;
    in_range_is_spelled(&set);
    let octets = set.to_der(alloc)?;
    assert!(rt; octets.as_slice() == b"\x31\x06\x02\x01\x01\x02\x01\x02".as_slice());
    assert!(rt; is_read(alloc, &set, octets.as_slice())?);
    Ok(())
}

/// Returns whether each call that encodes the set fails, and leaves a vector unchanged.
fn is_refused_by_all(alloc: Global, set: &StrictSetOf<u8>, kind: ErrorKind) -> Result<bool, Error> {
    let mut out = Vec::from_array(alloc, [7_u8])?;
    let behind = is_refused(set.encode_to_vec(&mut out), kind);
    let alone = is_refused(set.to_der(alloc), kind);
    let in_slices = is_refused(set.encode_to_slice(&mut [0; 8]), kind)
        && is_refused(encode_value_to_slice(set, &mut [0; 6]), kind);
    Ok(behind && alone && in_slices && out.as_slice() == b"\x07".as_slice())
}

/// Encoding a set fails if its members aren't in ascending order, or if one occurs twice.
#[test]
fn a_set_is_refused_where_it_does_not_rise(rt: HostRuntime) -> Result<(), Fail> {
    let alloc = rt.alloc();
    for (values, fault) in [
        ([2, 1], ErrorKind::SetOrdering),
        ([1, 1], ErrorKind::SetDuplicate),
    ] {
        let set = pair(alloc, values)?;
        assert!(rt; is_refused_by_all(alloc, &set, fault)?);
    }
    Ok(())
}

/// Encoding a set in another set fails in the same way. A writer without capacity reports that
/// first.
#[test]
fn a_set_in_a_set_is_refused(rt: HostRuntime) -> Result<(), Fail> {
    let alloc = rt.alloc();
    let inner = StrictSetOf {
        values: Vec::from_array(alloc, [false, true, false])?,
    };
    let set = StrictSetOf {
        values: vec![in alloc; inner]?,
    };
    let mut out = Vec::from_array(alloc, [7_u8])?;
    assert!(rt; is_refused(set.encode_to_vec(&mut out), ErrorKind::SetOrdering));
    assert!(rt; out.as_slice() == b"\x07".as_slice());
    assert!(rt; is_refused(set.encode_to_slice(&mut [0; 12]), ErrorKind::Overlength));
    Ok(())
}
