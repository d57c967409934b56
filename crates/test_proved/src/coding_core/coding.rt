//! Comparing iterators of encodings, and calls that no test vector makes.

use der_core::making::value_cmp_behind;
use der_core::{
    BytesRef, Class, Error, ErrorKind, Header, IsConstructed, Length, Tag, TagNumber, iter_cmp,
    iter_cmp_owned,
};
use std::alloc::Global;
use std::cmp::Ordering;
use std::cmp::Ordering::{Equal, Greater, Less};
use std::test::Fail;

/// Returns the order of two lists of which the comparison takes ownership.
fn order_of_owned(alloc: Global, these: &[i16], others: &[i16]) -> Result<Ordering, Error> {
    let these = these.to_vec(alloc)?;
    let others = others.to_vec(alloc)?;
    iter_cmp_owned(these.into_iter(), others.into_iter())
}

/// Lists are compared by the encodings of their elements, such as `02 01 01`, `02 01 03`,
/// `02 01 7F`, `02 02 00 80` and `02 01 FF`.
#[test]
fn orders_of_iterators(rt: HostRuntime) -> Result<(), Fail> {
    let alloc = rt.alloc();
    for (these, others, order) in [
        ([1, 3].as_slice(), [1, 2, 5].as_slice(), Greater),
        (&[1], &[1, 1], Less),
        (&[1, 1], &[1], Greater),
        (&[127, 1], &[128], Less),
        (&[-1], &[127], Greater),
        (&[1, 2], &[1, 2], Equal),
    ] {
        assert!(rt; iter_cmp::<i16, _>(these.iter(), others.iter())? == order);
        assert!(rt; order_of_owned(alloc, these, others)? == order);
    }
    assert!(rt; iter_cmp_owned(Some(5u8).into_iter(), None.into_iter())? == Greater);
    Ok(())
}

#[test]
fn other_calls(rt: HostRuntime) -> Result<(), Fail> {
    assert!(rt; Class::from_bits(0x7f) == Class::Application);
    assert!(rt; u32::from(TagNumber::new(200)) == 200 && u32::from(Length::ONE) == 1);
    assert!(rt; usize::try_from(Length::MAX)? == 4_294_967_295);
    let header = Header::new(Tag::Set, Length::ONE).with_length(Length::ZERO);
    assert!(rt; header.is_constructed() && header.length().is_zero());
    assert!(rt; <Vec<u8> as IsConstructed>::is_constructed());
    assert!(rt; !<bool as IsConstructed>::is_constructed());
    let place = Length::new(7);
    let error = Error::new(ErrorKind::Failed, place);
    assert!(rt; error == ErrorKind::Failed.at(place));
    assert!(rt; error.kind() == ErrorKind::Failed && error.position() == Some(place));
    assert!(rt; BytesRef::EMPTY.is_empty());
    // Each list of bytes has an optional first byte.
    assert!(rt; value_cmp_behind(Some(1), &[], None, &[]) == Greater);
    assert!(rt; value_cmp_behind(Some(1), &[2], None, &[1, 2]) == Equal);
    Ok(())
}

/// Text with bytes that aren't UTF-8 returns an error.
#[test]
fn octets_of_no_text(rt: HostRuntime) -> Result<(), Fail> {
    let octets = [0xc3, 0x28].to_vec(rt.alloc())?;
    match String::from_utf8(octets) {
        Ok(_) => assert!(rt; false),
        Err(error) => assert!(rt; Error::from(error) == Error::from(ErrorKind::Utf8)),
    }
    Ok(())
}
