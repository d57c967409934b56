//! OIDs with large capacities, and borrowed OIDs.

use const_oid::{Error, ObjectIdentifier, ObjectIdentifierRef, Result, laws};
use std::cmp::Ordering;
use std::convert::AsSlice;
use std::hash::{DefaultHasher, Hash, Hasher};

type Identifier = ObjectIdentifier<39>;

#[test]
fn capacities(rt: HostRuntime) -> Result<()> {
    let text = "1.2.840.10045.2.1";
    let oid = Identifier::new(text)?;
    let borrowed = oid.as_oid_ref();
    let octets = borrowed.as_bytes();
    assert!(rt; Identifier::MAX_SIZE == 39 && size_of::<Identifier>() == 56);
    assert!(rt; ObjectIdentifier::<6>::from_bytes_sized(octets) == Err(Error::Length));
    assert!(rt; ObjectIdentifier::<6>::try_from(borrowed) == Err(Error::Length));
    assert!(rt; Identifier::try_from(borrowed) == Ok(oid));
    let front = ObjectIdentifier::<3>::from_bytes_sized(&[0x2a, 0x86, 0x48])?;
    assert!(rt; oid.starts_with(front) && !front.starts_with(oid));
    let shown = format!(in rt.alloc(); "{}", Error::Overflow).expect(&rt, "memory");
    assert!(rt; shown.as_str() == "internal calculation overflowed");
    Ok(())
}

/// Returns the hash of a value.
fn hash_of<T: Hash>(value: &T) -> u64 {
    let mut state = DefaultHasher::new();
    value.hash(&mut state);
    state.finish()
}

#[test]
fn borrowed_identifiers(rt: HostRuntime) -> Result<()> {
    let oid = Identifier::new("1.2.840.10045.2.1")?;
    let borrowed = ObjectIdentifierRef::from(&oid);
    assert!(rt; borrowed.equals_owned(&oid) && borrowed.as_slice() == oid.as_slice());
    assert!(rt; hash_of(&oid) == hash_of(&borrowed));
    let parent = ObjectIdentifierRef::from_bytes(&[0x2a, 0x86, 0x48, 0xce, 0x3d, 0x02])?;
    assert!(rt; !parent.equals_owned(&oid) && !laws::are_equal_borrowed(&parent, &borrowed));
    assert!(rt; laws::compare_borrowed(&parent, &borrowed) == Ordering::Less);
    assert!(rt; borrowed.len() == 6 && borrowed.arc(3) == Some(10045));
    let mut arcs = borrowed.arcs();
    for want in [1, 2, 840, 10045, 2, 1] {
        assert!(rt; arcs.next() == Some(want), "{want}");
    }
    assert!(rt; arcs.next().is_none());
    assert!(rt; arcs.next().is_none());
    Ok(())
}

/// An OID may have a capacity of more than 255 bytes.
#[test]
fn long_identifiers(rt: HostRuntime) -> Result<()> {
    let octets = [1; 299];
    let oid = ObjectIdentifier::<300>::from_bytes_sized(octets.as_slice())?;
    assert!(rt; oid.as_bytes() == octets.as_slice() && oid.len() == 300);
    let child = oid.push_arc(5)?;
    assert!(rt; child.as_bytes().len() == 300 && child.parent() == Some(oid));
    assert!(rt; child.push_arc(5) == Err(Error::Length));
    Ok(())
}
