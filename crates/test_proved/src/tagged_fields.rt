//! Fields with tags of other classes, and values of any type: tags, lengths, borrows and closures.

ghost use Rattle.der_types.specs.ClassFields.{IsClass};

use der_core::{Error, ErrorKind, FirstTag, Reader, Tag, TagMode, TagNumber, Tagged};
use der_types::{
    Any, AnyRef, Application, ApplicationRef, ClassField, ContextSpecific, Private, PrivateRef,
};
use std::alloc::Global;
use std::test::Fail;

/// Returns a field of a tag class.
fn field<const CLASS: u8>(tag_mode: TagMode, value: u32, content: u8) -> ClassField<u8, CLASS>
    requires { IsClass CLASS }
{
    ClassField {
        tag_number: TagNumber { value },
        tag_mode,
        value: content,
    }
}

/// The tags of both modes, and the class of each tag.
#[test]
fn tags_of_fields(rt: HostRuntime) {
    let number = TagNumber { value: 31 };
    let context: ContextSpecific<u8> = field(TagMode::Explicit, 31, 5);
    let application: Application<u8> = field(TagMode::Implicit, 31, 5);
    let private: Private<u8> = field(TagMode::Explicit, 31, 5);
    assert!(rt; context.tag() == number.context_specific(true));
    assert!(rt; application.tag() == number.application(false));
    assert!(rt; private.tag() == number.private(true));
    assert!(rt; ContextSpecific::<u8>::can_decode(context.tag()));
    assert!(rt; !ContextSpecific::<u8>::can_decode(Tag::Integer));
    assert!(rt; Application::<u8>::can_decode(application.tag()));
    assert!(rt; !Application::<u8>::can_decode(private.tag()));
    assert!(rt; Private::<u8>::can_decode(private.tag()));
    assert!(rt; !Private::<u8>::can_decode(context.tag()));
}

/// The tags of borrowed fields, and copies.
#[test]
fn tags_of_lent_fields(rt: HostRuntime) -> Result<(), Fail> {
    let owned: Private<u8> = field(TagMode::Implicit, 3, 2);
    let place: PrivateRef<u8> = owned.owned_to_ref();
    assert!(rt; place.tag() == TagNumber { value: 3 }.private(false));
    assert!(rt; place.ref_to_owned()? == owned && owned.clone()? == owned);
    let application: Application<u8> = field(TagMode::Explicit, 0, 2);
    let application: ApplicationRef<u8> = application.owned_to_ref();
    assert!(rt; application.tag() == TagNumber { value: 0 }.application(true));
    Ok(())
}

/// Returns whether a number as a value of any type equals the borrowed value with these bytes.
fn are_alike(alloc: Global, number: &Any, octets: &[u8]) -> Result<bool, Error> {
    let lent = AnyRef::new(Tag::Integer, octets)?;
    are_both(alloc, number, lent)
}

/// Returns whether both forms of a number agree.
fn are_both(alloc: Global, number: &Any, lent: AnyRef<'_>) -> Result<bool, Error> {
    let same = number.to_ref() == lent && AnyRef::from(number) == lent;
    let copies = lent.ref_to_owned(alloc)? == *number && number.clone(alloc)? == *number;
    let parts = number.tag() == Tag::Integer && number.value() == lent.value();
    let tags = number.first_tag() == Some(Tag::Integer) && number.header().length.value == 2;
    Ok(same && copies && parts && tags && !lent.is_null())
}

#[test]
fn any_values(rt: HostRuntime) -> Result<(), Fail> {
    let alloc = rt.alloc();
    let number = Any::new(Tag::Integer, [0, 200].to_vec(alloc)?)?;
    assert!(rt; are_alike(alloc, &number, &[0, 200])?);
    Ok(())
}

/// Returns whether the value is NULL, and can be borrowed as such.
fn is_null(any: &Any) -> bool {
    any.is_null() && any.owned_to_ref() == AnyRef::NULL
}

#[test]
fn nulls(rt: HostRuntime) {
    assert!(rt; is_null(&Any::null(rt.alloc())));
    assert!(rt; AnyRef::NULL.is_null());
}

/// Decodes two bytes from a content.
fn two_octets(any: &Any) -> Result<(u8, u8), Error> {
    any.sequence(|reader| {
        let first = reader.read_byte()?;
        let second = reader.read_byte()?;
        Ok((first, second))
    })
}

/// Decodes two bytes from a borrowed content.
fn two_lent_octets(any: AnyRef) -> Result<(u8, u8), Error> {
    any.sequence(|reader| {
        let first = reader.read_byte()?;
        let second = reader.read_byte()?;
        Ok((first, second))
    })
}

/// Returns whether both forms of a value decode to the bytes 7 and 8.
fn are_given(fields: &Any) -> Result<bool, Error> {
    let owned = two_octets(fields)?;
    let lent = two_lent_octets(fields.to_ref())?;
    Ok(owned == (7, 8) && lent == owned)
}

#[test]
fn closures(rt: HostRuntime) -> Result<(), Fail> {
    let fields = Any::new(Tag::Sequence, [7, 8].to_vec(rt.alloc())?)?;
    assert!(rt; are_given(&fields)?);
    Ok(())
}

/// Returns whether decoding two bytes from a content with this tag fails with this kind of error.
fn are_refused(tag: Tag, octets: &[u8], kind: ErrorKind) -> Result<bool, Error> {
    match two_lent_octets(AnyRef::new(tag, octets)?) {
        Ok(_) => Ok(false),
        Err(error) => Ok(error.kind == kind),
    }
}

#[test]
fn closures_that_are_refused(rt: HostRuntime) -> Result<(), Fail> {
    assert!(rt; are_refused(Tag::Sequence, &[7, 8, 9], ErrorKind::TrailingData)?);
    assert!(rt; are_refused(Tag::Set, &[7, 8], ErrorKind::TagUnexpected)?);
    Ok(())
}
