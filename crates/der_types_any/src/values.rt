//! Conversions from `AnyRef` and `Any` to BOOLEAN, NULL, OBJECT IDENTIFIER, BIT STRING, OCTET
//! STRING and SEQUENCE, and back. An `Any` is converted as its borrowed form is.

ghost use Rattle.std.specs.Prelude.{◌≡◌, []};
ghost use Rattle.der_types_text.specs.Oid.Bound.{Bound};
ghost use Rattle.der_types_text.specs.Der.TagTypes.Tag.TheVariants as tags;
ghost use Rattle.der_types_text.specs.Der.Leaves.{boolean, null, bits, octets, identifier};
ghost use Rattle.der_types_text.specs.Der.Reading.{GivesNow};
ghost use Rattle.der_types_any.specs.Anys.{any_lent};
ghost use Rattle.der_types_any.specs.Contents.{leaf_as};
ghost use Rattle.der_types_values.specs.BitStrings.{bits_lent};
ghost use Rattle.der_types_values.specs.OctetStrings.{octets_lent};
ghost use Rattle.der_types_values.specs.Sequences.{fields_lent};

use crate::any::Any;
use crate::any_ref::AnyRef;
use crate::conversions::check_tag;
use der_types_text::der::{Error, ErrorKind, Tag};
use der_types_text::oid::ObjectIdentifier;
use der_types_values::{BitStringRef, Null, OctetStringRef, SequenceRef};

/// Converts a BOOLEAN.
impl<'a> TryFrom<AnyRef<'a>> for bool {
    type Error = Error;

    ghost try_from_gives = { λ a r. GivesNow (λ b. b) r
        (leaf_as tags.Boolean boolean (any_lent a)) };

    #[tactic(auto, unfolding(crate::specs::Contents::leaf_as))]
    fn try_from(any: AnyRef<'a>) -> Result<bool, Error> {
        let tag = any.tag();
        check_tag(tag, Tag::Boolean)?;
        match any.value() {
            [0] => Ok(false),
            [255] => Ok(true),
            _ => Err(Error::from(ErrorKind::Noncanonical { tag })),
        }
    }
}

impl<'a> TryFrom<&'a Any> for bool {
    type Error = Error;

    ghost try_from_gives = { λ a r. GivesNow (λ b. b) r (leaf_as tags.Boolean boolean a.now) };

    fn try_from(any: &'a Any) -> Result<bool, Error> {
        bool::try_from(any.to_ref())
    }
}

/// Converts NULL.
impl<'a> TryFrom<AnyRef<'a>> for () {
    type Error = Error;

    ghost try_from_gives = { λ a r. GivesNow (λ x. x) r (leaf_as tags.Null null (any_lent a)) };

    #[tactic(auto, unfolding(crate::specs::Contents::leaf_as))]
    fn try_from(any: AnyRef<'a>) -> Result<(), Error> {
        let tag = any.tag();
        check_tag(tag, Tag::Null)?;
        if any.value().is_empty() {
            Ok(())
        } else {
            Err(Error::from(ErrorKind::Noncanonical { tag }))
        }
    }
}

impl<'a> TryFrom<&'a Any> for () {
    type Error = Error;

    ghost try_from_gives = { λ a r. GivesNow (λ x. x) r (leaf_as tags.Null null a.now) };

    fn try_from(any: &'a Any) -> Result<(), Error> {
        <()>::try_from(any.to_ref())
    }
}

/// Converts NULL.
impl<'a> TryFrom<AnyRef<'a>> for Null {
    type Error = Error;

    ghost try_from_gives = { λ a r. GivesNow (λ _. tt) r (leaf_as tags.Null null (any_lent a)) };

    fn try_from(any: AnyRef<'a>) -> Result<Null, Error> {
        <()>::try_from(any)?;
        Ok(Null)
    }
}

impl<'a> TryFrom<&'a Any> for Null {
    type Error = Error;

    ghost try_from_gives = { λ a r. GivesNow (λ _. tt) r (leaf_as tags.Null null a.now) };

    fn try_from(any: &'a Any) -> Result<Null, Error> {
        Null::try_from(any.to_ref())
    }
}

/// Returns NULL.
impl<'a> From<Null> for AnyRef<'a> {
    ghost from_gives = { λ _ a. any_lent a ≡ record { tag = tags.Null; contents = [] } };

    fn from(_value: Null) -> AnyRef<'a> {
        AnyRef::trusted(Tag::Null, &[])
    }
}

/// Converts an OBJECT IDENTIFIER, whose encoding must not exceed the capacity.
impl<'a, const MAX_SIZE: usize> TryFrom<AnyRef<'a>> for ObjectIdentifier<MAX_SIZE> {
    type Error = Error;

    ghost try_from_gives = { λ a r. GivesNow (λ x. x) r
        (leaf_as tags.ObjectIdentifier (identifier Bound MAX_SIZE) (any_lent a)) };

    #[tactic(auto, unfolding(crate::specs::Contents::leaf_as))]
    fn try_from(any: AnyRef<'a>) -> Result<ObjectIdentifier<MAX_SIZE>, Error> {
        check_tag(any.tag(), Tag::ObjectIdentifier)?;
        Ok(ObjectIdentifier::from_bytes_sized(any.value())?)
    }
}

impl<'a, const MAX_SIZE: usize> TryFrom<&'a Any> for ObjectIdentifier<MAX_SIZE> {
    type Error = Error;

    ghost try_from_gives = { λ a r. GivesNow (λ x. x) r
        (leaf_as tags.ObjectIdentifier (identifier Bound MAX_SIZE) a.now) };

    fn try_from(any: &'a Any) -> Result<ObjectIdentifier<MAX_SIZE>, Error> {
        ObjectIdentifier::<MAX_SIZE>::try_from(any.to_ref())
    }
}

/// Converts a BIT STRING.
impl<'a> TryFrom<AnyRef<'a>> for BitStringRef<'a> {
    type Error = Error;

    ghost try_from_gives = { λ a r. GivesNow bits_lent r
        (leaf_as tags.BitString bits (any_lent a)) };

    #[tactic(auto, unfolding(crate::specs::Contents::leaf_as))]
    fn try_from(any: AnyRef<'a>) -> Result<BitStringRef<'a>, Error> {
        check_tag(any.tag(), Tag::BitString)?;
        Ok(BitStringRef::of_content(any.tag(), any.value())?)
    }
}

impl<'a> TryFrom<&'a Any> for BitStringRef<'a> {
    type Error = Error;

    ghost try_from_gives = { λ a r. GivesNow bits_lent r (leaf_as tags.BitString bits a.now) };

    fn try_from(any: &'a Any) -> Result<BitStringRef<'a>, Error> {
        BitStringRef::try_from(any.to_ref())
    }
}

/// Converts an OCTET STRING.
impl<'a> TryFrom<AnyRef<'a>> for OctetStringRef<'a> {
    type Error = Error;

    ghost try_from_gives = { λ a r. GivesNow octets_lent r
        (leaf_as tags.OctetString octets (any_lent a)) };

    #[tactic(auto, unfolding(crate::specs::Contents::leaf_as))]
    fn try_from(any: AnyRef<'a>) -> Result<OctetStringRef<'a>, Error> {
        check_tag(any.tag(), Tag::OctetString)?;
        Ok(OctetStringRef::of_content(any.value()))
    }
}

impl<'a> TryFrom<&'a Any> for OctetStringRef<'a> {
    type Error = Error;

    ghost try_from_gives = { λ a r. GivesNow octets_lent r
        (leaf_as tags.OctetString octets a.now) };

    fn try_from(any: &'a Any) -> Result<OctetStringRef<'a>, Error> {
        OctetStringRef::try_from(any.to_ref())
    }
}

/// Borrows the bytes. There is no such impl for `BitStringRef`, because its number of unused bits
/// isn't in a slice. `Any::encode_from` copies it.
impl<'a> From<OctetStringRef<'a>> for AnyRef<'a> {
    ghost from_gives = { λ x a. any_lent a
        ≡ record { tag = tags.OctetString; contents = octets_lent x } };

    fn from(value: OctetStringRef<'a>) -> AnyRef<'a> {
        AnyRef::trusted(Tag::OctetString, value.as_bytes())
    }
}

/// Converts a SEQUENCE, whose content isn't decoded.
impl<'a> TryFrom<AnyRef<'a>> for SequenceRef<'a> {
    type Error = Error;

    ghost try_from_gives = { λ a r. GivesNow fields_lent r
        (leaf_as tags.Sequence octets (any_lent a)) };

    #[tactic(auto, unfolding(crate::specs::Contents::leaf_as))]
    fn try_from(any: AnyRef<'a>) -> Result<SequenceRef<'a>, Error> {
        check_tag(any.tag(), Tag::Sequence)?;
        Ok(SequenceRef::of_content(any.value()))
    }
}

impl<'a> TryFrom<&'a Any> for SequenceRef<'a> {
    type Error = Error;

    ghost try_from_gives = { λ a r. GivesNow fields_lent r (leaf_as tags.Sequence octets a.now) };

    fn try_from(any: &'a Any) -> Result<SequenceRef<'a>, Error> {
        SequenceRef::try_from(any.to_ref())
    }
}

/// Borrows the content.
impl<'a> From<SequenceRef<'a>> for AnyRef<'a> {
    ghost from_gives = { λ x a. any_lent a
        ≡ record { tag = tags.Sequence; contents = fields_lent x } };

    fn from(value: SequenceRef<'a>) -> AnyRef<'a> {
        AnyRef::trusted(Tag::Sequence, value.as_bytes())
    }
}
