//! The types that attribute values can be decoded as. Most of them borrow from the value, and all
//! except sets of values are decoded without an allocation.

ghost use Rattle.std.specs.Prelude.{Ok, pos};
ghost use Rattle.der_core.specs.Oid.Bound.{Bound, max_size};
ghost use Rattle.der_core.specs.TagTypes.Tag.TheVariants as tags;
ghost use Rattle.der_core.specs.Integers.{every, natural};
ghost use Rattle.der_core.specs.Leaves.{bits, boolean, identifier, integer, octets, text};
ghost use Rattle.der_core.specs.Leaves.{utf8, generalized_time, utc_time};
ghost use Rattle.der_core.specs.Reading.{Gives, GivesNow};
ghost use Rattle.der_core.specs.Shapes.{ascending, nested};
ghost use Rattle.der_core.specs.Texts.{any_octet};
ghost use Rattle.der_types.specs.Ints.{integer_lent, natural_lent};
ghost use Rattle.der_types.specs.BitStrings.{bits_lent};
ghost use Rattle.der_types.specs.OctetStrings.{octets_lent};
ghost use Rattle.der_types.specs.Sequences.{fields_lent};
ghost use Rattle.der_types.specs.Lent.{members_lent};
ghost use Rattle.der_types.specs.Anys.{any_lent};
ghost use Rattle.der_types.specs.Contents.{content_as, leaf_as};

use der_core::oid::ObjectIdentifier;
use der_core::{Decode, Error, Member, SliceReader};
use der_types::{
    Any, AnyRef, AsciiStringRef, AsciiType, BitStringRef, DateTime, GeneralStringRef,
    GeneralizedTime, IntRef, OctetStringRef, SequenceRef, SetOfRef, UintRef, UtcTime,
    Utf8StringRef,
};
use std::alloc::Global;

/// A type that an attribute value can be decoded as, for example by `Name::by_oid`.
pub trait FromAny<'a>: Sized {
    ghost use Rattle.std.specs.Prelude.{Result};
    ghost use Rattle.der_core.specs.ErrorTypes.Error.{Error};
    ghost use Rattle.der_core.specs.Shapes.{AnyValue};

    // The relation between a value and what decoding returns.
    ghost any_gives: { AnyValue → Result Self Error → Type 0 };

    /// Decodes the value as this type.
    ///
    /// # Errors
    ///
    /// - `TagUnexpected`: the value has the tag of another type.
    /// - The first error of the content.
    /// - `OutOfMemory`: memory runs out.
    fn from_any(alloc: Global, any: &'a Any) -> Result<Self, Error>
        ensures { any_gives any.now result };
}

/// Decodes a string whose characters are ASCII, such as a PrintableString or an IA5String.
impl<'a, T: AsciiType> FromAny<'a> for AsciiStringRef<'a, T> {
    ghost any_gives = { λ a r. GivesNow (λ t. t.text.now) r
        (leaf_as T.string_tag (text T.repertoire) a) };

    fn from_any(_alloc: Global, any: &'a Any) -> Result<AsciiStringRef<'a, T>, Error> {
        Ok(AsciiStringRef::try_from(any)?)
    }
}

/// Borrows the value itself, whatever its type is.
impl<'a> FromAny<'a> for AnyRef<'a> {
    ghost any_gives = { λ a r. GivesNow any_lent r (Ok a) };

    fn from_any(_alloc: Global, any: &'a Any) -> Result<AnyRef<'a>, Error> {
        Ok(any.to_ref())
    }
}

/// Decodes the text of a UTF8String.
impl<'a> FromAny<'a> for &'a str {
    ghost any_gives = { λ a r. GivesNow (λ s. s.now) r (leaf_as tags.Utf8String utf8 a) };

    fn from_any(_alloc: Global, any: &'a Any) -> Result<&'a str, Error> {
        Ok(<&'a str>::try_from(any)?)
    }
}

/// Decodes the text of a UTF8String.
impl<'a> FromAny<'a> for Utf8StringRef<'a> {
    ghost any_gives = { λ a r. GivesNow (λ t. t.text.now) r (leaf_as tags.Utf8String utf8 a) };

    fn from_any(_alloc: Global, any: &'a Any) -> Result<Utf8StringRef<'a>, Error> {
        Ok(Utf8StringRef::try_from(any)?)
    }
}

/// Decodes the bytes of a GeneralString.
impl<'a> FromAny<'a> for GeneralStringRef<'a> {
    ghost any_gives = { λ a r. GivesNow (λ s. s.bytes.now) r
        (leaf_as tags.GeneralString (text any_octet) a) };

    fn from_any(_alloc: Global, any: &'a Any) -> Result<GeneralStringRef<'a>, Error> {
        Ok(GeneralStringRef::try_from(any)?)
    }
}

/// Decodes the bits of a BIT STRING.
impl<'a> FromAny<'a> for BitStringRef<'a> {
    ghost any_gives = { λ a r. GivesNow bits_lent r (leaf_as tags.BitString bits a) };

    fn from_any(_alloc: Global, any: &'a Any) -> Result<BitStringRef<'a>, Error> {
        Ok(BitStringRef::try_from(any)?)
    }
}

/// Decodes the bytes of an OCTET STRING.
impl<'a> FromAny<'a> for OctetStringRef<'a> {
    ghost any_gives = { λ a r. GivesNow octets_lent r (leaf_as tags.OctetString octets a) };

    fn from_any(_alloc: Global, any: &'a Any) -> Result<OctetStringRef<'a>, Error> {
        Ok(OctetStringRef::try_from(any)?)
    }
}

/// Decodes the content of a SEQUENCE, without its fields.
impl<'a> FromAny<'a> for SequenceRef<'a> {
    ghost any_gives = { λ a r. GivesNow fields_lent r (leaf_as tags.Sequence octets a) };

    fn from_any(_alloc: Global, any: &'a Any) -> Result<SequenceRef<'a>, Error> {
        Ok(SequenceRef::try_from(any)?)
    }
}

/// Decodes the members of a SET OF, which must be in ascending order.
impl<'a, T: Decode<'a, SliceReader<'a>> + Member> FromAny<'a> for SetOfRef<'a, T> {
    ghost any_gives = { λ a r. Gives (members_lent T.shape T.plain) r
        (content_as tags.Set (nested (ascending T.shape)) a) };

    fn from_any(alloc: Global, any: &'a Any) -> Result<SetOfRef<'a, T>, Error> {
        Ok(any.to_ref().decode_as(alloc)?)
    }
}

/// Decodes an INTEGER of any size.
impl<'a> FromAny<'a> for IntRef<'a> {
    ghost any_gives = { λ a r. GivesNow integer_lent r (leaf_as tags.Integer (integer every) a) };

    fn from_any(_alloc: Global, any: &'a Any) -> Result<IntRef<'a>, Error> {
        Ok(IntRef::try_from(any)?)
    }
}

/// Decodes an INTEGER of any size that isn't negative.
impl<'a> FromAny<'a> for UintRef<'a> {
    ghost any_gives = { λ a r. GivesNow (λ n. pos (natural_lent n)) r
        (leaf_as tags.Integer (integer natural) a) };

    fn from_any(_alloc: Global, any: &'a Any) -> Result<UintRef<'a>, Error> {
        Ok(UintRef::try_from(any)?)
    }
}

/// Decodes a BOOLEAN.
impl<'a> FromAny<'a> for bool {
    ghost any_gives = { λ a r. GivesNow (λ b. b) r (leaf_as tags.Boolean boolean a) };

    fn from_any(_alloc: Global, any: &'a Any) -> Result<bool, Error> {
        Ok(bool::try_from(any)?)
    }
}

/// Decodes an OBJECT IDENTIFIER.
impl<'a> FromAny<'a> for ObjectIdentifier<39> {
    ghost any_gives = { λ a r. GivesNow (λ x. x) r
        (leaf_as tags.ObjectIdentifier (identifier Bound max_size) a) };

    fn from_any(_alloc: Global, any: &'a Any) -> Result<ObjectIdentifier<39>, Error> {
        Ok(ObjectIdentifier::<39>::try_from(any)?)
    }
}

/// Decodes a UTCTime.
impl<'a> FromAny<'a> for UtcTime {
    ghost any_gives = { λ a r. GivesNow (λ t. t) r (leaf_as tags.UtcTime utc_time a) };

    fn from_any(_alloc: Global, any: &'a Any) -> Result<UtcTime, Error> {
        Ok(UtcTime::try_from(any)?)
    }
}

/// Decodes a GeneralizedTime.
impl<'a> FromAny<'a> for GeneralizedTime {
    ghost any_gives = { λ a r. GivesNow (λ t. t) r
        (leaf_as tags.GeneralizedTime generalized_time a) };

    fn from_any(_alloc: Global, any: &'a Any) -> Result<GeneralizedTime, Error> {
        Ok(GeneralizedTime::try_from(any)?)
    }
}

/// Decodes the date and time of a GeneralizedTime.
impl<'a> FromAny<'a> for DateTime {
    ghost any_gives = { λ a r. GivesNow (λ d. d) r
        (leaf_as tags.GeneralizedTime generalized_time a) };

    fn from_any(_alloc: Global, any: &'a Any) -> Result<DateTime, Error> {
        Ok(DateTime::try_from(any)?)
    }
}
