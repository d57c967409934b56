//! Conversions from `AnyRef` and `Any` to integers, and back. An `Any` is converted as its borrowed
//! form is.

ghost use Rattle.std.specs.Prelude.{◌≡◌, pos};
ghost use Rattle.der_types_text.specs.Der.TagTypes.Tag.TheVariants as tags;
ghost use Rattle.der_types_text.specs.Der.Integers.{unsigned, signed, natural, every};
ghost use Rattle.der_types_text.specs.Der.Integers.{integer_octets};
ghost use Rattle.der_types_text.specs.Der.Leaves.{integer};
ghost use Rattle.der_types_text.specs.Der.Reading.{GivesNow};
ghost use Rattle.der_types_any.specs.Anys.{any_lent};
ghost use Rattle.der_types_any.specs.Contents.{leaf_as, IntegerGives};
ghost use Rattle.der_types_numbers.specs.Ints.{integer_lent, natural_lent};

use crate::any::Any;
use crate::any_ref::AnyRef;
use crate::conversions::check_tag;
use der_types_numbers::{IntRef, UintRef};
use der_types_text::der::{Error, Integer, Tag};

/// Converts an INTEGER.
#[tactic(auto, unfolding(crate::specs::Contents::leaf_as))]
fn integer_from<T: Integer>(any: &AnyRef<'_>) -> Result<T, Error>
    ensures { IntegerGives T.numbers T.number (any_lent any.now) result }
{
    check_tag(any.tag(), Tag::Integer)?;
    Ok(T::from_integer(any.tag(), any.value())?)
}

impl<'a> TryFrom<AnyRef<'a>> for u8 {
    type Error = Error;

    ghost try_from_gives = { λ a r. IntegerGives (unsigned 8) (λ n. pos n) (any_lent a) r };

    fn try_from(any: AnyRef<'a>) -> Result<u8, Error> {
        integer_from(&any)
    }
}

impl<'a> TryFrom<&'a Any> for u8 {
    type Error = Error;

    ghost try_from_gives = { λ a r. IntegerGives (unsigned 8) (λ n. pos n) a.now r };

    fn try_from(any: &'a Any) -> Result<u8, Error> {
        u8::try_from(any.to_ref())
    }
}

impl<'a> TryFrom<AnyRef<'a>> for u16 {
    type Error = Error;

    ghost try_from_gives = { λ a r. IntegerGives (unsigned 16) (λ n. pos n) (any_lent a) r };

    fn try_from(any: AnyRef<'a>) -> Result<u16, Error> {
        integer_from(&any)
    }
}

impl<'a> TryFrom<&'a Any> for u16 {
    type Error = Error;

    ghost try_from_gives = { λ a r. IntegerGives (unsigned 16) (λ n. pos n) a.now r };

    fn try_from(any: &'a Any) -> Result<u16, Error> {
        u16::try_from(any.to_ref())
    }
}

impl<'a> TryFrom<AnyRef<'a>> for u32 {
    type Error = Error;

    ghost try_from_gives = { λ a r. IntegerGives (unsigned 32) (λ n. pos n) (any_lent a) r };

    fn try_from(any: AnyRef<'a>) -> Result<u32, Error> {
        integer_from(&any)
    }
}

impl<'a> TryFrom<&'a Any> for u32 {
    type Error = Error;

    ghost try_from_gives = { λ a r. IntegerGives (unsigned 32) (λ n. pos n) a.now r };

    fn try_from(any: &'a Any) -> Result<u32, Error> {
        u32::try_from(any.to_ref())
    }
}

impl<'a> TryFrom<AnyRef<'a>> for u64 {
    type Error = Error;

    ghost try_from_gives = { λ a r. IntegerGives (unsigned 64) (λ n. pos n) (any_lent a) r };

    fn try_from(any: AnyRef<'a>) -> Result<u64, Error> {
        integer_from(&any)
    }
}

impl<'a> TryFrom<&'a Any> for u64 {
    type Error = Error;

    ghost try_from_gives = { λ a r. IntegerGives (unsigned 64) (λ n. pos n) a.now r };

    fn try_from(any: &'a Any) -> Result<u64, Error> {
        u64::try_from(any.to_ref())
    }
}

impl<'a> TryFrom<AnyRef<'a>> for u128 {
    type Error = Error;

    ghost try_from_gives = { λ a r. IntegerGives (unsigned 128) (λ n. pos n) (any_lent a) r };

    fn try_from(any: AnyRef<'a>) -> Result<u128, Error> {
        integer_from(&any)
    }
}

impl<'a> TryFrom<&'a Any> for u128 {
    type Error = Error;

    ghost try_from_gives = { λ a r. IntegerGives (unsigned 128) (λ n. pos n) a.now r };

    fn try_from(any: &'a Any) -> Result<u128, Error> {
        u128::try_from(any.to_ref())
    }
}

impl<'a> TryFrom<AnyRef<'a>> for i8 {
    type Error = Error;

    ghost try_from_gives = { λ a r. GivesNow (λ n. n) r
        (leaf_as tags.Integer (integer (signed 8)) (any_lent a)) };

    fn try_from(any: AnyRef<'a>) -> Result<i8, Error> {
        integer_from(&any)
    }
}

impl<'a> TryFrom<&'a Any> for i8 {
    type Error = Error;

    ghost try_from_gives = { λ a r. GivesNow (λ n. n) r
        (leaf_as tags.Integer (integer (signed 8)) a.now) };

    fn try_from(any: &'a Any) -> Result<i8, Error> {
        i8::try_from(any.to_ref())
    }
}

impl<'a> TryFrom<AnyRef<'a>> for i16 {
    type Error = Error;

    ghost try_from_gives = { λ a r. GivesNow (λ n. n) r
        (leaf_as tags.Integer (integer (signed 16)) (any_lent a)) };

    fn try_from(any: AnyRef<'a>) -> Result<i16, Error> {
        integer_from(&any)
    }
}

impl<'a> TryFrom<&'a Any> for i16 {
    type Error = Error;

    ghost try_from_gives = { λ a r. GivesNow (λ n. n) r
        (leaf_as tags.Integer (integer (signed 16)) a.now) };

    fn try_from(any: &'a Any) -> Result<i16, Error> {
        i16::try_from(any.to_ref())
    }
}

impl<'a> TryFrom<AnyRef<'a>> for i32 {
    type Error = Error;

    ghost try_from_gives = { λ a r. GivesNow (λ n. n) r
        (leaf_as tags.Integer (integer (signed 32)) (any_lent a)) };

    fn try_from(any: AnyRef<'a>) -> Result<i32, Error> {
        integer_from(&any)
    }
}

impl<'a> TryFrom<&'a Any> for i32 {
    type Error = Error;

    ghost try_from_gives = { λ a r. GivesNow (λ n. n) r
        (leaf_as tags.Integer (integer (signed 32)) a.now) };

    fn try_from(any: &'a Any) -> Result<i32, Error> {
        i32::try_from(any.to_ref())
    }
}

impl<'a> TryFrom<AnyRef<'a>> for i64 {
    type Error = Error;

    ghost try_from_gives = { λ a r. GivesNow (λ n. n) r
        (leaf_as tags.Integer (integer (signed 64)) (any_lent a)) };

    fn try_from(any: AnyRef<'a>) -> Result<i64, Error> {
        integer_from(&any)
    }
}

impl<'a> TryFrom<&'a Any> for i64 {
    type Error = Error;

    ghost try_from_gives = { λ a r. GivesNow (λ n. n) r
        (leaf_as tags.Integer (integer (signed 64)) a.now) };

    fn try_from(any: &'a Any) -> Result<i64, Error> {
        i64::try_from(any.to_ref())
    }
}

impl<'a> TryFrom<AnyRef<'a>> for i128 {
    type Error = Error;

    ghost try_from_gives = { λ a r. GivesNow (λ n. n) r
        (leaf_as tags.Integer (integer (signed 128)) (any_lent a)) };

    fn try_from(any: AnyRef<'a>) -> Result<i128, Error> {
        integer_from(&any)
    }
}

impl<'a> TryFrom<&'a Any> for i128 {
    type Error = Error;

    ghost try_from_gives = { λ a r. GivesNow (λ n. n) r
        (leaf_as tags.Integer (integer (signed 128)) a.now) };

    fn try_from(any: &'a Any) -> Result<i128, Error> {
        i128::try_from(any.to_ref())
    }
}

impl<'a> TryFrom<AnyRef<'a>> for IntRef<'a> {
    type Error = Error;

    ghost try_from_gives = { λ a r. GivesNow integer_lent r
        (leaf_as tags.Integer (integer every) (any_lent a)) };

    #[tactic(auto, unfolding(crate::specs::Contents::leaf_as))]
    fn try_from(any: AnyRef<'a>) -> Result<IntRef<'a>, Error> {
        check_tag(any.tag(), Tag::Integer)?;
        Ok(IntRef::of_content(any.tag(), any.value())?)
    }
}

impl<'a> TryFrom<&'a Any> for IntRef<'a> {
    type Error = Error;

    ghost try_from_gives = { λ a r. GivesNow integer_lent r
        (leaf_as tags.Integer (integer every) a.now) };

    fn try_from(any: &'a Any) -> Result<IntRef<'a>, Error> {
        IntRef::try_from(any.to_ref())
    }
}

impl<'a> TryFrom<AnyRef<'a>> for UintRef<'a> {
    type Error = Error;

    ghost try_from_gives = { λ a r. GivesNow (λ n. pos (natural_lent n)) r
        (leaf_as tags.Integer (integer natural) (any_lent a)) };

    #[tactic(auto, unfolding(crate::specs::Contents::leaf_as))]
    fn try_from(any: AnyRef<'a>) -> Result<UintRef<'a>, Error> {
        check_tag(any.tag(), Tag::Integer)?;
        Ok(UintRef::of_content(any.tag(), any.value())?)
    }
}

impl<'a> TryFrom<&'a Any> for UintRef<'a> {
    type Error = Error;

    ghost try_from_gives = { λ a r. GivesNow (λ n. pos (natural_lent n)) r
        (leaf_as tags.Integer (integer natural) a.now) };

    fn try_from(any: &'a Any) -> Result<UintRef<'a>, Error> {
        UintRef::try_from(any.to_ref())
    }
}

/// Borrows the content of the integer. There is no such impl for `UintRef`, because the zero byte
/// before its digits may not be in a slice. `Any::encode_from` copies it.
impl<'a> From<IntRef<'a>> for AnyRef<'a> {
    ghost from_gives = { λ n a. any_lent a
        ≡ record { tag = tags.Integer; contents = integer_octets (integer_lent n) } };

    fn from(number: IntRef<'a>) -> AnyRef<'a> {
        AnyRef::trusted(Tag::Integer, number.as_bytes())
    }
}
