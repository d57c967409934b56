//! Alternatives of choices that are decoded. The trait has no supertraits, which saves time when a
//! choice is checked.

ghost use Rattle.std.specs.Prelude.{◌≡◌};
ghost use Rattle.der_core_coding.specs.CoreHead.Reading.{Reads, read_at};
ghost use Rattle.der_core_coding.specs.CoreHead.Shapes.{Shape, Value, begins, either, explicit};
ghost use Rattle.der_core_coding.specs.CoreHead.Shapes.{tagged};
ghost use Rattle.der_core_coding.specs.CoreHead.Tags.{implicit_tag};
ghost use Rattle.der_core_coding.specs.CoreValues.Choices.{plain_of_two, plain_of_four};

use crate::read::Whole;
use der_core_coding::core_head::{Error, ErrorKind, Tag, is_same_tag};
use der_core_coding::core_octets::Reader;
use der_core_coding::core_values::{Choice, Decode, DecodeValue, FixedTag, OneOf2, OneOf3, OneOf4};
use der_core_coding::{Explicit, Implicit};
use std::alloc::Global;

/// An alternative of a choice that is decoded.
pub trait ReadCase<'a, R: Reader<'a>>: Sized {
    /// The shape of the alternative.
    ghost shape: { Shape };

    /// Maps an alternative to its abstract value.
    ghost plain: { Self → Value shape };

    /// Returns whether the alternative may begin with this tag, as `Choice::can_decode` does.
    fn can_read(tag: Tag) -> bool
        ensures { result ≡ begins shape tag };

    /// Decodes the alternative, as `Decode::decode` does.
    ///
    /// # Errors
    ///
    /// The errors of `Decode::decode`.
    fn read_case(alloc: Global, reader: &mut R) -> Result<Self, Error>
        ensures { Reads plain (R.state reader.old) (R.state reader.new) result
            (read_at (R.state reader.old) shape) };
}

impl<'a, R: Reader<'a>, T: Decode<'a, R> + Choice> ReadCase<'a, R> for Whole<T> {
    ghost shape = { T.shape };

    ghost plain = { λ x. T.plain x.0 };

    fn can_read(tag: Tag) -> bool {
        T::can_decode(tag)
    }

    #[inline(always)]
    fn read_case(alloc: Global, reader: &mut R) -> Result<Whole<T>, Error> {
        let value = T::decode(alloc, reader)?;
        Ok(Whole(value))
    }
}

/// The implicit tag replaces the tag of the value.
impl<'a, R: Reader<'a>, T: DecodeValue<'a, R> + FixedTag, const N: u32> ReadCase<'a, R>
    for Implicit<T, N> {
    ghost shape = { tagged (implicit_tag N T.fixed_tag) T.content };

    ghost plain = { λ x. T.value_plain x.value };

    fn can_read(tag: Tag) -> bool {
        is_same_tag(Implicit::<T, N>::tag(), tag)
    }

    #[inline(always)]
    fn read_case(alloc: Global, reader: &mut R) -> Result<Implicit<T, N>, Error> {
        let value = Decode::decode(alloc, reader)?;
        Ok(value)
    }
}

/// The explicit tag encloses the value.
impl<'a, R: Reader<'a>, T: Decode<'a, R>, const N: u32> ReadCase<'a, R> for Explicit<T, N> {
    ghost shape = { explicit N T.shape };

    ghost plain = { λ x. T.plain x.value };

    fn can_read(tag: Tag) -> bool {
        is_same_tag(Explicit::<T, N>::tag(), tag)
    }

    #[inline(always)]
    fn read_case(alloc: Global, reader: &mut R) -> Result<Explicit<T, N>, Error> {
        let value = Decode::decode(alloc, reader)?;
        Ok(value)
    }
}

/// The first tag decides, as in `Decode` of the choice.
impl<'a, R: Reader<'a>, A: ReadCase<'a, R>, B: ReadCase<'a, R>> ReadCase<'a, R> for OneOf2<A, B> {
    ghost shape = { either A.shape B.shape };

    ghost plain = { plain_of_two A.plain B.plain };

    fn can_read(tag: Tag) -> bool {
        A::can_read(tag) || B::can_read(tag)
    }

    #[tactic(auto, unfolding(crate::specs::Opened::either_at))]
    fn read_case(alloc: Global, reader: &mut R) -> Result<OneOf2<A, B>, Error> {
        let tag = reader.next_tag()?;
        if A::can_read(tag) {
            Ok(OneOf2::First(A::read_case(alloc, reader)?))
        } else if B::can_read(tag) {
            Ok(OneOf2::Second(B::read_case(alloc, reader)?))
        } else {
            reader.fail();
            Err(Error::from(ErrorKind::TagUnexpected))
        }
    }
}

impl<
    'a,
    R: Reader<'a>,
    A: ReadCase<'a, R>,
    B: ReadCase<'a, R>,
    C: ReadCase<'a, R>,
    D: ReadCase<'a, R>,
> ReadCase<'a, R> for OneOf4<A, B, C, D> {
    ghost shape = { either A.shape (either B.shape (either C.shape D.shape)) };

    ghost plain = { plain_of_four A.plain B.plain C.plain D.plain };

    fn can_read(tag: Tag) -> bool {
        A::can_read(tag) || <OneOf3<B, C, D> as ReadCase<'a, R>>::can_read(tag)
    }

    fn read_case(alloc: Global, reader: &mut R) -> Result<OneOf4<A, B, C, D>, Error> {
        match OneOf2::<A, OneOf3<B, C, D>>::read_case(alloc, reader)? {
            OneOf2::First(value) => Ok(OneOf4::First(value)),
            OneOf2::Second(OneOf2::First(value)) => Ok(OneOf4::Second(value)),
            OneOf2::Second(OneOf2::Second(OneOf2::First(value))) => Ok(OneOf4::Third(value)),
            OneOf2::Second(OneOf2::Second(OneOf2::Second(value))) => Ok(OneOf4::Fourth(value)),
        }
    }
}
