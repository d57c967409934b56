//! Choices of two or three alternatives.

ghost use Rattle.der_core_octets.specs.CoreHead.Shapes.{either};
ghost use Rattle.der_core_values.specs.Both.{both_true};
ghost use Rattle.der_core_values.specs.Choices.{plain_of_two};

use crate::decode::{Choice, Decode, Shaped};
use crate::elements::Element;
use crate::encode::Encode;
use crate::in_range::InRange;
use der_core_octets::core_head::{Error, ErrorKind, Length, Tag};
use der_core_octets::{Reader, Writer};
use std::alloc::Global;

/// A value of one of two types that begin with different tags (CHOICE, X.680 29).
///
/// The first tag decides which type is decoded. It is the first type whose values may begin with
/// this tag. If there is none, the error is `TagUnexpected`.
///
/// An enum with names of its own gets its shape and its decoder from the `OneOf2` to `OneOf9` of
/// its types. Its impl of `Member` states that the first tags differ, which the checker computes.
#[derive(Debug, Drop)]
pub enum OneOf2<A, B> {
    /// A value of the first type.
    First(A),
    /// A value of the second type.
    Second(B),
}

/// A value of one of three types: the first, or one of the others in `Second`, such as
/// `Second(First(b))`.
pub type OneOf3<A, B, C> = OneOf2<A, OneOf2<B, C>>;

impl<A: Shaped, B: Shaped> Shaped for OneOf2<A, B> {
    ghost shape = { either A.shape B.shape };

    ghost plain = { plain_of_two A.plain B.plain };

    ghost written = { plain_of_two A.written B.written };
}

impl<A: Choice, B: Choice> Choice for OneOf2<A, B> {
    fn can_decode(tag: Tag) -> bool {
        A::can_decode(tag) || B::can_decode(tag)
    }
}

impl<A: Element, B: Element> Element for OneOf2<A, B> {
    ghost element = { both_true A.element B.element };
}

impl<'a, R: Reader<'a>, A: Decode<'a, R> + Choice, B: Decode<'a, R> + Choice> Decode<'a, R>
    for OneOf2<A, B> {
    #[tactic(auto, unfolding(crate::specs::Opened::either_at))]
    fn decode(alloc: Global, reader: &mut R) -> Result<OneOf2<A, B>, Error> {
        let tag = reader.next_tag()?;
        if A::can_decode(tag) {
            Ok(OneOf2::First(A::decode(alloc, reader)?))
        } else if B::can_decode(tag) {
            Ok(OneOf2::Second(B::decode(alloc, reader)?))
        } else {
            reader.fail();
            Err(Error::from(ErrorKind::TagUnexpected))
        }
    }
}

impl<A: Encode, B: Encode> Encode for OneOf2<A, B> {
    fn encoded_len(&self) -> Result<Length, Error> {
        match self {
            OneOf2::First(value) => value.encoded_len(),
            OneOf2::Second(value) => value.encoded_len(),
        }
    }

    #[tactic(auto, unfolding(crate::specs::Opened::octets_of))]
    fn encode<W: Writer>(&self, writer: &mut W) -> Result<(), Error> {
        match self {
            OneOf2::First(value) => value.encode(writer),
            OneOf2::Second(value) => value.encode(writer),
        }
    }
}

impl<A: InRange, B: InRange> InRange for OneOf2<A, B> {
    fn in_range(&self) {
        match self {
            OneOf2::First(value) => value.in_range(),
            OneOf2::Second(value) => value.in_range(),
        }
    }
}
