//! Choices of four to nine alternatives.

ghost use Rattle.der_core_octets.specs.CoreHead.Shapes.{either};
ghost use Rattle.der_core_values.specs.Both.{both_true};
ghost use Rattle.der_core_values.specs.Choices.{plain_of_four};

use crate::decode::{Choice, Decode, Shaped};
use crate::elements::Element;
use crate::encode::Encode;
use crate::in_range::InRange;
use crate::one_of_two::{OneOf2, OneOf3};
use der_core_octets::core_head::{Error, Length, Tag};
use der_core_octets::{Reader, Writer};
use std::alloc::Global;

/// A value of one of four types that begin with different tags (CHOICE, X.680 29).
///
/// The first tag decides which type is decoded, as in a `OneOf2` of the first type and a `OneOf3`
/// of the others.
#[derive(Debug, Drop)]
pub enum OneOf4<A, B, C, D> {
    /// A value of the first type.
    First(A),
    /// A value of the second type.
    Second(B),
    /// A value of the third type.
    Third(C),
    /// A value of the fourth type.
    Fourth(D),
}

/// A value of one of five types: the first three, or one of the others in `Fourth`, such as
/// `Fourth(First(d))`.
pub type OneOf5<A, B, C, D, E> = OneOf4<A, B, C, OneOf2<D, E>>;

/// A value of one of six types. The last one is `Fourth(Second(Second(f)))`.
pub type OneOf6<A, B, C, D, E, F> = OneOf4<A, B, C, OneOf3<D, E, F>>;

/// A value of one of seven types. The last one is `Fourth(Fourth(g))`.
pub type OneOf7<A, B, C, D, E, F, G> = OneOf4<A, B, C, OneOf4<D, E, F, G>>;

/// A value of one of eight types. The last one is `Fourth(Fourth(Second(h)))`.
pub type OneOf8<A, B, C, D, E, F, G, H> = OneOf4<A, B, C, OneOf5<D, E, F, G, H>>;

/// A value of one of nine types. The last one is `Fourth(Fourth(Second(Second(i))))`.
pub type OneOf9<A, B, C, D, E, F, G, H, I> = OneOf4<A, B, C, OneOf6<D, E, F, G, H, I>>;

impl<A: Shaped, B: Shaped, C: Shaped, D: Shaped> Shaped for OneOf4<A, B, C, D> {
    ghost shape = { either A.shape (either B.shape (either C.shape D.shape)) };

    ghost plain = { plain_of_four A.plain B.plain C.plain D.plain };

    ghost written = { plain_of_four A.written B.written C.written D.written };
}

impl<A: Choice, B: Choice, C: Choice, D: Choice> Choice for OneOf4<A, B, C, D> {
    fn can_decode(tag: Tag) -> bool {
        A::can_decode(tag) || OneOf3::<B, C, D>::can_decode(tag)
    }
}

impl<A: Element, B: Element, C: Element, D: Element> Element for OneOf4<A, B, C, D> {
    ghost element = { both_true A.element (both_true B.element (both_true C.element D.element)) };
}

impl<
    'a,
    R: Reader<'a>,
    A: Decode<'a, R> + Choice,
    B: Decode<'a, R> + Choice,
    C: Decode<'a, R> + Choice,
    D: Decode<'a, R> + Choice,
> Decode<'a, R> for OneOf4<A, B, C, D> {
    fn decode(alloc: Global, reader: &mut R) -> Result<OneOf4<A, B, C, D>, Error> {
        match OneOf2::<A, OneOf3<B, C, D>>::decode(alloc, reader)? {
            OneOf2::First(value) => Ok(OneOf4::First(value)),
            OneOf2::Second(OneOf2::First(value)) => Ok(OneOf4::Second(value)),
            OneOf2::Second(OneOf2::Second(OneOf2::First(value))) => Ok(OneOf4::Third(value)),
            OneOf2::Second(OneOf2::Second(OneOf2::Second(value))) => Ok(OneOf4::Fourth(value)),
        }
    }
}

impl<A: Encode, B: Encode, C: Encode, D: Encode> Encode for OneOf4<A, B, C, D> {
    fn encoded_len(&self) -> Result<Length, Error> {
        match self {
            OneOf4::First(value) => value.encoded_len(),
            OneOf4::Second(value) => value.encoded_len(),
            OneOf4::Third(value) => value.encoded_len(),
            OneOf4::Fourth(value) => value.encoded_len(),
        }
    }

    #[tactic(auto, unfolding(crate::specs::Opened::octets_of))]
    fn encode<W: Writer>(&self, writer: &mut W) -> Result<(), Error> {
        match self {
            OneOf4::First(value) => value.encode(writer),
            OneOf4::Second(value) => value.encode(writer),
            OneOf4::Third(value) => value.encode(writer),
            OneOf4::Fourth(value) => value.encode(writer),
        }
    }
}

impl<A: InRange, B: InRange, C: InRange, D: InRange> InRange for OneOf4<A, B, C, D> {
    fn in_range(&self) {
        match self {
            OneOf4::First(value) => value.in_range(),
            OneOf4::Second(value) => value.in_range(),
            OneOf4::Third(value) => value.in_range(),
            OneOf4::Fourth(value) => value.in_range(),
        }
    }
}
