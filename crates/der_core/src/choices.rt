//! Comparison of choices.

ghost use Rattle.std.specs.Prelude.{◌≡◌, true, Ok, IfOk, IfErr};
ghost use Rattle.der_core_coding.specs.CoreHead.Shapes.{IsValid, Value, begins, either, octets_of};
ghost use Rattle.der_core_coding.specs.CoreHead.Spelling.{is_apart};
ghost use Rattle.der_core_coding.specs.CoreHead.Writing.{size};
ghost use Rattle.der_core.specs.Orders.{Overflows, StartsWith, encodings_cmp, octets_cmp};

use crate::order::{DerOrd, FirstTag};
use crate::pairs::next_cmp;
use der_core_coding::EncodeRef;
use der_core_coding::core_head::{Error, Tag};
use der_core_coding::core_values::{OneOf2, OneOf3, OneOf4, Shaped};
use std::cmp::Ordering;

/// Alternative `k` of `n`, where `n` is two to nine, as a pattern or as a value:
/// `case!(5 of 8: value)` is `OneOf4::Fourth(OneOf4::Second(value))`.
#[macro_export]
macro_rules! case {
    (1 of 2: $($v:tt)+) => { $crate::OneOf2::First($($v)+) };
    (2 of 2: $($v:tt)+) => { $crate::OneOf2::Second($($v)+) };
    (1 of 3: $($v:tt)+) => { $crate::OneOf2::First($($v)+) };
    (2 of 3: $($v:tt)+) => { $crate::OneOf2::Second($crate::case!(1 of 2: $($v)+)) };
    (3 of 3: $($v:tt)+) => { $crate::OneOf2::Second($crate::case!(2 of 2: $($v)+)) };
    (1 of $n:tt: $($v:tt)+) => { $crate::OneOf4::First($($v)+) };
    (2 of $n:tt: $($v:tt)+) => { $crate::OneOf4::Second($($v)+) };
    (3 of $n:tt: $($v:tt)+) => { $crate::OneOf4::Third($($v)+) };
    (4 of 4: $($v:tt)+) => { $crate::OneOf4::Fourth($($v)+) };
    ($k:tt of 5: $($v:tt)+) => { $crate::OneOf4::Fourth($crate::case!(@rest $k of 2: $($v)+)) };
    ($k:tt of 6: $($v:tt)+) => { $crate::OneOf4::Fourth($crate::case!(@rest $k of 3: $($v)+)) };
    ($k:tt of 7: $($v:tt)+) => { $crate::OneOf4::Fourth($crate::case!(@rest $k of 4: $($v)+)) };
    ($k:tt of 8: $($v:tt)+) => { $crate::OneOf4::Fourth($crate::case!(@rest $k of 5: $($v)+)) };
    ($k:tt of 9: $($v:tt)+) => { $crate::OneOf4::Fourth($crate::case!(@rest $k of 6: $($v)+)) };
    (@rest 4 of $n:tt: $($v:tt)+) => { $crate::case!(1 of $n: $($v)+) };
    (@rest 5 of $n:tt: $($v:tt)+) => { $crate::case!(2 of $n: $($v)+) };
    (@rest 6 of $n:tt: $($v:tt)+) => { $crate::case!(3 of $n: $($v)+) };
    (@rest 7 of $n:tt: $($v:tt)+) => { $crate::case!(4 of $n: $($v)+) };
    (@rest 8 of $n:tt: $($v:tt)+) => { $crate::case!(5 of $n: $($v)+) };
    (@rest 9 of $n:tt: $($v:tt)+) => { $crate::case!(6 of $n: $($v)+) };
}

/// Returns the order of values of two different alternatives, which begin with different tags.
fn other_cmp<A: FirstTag, B: FirstTag>(value: &A, other: &B) -> Ordering
    ensures { is_apart (either A.shape B.shape) ≡ true
        → result ≡ octets_cmp (octets_of A.shape (A.written value.now))
        (octets_of B.shape (B.written other.now)) }
{
    match other.first_tag() {
        Some(tag) => next_cmp(value.first_tag(), tag),
        None => Ordering::Greater,
    }
}

/// Values of the same alternative are compared. For values of different alternatives, the tags
/// decide.
impl<A: DerOrd + FirstTag, B: DerOrd + FirstTag> DerOrd for OneOf2<A, B> {
    fn der_cmp(&self, other: &Self) -> Result<Ordering, Error> {
        match (self, other) {
            (OneOf2::First(value), OneOf2::First(other)) => value.der_cmp(other),
            (OneOf2::Second(value), OneOf2::Second(other)) => value.der_cmp(other),
            (OneOf2::First(value), OneOf2::Second(other)) => Ok(other_cmp(value, other)),
            (OneOf2::Second(value), OneOf2::First(other)) => {
                Ok(other_cmp(other, value).reverse())
            }
        }
    }
}

impl<A: FirstTag, B: FirstTag> FirstTag for OneOf2<A, B> {
    fn first_tag(&self) -> Option<Tag> {
        match self {
            OneOf2::First(value) => value.first_tag(),
            OneOf2::Second(value) => value.first_tag(),
        }
    }
}

/// Compares two choices by their alternatives, which are borrowed. The result holds for any values
/// that these are known to encode.
///
/// # Errors
///
/// - `Overflow`: the encoding of one of the two has 2^32 bytes or more.
pub(crate) fn values_cmp<T: DerOrd>(cases: &T, other: &T) -> Result<Ordering, Error>
    ensures order { (v w : Value T.shape) → T.written cases.now ≡ v → T.written other.now ≡ w
        → is_apart T.shape ≡ true → IsValid T.shape v → IsValid T.shape w
        → result ≡ Ok (encodings_cmp T.shape v w) }
    ensures exact { (v w : Value T.shape) → T.written cases.now ≡ v → T.written other.now ≡ w
        → is_apart T.shape ≡ true → IfOk result (λ o. o ≡ encodings_cmp T.shape v w) }
    ensures refused { (v w : Value T.shape) → T.written cases.now ≡ v → T.written other.now ≡ w
        → IfErr result (λ e. Overflows e (size T.shape v) (size T.shape w)) }
{
    cases.der_cmp(other)
}

/// Returns the first tag of a value. The result holds for any value that this is known to encode.
pub(crate) fn values_tag<T: FirstTag>(cases: &T) -> Option<Tag>
    ensures { (v : Value T.shape) → T.written cases.now ≡ v
        → StartsWith (begins T.shape) result (octets_of T.shape v) }
{
    cases.first_tag()
}

type FourRef<'a, A, B, C, D> = OneOf2<
    EncodeRef<'a, A>,
    OneOf3<EncodeRef<'a, B>, EncodeRef<'a, C>, EncodeRef<'a, D>>,
>;

/// Returns a borrowed choice of four as a choice of the first alternative and of the others.
fn four_as_two<'a, A: Shaped, B: Shaped, C: Shaped, D: Shaped>(
    value: &'a OneOf4<A, B, C, D>,
) -> FourRef<'a, A, B, C, D>
    ensures { ⟦<FourRef<'a, A, B, C, D> as Shaped>⟧.written result
        ≡ ⟦<OneOf4<A, B, C, D> as Shaped>⟧.written value.now }
{
    match value {
        OneOf4::First(value) => OneOf2::First(EncodeRef(value)),
        OneOf4::Second(value) => OneOf2::Second(OneOf2::First(EncodeRef(value))),
        OneOf4::Third(value) => OneOf2::Second(OneOf2::Second(OneOf2::First(EncodeRef(value)))),
        OneOf4::Fourth(value) => OneOf2::Second(OneOf2::Second(OneOf2::Second(EncodeRef(value)))),
    }
}

impl<A: FirstTag, B: FirstTag, C: FirstTag, D: FirstTag> FirstTag for OneOf4<A, B, C, D> {
    fn first_tag(&self) -> Option<Tag> {
        four_as_two(self).first_tag()
    }
}

impl<A: DerOrd + FirstTag, B: DerOrd + FirstTag, C: DerOrd + FirstTag, D: DerOrd + FirstTag> DerOrd
    for OneOf4<A, B, C, D> {
    fn der_cmp(&self, other: &Self) -> Result<Ordering, Error> {
        four_as_two(self).der_cmp(&four_as_two(other))
    }
}
