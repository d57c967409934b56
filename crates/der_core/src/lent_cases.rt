//! Choices of borrowed fields. A `case!` of such fields is itself a `LentField`.

ghost use Rattle.std.specs.Prelude.{◌≡◌, true, Ok, IfOk, IfErr};
ghost use Rattle.der_core_coding.specs.CoreHead.Shapes.{IsValid, Value, begins, either, octets_of};
ghost use Rattle.der_core_coding.specs.CoreHead.Spelling.{is_apart};
ghost use Rattle.der_core_coding.specs.CoreHead.Writing.{size};
ghost use Rattle.der_core_coding.specs.CoreValues.Choices.{plain_of_two, plain_of_four};
ghost use Rattle.der_core.specs.Orders.{Overflows, StartsWith, encodings_cmp};

use crate::choices::{values_cmp, values_tag};
use crate::lent::{FieldOf, LentField};
use der_core_coding::core_head::{Error, Length, Tag};
use der_core_coding::core_octets::Writer;
use der_core_coding::core_values::{OneOf2, OneOf4, Shaped};
use std::cmp::Ordering;

/// A choice of two borrowed fields as a choice of values.
type TwoOf<'a, A, B> = OneOf2<FieldOf<'a, A>, FieldOf<'a, B>>;

/// A choice of four borrowed fields as a choice of values.
type FourOf<'a, A, B, C, D> = OneOf4<
    FieldOf<'a, A>,
    FieldOf<'a, B>,
    FieldOf<'a, C>,
    FieldOf<'a, D>,
>;

/// Returns the alternative as a value.
fn two_of<'a, A: LentField, B: LentField>(value: &'a OneOf2<A, B>) -> TwoOf<'a, A, B>
    ensures { ⟦<TwoOf<'a, A, B> as Shaped>⟧.written result
        ≡ plain_of_two A.written B.written value.now }
{
    match value {
        OneOf2::First(value) => OneOf2::First(FieldOf(value)),
        OneOf2::Second(value) => OneOf2::Second(FieldOf(value)),
    }
}

/// Returns the alternative as a value.
fn four_of<'a, A: LentField, B: LentField, C: LentField, D: LentField>(
    value: &'a OneOf4<A, B, C, D>,
) -> FourOf<'a, A, B, C, D>
    ensures { ⟦<FourOf<'a, A, B, C, D> as Shaped>⟧.written result
        ≡ plain_of_four A.written B.written C.written D.written value.now }
{
    match value {
        OneOf4::First(value) => OneOf4::First(FieldOf(value)),
        OneOf4::Second(value) => OneOf4::Second(FieldOf(value)),
        OneOf4::Third(value) => OneOf4::Third(FieldOf(value)),
        OneOf4::Fourth(value) => OneOf4::Fourth(FieldOf(value)),
    }
}

impl<A: LentField, B: LentField> LentField for OneOf2<A, B> {
    ghost shape = { either A.shape B.shape };

    ghost written = { plain_of_two A.written B.written };

    fn field_len(&self) -> Result<Length, Error> {
        match self {
            OneOf2::First(value) => value.field_len(),
            OneOf2::Second(value) => value.field_len(),
        }
    }

    #[tactic(auto, unfolding(crate::specs::Opened::octets_of))]
    fn encode_field<W: Writer>(&self, writer: &mut W) -> Result<(), Error> {
        match self {
            OneOf2::First(value) => value.encode_field(writer),
            OneOf2::Second(value) => value.encode_field(writer),
        }
    }

    fn field_cmp(&self, other: &Self) -> Result<Ordering, Error> {
        values_cmp(&two_of(self), &two_of(other))
    }

    fn field_tag(&self) -> Option<Tag> {
        values_tag(&two_of(self))
    }
}

impl<A: LentField, B: LentField, C: LentField, D: LentField> LentField for OneOf4<A, B, C, D> {
    ghost shape = { either A.shape (either B.shape (either C.shape D.shape)) };

    ghost written = { plain_of_four A.written B.written C.written D.written };

    fn field_len(&self) -> Result<Length, Error> {
        match self {
            OneOf4::First(value) => value.field_len(),
            OneOf4::Second(value) => value.field_len(),
            OneOf4::Third(value) => value.field_len(),
            OneOf4::Fourth(value) => value.field_len(),
        }
    }

    #[tactic(auto, unfolding(crate::specs::Opened::octets_of))]
    fn encode_field<W: Writer>(&self, writer: &mut W) -> Result<(), Error> {
        match self {
            OneOf4::First(value) => value.encode_field(writer),
            OneOf4::Second(value) => value.encode_field(writer),
            OneOf4::Third(value) => value.encode_field(writer),
            OneOf4::Fourth(value) => value.encode_field(writer),
        }
    }

    fn field_cmp(&self, other: &Self) -> Result<Ordering, Error> {
        values_cmp(&four_of(self), &four_of(other))
    }

    fn field_tag(&self) -> Option<Tag> {
        values_tag(&four_of(self))
    }
}

/// Compares two choices by their borrowed alternatives, as `der_cmp` of an enum should. The result
/// holds for any values that these are known to encode.
///
/// # Errors
///
/// - `Overflow`: the encoding of one of the two has 2^32 bytes or more.
pub fn cases_cmp<T: LentField>(cases: &T, other: &T) -> Result<Ordering, Error>
    ensures order { (v w : Value T.shape) → T.written cases.now ≡ v → T.written other.now ≡ w
        → is_apart T.shape ≡ true → IsValid T.shape v → IsValid T.shape w
        → result ≡ Ok (encodings_cmp T.shape v w) }
    ensures exact { (v w : Value T.shape) → T.written cases.now ≡ v → T.written other.now ≡ w
        → is_apart T.shape ≡ true → IfOk result (λ o. o ≡ encodings_cmp T.shape v w) }
    ensures refused { (v w : Value T.shape) → T.written cases.now ≡ v → T.written other.now ≡ w
        → IfErr result (λ e. Overflows e (size T.shape v) (size T.shape w)) }
{
    values_cmp(&FieldOf(cases), &FieldOf(other))
}

/// Returns the first tag of a choice from its borrowed alternative, as `first_tag` of an enum
/// should. The result holds for any value that this is known to encode.
pub fn cases_tag<T: LentField>(cases: &T) -> Option<Tag>
    ensures { (v : Value T.shape) → T.written cases.now ≡ v
        → StartsWith (begins T.shape) result (octets_of T.shape v) }
{
    values_tag(&FieldOf(cases))
}
