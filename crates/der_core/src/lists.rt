//! Comparison of lists of values, and of values from iterators.

ghost use Rattle.std.specs.Prelude.{◌≡◌, true, Ok, IfOk, IfErr, List};
ghost use Rattle.der_core_coding.specs.CoreHead.Shapes.{many, IsBody, Value};
ghost use Rattle.der_core_coding.specs.CoreHead.Spelling.{is_body_apart};
ghost use Rattle.der_core_coding.specs.CoreHead.Grammar.{plain_list};
ghost use Rattle.der_core_coding.specs.CoreHead.Writing.{size_body};
ghost use Rattle.der_core.specs.Orders.{bodies_cmp, Overflows};
ghost use Rattle.std.specs.Iterator.{AlwaysYields, IsFinite};

use crate::order::{DerOrd, ValueOrd};
use crate::strict_set_of::StrictSetOf;
use der_core_coding::EncodeRef;
use der_core_coding::core_head::Error;
use std::cmp::Ordering;

/// Compares the concatenated encodings of two slices. The first encodings that differ decide, and
/// then the numbers of values. For types whose first tags are unambiguous, a result is the order of
/// the encodings even if the values aren't valid, for example because a number is out of range.
///
/// # Errors
///
/// - `Overflow`: the encodings of one of the two have 2^32 bytes or more.
pub fn elements_cmp<T: DerOrd>(a: &[T], b: &[T]) -> Result<Ordering, Error>
    ensures order { is_body_apart (many T.shape) ≡ true
        → IsBody (many T.shape) (plain_list T.written a.now)
        → IsBody (many T.shape) (plain_list T.written b.now)
        → result
        ≡ Ok
        (bodies_cmp (many T.shape) (plain_list T.written a.now) (plain_list T.written b.now)) }
    ensures exact { is_body_apart (many T.shape) ≡ true → IfOk result (λ o. o
        ≡ bodies_cmp (many T.shape) (plain_list T.written a.now) (plain_list T.written b.now)) }
    ensures refused { IfErr result
        (λ e. Overflows e (size_body (many T.shape) (plain_list T.written a.now))
        (size_body (many T.shape) (plain_list T.written b.now))) }
{
    iter_cmp(a.iter(), b.iter())
}

/// SEQUENCE OF (X.690 8.10).
impl<T: DerOrd> ValueOrd for Vec<T> {
    #[tactic(auto, unfolding(crate::specs::Opened::contents, crate::specs::Opened::IsContent))]
    fn value_cmp(&self, other: &Self) -> Result<Ordering, Error> {
        elements_cmp(self.as_slice(), other.as_slice())
    }
}

/// SET OF, whose members are in order (X.690 8.12, 11.6).
impl<T: DerOrd> ValueOrd for StrictSetOf<T> {
    #[tactic(auto, unfolding(crate::specs::Opened::contents, crate::specs::Opened::IsContent, crate::specs::Opened::body_octets, crate::specs::Opened::IsBody))]
    fn value_cmp(&self, other: &Self) -> Result<Ordering, Error> {
        elements_cmp(self.values.as_slice(), other.values.as_slice())
    }
}

/// Compares the concatenated encodings of the values of two iterators. The first encodings that
/// differ decide, and then the numbers of values.
///
/// # Errors
///
/// - `Overflow`: the encodings of one of the two have 2^32 bytes or more.
pub fn iter_cmp_owned<T: DerOrd + Drop, I: Iterator<Item = T> + Drop>(
    a: I,
    b: I,
) -> Result<Ordering, Error>
    requires can { I.can_next a }
    requires finite { IsFinite (I.remaining a) }
    requires other_can { I.can_next b }
    ensures order { (xs ys : List (Value T.shape)) → AlwaysYields I.next_gives T.written a xs
        → AlwaysYields I.next_gives T.written b ys
        → is_body_apart (many T.shape) ≡ true → IsBody (many T.shape) xs → IsBody (many T.shape) ys
        → result ≡ Ok (bodies_cmp (many T.shape) xs ys) }
    ensures exact { (xs ys : List (Value T.shape)) → AlwaysYields I.next_gives T.written a xs
        → AlwaysYields I.next_gives T.written b ys
        → is_body_apart (many T.shape) ≡ true
        → IfOk result (λ o. o ≡ bodies_cmp (many T.shape) xs ys) }
    ensures refused { (xs ys : List (Value T.shape)) → AlwaysYields I.next_gives T.written a xs
        → AlwaysYields I.next_gives T.written b ys
        → IfErr result
        (λ e. Overflows e (size_body (many T.shape) xs) (size_body (many T.shape) ys)) }
{
    let mut others = b;
    for value in a {
        let Some(other) = others.next() else {
            return Ok(Ordering::Greater);
        };
        let order = value.der_cmp(&other)?;
        if order.is_ne() {
            return Ok(order);
        }
    }
    match others.next() {
        Some(_) => Ok(Ordering::Less),
        None => Ok(Ordering::Equal),
    }
}

/// Wraps a reference to a value.
fn lent<'a, T>(value: &'a T) -> EncodeRef<'a, T>
    ensures { result.0.now ≡ value.now }
{
    EncodeRef(value)
}

/// Compares the concatenated encodings of the borrowed values of two iterators. The first encodings
/// that differ decide, and then the numbers of values.
///
/// # Errors
///
/// - `Overflow`: the encodings of one of the two have 2^32 bytes or more.
pub fn iter_cmp<'a, T: DerOrd + 'a, I: Iterator<Item = &'a T> + Drop>(
    a: I,
    b: I,
) -> Result<Ordering, Error>
    requires can { I.can_next a }
    requires finite { IsFinite (I.remaining a) }
    requires other_can { I.can_next b }
    ensures order { (xs ys : List (Value T.shape))
        → AlwaysYields I.next_gives (λ r. T.written r.now) a xs
        → AlwaysYields I.next_gives (λ r. T.written r.now) b ys
        → is_body_apart (many T.shape) ≡ true → IsBody (many T.shape) xs → IsBody (many T.shape) ys
        → result ≡ Ok (bodies_cmp (many T.shape) xs ys) }
    ensures exact { (xs ys : List (Value T.shape))
        → AlwaysYields I.next_gives (λ r. T.written r.now) a xs
        → AlwaysYields I.next_gives (λ r. T.written r.now) b ys
        → is_body_apart (many T.shape) ≡ true
        → IfOk result (λ o. o ≡ bodies_cmp (many T.shape) xs ys) }
    ensures refused { (xs ys : List (Value T.shape))
        → AlwaysYields I.next_gives (λ r. T.written r.now) a xs
        → AlwaysYields I.next_gives (λ r. T.written r.now) b ys
        → IfErr result
        (λ e. Overflows e (size_body (many T.shape) xs) (size_body (many T.shape) ys)) }
{
    iter_cmp_owned(a.map(lent::<T>), b.map(lent::<T>))
}
