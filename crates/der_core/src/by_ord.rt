//! Types whose `Ord` is the order of their contents.

ghost use Rattle.std.specs.Prelude.{◌≡◌, length, true, Ok, IfErr, string_bytes};
ghost use Rattle.der_core_coding.specs.Oid.Bound.{Bound};
ghost use Rattle.der_core_coding.specs.CoreHead.Leaves.{utf8};
ghost use Rattle.der_core_coding.specs.CoreHead.Shapes.{IsContent, contents};
ghost use Rattle.der_core_coding.specs.CoreHead.Spelling.{is_content_apart};
ghost use Rattle.der_core_coding.specs.CoreHead.Writing.{size_content};
ghost use Rattle.der_core.specs.Orders.{contents_cmp, Overflows};
ghost use Rattle.der_core.specs.OrdLaws.{identifier_order, octets_order};

use crate::order::ValueOrd;
use der_core_coding::core_head::Error;
use der_core_coding::core_values::ShapedValue;
use der_core_coding::oid::ObjectIdentifier;
use std::cmp::Ordering;

/// A type whose `Ord` is the order of contents of equal length, as lists of bytes.
///
/// Values whose contents have different lengths may be ordered otherwise. For example, `Ord` of
/// object identifiers compares the lengths first.
pub trait OrdIsValueOrd: ShapedValue + Ord {
    /// For valid contents of equal length, `Ord` is the order of the contents.
    ghost order: { (v w : Self) → IsContent Self.content (Self.value_written v)
        → IsContent Self.content (Self.value_written w)
        → length (contents Self.content (Self.value_written v))
        ≡ length (contents Self.content (Self.value_written w))
        → Self.cmp v w ≡ contents_cmp Self.content (Self.value_written v) (Self.value_written w) };
}

/// Compares two values by their `Ord`, which is the order of their contents if these have the same
/// length.
pub fn value_cmp_by_ord<T: OrdIsValueOrd>(a: &T, b: &T) -> Ordering
    // The result is that of `Ord`, whatever the lengths are.
    ensures ord { result ≡ T.cmp a.now b.now }
    ensures order { IsContent T.content (T.value_written a.now)
        → IsContent T.content (T.value_written b.now)
        → length (contents T.content (T.value_written a.now))
        ≡ length (contents T.content (T.value_written b.now))
        → result ≡ contents_cmp T.content (T.value_written a.now) (T.value_written b.now) }
{
    a.cmp(b)
}

/// Returns the result of `value_cmp`, which is the `Ord` of the two values if their contents have
/// the same length.
///
/// # Errors
///
/// - `Overflow`: the content of one of the two has 2^32 bytes or more.
pub fn value_cmp_is_ord<T: ValueOrd + OrdIsValueOrd>(a: &T, b: &T) -> Result<Ordering, Error>
    ensures order { is_content_apart T.content ≡ true → IsContent T.content (T.value_written a.now)
        → IsContent T.content (T.value_written b.now)
        → length (contents T.content (T.value_written a.now))
        ≡ length (contents T.content (T.value_written b.now))
        → result ≡ Ok (T.cmp a.now b.now) }
    ensures refused { IfErr result
        (λ e. Overflows e (size_content T.content (T.value_written a.now))
        (size_content T.content (T.value_written b.now))) }
{
    let order = a.value_cmp(b)?;
    Ok(order)
}

impl<const MAX_SIZE: usize> OrdIsValueOrd for ObjectIdentifier<MAX_SIZE> {
    ghost order = { identifier_order Bound MAX_SIZE };
}

impl<'a> OrdIsValueOrd for &'a str {
    ghost order = { λ v w. octets_order utf8 v.now w.now };
}

impl OrdIsValueOrd for String {
    ghost order = { λ v w. octets_order utf8 (string_bytes v) (string_bytes w) };
}
