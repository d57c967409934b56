//! Comparison of values by their encodings.

ghost use Rattle.std.specs.Prelude.{◌≡◌, true, Ok, IfOk, IfErr};
ghost use Rattle.der_core_coding.specs.CoreHead.Shapes.{IsValid, IsContent, tagged, octets_of};
ghost use Rattle.der_core_coding.specs.CoreHead.Shapes.{begins};
ghost use Rattle.der_core_coding.specs.CoreHead.Spelling.{is_apart, is_content_apart};
ghost use Rattle.der_core_coding.specs.CoreHead.Writing.{size, size_content};
ghost use Rattle.der_core.specs.Orders.{octets_cmp, encodings_cmp, contents_cmp, Overflows};
ghost use Rattle.der_core.specs.Orders.{StartsWith};

use crate::headers::{length_cmp, tag_cmp};
use der_core_coding::core_head::{Error, Tag, number_of};
use der_core_coding::core_values::describing::{Described, Way};
use der_core_coding::core_values::{EncodeValue, FixedTag, Shaped, ShapedValue};
use std::cmp::Ordering;

/// A type whose values are compared by their contents, which are the bytes after the header.
pub trait ValueOrd: ShapedValue {
    /// Compares the contents of two values as lists of bytes, whatever their lengths are. For types
    /// whose first tags are unambiguous, a result is the order of the contents even if the values
    /// aren't valid, for example because a number is out of range.
    ///
    /// # Errors
    ///
    /// - `Overflow`: only if the content of one of the two has 2^32 bytes or more. Such values may
    ///   also be compared, if a difference before decides.
    fn value_cmp(&self, other: &Self) -> Result<Ordering, Error>
        // If both contents are valid, there is a result.
        ensures order { is_content_apart Self.content ≡ true
            → IsContent Self.content (Self.value_written self.now)
            → IsContent Self.content (Self.value_written other.now)
            → result
            ≡ Ok
            (contents_cmp Self.content (Self.value_written self.now)
            (Self.value_written other.now)) }
        ensures exact { is_content_apart Self.content ≡ true
            → IfOk result (λ o. o ≡ contents_cmp Self.content (Self.value_written self.now)
            (Self.value_written other.now)) }
        ensures refused { IfErr result
            (λ e. Overflows e (size_content Self.content (Self.value_written self.now))
            (size_content Self.content (Self.value_written other.now))) };
}

/// A way of coding (`Way`) that also compares contents as lists of bytes (X.690 11.6).
pub trait OrderWay<T>: Way<T> {
    /// Compares the contents of two values, as lists of bytes.
    ///
    /// # Errors
    ///
    /// The errors of `ValueOrd::value_cmp`.
    fn cmp_by(value: &T, other: &T) -> Result<Ordering, Error>
        ensures order { is_content_apart Self.content_by ≡ true
            → IsContent Self.content_by (Self.written_by value.now)
            → IsContent Self.content_by (Self.written_by other.now)
            → result
            ≡ Ok
            (contents_cmp Self.content_by (Self.written_by value.now)
            (Self.written_by other.now)) }
        ensures exact { is_content_apart Self.content_by ≡ true
            → IfOk result (λ o. o ≡ contents_cmp Self.content_by (Self.written_by value.now)
            (Self.written_by other.now)) }
        ensures refused { IfErr result
            (λ e. Overflows e (size_content Self.content_by (Self.written_by value.now))
            (size_content Self.content_by (Self.written_by other.now))) };
}

/// A marker for types whose values are compared by their way of coding (`Described::By`). Such a
/// type implements `ValueOrd`.
pub trait Ordered: Described {}

impl<T: Ordered> ValueOrd for T
where
    T::By: OrderWay<T>,
{
    fn value_cmp(&self, other: &Self) -> Result<Ordering, Error> {
        <T::By as OrderWay<T>>::cmp_by(self, other)
    }
}

/// A type whose values are compared by their whole encodings (X.690 11.6).
pub trait DerOrd: Shaped {
    /// Compares the encodings of two values as lists of bytes. It doesn't allocate. For types whose
    /// first tags are unambiguous, a result is the order of the encodings even if the values aren't
    /// valid, for example because a number is out of range.
    ///
    /// # Errors
    ///
    /// - `Overflow`: only if the encoding of one of the two has 2^32 bytes or more. Such values may
    ///   also be compared, if a difference before decides.
    fn der_cmp(&self, other: &Self) -> Result<Ordering, Error>
        // If both values are valid, there is a result.
        ensures order { is_apart Self.shape ≡ true → IsValid Self.shape (Self.written self.now)
            → IsValid Self.shape (Self.written other.now)
            → result
            ≡ Ok (encodings_cmp Self.shape (Self.written self.now) (Self.written other.now)) }
        ensures exact { is_apart Self.shape ≡ true → IfOk result
            (λ o. o ≡ encodings_cmp Self.shape (Self.written self.now) (Self.written other.now)) }
        ensures refused { IfErr result
            (λ e. Overflows e (size Self.shape (Self.written self.now))
            (size Self.shape (Self.written other.now))) };
}

/// A type that returns the first tag of a value's encoding.
pub trait FirstTag: Shaped {
    /// Returns the tag with which the encoding begins, or `None` if the encoding is empty, as for
    /// an absent option or a default.
    fn first_tag(&self) -> Option<Tag>
        ensures { StartsWith (begins Self.shape) result
            (octets_of Self.shape (Self.written self.now)) };
}

/// Compares the encodings of two contents with these tags: first the headers, and then the
/// contents. For types whose first tags are unambiguous, a result is the order of the encodings
/// even if the contents aren't valid, for example because a number is out of range.
///
/// # Errors
///
/// - `Overflow`: only if one of the two encodings has 2^32 bytes or more. Such values may also be
///   compared, if a difference before decides.
pub fn cmp_behind<T: EncodeValue + ValueOrd>(
    tag: Tag,
    value: &T,
    other_tag: Tag,
    other: &T,
) -> Result<Ordering, Error>
    ensures order { is_content_apart T.content ≡ true
        → IsValid (tagged tag T.content) (T.value_written value.now)
        → IsValid (tagged other_tag T.content) (T.value_written other.now)
        → result
        ≡ Ok (octets_cmp (octets_of (tagged tag T.content) (T.value_written value.now))
        (octets_of (tagged other_tag T.content) (T.value_written other.now))) }
    ensures exact { is_content_apart T.content ≡ true → IfOk result
        (λ o. o ≡ octets_cmp (octets_of (tagged tag T.content) (T.value_written value.now))
        (octets_of (tagged other_tag T.content) (T.value_written other.now))) }
    ensures refused { IfErr result
        (λ e. Overflows e (size (tagged tag T.content) (T.value_written value.now))
        (size (tagged other_tag T.content) (T.value_written other.now))) }
{
    let len = value.value_len()?;
    let other_len = other.value_len()?;
    let headers = tag_cmp(tag, other_tag).then(length_cmp(len, other_len));
    if headers.is_ne() {
        return Ok(headers);
    }
    let contents = value.value_cmp(other)?;
    Ok(contents)
}

/// Compares the headers, which have the tag of the type, and then the contents.
impl<T: ValueOrd + EncodeValue + FixedTag> DerOrd for T {
    fn der_cmp(&self, other: &Self) -> Result<Ordering, Error> {
        cmp_behind(T::tag(), self, T::tag(), other)
    }
}

impl<T: ValueOrd + FixedTag> FirstTag for T {
    fn first_tag(&self) -> Option<Tag> {
        let tag = T::tag();
        // This call is only for the proof: its result is a `u32`, so the number of the tag is in
        // range.
        let _number = number_of(tag);
        Some(tag)
    }
}
