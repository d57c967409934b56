//! Comparison of rows of fields.

ghost use Rattle.std.specs.Prelude.{◌≡◌, true, Ok, IfOk, IfErr};
ghost use Rattle.std.specs.Ordering.{ordering_then};
ghost use Rattle.der_core_coding.specs.CoreHead.Shapes.{IsValid, IsBody, body_octets};
ghost use Rattle.der_core_coding.specs.CoreHead.Spelling.{is_apart, is_body_apart, body_begins};
ghost use Rattle.der_core_coding.specs.CoreHead.Writing.{both_len, size, size_body};
ghost use Rattle.der_core.specs.Orders.{encodings_cmp, bodies_cmp, next_cmp, Overflows, StartsWith};

use crate::headers::tag_cmp;
use crate::order::{DerOrd, FirstTag};
use der_core_coding::core_head::{Error, Tag};
use der_core_coding::core_values::FieldRow;
use std::cmp::Ordering;

/// Fields that are compared one after another.
pub trait FieldsOrd: FieldRow {
    /// Compares the concatenated encodings of two rows of fields, as lists of bytes. For types
    /// whose first tags are unambiguous, a result is the order of the encodings even if the fields
    /// aren't valid, for example because a number is out of range.
    ///
    /// # Errors
    ///
    /// - `Overflow`: the fields of one of the two have 2^32 bytes or more.
    fn fields_cmp(&self, other: &Self) -> Result<Ordering, Error>
        // If all fields are valid, there is a result.
        ensures order { is_body_apart Self.fields ≡ true
            → IsBody Self.fields (Self.fields_written self.now)
            → IsBody Self.fields (Self.fields_written other.now)
            → result
            ≡ Ok
            (bodies_cmp Self.fields (Self.fields_written self.now)
            (Self.fields_written other.now)) }
        ensures exact { is_body_apart Self.fields ≡ true
            → IfOk result (λ o. o ≡ bodies_cmp Self.fields (Self.fields_written self.now)
            (Self.fields_written other.now)) }
        ensures refused { IfErr result
            (λ e. Overflows e (size_body Self.fields (Self.fields_written self.now))
            (size_body Self.fields (Self.fields_written other.now))) };

    /// Returns the tag of the first field that is present, or `None` if none is.
    fn fields_tag(&self) -> Option<Tag>
        ensures { is_body_apart Self.fields ≡ true
            → StartsWith (body_begins Self.fields) result
            (body_octets Self.fields (Self.fields_written self.now)) };
}

/// Compares bytes that begin with a tag, or are empty, with bytes that begin with another tag.
pub(crate) fn next_cmp(next: Option<Tag>, tag: Tag) -> Ordering
    ensures { result ≡ next_cmp next tag }
{
    match next {
        Some(next) => tag_cmp(next, tag),
        None => Ordering::Less,
    }
}

/// Compares the first fields, and, if they have the same encoding, the others.
fn row_cmp<A: DerOrd, B: FieldsOrd>(row: &(A, B), other: &(A, B)) -> Result<Ordering, Error>
    ensures order { is_apart A.shape ≡ true → is_body_apart B.fields ≡ true
        → IsValid A.shape (A.written row.now.0) → IsValid A.shape (A.written other.now.0)
        → IsBody B.fields (B.fields_written row.now.1)
        → IsBody B.fields (B.fields_written other.now.1)
        → result
        ≡ Ok
        (ordering_then (encodings_cmp A.shape (A.written row.now.0) (A.written other.now.0))
        (bodies_cmp B.fields (B.fields_written row.now.1) (B.fields_written other.now.1))) }
    ensures exact { is_apart A.shape ≡ true → is_body_apart B.fields ≡ true
        → IfOk result (λ o. o
        ≡ ordering_then (encodings_cmp A.shape (A.written row.now.0) (A.written other.now.0))
        (bodies_cmp B.fields (B.fields_written row.now.1) (B.fields_written other.now.1))) }
    ensures refused { IfErr result
        (λ e. Overflows e
        (both_len (size A.shape (A.written row.now.0))
        (size_body B.fields (B.fields_written row.now.1)))
        (both_len (size A.shape (A.written other.now.0))
        (size_body B.fields (B.fields_written other.now.1)))) }
{
    let first = row.0.der_cmp(&other.0)?;
    if first.is_ne() {
        return Ok(first);
    }
    row.1.fields_cmp(&other.1)
}

impl FieldsOrd for () {
    #[tactic(auto, unfolding(crate::specs::Opened::body_octets))]
    fn fields_cmp(&self, _other: &Self) -> Result<Ordering, Error> {
        Ok(Ordering::Equal)
    }

    #[tactic(auto, unfolding(crate::specs::Opened::body_octets))]
    fn fields_tag(&self) -> Option<Tag> {
        None
    }
}

/// The first field decides, unless its encodings are the same. If only one row has it, it is
/// compared with the first field that the other row has, which begins with another tag.
impl<A: DerOrd + FirstTag, B: FieldsOrd> FieldsOrd for (A, B) {
    fn fields_cmp(&self, other: &Self) -> Result<Ordering, Error> {
        match (self.0.first_tag(), other.0.first_tag()) {
            (None, Some(tag)) => Ok(next_cmp(self.1.fields_tag(), tag)),
            (Some(tag), None) => Ok(next_cmp(other.1.fields_tag(), tag).reverse()),
            (None, None) => self.1.fields_cmp(&other.1),
            (Some(_), Some(_)) => row_cmp(self, other),
        }
    }

    #[tactic(auto, unfolding(crate::specs::Opened::body_octets))]
    fn fields_tag(&self) -> Option<Tag> {
        match self.0.first_tag() {
            Some(tag) => Some(tag),
            None => self.1.fields_tag(),
        }
    }
}
