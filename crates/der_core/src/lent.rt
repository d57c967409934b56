//! Fields and rows of fields that a record passes by reference (`lend!`).
//!
//! `LentField` has all operations on a borrowed field, and `LentRow` all operations on a row of
//! them. They have no supertraits. Instead, the impl for each form of field requires traits of the
//! field's type.
//!
//! The reason is the time that a check takes. For each bound of a type parameter, the checker
//! writes evidence for all supertraits as well, and again for each enclosing type. A row costs a
//! fifth of one with the bounds `EncodeFields` and `FieldsOrd`.

ghost use Rattle.std.specs.Prelude.{◌≡◌, true, Ok, IfOk, IfErr};
ghost use Rattle.der_core_coding.specs.CoreHead.Grammar.{plain_option};
ghost use Rattle.der_core_coding.specs.CoreHead.Shapes.{Shape, Value, Body, BodyValue, tagged};
ghost use Rattle.der_core_coding.specs.CoreHead.Shapes.{optional, defaulted, explicit, field, done};
ghost use Rattle.der_core_coding.specs.CoreHead.Shapes.{IsValid, IsBody, begins, octets_of};
ghost use Rattle.der_core_coding.specs.CoreHead.Shapes.{body_octets};
ghost use Rattle.der_core_coding.specs.CoreHead.Reading.{GivesNow};
ghost use Rattle.der_core_coding.specs.CoreHead.Spelling.{is_apart, is_body_apart, body_begins};
ghost use Rattle.der_core_coding.specs.CoreHead.Tags.{implicit_tag};
ghost use Rattle.der_core_coding.specs.CoreHead.Writing.{Writes, size, size_body, write};
ghost use Rattle.der_core_coding.specs.CoreHead.Writing.{write_body};
ghost use Rattle.der_core_coding.specs.CoreOctets.Outputs.{AddsFront, Continues};
ghost use Rattle.der_core.specs.Orders.{bodies_cmp, encodings_cmp, Overflows, StartsWith};

use crate::order::{DerOrd, FirstTag, ValueOrd};
use crate::pairs::FieldsOrd;
use der_core_coding::core_head::{Error, Length, Tag};
use der_core_coding::core_octets::Writer;
use der_core_coding::core_values::{Encode, EncodeValue, FieldRow, FixedTag, Shaped};
use der_core_coding::{DefaultValue, EncodeFields, EncodeRef, Explicit, ImplicitRef, WithDefault};
use std::cmp::Ordering;

/// A field that a record passes by reference.
pub trait LentField {
    /// The shape of the field.
    ghost shape: { Shape };

    /// The value that is encoded for the field.
    ghost written: { Self → Value shape };

    /// Returns the length of the encoding, as `Encode::encoded_len` does.
    ///
    /// # Errors
    ///
    /// - `Overflow`: the encoding has 2^32 bytes or more.
    fn field_len(&self) -> Result<Length, Error>
        ensures { GivesNow (λ l. l.value) result (size shape (written self.now)) };

    /// Encodes the field, as `Encode::encode` does.
    ///
    /// # Errors
    ///
    /// The errors of `Encode::encode`.
    fn encode_field<W: Writer>(&self, writer: &mut W) -> Result<(), Error>
        ensures exact { Writes W.takes_memory (W.out writer.old) (W.out writer.new) result
            (write shape (written self.now)) }
        ensures kept { Continues (W.out writer.old) (W.out writer.new) }
        ensures front { AddsFront (octets_of shape (written self.now)) (W.out writer.old)
            (W.out writer.new) };

    /// Compares two fields, as `DerOrd::der_cmp` does.
    ///
    /// # Errors
    ///
    /// The errors of `DerOrd::der_cmp`.
    fn field_cmp(&self, other: &Self) -> Result<Ordering, Error>
        ensures order { is_apart shape ≡ true → IsValid shape (written self.now)
            → IsValid shape (written other.now)
            → result ≡ Ok (encodings_cmp shape (written self.now) (written other.now)) }
        ensures exact { is_apart shape ≡ true → IfOk result
            (λ o. o ≡ encodings_cmp shape (written self.now) (written other.now)) }
        ensures refused { IfErr result
            (λ e. Overflows e (size shape (written self.now)) (size shape (written other.now))) };

    /// Returns the tag with which the encoding begins, as `FirstTag::first_tag` does.
    fn field_tag(&self) -> Option<Tag>
        ensures { StartsWith (begins shape) result (octets_of shape (written self.now)) };
}

/// A row of fields that a record passes by reference, as nested pairs such as `(A, (B, (C, ())))`.
pub trait LentRow {
    /// The shapes of the fields.
    ghost fields: { Body };

    /// The values that are encoded for the fields.
    ghost fields_written: { Self → BodyValue fields };

    /// Returns the total length of the fields, as `EncodeFields::fields_len` does.
    ///
    /// # Errors
    ///
    /// - `Overflow`: the fields have 2^32 bytes or more.
    fn row_len(&self) -> Result<Length, Error>
        ensures { GivesNow (λ l. l.value) result (size_body fields (fields_written self.now)) };

    /// Encodes the fields, as `EncodeFields::encode_fields` does.
    ///
    /// # Errors
    ///
    /// The errors of `EncodeFields::encode_fields`.
    fn encode_row<W: Writer>(&self, writer: &mut W) -> Result<(), Error>
        ensures exact { Writes W.takes_memory (W.out writer.old) (W.out writer.new) result
            (write_body fields (fields_written self.now)) }
        ensures kept { Continues (W.out writer.old) (W.out writer.new) }
        ensures front { AddsFront (body_octets fields (fields_written self.now))
            (W.out writer.old) (W.out writer.new) };

    /// Compares two rows, as `FieldsOrd::fields_cmp` does.
    ///
    /// # Errors
    ///
    /// The errors of `FieldsOrd::fields_cmp`.
    fn row_cmp(&self, other: &Self) -> Result<Ordering, Error>
        ensures order { is_body_apart fields ≡ true → IsBody fields (fields_written self.now)
            → IsBody fields (fields_written other.now)
            → result ≡ Ok (bodies_cmp fields (fields_written self.now)
            (fields_written other.now)) }
        ensures exact { is_body_apart fields ≡ true → IfOk result
            (λ o. o ≡ bodies_cmp fields (fields_written self.now) (fields_written other.now)) }
        ensures refused { IfErr result
            (λ e. Overflows e (size_body fields (fields_written self.now))
            (size_body fields (fields_written other.now))) };

    /// Returns the tag of the first field that is present, as `FieldsOrd::fields_tag` does.
    fn row_tag(&self) -> Option<Tag>
        ensures { is_body_apart fields ≡ true → StartsWith (body_begins fields) result
            (body_octets fields (fields_written self.now)) };
}

/// A field without a tag of its own is encoded as its value.
impl<'a, T: Encode + DerOrd + FirstTag> LentField for EncodeRef<'a, T> {
    ghost shape = { T.shape };

    ghost written = { λ r. T.written r.0.now };

    #[inline(always)]
    fn field_len(&self) -> Result<Length, Error> {
        self.0.encoded_len()
    }

    #[inline(always)]
    fn encode_field<W: Writer>(&self, writer: &mut W) -> Result<(), Error> {
        self.0.encode(writer)
    }

    fn field_cmp(&self, other: &Self) -> Result<Ordering, Error> {
        self.0.der_cmp(other.0)
    }

    fn field_tag(&self) -> Option<Tag> {
        self.0.first_tag()
    }
}

/// The encoding of a default is empty.
impl<T: DefaultValue + Encode + DerOrd + FirstTag> LentField for WithDefault<T> {
    ghost shape = { defaulted T.shape T.default_octets };

    ghost written = { λ x. T.plain x.value };

    #[inline(always)]
    fn field_len(&self) -> Result<Length, Error> {
        self.encoded_len()
    }

    #[inline(always)]
    fn encode_field<W: Writer>(&self, writer: &mut W) -> Result<(), Error> {
        self.encode(writer)
    }

    fn field_cmp(&self, other: &Self) -> Result<Ordering, Error> {
        self.der_cmp(other)
    }

    fn field_tag(&self) -> Option<Tag> {
        self.first_tag()
    }
}

/// The implicit tag replaces the tag of the value.
impl<'a, T: EncodeValue + ValueOrd + FixedTag, const N: u32> LentField for ImplicitRef<'a, T, N> {
    ghost shape = { tagged (implicit_tag N T.fixed_tag) T.content };

    ghost written = { λ r. T.value_written r.value.now };

    #[inline(always)]
    fn field_len(&self) -> Result<Length, Error> {
        self.encoded_len()
    }

    #[inline(always)]
    fn encode_field<W: Writer>(&self, writer: &mut W) -> Result<(), Error> {
        self.encode(writer)
    }

    fn field_cmp(&self, other: &Self) -> Result<Ordering, Error> {
        self.der_cmp(other)
    }

    fn field_tag(&self) -> Option<Tag> {
        self.first_tag()
    }
}

/// The implicit tag replaces the tag of the value. The encoding of `None` is empty.
impl<'a, T: EncodeValue + ValueOrd + FixedTag, const N: u32> LentField
    for Option<ImplicitRef<'a, T, N>> {
    ghost shape = { optional (tagged (implicit_tag N T.fixed_tag) T.content) };

    ghost written = { plain_option (λ r. T.value_written r.value.now) };

    #[inline(always)]
    fn field_len(&self) -> Result<Length, Error> {
        self.encoded_len()
    }

    #[inline(always)]
    fn encode_field<W: Writer>(&self, writer: &mut W) -> Result<(), Error> {
        self.encode(writer)
    }

    fn field_cmp(&self, other: &Self) -> Result<Ordering, Error> {
        self.der_cmp(other)
    }

    fn field_tag(&self) -> Option<Tag> {
        self.first_tag()
    }
}

/// The explicit tag encloses the value.
impl<'a, T: Encode + DerOrd, const N: u32> LentField for Explicit<EncodeRef<'a, T>, N> {
    ghost shape = { explicit N T.shape };

    ghost written = { λ x. T.written x.value.0.now };

    #[inline(always)]
    fn field_len(&self) -> Result<Length, Error> {
        self.encoded_len()
    }

    #[inline(always)]
    fn encode_field<W: Writer>(&self, writer: &mut W) -> Result<(), Error> {
        self.encode(writer)
    }

    fn field_cmp(&self, other: &Self) -> Result<Ordering, Error> {
        self.der_cmp(other)
    }

    fn field_tag(&self) -> Option<Tag> {
        self.first_tag()
    }
}

/// The explicit tag encloses the value. The encoding of `None` is empty.
impl<'a, T: Encode + DerOrd, const N: u32> LentField for Option<Explicit<EncodeRef<'a, T>, N>> {
    ghost shape = { optional (explicit N T.shape) };

    ghost written = { plain_option (λ x. T.written x.value.0.now) };

    #[inline(always)]
    fn field_len(&self) -> Result<Length, Error> {
        self.encoded_len()
    }

    #[inline(always)]
    fn encode_field<W: Writer>(&self, writer: &mut W) -> Result<(), Error> {
        self.encode(writer)
    }

    fn field_cmp(&self, other: &Self) -> Result<Ordering, Error> {
        self.der_cmp(other)
    }

    fn field_tag(&self) -> Option<Tag> {
        self.first_tag()
    }
}

impl LentRow for () {
    ghost fields = { done };

    ghost fields_written = { λ x. x };

    #[inline(always)]
    fn row_len(&self) -> Result<Length, Error> {
        self.fields_len()
    }

    #[inline(always)]
    fn encode_row<W: Writer>(&self, writer: &mut W) -> Result<(), Error> {
        self.encode_fields(writer)
    }

    fn row_cmp(&self, other: &Self) -> Result<Ordering, Error> {
        self.fields_cmp(other)
    }

    fn row_tag(&self) -> Option<Tag> {
        self.fields_tag()
    }
}

/// A borrowed field as a value that implements `Encode`, `DerOrd` and `FirstTag`.
#[derive(Drop)]
pub(crate) struct FieldOf<'a, F>(pub(crate) &'a F);

impl<'a, F: LentField> Shaped for FieldOf<'a, F> {
    ghost shape = { F.shape };

    ghost plain = { λ f. F.written f.0.now };

    ghost written = { λ f. F.written f.0.now };
}

impl<'a, F: LentField> Encode for FieldOf<'a, F> {
    #[inline(always)]
    fn encoded_len(&self) -> Result<Length, Error> {
        self.0.field_len()
    }

    #[inline(always)]
    fn encode<W: Writer>(&self, writer: &mut W) -> Result<(), Error> {
        self.0.encode_field(writer)
    }
}

impl<'a, F: LentField> DerOrd for FieldOf<'a, F> {
    fn der_cmp(&self, other: &Self) -> Result<Ordering, Error> {
        self.0.field_cmp(other.0)
    }
}

impl<'a, F: LentField> FirstTag for FieldOf<'a, F> {
    fn first_tag(&self) -> Option<Tag> {
        self.0.field_tag()
    }
}

/// A borrowed row as fields that implement `EncodeFields` and `FieldsOrd`.
#[derive(Drop)]
pub(crate) struct RowOf<'a, R>(pub(crate) &'a R);

impl<'a, R: LentRow> FieldRow for RowOf<'a, R> {
    ghost fields = { R.fields };

    ghost fields_plain = { λ r. R.fields_written r.0.now };

    ghost fields_written = { λ r. R.fields_written r.0.now };
}

impl<'a, R: LentRow> EncodeFields for RowOf<'a, R> {
    #[inline(always)]
    fn fields_len(&self) -> Result<Length, Error> {
        self.0.row_len()
    }

    #[inline(always)]
    fn encode_fields<W: Writer>(&self, writer: &mut W) -> Result<(), Error> {
        self.0.encode_row(writer)
    }
}

impl<'a, R: LentRow> FieldsOrd for RowOf<'a, R> {
    fn fields_cmp(&self, other: &Self) -> Result<Ordering, Error> {
        self.0.row_cmp(other.0)
    }

    fn fields_tag(&self) -> Option<Tag> {
        self.0.row_tag()
    }
}

/// The first field comes before the others.
impl<A: LentField, B: LentRow> LentRow for (A, B) {
    ghost fields = { field A.shape B.fields };

    ghost fields_written = { λ x. (A.written x.0, B.fields_written x.1) };

    #[tactic(auto, unfolding(crate::specs::Opened::both_len))]
    fn row_len(&self) -> Result<Length, Error> {
        let first = self.0.field_len()?;
        let others = self.1.row_len()?;
        first + others
    }

    #[tactic(auto, using(crate::proofs::Cited::first_added, crate::proofs::Cited::value_then_added), unfolding(crate::specs::Opened::body_octets))]
    fn encode_row<W: Writer>(&self, writer: &mut W) -> Result<(), Error> {
        self.0.encode_field(writer)?;
        self.1.encode_row(writer)
    }

    fn row_cmp(&self, other: &Self) -> Result<Ordering, Error> {
        let row = (FieldOf(&self.0), RowOf(&self.1));
        row.fields_cmp(&(FieldOf(&other.0), RowOf(&other.1)))
    }

    fn row_tag(&self) -> Option<Tag> {
        (FieldOf(&self.0), RowOf(&self.1)).fields_tag()
    }
}
