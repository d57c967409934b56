//! Records, which are SEQUENCEs of fields (X.690 8.9). A type passes its fields as borrowed rows.

ghost use Rattle.std.specs.Prelude.{◌≡◌, true, Ok, IfOk, IfErr};
ghost use Rattle.der_core_coding.specs.CoreHead.declared.tag.Tag.TheVariants.{Sequence};
ghost use Rattle.der_core_coding.specs.CoreHead.Shapes.{Body, BodyValue, IsBody, body_octets};
ghost use Rattle.der_core_coding.specs.CoreHead.Shapes.{nested};
ghost use Rattle.der_core_coding.specs.CoreHead.Reading.{GivesNow};
ghost use Rattle.der_core_coding.specs.CoreHead.Writing.{Writes, size_body, write_body};
ghost use Rattle.der_core_coding.specs.CoreHead.Spelling.{is_body_apart};
ghost use Rattle.der_core_coding.specs.CoreOctets.Outputs.{AddsFront, Continues};
ghost use Rattle.der_core.specs.Orders.{bodies_cmp, Overflows};

use crate::lent::{LentRow, RowOf};
use crate::order::{OrderWay, Ordered};
use crate::pairs::FieldsOrd;
use der_core_coding::EncodeFields;
use der_core_coding::core_head::{Error, Length, Tag};
use der_core_coding::core_octets::{Header, Reader, Writer};
use der_core_coding::core_values::describing::{AsReadWay, DecodeWay, Described, TagWay, Way};
use der_core_coding::core_values::{AsReadFields, DecodeFields, Fields, read_fields};
use std::alloc::Global;
use std::cmp::Ordering;

/// Passes the fields of two values, as two borrowed rows, to a user of rows:
/// `lend!(self, other, user; first, second)`.
///
/// A field with a tag or a default states its form: `third: default`, or `implicit 0` or
/// `explicit 0`, alone or followed by `default` or `optional`.
#[macro_export]
macro_rules! lend {
    (@row) => { () };
    (@row $field:expr $(, $more:expr)*) => {
        ($field, $crate::lend!(@row $($more),*))
    };
    (@field $of:expr, $field:ident) => { $crate::EncodeRef(&$of.$field) };
    (@field $of:expr, $field:ident default) => { $crate::WithDefault { value: $of.$field } };
    (@field $of:expr, $field:ident implicit $n:literal default) => {
        $crate::WithDefault { value: $crate::Implicit::<_, $n> { value: $of.$field } }
    };
    (@field $of:expr, $field:ident explicit $n:literal default) => {
        $crate::WithDefault { value: $crate::Explicit::<_, $n> { value: $of.$field } }
    };
    (@field $of:expr, $field:ident implicit $n:literal optional) => {
        $crate::making::implicit_ref::<_, $n>(&$of.$field)
    };
    (@field $of:expr, $field:ident explicit $n:literal optional) => {
        $crate::making::explicit_ref::<_, $n>(&$of.$field)
    };
    (@field $of:expr, $field:ident implicit $n:literal) => {
        $crate::ImplicitRef::<_, $n> { value: &$of.$field }
    };
    (@field $of:expr, $field:ident explicit $n:literal) => {
        $crate::Explicit::<_, $n> { value: $crate::EncodeRef(&$of.$field) }
    };
    ($value:expr, $other:expr, $user:expr;
        $($field:ident $(: $form:ident $($n:literal $($kind:ident)?)?)?),+ $(,)?) => {
        $user.take_lent(
            &$crate::lend!(@row
                $($crate::lend!(@field $value, $field $($form $($n $($kind)?)?)?)),+),
            &$crate::lend!(@row
                $($crate::lend!(@field $other, $field $($form $($n $($kind)?)?)?)),+),
        )
    };
}

/// The pattern of a row of fields: `let row!(first, second) = DecodeRow::decode_row(..)?`.
#[macro_export]
macro_rules! row {
    () => { () };
    ($field:pat $(, $more:pat)*) => {
        ($field, $crate::row!($($more),*))
    };
}

/// Decodes the fields of a record and builds it. The fields are written as in `lend!`:
/// `read_row!(alloc, reader; Point { x, y: implicit 0 optional })`.
#[macro_export]
macro_rules! read_row {
    (@pattern $field:ident) => { $crate::describing::Whole($field) };
    (@pattern $field:ident default) => { $crate::WithDefault { value: $field } };
    (@pattern $field:ident implicit $n:literal default) => {
        $crate::WithDefault { value: $crate::Implicit::<_, $n> { value: $field } }
    };
    (@pattern $field:ident explicit $n:literal default) => {
        $crate::WithDefault { value: $crate::Explicit::<_, $n> { value: $field } }
    };
    (@pattern $field:ident implicit $n:literal) => { $crate::Implicit::<_, $n> { value: $field } };
    (@pattern $field:ident explicit $n:literal) => { $crate::Explicit::<_, $n> { value: $field } };
    (@pattern $field:ident $form:ident $n:literal optional) => { $field };
    (@value $field:ident implicit $n:literal optional) => {
        $crate::making::implicit_of::<_, $n>($field)
    };
    (@value $field:ident explicit $n:literal optional) => {
        $crate::making::explicit_of::<_, $n>($field)
    };
    (@value $field:ident $($form:tt)*) => { $field };
    ($alloc:expr, $reader:expr; $record:ident {
        $($field:ident $(: $form:ident $($n:literal $($kind:ident)?)?)?),+ $(,)?
    }) => {{
        let $crate::row!(
            $($crate::read_row!(@pattern $field $($form $($n $($kind)?)?)?)),+
        ) = $crate::describing::ReadRow::read_row($alloc, $reader)?;
        Ok($record {
            $($field: $crate::read_row!(@value $field $($form $($n $($kind)?)?)?)),+
        })
    }};
}

/// An operation on the fields of two values, each of which is passed as a borrowed row.
pub trait RowUser {
    /// The result of the operation.
    type Answer;

    /// The relation of an answer to the fields: their description, the fields that are encoded for
    /// each value, and the user before and after.
    ghost answers: { (b : Body) → BodyValue b → BodyValue b → Self → Self → Self.Answer → Type 0 };

    /// Receives the two rows.
    fn take<Row: EncodeFields + FieldsOrd>(&mut self, row: &Row, other: &Row) -> Self::Answer
        ensures { answers Row.fields (Row.fields_written row.now) (Row.fields_written other.now)
            self.old self.new result };

    /// Receives two borrowed rows, as `lend!` makes them.
    final fn take_lent<Row: LentRow>(&mut self, row: &Row, other: &Row) -> Self::Answer
        // The clause holds for any values that the rows are known to encode.
        ensures { (v w : BodyValue Row.fields) → Row.fields_written row.now ≡ v
            → Row.fields_written other.now ≡ w
            → answers Row.fields v w self.old self.new result }
    {
        self.take(&RowOf(row), &RowOf(other))
    }
}

/// Encodes the fields of the first value.
impl<W: Writer> RowUser for W {
    type Answer = Result<(), Error>;

    ghost answers = { λ b v _ old new result. Writes W.takes_memory (W.out old) (W.out new) result
        (write_body b v) × Continues (W.out old) (W.out new)
        × AddsFront (body_octets b v) (W.out old) (W.out new) };

    #[inline(always)]
    fn take<Row: EncodeFields + FieldsOrd>(
        &mut self,
        row: &Row,
        _other: &Row,
    ) -> Result<(), Error> {
        row.encode_fields(self)
    }
}

/// Counts the bytes of the fields of the first value.
#[derive(Drop)]
struct Counting;

impl RowUser for Counting {
    type Answer = Result<Length, Error>;

    ghost answers = { λ b v _ _ _ result. GivesNow (λ l. l.value) result (size_body b v) };

    #[inline(always)]
    fn take<Row: EncodeFields + FieldsOrd>(
        &mut self,
        row: &Row,
        _other: &Row,
    ) -> Result<Length, Error> {
        row.fields_len()
    }
}

/// Compares the fields of the two values.
#[derive(Drop)]
struct Comparing;

impl RowUser for Comparing {
    type Answer = Result<Ordering, Error>;

    ghost answers = { λ b v w _ _ result. (is_body_apart b ≡ true → IsBody b v → IsBody b w
        → result ≡ Ok (bodies_cmp b v w))
        × (is_body_apart b ≡ true → IfOk result (λ o. o ≡ bodies_cmp b v w))
        × IfErr result (λ e. Overflows e (size_body b v) (size_body b w)) };

    #[inline(always)]
    fn take<Row: EncodeFields + FieldsOrd>(
        &mut self,
        row: &Row,
        other: &Row,
    ) -> Result<Ordering, Error> {
        row.fields_cmp(other)
    }
}

/// A type that is a SEQUENCE of its fields.
pub trait Rows: Fields {
    /// Passes the fields of two values to a user of rows, each value as a borrowed row (`lend!`).
    fn with_rows<U: RowUser>(&self, other: &Self, user: &mut U) -> U::Answer
        ensures { U.answers Self.fields (Self.fields_written self.now)
            (Self.fields_written other.now) user.old user.new result };

    /// The first tags of the fields are unambiguous.
    ghost apart: { is_body_apart Self.fields ≡ true };
}

/// Describes a type as a SEQUENCE of its fields (X.690 8.9). Values are compared field by field.
pub struct AsRecord;

impl<T: Rows> Way<T> for AsRecord {
    ghost content_by = { nested T.fields };

    ghost plain_by = { T.fields_plain };

    ghost written_by = { T.fields_written };

    #[inline(always)]
    fn len_by(value: &T) -> Result<Length, Error> {
        value.with_rows(value, &mut Counting)
    }

    #[inline(always)]
    #[tactic(auto, unfolding(crate::specs::Opened::contents))]
    fn encode_by<W: Writer>(value: &T, writer: &mut W) -> Result<(), Error> {
        value.with_rows(value, writer)
    }

    ghost apart_by = { T.apart };
}

impl<T> TagWay<T> for AsRecord {
    ghost tag_by = { Sequence };

    fn tag_of() -> Tag {
        Tag::Sequence
    }
}

impl<'a, R: Reader<'a>, T: Rows + DecodeFields<'a, R> + Drop> DecodeWay<'a, R, T> for AsRecord {
    fn decode_by(alloc: Global, reader: &mut R, header: Header) -> Result<T, Error> {
        read_fields(alloc, reader, header)
    }
}

impl<T: Rows + AsReadFields> AsReadWay<T> for AsRecord {
    ghost as_read_by = { T.as_read_fields };
}

/// Compares field after field.
impl<T: Rows> OrderWay<T> for AsRecord {
    #[tactic(auto, unfolding(crate::specs::Opened::contents, crate::specs::Opened::IsContent))]
    fn cmp_by(value: &T, other: &T) -> Result<Ordering, Error> {
        value.with_rows(other, &mut Comparing)
    }
}

/// Records are compared as their description says.
impl<T: Rows + Described> Ordered for T {}
