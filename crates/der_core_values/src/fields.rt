//! Values whose content is a series of fields.

ghost use Rattle.std.specs.Prelude.{◌≡◌, refl};
ghost use Rattle.der_core_octets.specs.CoreHead.Shapes.{Body, BodyValue, nested};
ghost use Rattle.der_core_octets.specs.CoreHead.Grammar.{value_at};
ghost use Rattle.der_core_octets.specs.CoreHead.Reading.{Reads, read_body_at, read_content_at};

use der_core_octets::core_head::Error;
use der_core_octets::{Header, Reader};
use std::alloc::Global;

/// The fields of a record or of a list, and the abstract values of the type.
pub trait Fields {
    /// The shapes of the fields.
    ghost fields: { Body };

    /// Maps a value to the abstract values of its fields.
    ghost fields_plain: { Self → BodyValue fields };

    /// The fields that are encoded. They are those of the value itself, unless a profile re-encodes
    /// it.
    ghost fields_written: { Self → BodyValue fields };
}

/// The fields of a type that is encoded as it is decoded, and its abstract values. Such a type
/// implements `Fields`.
pub trait FieldsView {
    /// The shapes of the fields.
    ghost body: { Body };

    /// Maps a value to the abstract values of its fields.
    ghost view: { Self → BodyValue body };
}

impl<T: FieldsView> Fields for T {
    ghost fields = { T.body };

    ghost fields_plain = { T.view };

    ghost fields_written = { T.view };
}

/// A type whose fields are encoded as they are decoded.
pub trait AsReadFields: Fields {
    /// The fields that are encoded are those that were decoded.
    ghost as_read_fields: { (v : Self) → Self.fields_written v ≡ Self.fields_plain v };
}

impl<T: FieldsView> AsReadFields for T {
    ghost as_read_fields = { λ _. refl };
}

/// A type that is decoded as the fields of a record or of a list.
pub trait DecodeFields<'a, R: Reader<'a>>: Fields {
    /// Decodes the next fields. After an error the reader has failed.
    ///
    /// # Errors
    ///
    /// - The first error that decoding meets.
    /// - `OutOfMemory`: memory runs out.
    /// - `Failed`: the reader failed before.
    fn decode_fields(alloc: Global, reader: &mut R) -> Result<Self, Error>
        ensures { Reads Self.fields_plain (R.state reader.old) (R.state reader.new) result
            (read_body_at (R.state reader.old) Self.fields) };
}

/// Nested pairs of fields, such as `(A, (B, ()))`, and their abstract values.
///
/// Rows don't implement `Fields`, because the impl of `Fields` for all types with a view would then
/// be tried at each field.
pub trait FieldRow {
    /// The shapes of the fields.
    ghost fields: { Body };

    /// Maps a value to the abstract values of its fields.
    ghost fields_plain: { Self → BodyValue fields };

    /// The row that is encoded. It is the row itself, unless a profile re-encodes a field.
    ghost fields_written: { Self → BodyValue fields };
}

/// A row that is decoded, field after field.
pub trait DecodeRow<'a, R: Reader<'a>>: FieldRow {
    /// Decodes the next fields. After an error the reader has failed.
    ///
    /// # Errors
    ///
    /// The errors of `DecodeFields::decode_fields`.
    fn decode_row(alloc: Global, reader: &mut R) -> Result<Self, Error>
        ensures { Reads Self.fields_plain (R.state reader.old) (R.state reader.new) result
            (read_body_at (R.state reader.old) Self.fields) };
}

/// Decodes the fields after a header. They must use the whole content.
///
/// # Errors
///
/// - `Incomplete`: there are fewer bytes than the header says.
/// - `NestingDepth`: no further level may be opened.
/// - The first error of the fields.
/// - `TrailingData`: bytes are left after them.
/// - `OutOfMemory`: memory runs out.
pub fn read_fields<'a, R: Reader<'a>, T: DecodeFields<'a, R> + Drop>(
    alloc: Global,
    reader: &mut R,
    header: Header,
) -> Result<T, Error>
    ensures { Reads T.fields_plain (R.state reader.old) (R.state reader.new) result
        (value_at (read_content_at (R.state reader.old) (nested T.fields) header.tag)
        header.length.value) }
{
    let behind = reader.begin_nested(header.length)?;
    let fields = T::decode_fields(alloc, reader);
    reader.end_nested(behind, fields.is_err())?;
    fields
}
