//! Descriptions of types. A type names its description (`Described`), and implements the traits
//! that this description requires:
//!
//! - `AsRecord`, a SEQUENCE of fields: `FieldsView`, `DecodeFields` (which decodes a row by
//!   `read_row!`) and `Rows` (which passes rows by reference, with `lend!`).
//! - `AsField<F>`, a type of one field: `From<F>` and `Wraps<F>`.
//! - `AsOctets`, a content whose bytes a value stores: `FixedTag`, `Primitive`, `Leaf` and
//!   `Octets`.
//! - `AsLeaf`, another content that isn't a sequence of values: `FixedTag`, `Primitive`, `Leaf` and
//!   `EncodeLeaf`.
//! - `AsInteger`, an integer of at most 128 bits: `Integer`.
//! - `AsNumbered`, a type whose values have numbers of eight bits: `Numbered`. `AsEnumerated` is
//!   the same with the tag ENUMERATED.
//!
//! Records are compared field by field. Another type implements `Ordered`, or `ValueOrd` itself. If
//! the description doesn't know that all values are in range, the type implements `InRangeValue`.

pub use crate::lent::{LentField, LentRow};
pub use crate::order::{OrderWay, Ordered};
pub use crate::read::{ReadField, ReadRow, Whole};
pub use crate::read_cases::ReadCase;
pub use crate::records::{AsRecord, RowUser, Rows};
pub use der_core_coding::core_values::describing::{
    AsEnumerated, AsField, AsInteger, AsLeaf, AsNumbered, AsOctets, DecodeWay, Described,
    EncodeLeaf, Numbered, Octets, Primitive, TagWay, Wraps,
};
pub use der_core_coding::core_values::{DecodeRow, FieldRow, FieldsView};
