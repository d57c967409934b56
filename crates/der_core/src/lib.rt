//! DER and BER (X.690): readers and writers, and the traits that decode, encode and compare values.
//!
//! `FromDer` decodes values from slices, and `ToDer` encodes them. Types of the language, such as
//! `u32`, `String` and `Vec`, implement the traits. `describing` has the descriptions by which a
//! type of your own gets them, and `laws` has the laws that are proved for all types.
//!
//! # Examples
//!
//! From `tools/guide/facades.rt.txt`:
//!
//! ```rust
//! /// Decodes an INTEGER of 32 bits, and returns the encoding of the next number, or of 0.
//! fn next_number(alloc: Global, octets: &[u8]) -> Result<Vec<u8>> {
//!     let number = u32::from_der(alloc, octets)?;
//!     number.wrapping_add(1).to_der(alloc)
//! }
//! ```
//!
//! # Dependencies
//!
//! This crate re-exports `der_core_head`, `der_core_octets`, `der_core_values` and
//! `der_core_coding`, and depends only on them, on `const_oid` and on the standard library.
#![tactic(auto)]

mod absent;
mod arrays;
mod boolean;
mod boxes;
mod by_ord;
mod choices;
mod contents;
mod copies;
pub mod describing;
mod encode_ref;
mod explicit;
mod headers;
mod implicit;
pub mod laws;
mod leaves;
mod lent;
mod lent_cases;
mod lists;
pub mod making;
mod options;
mod order;
mod pairs;
mod read;
mod read_cases;
mod records;
mod strict_set_of;
mod unit;
mod with_default;
mod wrappers;

pub use by_ord::{OrdIsValueOrd, value_cmp_by_ord, value_cmp_is_ord};
pub use der_core_coding::core_head::{
    CLASS_APPLICATION, CLASS_CONTEXT_SPECIFIC, CLASS_PRIVATE, CLASS_UNIVERSAL, Class,
    EncodingRules, Error, ErrorKind, Length, MAX_LEVELS, Result, Tag, TagMode, TagNumber,
    short_tag_of, tag_of,
};
pub use der_core_coding::core_octets::{
    BytesOwned, BytesRef, Header, Reader, StringOwned, StringRef, Writer, encode_length,
    encode_tag, header_ber_of, header_of, indefinite_length_of, length_of, lone_length_of,
    peek_matches, tag_ber_of,
};
pub use der_core_coding::core_values::{
    ApartValue, AsRead, AsReadValue, Choice, Decode, DecodeFields, DecodeValue, Element, Encode,
    EncodeValue, Fields, FixedTag, InRange, InRangeFields, InRangeValue, Integer, Leaf, Member,
    OneOf2, OneOf3, OneOf4, OneOf5, OneOf6, OneOf7, OneOf8, OneOf9, Shaped, ShapedValue,
    decode_octets,
};
pub use der_core_coding::{
    DefaultContent, DefaultNumber, DefaultValue, EncodeFields, EncodeRef, EncodeValueRef, Explicit,
    FromDer, Implicit, ImplicitRef, IsConstructed, Reading, SliceReader, SliceWriter, Tagged,
    ToDer, WithDefault, encode_value_to_slice, value_header,
};
pub use headers::{header_cmp, length_cmp, tag_cmp};
pub use lists::{iter_cmp, iter_cmp_owned};
pub use order::{DerOrd, FirstTag, ValueOrd};
pub use pairs::FieldsOrd;
pub use strict_set_of::StrictSetOf;

/// The names of `const_oid` that the crates above use.
pub mod oid {
    pub use der_core_coding::oid::{AssociatedOid, Error, ObjectIdentifier};
}
