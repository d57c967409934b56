//! Decoding and encoding of whole values, readers and writers of slices, tags around values,
//! defaults, rows of fields, and the members of sets in order. Users import the items of this crate
//! from `der_core`.
#![tactic(auto)]

mod behind;
mod encode;
mod encode_ref;
mod explicit;
mod implicit;
mod kinds;
mod pairs;
mod reading;
mod set_of;
mod slice_reader;
mod slice_writer;
mod sliced;
mod slices;
mod tagged;
mod tagged_fields;
mod tagging;
mod whole;
mod with_default;

pub use behind::{encode_behind, len_behind};
pub use encode::ToDer;
pub use encode_ref::EncodeRef;
pub use explicit::Explicit;
pub use implicit::{Implicit, ImplicitRef};
pub use kinds::{DefaultContent, DefaultNumber, DefaultValue, DefaultWay, is_small, is_zero};
pub use pairs::EncodeFields;
pub use reading::{Reading, optional_explicit, optional_implicit, read_explicit};
pub use set_of::{read_ascending, read_rising};
pub use slice_reader::SliceReader;
pub use slice_writer::SliceWriter;
pub use sliced::decode_sliced;
pub use slices::{encode_value_to_slice, value_header};
pub use tagged::{EncodeValueRef, IsConstructed, Tagged};
pub use tagged_fields::{explicit_of, explicit_ref, implicit_of, implicit_ref};
pub use tagging::{encode_explicit, encode_implicit, encode_tagged};
pub use whole::{FromDer, leaf_from_der, read_whole};
pub use with_default::WithDefault;

/// The names of `der_core_head` that the crates above use.
pub mod core_head {
    pub use der_core_values::core_head::{
        CLASS_APPLICATION, CLASS_CONTEXT_SPECIFIC, CLASS_PRIVATE, CLASS_UNIVERSAL, Class,
        EncodingRules, Error, ErrorKind, Length, MAX_LEVELS, Result, Tag, TagMode, TagNumber,
        header_len, is_constructed, is_same_tag, laws, leading_octet_of, number_of, short_tag_of,
        tag_of, tag_of_class,
    };
}

/// The names of `der_core_octets` that the crates above use.
pub mod core_octets {
    pub use der_core_values::core_octets::{
        BytesOwned, BytesRef, Header, Reader, StringOwned, StringRef, Writer, encode_header,
        encode_length, encode_tag, has_redundant_octet, header_ber_of, header_of,
        indefinite_length_of, integer_octets_of, laws, length_of, lone_length_of, peek_matches,
        signed_of, slice_len, tag_ber_of, unsigned_of,
    };
}

/// The names of `der_core_values` that the crates above use.
pub mod core_values {
    pub use der_core_values::{
        ApartValue, AsRead, AsReadFields, AsReadValue, Choice, Decode, DecodeFields, DecodeRow,
        DecodeValue, Element, Encode, EncodeValue, FieldRow, Fields, FieldsView, FixedTag, InRange,
        InRangeFields, InRangeValue, Integer, Leaf, Member, OneOf2, OneOf3, OneOf4, OneOf5, OneOf6,
        OneOf7, OneOf8, OneOf9, Shaped, ShapedValue, decode_leaf, decode_leaf_of_tag,
        decode_octets, describing, encode_members, list_in_range, members_len, octets_in_range,
        read_content, read_fields, text_in_range,
    };
}

/// The names of `const_oid` that the crates above use.
pub mod oid {
    pub use der_core_values::oid::{AssociatedOid, Error, ObjectIdentifier};
}
