//! Abstract values of types, the traits that decode and encode them, and the types of the language
//! that implement these traits. Users import the items of this crate from `der_core`.
#![tactic(auto)]

mod absent;
mod arrays;
mod boolean;
mod boxes;
mod bytes;
mod decode;
pub mod describing;
mod elements;
mod encode;
mod fields;
mod in_range;
mod integers;
mod leaf_ways;
mod leaves;
mod members;
mod now;
mod numbered;
mod object_identifier;
mod one_of_four;
mod one_of_two;
mod options;
mod pairs;
mod unit;
mod utf8_string;
mod vec;
mod ways;
mod wraps;

pub use bytes::decode_octets;
pub use decode::{Choice, Decode, DecodeValue, FixedTag, Shaped, ShapedValue};
pub use elements::{ApartValue, AsRead, AsReadValue, Element, Member};
pub use encode::{Encode, EncodeValue};
pub use fields::{
    AsReadFields, DecodeFields, DecodeRow, FieldRow, Fields, FieldsView, read_fields,
};
pub use in_range::{InRange, InRangeFields, InRangeValue, octets_in_range, text_in_range};
pub use integers::Integer;
pub use leaves::{Leaf, decode_leaf, read_content};
pub use members::{encode_members, members_len};
pub use now::decode_leaf_of_tag;
pub use one_of_four::{OneOf4, OneOf5, OneOf6, OneOf7, OneOf8, OneOf9};
pub use one_of_two::{OneOf2, OneOf3};
pub use vec::list_in_range;

/// The names of `der_core_head` that the crates above use.
pub mod core_head {
    pub use der_core_octets::core_head::{
        CLASS_APPLICATION, CLASS_CONTEXT_SPECIFIC, CLASS_PRIVATE, CLASS_UNIVERSAL, Class,
        EncodingRules, Error, ErrorKind, Length, MAX_LEVELS, Result, Tag, TagMode, TagNumber,
        header_len, is_constructed, is_same_tag, laws, leading_octet_of, number_of, short_tag_of,
        tag_of, tag_of_class,
    };
}

/// The names of `der_core_octets` that the crates above use.
pub mod core_octets {
    pub use der_core_octets::{
        BytesOwned, BytesRef, Header, Reader, StringOwned, StringRef, Writer, encode_header,
        encode_length, encode_tag, has_redundant_octet, header_ber_of, header_of,
        indefinite_length_of, integer_octets_of, laws, length_of, lone_length_of, peek_matches,
        signed_of, slice_len, tag_ber_of, unsigned_of,
    };
}

/// The names of `const_oid` that the crates above use.
pub mod oid {
    pub use der_core_octets::oid::{AssociatedOid, Error, ObjectIdentifier};
}
