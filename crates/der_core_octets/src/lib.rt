//! The layer between bytes and values: headers and integers (X.690 8.1), readers and writers, and
//! bytes and texts of at most 2^32 - 1 bytes. Users import its items from `der_core`.
#![tactic(auto)]

mod bytes_owned;
mod bytes_ref;
mod encode;
mod fronts;
mod header;
mod heads;
mod indefinite;
mod integers;
pub mod laws;
mod parse;
mod parts;
mod peeks;
mod reader;
mod string_owned;
mod string_ref;
mod writer;

pub use bytes_owned::BytesOwned;
pub use bytes_ref::BytesRef;
pub use encode::{encode_header, encode_length, encode_tag, slice_len};
pub use fronts::{
    any_header_of_tag, header_by, short_header_by_both, short_header_of_tag_by_both,
    short_tag_by_both, tag_by,
};
pub use header::Header;
pub use heads::{header_of, length_of, lone_length_of};
pub use indefinite::{header_ber_of, indefinite_length_of, tag_ber_of};
pub use integers::{has_redundant_octet, integer_octets_of, signed_of, unsigned_of};
pub use peeks::peek_matches;
pub use reader::Reader;
pub use string_owned::StringOwned;
pub use string_ref::StringRef;
pub use writer::Writer;

/// The names of `der_core_head` that the crates above use.
pub mod core_head {
    pub use der_core_head::{
        CLASS_APPLICATION, CLASS_CONTEXT_SPECIFIC, CLASS_PRIVATE, CLASS_UNIVERSAL, Class,
        EncodingRules, Error, ErrorKind, Length, MAX_LEVELS, Result, Tag, TagMode, TagNumber,
        header_len, is_constructed, is_same_tag, laws, leading_octet_of, number_of, short_tag_of,
        tag_of, tag_of_class,
    };
}

/// The names of `const_oid` that the crates above use.
pub mod oid {
    pub use der_core_head::oid::{AssociatedOid, Error, ObjectIdentifier};
}
