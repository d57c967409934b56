//! The base of the DER crates: errors, lengths and tags, and the definitions and laws of decoding
//! and encoding DER (X.690). Users import its items from `der_core`.
#![tactic(auto)]

mod class;
mod encoding_rules;
mod error;
pub mod laws;
mod length;
mod limits;
mod tag;
mod tag_mode;
mod tag_number;
mod tag_octets;

pub use class::{CLASS_APPLICATION, CLASS_CONTEXT_SPECIFIC, CLASS_PRIVATE, CLASS_UNIVERSAL, Class};
pub use encoding_rules::EncodingRules;
pub use error::{Error, ErrorKind, Result};
pub use length::{Length, header_len};
pub use limits::MAX_LEVELS;
pub use tag::{Tag, is_constructed, is_same_tag, leading_octet_of, number_of};
pub use tag_mode::TagMode;
pub use tag_number::TagNumber;
pub use tag_octets::{short_tag_at, short_tag_of, tag_of, tag_of_class};

/// The names of `const_oid` that the crates above use.
pub mod oid {
    pub use const_oid::{AssociatedOid, Error, ObjectIdentifier};
}
