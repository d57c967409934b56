//! The character string types of ASN.1. Users import the items of this crate from `der_types`.
#![tactic(auto)]

mod ascii_string;
mod ascii_string_ref;
mod ascii_type;
mod bmp_chars;
mod bmp_string;
mod general_string;
mod ia5_string;
pub mod laws;
mod printable_string;
mod teletex_string;
mod utf8_string;
mod videotex_string;

pub use ascii_string::AsciiString;
pub use ascii_string_ref::AsciiStringRef;
pub use ascii_type::AsciiType;
pub use bmp_chars::{BmpChars, BmpCodepoints};
pub use bmp_string::BmpString;
pub use general_string::GeneralStringRef;
pub use ia5_string::{Ia5, Ia5String, Ia5StringRef};
pub use printable_string::{Printable, PrintableString, PrintableStringRef};
pub use teletex_string::{Teletex, TeletexString, TeletexStringRef};
pub use utf8_string::Utf8StringRef;
pub use videotex_string::{Videotex, VideotexStringRef};

/// The names of `der_core` that the crates above use.
pub mod der {
    pub use der_core::{
        AsRead, Choice, Decode, DecodeValue, DerOrd, Element, Encode, EncodeValue, EncodingRules,
        Error, ErrorKind, FirstTag, FixedTag, Header, InRange, Integer, Length, Member, Reader,
        Shaped, SliceReader, Tag, Writer, making,
    };
}

/// The names of `const_oid` that the crates above use.
pub mod oid {
    pub use der_core::oid::ObjectIdentifier;
}
