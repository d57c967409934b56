//! Values of any type (`Any`, `AnyRef`), and their conversions to and from other types. Users
//! import the items of this crate from `der_types`.
#![tactic(auto)]

mod any;
mod any_in_range;
mod any_ref;
mod conversions;
mod dates;
mod elements;
pub mod laws;
mod numbers;
mod texts;
mod values;

pub use any::Any;
pub use any_ref::AnyRef;

/// The names of `der_types_numbers` that the crates above use.
pub mod types_numbers {
    pub use der_types_numbers::{
        AsIntRef, AsUintRef, DateTime, GeneralizedTime, Int, IntRef, Uint, UintRef, UtcTime,
        const_contains_u8, laws, time_laws,
    };
}

/// The names of `der_types_text` that the crates above use.
pub mod types_text {
    pub use der_types_text::{
        AsciiString, AsciiStringRef, AsciiType, BmpChars, BmpCodepoints, BmpString,
        GeneralStringRef, Ia5, Ia5String, Ia5StringRef, Printable, PrintableString,
        PrintableStringRef, Teletex, TeletexString, TeletexStringRef, Utf8StringRef, Videotex,
        VideotexStringRef, laws,
    };
}

/// The names of `der_types_values` that the crates above use.
pub mod types_values {
    pub use der_types_values::{
        AllowedLenBitString, AsBitStringRef, BitString, BitStringIter, BitStringRef, FlagSet,
        NamedBits, Null, OctetString, OctetStringRef, Sequence, SequenceRef, laws,
    };
}
