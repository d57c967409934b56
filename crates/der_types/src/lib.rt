//! The types of ASN.1 (X.680) as Rust types: numbers, strings, times, bit strings, lists, sets,
//! tagged values, and values of any type.
//!
//! They are decoded and encoded with the traits of `der_core`. Most types have an owned form, such
//! as `OctetString`, and a borrowed one, such as `OctetStringRef`. `asn1` has the names that the
//! Rust crate `der` has in its module of that name, and `laws` has the laws that are proved for the
//! types.
//!
//! # Examples
//!
//! From `tools/guide/facades.rt.txt`:
//!
//! ```rust
//! /// Decodes a BIT STRING and returns its number of bits.
//! fn bit_count(alloc: Global, octets: &[u8]) -> Result<usize> {
//!     let bits = BitString::from_der(alloc, octets)?;
//!     Ok(bits.bit_len())
//! }
//! ```
//!
//! # Dependencies
//!
//! This crate re-exports `der_types_numbers`, `der_types_values`, `der_types_text`,
//! `der_types_sets`, `der_types_tagged` and `der_types_any`. These depend on `der_core`, on
//! `arrayvec`, `bitflags` and `jiff_core` of the kit, and on the standard library.
#![tactic(auto)]

pub mod asn1;
pub mod laws;

pub use asn1::{
    Any, AnyRef, Application, ApplicationRef, AsBitStringRef, AsIntRef, AsUintRef, BitString,
    BitStringIter, BitStringRef, BmpString, ContextSpecific, ContextSpecificRef, GeneralStringRef,
    GeneralizedTime, Ia5String, Ia5StringRef, Int, IntRef, Null, OctetString, OctetStringRef,
    PrintableString, PrintableStringRef, Private, PrivateRef, Sequence, SequenceOf, SequenceOfIter,
    SequenceRef, SetOf, SetOfIter, SetOfRef, SetOfRefIter, SetOfVec, TeletexString,
    TeletexStringRef, Uint, UintRef, UtcTime, Utf8StringRef, VideotexStringRef,
};
pub use der_types_any::types_numbers::{DateTime, const_contains_u8};
pub use der_types_any::types_text::{
    AsciiString, AsciiStringRef, AsciiType, BmpChars, BmpCodepoints, Ia5, Printable, Teletex,
    Videotex,
};
pub use der_types_any::types_values::{AllowedLenBitString, FlagSet, NamedBits};
pub use der_types_sets::making;
pub use der_types_tagged::{ClassField, ClassFieldRef};
