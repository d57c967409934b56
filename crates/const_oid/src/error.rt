//! Errors of decoding, parsing and building object identifiers.

use std::fmt;

/// An arc of an object identifier.
pub type Arc = u128;

/// The reason why bytes, a text or arcs aren't an object identifier.
#[derive(Clone, Copy, Debug, PartialEq, Eq)]
pub enum Error {
    /// The first arc is above 2, or the second arc is above 39.
    ArcInvalid {
        /// The arc.
        arc: Arc,
    },
    /// An arc is 2^128 or more.
    ArcTooBig,
    /// An arc begins with the byte `0x80`, or its last byte is missing.
    Base128,
    /// A byte of a text isn't a digit, but a digit is required.
    DigitExpected {
        /// The byte.
        actual: u8,
    },
    /// There are no bytes, there is no text, or there are fewer than two arcs.
    Empty,
    /// The encoding has more bytes than the capacity.
    Length,
    /// Never returned. The Rust crate `const-oid` has this variant.
    Overflow,
    /// A dot follows a dot.
    RepeatedDot,
    /// The text ends with a dot.
    TrailingDot,
}

/// The result of a call that may return one of these errors.
pub type Result<T> = std::result::Result<T, Error>;

impl fmt::Display for Error {
    fn fmt<W: fmt::Write>(&self, f: &mut fmt::Formatter<W>) -> fmt::Result {
        match self {
            Error::ArcInvalid { arc } => write!(f, "OID contains out-of-range arc: {arc}"),
            Error::ArcTooBig => f.write_str("OID contains arc which is larger than 128-bits"),
            Error::Base128 => f.write_str("OID contains arc with invalid base 128 encoding"),
            Error::DigitExpected { actual } => {
                write!(f, "expected digit, got '{}'", char::from(*actual))
            }
            Error::Empty => f.write_str("OID value is empty"),
            Error::Length => f.write_str("OID length invalid"),
            Error::Overflow => f.write_str("internal calculation overflowed"),
            Error::RepeatedDot => f.write_str("repeated consecutive '..' characters in OID"),
            Error::TrailingDot => f.write_str("OID ends with invalid trailing '.'"),
        }
    }
}

impl std::error::Error for Error {}
