//! The errors of decoding and encoding.

ghost use Rattle.std.specs.Prelude.{◌≡◌, ◌≢◌, ◌⊎◌, Some, None, IsSome};
ghost use Rattle.der_core_head.specs.declared.error.ErrorKind.TheVariants.{OidMalformed, Overflow};
ghost use Rattle.der_core_head.specs.declared.error.ErrorKind.TheVariants.{OutOfMemory, Utf8};

use crate::length::Length;
use crate::tag::Tag;
use std::alloc::{AllocError, AllocFailed};
use std::fmt;
use std::num::TryFromIntError;
use std::str::Utf8Error;
use std::string::FromUtf8Error;

/// The kinds of errors.
#[derive(Clone, Copy, Debug, PartialEq, Eq)]
pub enum ErrorKind {
    /// A text isn't a date, or the date is before 1970 or after 9999.
    DateTime,
    /// A text isn't the name of encoding rules.
    EncodingRules,
    /// The reader or the writer failed in an earlier call.
    Failed,
    /// The input ends too early.
    Incomplete,
    /// A length is indefinite, which DER doesn't allow.
    IndefiniteLength,
    /// The type with this tag can't have this length, or the length isn't in its shortest form.
    Length { tag: Tag },
    /// There are more levels of nesting than may be open.
    NestingDepth,
    /// A value with this tag isn't encoded in the only form that DER allows.
    Noncanonical { tag: Tag },
    /// The bytes aren't an object identifier.
    OidMalformed,
    /// The caller's protocol doesn't know an object identifier. No function of these crates returns
    /// this error.
    OidUnknown,
    /// An allocation failed.
    OutOfMemory,
    /// A length exceeds 2^32 - 1, or a difference of lengths is negative.
    Overflow,
    /// A length has more than four bytes, or the buffer or list is too small for all bytes or
    /// members.
    Overlength,
    /// The reader doesn't support the operation.
    Reader,
    /// A set contains a member twice.
    SetDuplicate,
    /// A member of a set is less than the one before it.
    SetOrdering,
    /// A text isn't the name of a tag mode.
    TagModeUnknown,
    /// A tag number isn't in its shortest form, or exceeds 32 bits.
    TagNumberInvalid,
    /// The tag isn't the expected one.
    TagUnexpected,
    /// The tag is of the universal class and isn't supported.
    TagUnknown,
    /// There are bytes after the last field or value.
    TrailingData,
    /// A text isn't UTF-8.
    Utf8,
    /// The type with this tag doesn't have this value.
    Value { tag: Tag },
}

/// An error, with its position in the input, if that is known.
#[derive(Clone, Copy, Debug, PartialEq, Eq)]
pub struct Error {
    /// The kind of the error.
    pub kind: ErrorKind,
    /// The index of the byte at which the error was found, counted from the beginning of the whole
    /// input.
    pub position: Option<Length>,
}

/// The result of a call that may fail.
pub type Result<T> = std::result::Result<T, Error>;

impl ErrorKind {
    /// Returns the error of this kind at a position of the input.
    pub fn at(self, position: Length) -> Error
        ensures { result ≡ record { kind = self; position = Some position } }
    {
        Error {
            kind: self,
            position: Some(position),
        }
    }

    /// Returns the error of this kind without a position.
    pub fn to_error(self) -> Error
        ensures { result ≡ record { kind = self; position = None } }
    {
        Error {
            kind: self,
            position: None,
        }
    }
}

impl Error {
    /// Returns the error of a kind at a position of the input.
    pub fn new(kind: ErrorKind, position: Length) -> Error
        ensures { result ≡ record { kind = kind; position = Some position } }
    {
        Error {
            kind,
            position: Some(position),
        }
    }

    /// Returns the error of an input that ends after this many bytes, although more are required.
    pub fn incomplete(actual_len: Length) -> Error
        ensures { result ≡ record { kind = ErrorKind.Incomplete; position = Some actual_len } }
    {
        ErrorKind::Incomplete.at(actual_len)
    }

    /// Returns the error with a position in the input, unless it has one already. `OutOfMemory`
    /// gets no position.
    ///
    /// This function isn't inlined, because its callers would then copy a decoded value piece by
    /// piece, even if there is no error.
    #[inline(never)]
    pub fn found_at(self, place: Length) -> Error
        ensures kind { result.kind ≡ self.kind }
        ensures found { self.position ≡ None → self.kind ≢ OutOfMemory
            → result.position ≡ Some place }
        ensures same { (IsSome self.position ⊎ (self.kind ≡ OutOfMemory)) → result ≡ self }
    {
        match (self.kind, self.position) {
            (ErrorKind::OutOfMemory, _) | (_, Some(_)) => self,
            (kind, None) => kind.at(place),
        }
    }

    /// Returns the kind of the error.
    pub fn kind(self) -> ErrorKind
        ensures { result ≡ self.kind }
    {
        self.kind
    }

    /// Returns the position in the input, if it is known.
    pub fn position(self) -> Option<Length>
        ensures { result ≡ self.position }
    {
        self.position
    }
}

impl From<ErrorKind> for Error {
    ghost from_gives = { λ k e. e.kind ≡ k };

    fn from(kind: ErrorKind) -> Error {
        Error {
            kind,
            position: None,
        }
    }
}

impl From<AllocError> for Error {
    ghost from_gives = { λ _ e. e.kind ≡ OutOfMemory };

    fn from(_error: AllocError) -> Error {
        Error {
            kind: ErrorKind::OutOfMemory,
            position: None,
        }
    }
}

impl<T: Drop> From<AllocFailed<T>> for Error {
    ghost from_gives = { λ _ e. e.kind ≡ OutOfMemory };

    fn from(_error: AllocFailed<T>) -> Error {
        Error {
            kind: ErrorKind::OutOfMemory,
            position: None,
        }
    }
}

impl From<const_oid::Error> for Error {
    ghost from_gives = { λ _ e. e.kind ≡ OidMalformed };

    fn from(_error: const_oid::Error) -> Error {
        Error::from(ErrorKind::OidMalformed)
    }
}

impl From<Utf8Error> for Error {
    ghost from_gives = { λ _ e. e.kind ≡ Utf8 };

    fn from(_error: Utf8Error) -> Error {
        Error::from(ErrorKind::Utf8)
    }
}

impl From<FromUtf8Error> for Error {
    ghost from_gives = { λ _ e. e.kind ≡ Utf8 };

    fn from(_error: FromUtf8Error) -> Error {
        Error::from(ErrorKind::Utf8)
    }
}

impl From<TryFromIntError> for Error {
    ghost from_gives = { λ _ e. e.kind ≡ Overflow };

    fn from(_error: TryFromIntError) -> Error {
        Error::from(ErrorKind::Overflow)
    }
}

impl fmt::Display for ErrorKind {
    fn fmt<W: fmt::Write>(&self, f: &mut fmt::Formatter<W>) -> fmt::Result {
        let text = match self {
            ErrorKind::DateTime => "not a date from 1970 to 9999",
            ErrorKind::EncodingRules => "unknown encoding rules",
            ErrorKind::Failed => "the reader or writer failed in an earlier call",
            ErrorKind::Incomplete => "the bytes end too early",
            ErrorKind::IndefiniteLength => "an indefinite length is not allowed here",
            ErrorKind::Length { tag } => return write!(f, "wrong length of {tag}"),
            ErrorKind::NestingDepth => "too many levels of nesting",
            ErrorKind::Noncanonical { tag } => {
                return write!(f, "{tag} is not in the form that DER allows");
            }
            ErrorKind::OidMalformed => "malformed object identifier",
            ErrorKind::OidUnknown => "unknown object identifier",
            ErrorKind::OutOfMemory => "out of memory",
            ErrorKind::Overflow => "a length is not from 0 to 4294967295",
            ErrorKind::Overlength => "a length is too large or has too many bytes",
            ErrorKind::Reader => "the reader does not support this operation",
            ErrorKind::SetDuplicate => "a set contains a member twice",
            ErrorKind::SetOrdering => "the members of a set are out of order",
            ErrorKind::TagModeUnknown => "unknown tag mode",
            ErrorKind::TagNumberInvalid => "invalid tag number",
            ErrorKind::TagUnexpected => "unexpected tag",
            ErrorKind::TagUnknown => "unknown tag",
            ErrorKind::TrailingData => "there are bytes after the value",
            ErrorKind::Utf8 => "the text is not UTF-8",
            ErrorKind::Value { tag } => return write!(f, "wrong value of {tag}"),
        };
        f.write_str(text)
    }
}

/// Prints the kind, and the position if it is known.
impl fmt::Display for Error {
    fn fmt<W: fmt::Write>(&self, f: &mut fmt::Formatter<W>) -> fmt::Result {
        let kind = self.kind;
        match self.position {
            Some(position) => write!(f, "{kind}, at octet {position}"),
            None => write!(f, "{kind}"),
        }
    }
}

impl std::error::Error for Error {}
