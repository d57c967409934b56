//! Traits of the values that can be described.
ghost use Rattle.std.specs.Prelude.{◌≢◌, List, ℕ, IfErr, IfNone, IfSome, OnOk};
ghost use Rattle.x509_cert_lists.specs.Der.ErrorTypes.ErrorKind.TheVariants.{OutOfMemory};

use crate::content_error::ContentError;
use cert_tool_lines::Lines;
use std::alloc::Global;
use x509_cert_lists::der::{Error, ErrorKind};

/// The content of an extension, or a key.
pub trait Describe: Sized {
    /// Decodes the value. Each type implements this separately, so that its decoding is checked in
    /// one function.
    fn read_content(alloc: Global, octets: &[u8]) -> Result<Self, Error>;

    // Adds the lines of the value.
    fn describe(&self, lines: &mut Lines);
}

/// Adds the lines of encoded content, or returns the error if it is malformed.
pub fn add_content<T: Describe + Drop>(lines: &mut Lines, octets: &[u8]) -> Option<Error> {
    match T::read_content(lines.alloc, octets) {
        Ok(content) => {
            content.describe(lines);
            None
        }
        Err(error) => Some(error),
    }
}

/// A value that a file contains, such as a certificate.
pub trait DescribeFile: Sized {
    /// The bytes are the encoding of a value of the type.
    ghost is_spelled: { List ℕ → Type 0 };

    /// Decodes the value.
    fn read_file(alloc: Global, octets: &[u8]) -> Result<Self, Error>
        ensures spelled { OnOk result (is_spelled octets.now) }
        ensures refused { IfErr result (λ e. e.kind ≢ OutOfMemory → is_spelled octets.now → ⊥) };

    // Adds the lines of the value, and those of the digests of its encoding and of its key.
    fn describe_file(&self, lines: &mut Lines, octets: &[u8]);

    /// Returns the first error in the contents that the decoder of the value keeps as bytes, and
    /// that `describe_file` decodes. The contents of extensions and attributes don't count.
    fn content_error(&self, _alloc: Global, _octets: &[u8]) -> Option<ContentError> {
        None
    }
}

// Adds the description of a file with its digests, or returns the error if it is malformed. The
// function is generic because the proof of a function that holds a certificate takes long.
pub fn add_file<T: DescribeFile + Drop>(lines: &mut Lines, octets: &[u8]) -> Option<ErrorKind>
    ensures spelled { IfNone result (T.is_spelled octets.now) }
    ensures refused { IfSome result (λ kind. kind ≢ OutOfMemory → T.is_spelled octets.now → ⊥) }
{
    match T::read_file(lines.alloc, octets) {
        Ok(value) => {
            value.describe_file(lines, octets);
            None
        }
        Err(error) => Some(error.kind),
    }
}
