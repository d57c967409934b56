//! The errors of decoding a file that may be PEM.

use crate::pem_fault::PemFault;

/// An error of decoding a file that may be PEM.
#[derive(Debug, Drop)]
pub enum FileError {
    /// The file doesn't begin as DER does, and is too long to be read as a text.
    TooMuch,
    /// An I/O error: a read failed.
    Device,
    /// An allocation failed.
    OutOfMemory,
    /// The file is DER, but the order of its certificates can only be reversed in PEM.
    NotText,
    /// A PEM block is malformed, or has an unexpected label.
    Refused {
        /// The whole file.
        text: Vec<u8>,
        /// The number of the first line with an error, counted from 1.
        number: u64,
        /// The error.
        fault: PemFault,
    },
}
