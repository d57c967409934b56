//! The errors of decoding a text with PEM blocks.

use crate::pem_fault::PemFault;

/// An error of decoding a text with PEM blocks.
#[derive(Clone, Copy, Debug, PartialEq, Eq)]
pub enum PemError {
    /// A line has an error.
    Line {
        /// The number of the first line with an error, counted from 1.
        number: u64,
        /// The error.
        fault: PemFault,
    },
    /// An allocation failed.
    OutOfMemory,
}
