//! The results of reading a file for a listing.

use crate::lines::Lines;

/// The result of reading the input of `show`.
#[derive(Drop)]
pub(crate) enum Finding {
    /// The input encodes a value of the kind, and this is its listing.
    Listed(Lines),
    /// The input isn't the encoding of a value of the kind.
    Malformed,
    /// A read failed.
    Device,
    /// Memory ran out.
    OutOfMemory,
}
