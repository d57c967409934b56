//! The errors of PEM.

/// An error in a line of PEM, or in the block that begins there.
#[derive(Clone, Copy, Debug, PartialEq, Eq)]
pub enum PemFault {
    /// The block that begins here has an unexpected label.
    OtherKind,
    /// The block that begins here has no END line.
    NoEnd,
    /// This END line doesn't follow a BEGIN line.
    NoBegin,
    /// This END line has another label than the BEGIN line before it.
    OtherEnd,
    /// The text of the block that begins here isn't base64 (RFC 4648 4).
    NotBase64,
}
