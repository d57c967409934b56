//! The error of reading and writing frames.

/// Why a frame can't be read, or can't be appended.
#[derive(Clone, Copy, Debug, PartialEq, Eq)]
pub enum FrameError {
    /// The content is longer than the caller allows, or has 2^32 bytes or more.
    TooLong,
    /// The input ends within the frame.
    Cut,
    /// A read failed.
    Device,
    /// Memory for the bytes ran out.
    OutOfMemory,
}
