//! Why a file of answers can't be read.

use crate::line_fault::LineFault;

/// Why answers can't be read from an input.
#[derive(Clone, Copy, Debug, PartialEq, Eq)]
pub enum NoAnswers {
    /// A line isn't an answer. This is the first such line.
    Line {
        /// The number of the line, counted from 1.
        number: u64,
        /// Why it isn't an answer.
        fault: LineFault,
    },
    /// The input has 2^32 bytes or more.
    TooMuch,
    /// A read of the input failed.
    Device,
    /// Memory ran out.
    OutOfMemory,
}
