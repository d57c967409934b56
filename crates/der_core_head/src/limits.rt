//! The limit on levels of nesting.

/// The greatest number of levels of nesting that may be open.
pub const MAX_LEVELS: usize = 64;
