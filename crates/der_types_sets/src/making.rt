//! Functions for types that keep their members in order.

pub use crate::places::place_of;
