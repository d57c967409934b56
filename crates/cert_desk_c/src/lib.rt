//! Certificates and chains for programs in C. The calls keep nothing between them, so several
//! threads may call at the same time. The contract of each call says when it returns which status.
//!
//! A status is the number of an `ExitStatus`:
//!
//! - 0: the call succeeded, or the chain is trusted.
//! - 1: the chain is rejected.
//! - 2: the bytes aren't the encoding of a value.
//! - 3: there is no such value, or the chain is empty.
//! - 4: another argument is wrong.
//! - 5: the buffer is too small.
//! - 6: an allocation failed.
//!
//! A call that writes a text or bytes writes them to the beginning of `out`, and their length to
//! `size`. If the buffer is too small, it writes the required length to `size`. With every other
//! status, `size` is 0. Unless the status is 0, `out` doesn't change.
#![tactic(auto)]

mod certificates;
mod descriptions;
mod extensions;
mod faults;
mod identifiers;
mod judging;
mod listings;
mod names;
mod numbers;
mod places;
mod questions;
mod reading;
