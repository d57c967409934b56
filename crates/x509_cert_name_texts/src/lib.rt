//! The string form of distinguished names (RFC 4514): splitting at separators, names of attribute
//! types, and escapes.
//!
//! `x509_cert_names` parses and prints names with these functions.
#![tactic(auto)]

mod escapes;
mod keys;
mod pieces;
mod printing;

pub use escapes::{from_hex, undo_escapes};
pub use keys::{key_of, type_of_key};
pub use pieces::{FromText, first_piece, read_pieces, split_member};
pub use printing::{write_escaped, write_hex};
