//! Object identifiers (X.660): their encodings (X.690 8.19), dotted texts and order, databases of
//! their names, and the traits of types that have an identifier.
//!
//! `ObjectIdentifier` stores an encoding of at most 39 bytes inline. `ObjectIdentifierRef` borrows
//! an encoding of any length. Nothing in this crate allocates.
//!
//! # Examples
//!
//! From `tools/guide/facades.rt.txt`:
//!
//! ```rust
//! /// Returns true if a dotted text is the identifier of an extension of RFC 5280 (`id-ce`).
//! fn is_extension(text: &str) -> const_oid::Result<bool> {
//!     let oid = ObjectIdentifier::<39>::new(text)?;
//!     let id_ce = ObjectIdentifier::<39>::new("2.5.29")?;
//!     Ok(oid.starts_with(id_ce))
//! }
//! ```
//!
//! # Dependencies
//!
//! This crate depends only on the standard library.
#![tactic(auto)]

mod arc_octets;
mod arcs;
mod associated;
mod buffer;
mod database;
mod display;
mod encoder;
mod error;
pub mod laws;
mod object_identifier;
mod object_identifier_ref;
mod octets;
mod packed;
mod text;

pub use arcs::Arcs;
pub use associated::{AssociatedOid, DynAssociatedOid};
pub use buffer::Buffer;
pub use database::{Database, Entry, Names};
pub use error::{Arc, Error, Result};
pub use object_identifier::ObjectIdentifier;
pub use object_identifier_ref::ObjectIdentifierRef;
