//! Functions that find the certificate of a signer, and its certification path, among the
//! certificates that come with a signed message (RFC 5652) or with an OCSP response (RFC 6960), and
//! the signed part of an encoding.
//!
//! The certificates of a message are a SET OF, so they are sorted by their encodings. Feed them to
//! a [`Bundle`] in that order. For a message, [`find_by_issuer_and_serial`] or
//! [`find_by_key_identifier`] finds the signer's certificate among them, and for an OCSP response
//! [`find_by_subject`] (byName) or [`find_by_key_hash`] (byKey). [`path_to`] finds its
//! certification path, and [`chain_of`] makes a bundle of the certificates of the path, which
//! `cert_desk_checking::check` validates.
//!
//! [`Bundle`]: cert_desk_checking::desk_bundle::Bundle
//!
//! The crate depends on `cert_desk_checking` for bundles and trust anchors.
#![tactic(auto)]

mod chains;
mod paths;
mod signed_parts;
mod signers;

pub use chains::chain_of;
pub use paths::path_to;
pub use signed_parts::first_field;
pub use signers::{
    find_by_issuer_and_serial, find_by_key_hash, find_by_key_identifier, find_by_subject,
};

/// The items of `cert_desk_checking` that the crates above use.
pub mod desk_checking {
    pub use cert_desk_checking::desk_bundle::{Bundle, BundleError, Entry, Standing};
    pub use cert_desk_checking::{Anchor, check};
}
