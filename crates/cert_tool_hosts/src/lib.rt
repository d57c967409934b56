//! Host names and IP addresses, and whether they match the names in a certificate (RFC 9525).
#![tactic(auto)]

mod host;

pub use host::Host;
