//! Describes OCSP requests and responses, signed messages, private keys and timestamps, as lines
//! for readers or as JSON for programs. The contracts say which files are accepted, and not which
//! lines are written.
//!
//! The functions append to `Lines`. Their parameter `word` is the word that begins a line of text,
//! and `key` is the name of the member in JSON.
#![tactic(auto)]

mod attributes;
mod encryption;
mod identifiers;
mod keys;
mod messages;
mod ocsp_extensions;
mod ocsp_requests;
mod ocsp_responses;
mod signers;
mod timestamp_info;
mod timestamps;

pub use keys::{PrivateKey, key_node};
pub use messages::ContentInfo;
pub use ocsp_requests::OcspRequest;
pub use ocsp_responses::OcspResponse;
pub use timestamps::TimeStampResp;
