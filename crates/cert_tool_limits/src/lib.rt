//! Demands on a trusted chain beyond the rules of path validation: the host, the key usage of the
//! end entity, name constraints, the fields of the trust anchor, and the remaining validity.
#![tactic(auto)]

mod anchor_rules;
mod choices;
mod demands;
mod ending;
mod host_names;
mod key_uses;
mod limit;
mod name_constraints;
mod unjudged;

pub use anchor_rules::anchors_limit;
pub use choices::choices_in;
pub use demands::{DemandResult, Demands, Unmet, first_unmet, hold};
pub use ending::{anchors_end, first_ending};
pub use host_names::is_for_host;
pub use key_uses::{allows_purpose, needs_use};
pub use limit::Limit;
pub use name_constraints::first_constraints;
pub use unjudged::unjudged_text;

/// The items of `cert_desk_rules` that the crates above use.
pub mod desk_rules {
    pub use cert_desk_rules::Rule;
}

/// The items of `cert_tool_hosts` that the crates above use.
pub mod hosts {
    pub use cert_tool_hosts::Host;
}
