//! Parses files of a signature verifier's answers, and validates chains with them. Each line of a
//! file accepts the signature of one question that a chain asks.
//!
//! The crate depends on `cert_desk_checking`.
#![tactic(auto)]

mod answer_lines;
mod judging;
pub mod laws;
mod line_fault;
mod no_answers;

pub use answer_lines::answers_in;
pub use judging::{anchors_of, bundle_of, verdict_of};
pub use line_fault::LineFault;
pub use no_answers::NoAnswers;

/// The names of `cert_desk_bundle` that the crates above use.
pub mod desk_bundle {
    pub use cert_desk_checking::desk_bundle::{Bundle, FaultKind, Standing};
}

/// The names of `cert_desk_checking` that the crates above use.
pub mod desk_checking {
    pub use cert_desk_checking::{Anchor, chain_lines, status_of};
}

/// The names of `cert_desk_rules` that the crates above use.
pub mod desk_rules {
    pub use cert_desk_checking::desk_rules::{Verdict, code, give, rule_number};
}
