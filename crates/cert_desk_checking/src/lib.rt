//! Validates X.509 certificate chains under trust anchors (RFC 5280 6.1, in part).
//!
//! - [`check`] validates a chain. [`judge_each`] checks every certificate against every rule, and
//!   [`reason_of`] explains a broken rule.
//! - [`anchors_in`] reads a file of trust anchors (RFC 5914), and [`choice_at`] reads one of them.
//! - [`chain_lines`] lists the questions that the signatures of a chain may ask.
//! - [`run_check`] is a complete run over inputs and outputs, and [`find_validated`] is its part
//!   before the output.
//! - [`laws`] are facts about every chain and every file of trust anchors.
//!
//! Programs use these through the facade `cert_desk`, which has an example.
//!
//! The crate depends on `cert_desk_rules` for the rules, and through it on `cert_desk_bundle` and
//! `cert_desk_io`, and on `x509_cert_anchors` for the encodings of trust anchors. It doesn't
//! depend on the crates that build certificates or print listings.
#![tactic(auto)]

mod anchor;
mod anchor_error;
mod anchor_fault;
mod anchor_files;
mod anchors_error;
mod arguments;
mod checking;
mod each_place;
mod issuer;
pub mod laws;
mod outcome;
mod question_lines;
mod reasons;
mod running;
mod verdict_lines;

pub use anchor::Anchor;
pub use anchor_error::AnchorError;
pub use anchor_fault::AnchorFault;
pub use anchor_files::{anchors_in, choice_at};
pub use anchors_error::AnchorsError;
pub use arguments::{limit_in, number_in};
pub use checking::{check, is_issued_by};
pub use each_place::judge_each;
pub use outcome::Outcome;
pub use question_lines::chain_lines;
pub use reasons::reason_of;
pub use running::{find_validated, read_anchors, read_stream, run_check, status_of};
pub use verdict_lines::{anchors_line, verdict_line};

/// The names of `x509_cert_anchors` that the crates above use.
pub mod cert_anchors {
    pub use x509_cert_anchors::TrustAnchorChoice;
}

/// The names of `x509_cert_general_names` that the crates above use.
pub mod cert_general_names {
    pub use x509_cert_anchors::cert_general_names::GeneralName;
}

/// The names of `x509_cert_parts` that the crates above use.
pub mod cert_parts {
    pub use x509_cert_anchors::cert_parts::{AlgorithmIdentifier, SubjectPublicKeyInfo};
}

/// The names of `der_core` that the crates above use.
pub mod der {
    pub use x509_cert_anchors::der::{Decode, ErrorKind, SliceReader, making};
}

/// The names of `cert_desk_bundle` that the crates above use.
pub mod desk_bundle {
    pub use cert_desk_rules::desk_bundle::{
        Bundle, BundleError, Entry, FaultKind, ReadError, Standing, first_fault,
    };
}

/// The names of `cert_desk_io` that the crates above use.
pub mod desk_io {
    pub use cert_desk_rules::desk_io::{
        DeviceError, ExitStatus, FrameError, FromRead, HostFiles, Input, MemoryInput, NamedInputs,
        OpenError, Output, ReadAllError, ToWrite, answer, append_frame, complain, read_all,
        read_frame, split_frame, tell_device, tell_memory, words_of, write_all,
    };
}

/// The names of `cert_desk_rules` that the crates above use.
pub mod desk_rules {
    pub use cert_desk_rules::{
        Answer, AnswersJudge, CheckError, Checked, DigestJudge, KeptRules, RULES, Reason, Rule,
        Sha256Digest, SignatureJudge, Verdict, code, give, rule_number,
    };
}

/// The names of `const_oid` that the crates above use.
pub mod oid {
    pub use x509_cert_anchors::oid::ObjectIdentifier;
}

/// The names of `der_types` that the crates above use.
pub mod types {
    pub use x509_cert_anchors::types::BitString;
}
