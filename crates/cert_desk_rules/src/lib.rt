//! The rules that each certificate of a certification path has to keep (RFC 5280 6.1), the reasons
//! why it breaks one, and signature verifiers.
//!
//! The crate depends on `cert_desk_bundle` for chains, and on `x509_cert_extensions` and
//! `x509_cert_kinds` for the extensions that the rules check.
#![tactic(auto)]

mod answer;
mod answer_table;
mod answers_judge;
mod checked;
mod constraints;
mod digest_judge;
mod extensions;
mod findings;
mod kept_rules;
mod path_room;
mod reason;
mod rooms;
mod rule;
mod sha256_digest;
mod signature_judge;
mod weighing;
mod weight;

pub use answer::Answer;
pub use answers_judge::AnswersJudge;
pub use checked::{CheckError, Checked, Verdict};
pub use digest_judge::DigestJudge;
pub use extensions::{extensions_of, first_twin};
pub use findings::Findings;
pub use kept_rules::KeptRules;
pub use path_room::PathRoom;
pub use reason::Reason;
pub use rooms::{code, give};
pub use rule::{RULES, Rule, rule_number};
pub use sha256_digest::Sha256Digest;
pub use signature_judge::SignatureJudge;
pub use weighing::findings_of;

/// The names of `cert_desk_bundle` that the crates above use.
pub mod desk_bundle {
    pub use cert_desk_bundle::{
        Bundle, BundleError, Entry, FaultKind, ReadError, Standing, first_fault,
    };
}

/// The names of `cert_desk_io` that the crates above use.
pub mod desk_io {
    pub use cert_desk_bundle::desk_io::{
        DeviceError, ExitStatus, FrameError, FromRead, HostFiles, Input, MemoryInput, NamedInputs,
        OpenError, Output, ReadAllError, ToWrite, answer, append_frame, complain, read_all,
        read_frame, split_frame, tell_device, tell_memory, words_of, write_all,
    };
}
