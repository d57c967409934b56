//! Explains why bytes can't be decoded and why chains are rejected, and reports violations of RFC
//! 5280 in values that can be decoded.
#![tactic(auto)]

mod anchors;
mod anchors_report;
mod attribute_remarks;
mod broken_rules;
mod certificate_remarks;
mod chain_entry;
mod content_errors;
mod error_lines;
mod error_reasons;
mod extension_remarks;
mod file_report;
mod format_hints;
mod list_remarks;
mod name_remarks;
mod reasons;
mod remark_lines;
mod remarked;
mod remarks;
mod report;
mod serial_numbers;
mod signed_answers;
mod similar_names;
mod stream_report;
mod unchecked_extensions;

pub use anchors_report::explain_anchors;
pub use broken_rules::{ValidatedChain, add_chain, are_kept};
pub use error_lines::add_fault;
pub use file_report::{Contents, FileKind, report_on};
pub use remarked::{Remarked, WithoutRemarks};
pub use report::Report;
pub use signed_answers::SignedAnswers;
pub use stream_report::explain_stream;

/// The items of `x509_cert_certificates` that the crates above use.
pub mod cert_certificates {
    pub use cert_tool_describe::cert_certificates::CertificateInner;
}

/// The items of `x509_cert_lists` that the crates above use.
pub mod cert_lists {
    pub use cert_tool_describe::cert_lists::{CertReq, CertificateList};
}

/// The items of `x509_cert_names` that the crates above use.
pub mod cert_names {
    pub use cert_tool_describe::cert_names::Name;
}

/// The items of `x509_cert_parts` that the crates above use.
pub mod cert_parts {
    pub use cert_tool_describe::cert_parts::Raw;
}

/// The items of `cert_desk_bundle` that the crates above use.
pub mod desk_bundle {
    pub use cert_desk_checking::desk_bundle::{Bundle, BundleError, Standing};
}

/// The items of `cert_desk_checking` that the crates above use.
pub mod desk_checking {
    pub use cert_desk_checking::{
        Anchor, AnchorsError, Outcome, anchors_in, anchors_line, chain_lines, find_validated,
        judge_each, limit_in, number_in, read_anchors, read_stream, status_of, verdict_line,
    };
}

/// The items of `cert_desk_io` that the crates above use.
pub mod desk_io {
    pub use cert_desk_checking::desk_io::{
        DeviceError, ExitStatus, FrameError, FromRead, HostFiles, Input, MemoryInput, NamedInputs,
        OpenError, Output, ReadAllError, ToWrite, answer, append_frame, complain, read_all,
        read_frame, split_frame, tell_device, tell_memory, words_of, write_all,
    };
}

/// The items of `cert_desk_rules` that the crates above use.
pub mod desk_rules {
    pub use cert_desk_checking::desk_rules::{Answer, AnswersJudge, Checked, KeptRules, Verdict};
}

/// The items of `const_oid` that the crates above use.
pub mod oid {
    pub use cert_tool_describe::oid::{Error, ObjectIdentifier};
}

/// The items of `cert_tool_describe` that the crates above use.
pub mod tool_describe {
    pub use cert_tool_describe::{Node, add_certificate};
}

/// The items of `cert_tool_lines` that the crates above use.
pub mod tool_lines {
    pub use cert_tool_describe::tool_lines::Lines;
}

/// The items of `der_types` that the crates above use.
pub mod types {
    pub use cert_tool_describe::types::DateTime;
}
