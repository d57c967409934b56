//! Validates X.509 certificate chains (RFC 5280 6.1, in part), prints certificates, and issues
//! chains. This crate is the facade of the `cert_desk_*` crates.
//!
//! - [`Bundle`] reads a chain in pieces, and [`check`] validates it under trust anchors.
//!   [`SignatureJudge`] is the trait of signature verifiers. `check` doesn't match host names,
//!   check revocation or build paths (docs/CLI.md).
//! - [`show_certificate`], [`show_list`] and [`show_request`] print certificates, CRLs and CSRs.
//! - [`issue`] issues the chain that orders ask for, and [`orders_in`] parses orders files.
//! - [`run_check`], [`run_show`] and [`run_orders`] are complete runs over inputs and outputs.
//!   [`obey`] runs a command line. The program `cert_desk` runs [`obey_with_reasons`], which says
//!   why an orders file is wrong.
//! - [`laws`] contains theorems about every chain, every file of trust anchors and every issued
//!   chain.
//!
//! This function validates a chain of one certificate, which is also the trust anchor. Its file
//! also defines `read`, which returns the bundle, and `KeyJudge`, a verifier that protects nothing.
//! docs/GUIDE.md has a program for chains in files. (`answers_in`, with which that program reads a
//! verifier's answers, is in `cert_desk_answers`.)
//!
//! From `tools/guide/judge.rt.txt`:
//!
//! ```rust
//! fn judged(alloc: Global, stream: &[u8]) -> Result<String> {
//!     let choice = TrustAnchorChoice::<Raw>::from_der(alloc, stream)?;
//!     let Ok(anchor) = Anchor::from_choice(alloc, &choice) else {
//!         return Ok(format!(in alloc; "no anchor")?);
//!     };
//!     let mut anchors = Vec::new(alloc);
//!     anchors.push(anchor)?;
//!     let bundle = read(alloc, stream);
//!     let purpose = ObjectIdentifier::<39>::new("1.3.6.1.5.5.7.3.1")?;
//!     let mut judge = KeyJudge { questions: 0 };
//!     // The validation time is 2002-01-01T12:01:00Z.
//!     match check(alloc, &bundle, &anchors, 1009886460, &purpose, &mut judge) {
//!         Ok(checked) => Ok(format!(in alloc; "{checked:?}")?),
//!         Err(error) => Ok(format!(in alloc; "{error}")?),
//!     }
//! }
//! ```
//!
//! The crate re-exports the names of the crates below it that programs need.
#![tactic(auto)]

mod accepted;
mod accepting;
mod audit;
mod command;
mod digest_signer;
mod fault;
mod issue_error;
mod issue_lines;
mod issued;
mod issuing;
pub mod issuing_laws;
pub mod laws;
mod making;
mod naming;
mod order_reasons;
mod order_runs;
mod outcome;
mod role;
mod running;
mod stop;

pub use crate::digest_signer::DigestSigner;
pub use crate::issue_error::IssueError;
pub use crate::issued::Issued;
pub use crate::issuing::issue;
pub use crate::order_runs::{run_issue, run_orders, run_orders_with_reasons};
pub use cert_desk_checking::cert_anchors::TrustAnchorChoice;
pub use cert_desk_checking::desk_bundle::{
    Bundle, BundleError, Entry, FaultKind, ReadError, Standing, first_fault,
};
pub use cert_desk_checking::desk_rules::{
    Answer, AnswersJudge, CheckError, Checked, DigestJudge, KeptRules, Reason, Rule, Sha256Digest,
    SignatureJudge, Verdict,
};
pub use cert_desk_checking::{
    Anchor, AnchorError, AnchorFault, AnchorsError, Outcome, anchors_line, chain_lines, check,
    judge_each, read_anchors, read_stream, reason_of, run_check, status_of, verdict_line,
};
pub use cert_desk_listing::cert_certificates::{CertDigest, Certificate, CertificateInner};
pub use cert_desk_listing::cert_lists::{CertReq, CertificateList};
pub use cert_desk_listing::cert_names::Name;
pub use cert_desk_listing::der::{Error, ErrorKind};
pub use cert_desk_listing::desk_io::{
    DeviceError, ExitStatus, FromRead, HostFiles, Input, MemoryInput, MemoryOutput, NamedInputs,
    OpenError, Output, ReadAllError, ToWrite, complain, read_all, tell_device, tell_memory,
    words_of, write_all,
};
pub use cert_desk_listing::oid::ObjectIdentifier;
pub use cert_desk_listing::{
    FileKind, ShowError, run_show, show_certificate, show_list, show_request,
};
pub use cert_desk_orders::cert_parts::{AlgorithmIdentifier, Raw, SubjectPublicKeyInfo, Time};
pub use cert_desk_orders::types::BitString;
pub use cert_desk_orders::{
    Order, OrdersError, Why, WrongLine, orders_in, reason_line, wrong_line,
};
pub use command::{Arguments, Command, USAGE};
pub use running::{obey, obey_with_reasons};
pub use x509_cert_builders::{SignError, Signer};
