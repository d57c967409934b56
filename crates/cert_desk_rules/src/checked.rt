//! The verdict on a certificate chain.

use crate::rule::Rule;
use cert_desk_bundle::FaultKind;
use thiserror::Error;

/// The verdict on a chain.
#[derive(Clone, Copy, Debug, PartialEq, Eq)]
pub enum Verdict {
    /// The input isn't a sequence of certificates: there are `place` certificates before the error,
    /// which begins at `offset`.
    StreamFault {
        /// The number of certificates before the error.
        place: usize,
        /// The number of bytes before the error.
        offset: u64,
        /// The kind of the error.
        kind: FaultKind,
    },
    /// The chain has no certificate.
    Empty,
    /// The chain is trusted: each certificate keeps every rule.
    Trusted,
    /// The certificate at index `place` is the first that breaks a rule, and `rule` is the first
    /// rule that it breaks.
    Refused {
        /// The index of the certificate. A trust anchor issued the certificate at index 0.
        place: usize,
        /// The rule that is broken.
        rule: Rule,
    },
}

/// The verdict on a chain, and the number of questions to the signature verifier.
#[derive(Clone, Copy, Debug, PartialEq, Eq)]
pub struct Checked {
    /// The verdict.
    pub verdict: Verdict,
    /// The number of questions to the signature verifier. The count stays at 2^64 - 1.
    pub calls: u64,
}

/// Why there is no verdict.
#[derive(Clone, Copy, Debug, PartialEq, Eq, Error)]
pub enum CheckError {
    /// Memory ran out.
    #[error("out of memory")]
    OutOfMemory,
    /// An I/O error: reading the chain failed.
    #[error("a device failed")]
    Device,
}
