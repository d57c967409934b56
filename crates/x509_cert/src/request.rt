//! CSRs (RFC 2986).

pub use crate::request_builder::RequestBuilder;
pub use x509_cert_lists::request::Version;
pub use x509_cert_lists::{CertReq, CertReqInfo, ExtensionReq, TryFromExtensionReq};

/// Attributes of CSRs (RFC 2985 5.4).
pub mod attributes {
    pub use x509_cert_lists::{AsAttribute, ChallengePassword};
}
