//! Trust anchors (RFC 5914).

pub use x509_cert_anchors::anchor::Version;
pub use x509_cert_anchors::{
    CertPathControls, CertPolicies, CertPolicyFlags, TrustAnchorChoice, TrustAnchorInfo,
};
