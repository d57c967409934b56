//! The kinds of extensions that X.509 certificates, CRLs and CRL entries use, and the OID of each
//! kind.
#![tactic(auto)]

mod extension_kind;

pub use extension_kind::ExtensionKind;
