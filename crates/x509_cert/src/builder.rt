//! Builders of certificates, CRLs and CSRs (RFC 5280 4, 5; RFC 2986 4). The bytes that a signer
//! receives are those of the signed part in the encoding of the result.

pub mod profile;

pub use crate::crl_builder::CrlBuilder;
pub use crate::request_builder::RequestBuilder;
pub use x509_cert_builders::{
    Builder, BuilderProfile, CertificateBuilder, CertificateType, DevId, DomainValidated, Error,
    Root, SignError, Signer, Subordinate, Subscriber, Tls12Options, TpmVersion,
    ca_certificate_naming, check_names_encoding, tcg_sv_tpm_12, tcg_sv_tpm_20,
};
