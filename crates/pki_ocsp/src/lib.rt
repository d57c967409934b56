//! The types of the ASN.1 module OCSP-2013-88, written by `tools/asn1`.
#![tactic(auto)]

mod aliases;
mod basic_ocsp_response;
mod cert_id;
mod cert_status;
mod crl_id;
pub mod identifiers;
pub mod laws;
mod ocsp_request;
mod ocsp_response;
mod ocsp_response_status;
mod preferred_signature_algorithm;
mod request;
mod responder_id;
mod response_bytes;
mod response_data;
mod revoked_info;
mod service_locator;
mod signature;
mod single_response;
mod tbs_request;
mod version;

pub use aliases::{
    AcceptableResponses, ArchiveCutoff, KeyHash, PreferredSignatureAlgorithms, UnknownInfo,
};
pub use basic_ocsp_response::BasicOcspResponse;
pub use cert_id::CertId;
pub use cert_status::CertStatus;
pub use crl_id::CrlId;
pub use ocsp_request::OcspRequest;
pub use ocsp_response::OcspResponse;
pub use ocsp_response_status::OcspResponseStatus;
pub use preferred_signature_algorithm::PreferredSignatureAlgorithm;
pub use request::Request;
pub use responder_id::ResponderId;
pub use response_bytes::ResponseBytes;
pub use response_data::ResponseData;
pub use revoked_info::RevokedInfo;
pub use service_locator::ServiceLocator;
pub use signature::Signature;
pub use single_response::SingleResponse;
pub use tbs_request::TbsRequest;
pub use version::Version;
