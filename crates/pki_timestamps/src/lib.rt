//! The types of the ASN.1 module PKIXTSP, written by `tools/asn1`.
#![tactic(auto)]

mod accuracy;
mod aliases;
pub mod identifiers;
pub mod laws;
mod message_imprint;
mod pki_failure_info;
mod pki_status;
mod pki_status_info;
mod time_stamp_req;
mod time_stamp_req_version;
mod time_stamp_resp;
mod tst_info;
mod tst_info_version;

pub use accuracy::Accuracy;
pub use aliases::{TimeStampToken, TsaPolicyId};
pub use message_imprint::MessageImprint;
pub use pki_failure_info::{PkiFailureInfo, PkiFailureInfoBits};
pub use pki_status::PkiStatus;
pub use pki_status_info::PkiStatusInfo;
pub use time_stamp_req::TimeStampReq;
pub use time_stamp_req_version::TimeStampReqVersion;
pub use time_stamp_resp::TimeStampResp;
pub use tst_info::TstInfo;
pub use tst_info_version::TstInfoVersion;
