//! Timestamps (RFC 3161).

use crate::same;
use crate::signed::of_info;
use der_core::{FromDer, Result, ToDer};
use pki_timestamps::{TimeStampReq, TimeStampResp};
use std::alloc::Global;

/// Returns what a request asks for.
pub fn of_request(alloc: Global, octets: &[u8]) -> Result<String> {
    let request = TimeStampReq::from_der(alloc, octets)?;
    let same = same(request.to_der(alloc), octets)?;
    request_text(alloc, &request, same)
}

fn request_text(alloc: Global, request: &TimeStampReq, same: &str) -> Result<String> {
    let asks = request.cert_req;
    Ok(format!(in alloc; "timestamp request, certificate {asks}, {same}")?)
}

/// Returns the status of a response, and what its token says.
pub fn of_response(alloc: Global, octets: &[u8]) -> Result<String> {
    let response = TimeStampResp::from_der(alloc, octets)?;
    let same = same(response.to_der(alloc), octets)?;
    response_text(alloc, &response, same)
}

fn response_text(alloc: Global, response: &TimeStampResp, same: &str) -> Result<String> {
    let status = response.status.status;
    let text = match &response.time_stamp_token {
        None => format!(in alloc; "no token")?,
        Some(token) => of_info(alloc, token)?,
    };
    Ok(format!(in alloc; "timestamp {status:?}, {text}, {same}")?)
}
