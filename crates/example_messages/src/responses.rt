//! OCSP (RFC 6960).

use crate::same;
use der_core::{FromDer, Result, ToDer};
use pki_ocsp::identifiers::id_pkix_ocsp_basic;
use pki_ocsp::{
    BasicOcspResponse, CertStatus, OcspRequest, OcspResponse, ResponderId, SingleResponse,
};
use std::alloc::Global;

/// Returns how many certificates a request asks about.
pub fn of_request(alloc: Global, octets: &[u8]) -> Result<String> {
    let request = OcspRequest::from_der(alloc, octets)?;
    let same = same(request.to_der(alloc), octets)?;
    request_text(alloc, &request, same)
}

fn request_text(alloc: Global, request: &OcspRequest, same: &str) -> Result<String> {
    let count = request.tbs_request.request_list.len();
    let is_signed = request.optional_signature.is_some();
    Ok(format!(in alloc; "OCSP request, {count} asked, signed {is_signed}, {same}")?)
}

/// Returns the status of a response, and what a basic response says.
pub fn of_response(alloc: Global, octets: &[u8]) -> Result<String> {
    let response = OcspResponse::from_der(alloc, octets)?;
    let same = same(response.to_der(alloc), octets)?;
    response_text(alloc, &response, same)
}

fn response_text(alloc: Global, response: &OcspResponse, same: &str) -> Result<String> {
    let status = response.response_status;
    let text = match &response.response_bytes {
        None => format!(in alloc; "no response")?,
        Some(inner) => {
            if inner.response_type == id_pkix_ocsp_basic() {
                of_basic(alloc, inner.response.as_bytes())?
            } else {
                format!(in alloc; "another type")?
            }
        }
    };
    Ok(format!(in alloc; "OCSP response {status:?}, {text}, {same}")?)
}

/// Returns who signed a basic response, and its answers.
fn of_basic(alloc: Global, octets: &[u8]) -> Result<String> {
    let basic = BasicOcspResponse::from_der(alloc, octets)?;
    let same = same(basic.to_der(alloc), octets)?;
    basic_text(alloc, &basic, same)
}

fn basic_text(alloc: Global, basic: &BasicOcspResponse, same: &str) -> Result<String> {
    let by = match &basic.tbs_response_data.responder_id {
        ResponderId::ByName(name) => format!(in alloc; "by {name}")?,
        ResponderId::ByKey(_) => format!(in alloc; "by a key")?,
    };
    let answers = of_answers(alloc, basic.tbs_response_data.responses.as_slice())?;
    let count = basic.certs.as_ref().map_or(0, |certs| certs.len());
    Ok(format!(in alloc; "{by},{answers} {count} certificates, inside {same}")?)
}

/// Returns the answers, each with the serial number of the certificate.
fn of_answers(alloc: Global, answers: &[SingleResponse]) -> Result<String> {
    let mut text = String::new(alloc);
    for answer in answers {
        let line = of_answer(alloc, answer)?;
        text.push_str(line.as_str())?;
    }
    Ok(text)
}

fn of_answer(alloc: Global, answer: &SingleResponse) -> Result<String> {
    let serial = &answer.cert_id.serial_number;
    match &answer.cert_status {
        CertStatus::Good => Ok(format!(in alloc; " {serial} good,")?),
        CertStatus::Unknown => Ok(format!(in alloc; " {serial} unknown,")?),
        CertStatus::Revoked(info) => {
            let reason = info.revocation_reason;
            Ok(format!(in alloc; " {serial} revoked {reason:?},")?)
        }
    }
}
