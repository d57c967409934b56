//! Describes responses of timestamping authorities (RFC 3161 2.4.2).

ghost use Rattle.cert_tool_messages.specs.Files.{IsTimestamp};

use crate::messages::{add_content_info, error_in_content};
use cert_tool_describe::der::{Error, FromDer};
use cert_tool_describe::tool_lines::Lines;
use cert_tool_describe::{ContentError, DescribeFile, Node, add_digests, add_flags, place_of};
use pki_timestamps::{PkiFailureInfoBits as Bits, PkiStatus, PkiStatusInfo};
use std::alloc::Global;

// The bits of PKIFailureInfo. RFC 3161 2.4.2 names only some of them. The others are described by
// their numbers.
const FAILURES: [(Bits, &str); 26] = [
    (Bits::BadAlg, "badAlg"),
    (Bits::Bit1, "bit 1"),
    (Bits::BadRequest, "badRequest"),
    (Bits::Bit3, "bit 3"),
    (Bits::Bit4, "bit 4"),
    (Bits::BadDataFormat, "badDataFormat"),
    (Bits::Bit6, "bit 6"),
    (Bits::Bit7, "bit 7"),
    (Bits::Bit8, "bit 8"),
    (Bits::Bit9, "bit 9"),
    (Bits::Bit10, "bit 10"),
    (Bits::Bit11, "bit 11"),
    (Bits::Bit12, "bit 12"),
    (Bits::Bit13, "bit 13"),
    (Bits::TimeNotAvailable, "timeNotAvailable"),
    (Bits::UnacceptedPolicy, "unacceptedPolicy"),
    (Bits::UnacceptedExtension, "unacceptedExtension"),
    (Bits::AddInfoNotAvailable, "addInfoNotAvailable"),
    (Bits::Bit18, "bit 18"),
    (Bits::Bit19, "bit 19"),
    (Bits::Bit20, "bit 20"),
    (Bits::Bit21, "bit 21"),
    (Bits::Bit22, "bit 22"),
    (Bits::Bit23, "bit 23"),
    (Bits::Bit24, "bit 24"),
    (Bits::SystemFailure, "systemFailure"),
];

// Returns the name of a status.
fn status_name(status: PkiStatus) -> &'static str {
    match status {
        PkiStatus::Granted => "granted",
        PkiStatus::GrantedWithMods => "grantedWithMods",
        PkiStatus::Rejection => "rejection",
        PkiStatus::Waiting => "waiting",
        PkiStatus::RevocationWarning => "revocationWarning",
        PkiStatus::RevocationNotification => "revocationNotification",
    }
}

// Adds a line for each text of a status.
fn add_texts(lines: &mut Lines, texts: &[String]) {
    lines.list("statusString");
    for text in texts {
        lines.item("text");
        lines.plain_value(text.as_str());
    }
    lines.end_list();
}

// Adds the lines of the status.
fn add_status(lines: &mut Lines, info: &PkiStatusInfo) {
    lines.text_row("status", "status", status_name(info.status));
    if let Some(texts) = &info.status_string {
        add_texts(lines, texts.as_slice());
    }
    if let Some(failures) = &info.fail_info {
        add_flags(lines, "failure", "failInfo", failures, &FAILURES);
    }
}

/// The response of a timestamping authority (RFC 3161 2.4.2).
#[derive(Drop)]
pub struct TimeStampResp(pub pki_timestamps::TimeStampResp);

impl DescribeFile for TimeStampResp {
    ghost is_spelled = { IsTimestamp };

    fn read_file(alloc: Global, octets: &[u8]) -> Result<TimeStampResp, Error> {
        Ok(TimeStampResp(pki_timestamps::TimeStampResp::from_der(alloc, octets)?))
    }

    fn describe_file(&self, lines: &mut Lines, octets: &[u8]) {
        lines.text_row("", "kind", "timestamp");
        add_status(lines, &self.0.status);
        if let Some(token) = &self.0.time_stamp_token {
            lines.node("token", "timeStampToken");
            add_content_info(lines, token);
            lines.close();
        }
        add_digests(lines, ["timestamp-sha1", "timestamp-sha256"], octets);
    }

    fn content_error(&self, alloc: Global, octets: &[u8]) -> Option<ContentError> {
        match &self.0.time_stamp_token {
            Some(token) => {
                let start = place_of(octets, 0, Node::Timestamp, "timeStampToken");
                error_in_content(alloc, octets, start, token)
            }
            None => None,
        }
    }
}
