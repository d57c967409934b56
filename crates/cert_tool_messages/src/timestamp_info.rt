//! Describes what a timestamp says (RFC 3161 2.4.2).

ghost use Rattle.std.specs.Prelude.{OnOk};
ghost use Rattle.cert_tool_messages.specs.Files.{IsTimestampInfo};

use crate::identifiers::{add_identifier, add_named};
use cert_tool_describe::der::{Error, FromDer};
use cert_tool_describe::tool_lines::Lines;
use cert_tool_describe::{
    Content, ContentError, Describe, Node, Part, add_algorithm, add_content, add_date,
    add_extensions, add_undecoded, error_in,
};
use pki_timestamps::{Accuracy, MessageImprint, TstInfo, TstInfoVersion};
use std::alloc::Global;

const TIMESTAMP_INFO: [Part; 1] = [(Some(0x30), false, "", Node::TimestampInfo)];

// Adds the lines of the digest of what is timestamped.
fn add_imprint(lines: &mut Lines, imprint: &MessageImprint) {
    add_algorithm(lines, "digest", "hashAlgorithm", &imprint.hash_algorithm);
    let digest = imprint.hashed_message.as_bytes();
    lines.octets_row("hashed-message", "hashedMessage", digest);
}

// Adds the lines of the accuracy.
fn add_accuracy(lines: &mut Lines, accuracy: &Accuracy) {
    lines.node("accuracy", "accuracy");
    if let Some(seconds) = &accuracy.seconds {
        lines.number_row("seconds", "seconds", seconds.as_bytes());
    }
    if let Some(millis) = accuracy.millis {
        lines.count_row("milliseconds", "millis", u64::from(millis));
    }
    if let Some(micros) = accuracy.micros {
        lines.count_row("microseconds", "micros", u64::from(micros));
    }
    lines.close();
}

// Adds the lines of the optional fields.
fn add_options(lines: &mut Lines, info: &TstInfo) {
    if let Some(accuracy) = &info.accuracy {
        add_accuracy(lines, accuracy);
    }
    if info.ordering {
        lines.line();
        lines.mark("ordering", "ordering", true);
    }
    if let Some(nonce) = &info.nonce {
        lines.number_row("nonce", "nonce", nonce.as_bytes());
    }
    if let Some(name) = &info.tsa {
        add_named(lines, "tsa", "tsa", name);
    }
    if let Some(extensions) = &info.extensions {
        add_extensions(lines, "extensions", extensions.as_slice());
    }
}

// What a timestamp says.
#[derive(Drop)]
struct TimestampInfo(TstInfo);

impl Describe for TimestampInfo {
    fn read_content(alloc: Global, octets: &[u8]) -> Result<TimestampInfo, Error>
        ensures spelled { OnOk result (IsTimestampInfo octets.now) }
    {
        Ok(TimestampInfo(TstInfo::from_der(alloc, octets)?))
    }

    fn describe(&self, lines: &mut Lines) {
        match self.0.version {
            TstInfoVersion::V1 => lines.count_row("version", "version", 1),
        }
        add_identifier(lines, "policy", "policy", &self.0.policy);
        add_imprint(lines, &self.0.message_imprint);
        lines.number_row("serial", "serialNumber", self.0.serial_number.as_bytes());
        add_date(lines, "time", "genTime", &self.0.gen_time);
        add_options(lines, &self.0);
    }
}

/// Returns the error in the TSTInfo inside a SignedData, if there is one.
pub fn error_in_timestamp_info(
    alloc: Global,
    octets: &[u8],
    around: Content,
) -> Option<ContentError> {
    // The last name is empty: the field of an explicit tag.
    let path = "encapContentInfo.eContent.";
    let start = around.start;
    let content = Content::of(octets, start, Node::SignedData, path, &TIMESTAMP_INFO);
    error_in::<TimestampInfo>(alloc, octets, content, Some(around))
}

/// Adds the lines of a TSTInfo.
pub fn add_timestamp_info(lines: &mut Lines, octets: &[u8]) {
    if let Some(error) = add_content::<TimestampInfo>(lines, octets) {
        add_undecoded(lines, &TIMESTAMP_INFO, octets, &error);
    }
}
