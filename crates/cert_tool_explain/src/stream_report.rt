//! The command `explain stream`: prints why bytes aren't a stream of certificates.

ghost use Rattle.std.specs.Prelude.{◌≤◌};

use crate::add_fault;
use crate::format_hints::format_hint;
use crate::report::Report;
use cert_desk_checking::desk_bundle::{Bundle, BundleError, FaultKind, first_fault};
use cert_tool_describe::Node;
use cert_tool_describe::tool_lines::Lines;
use std::alloc::{AllocError, Global};

// The message for certificates in the order of TLS.
const LEAF_FIRST: &str =
    "the certificates are in the order of TLS (the server's first); `cert_tool reverse FILE` \
     reverses them";

// Returns the message for an error of a stream.
fn meaning(kind: FaultKind) -> &'static str {
    match kind {
        FaultKind::NoCertificate =>
            "a certificate begins with the byte 30, but there is another byte",
        FaultKind::Indefinite => "an indefinite length, which DER doesn't allow",
        FaultKind::LengthTooWide => "a length that is encoded in more than four bytes",
        FaultKind::LengthNotShortest => "a length that isn't encoded in the fewest bytes",
        FaultKind::TooLarge => "more bytes than --limit allows",
        FaultKind::Malformed => "not a certificate",
        FaultKind::Truncated => "the file ends inside a certificate",
    }
}

// Adds why the bytes at this offset aren't a certificate.
fn add_malformed(lines: &mut Lines, rest: &[u8], offset: u64) {
    match first_fault(lines.alloc, rest) {
        Ok(Some(error)) => add_fault(lines, rest, offset, Node::Certificate, &error),
        Ok(None) => {}
        Err(_) => lines.fail(),
    }
}

// Adds the error of a stream.
fn add_stream_fault(lines: &mut Lines, octets: &[u8], error: BundleError) {
    let BundleError::Fault {
        place,
        offset,
        kind,
    } = error
    else {
        lines.fail();
        return;
    };
    lines.entry("certificate");
    lines.count_member("certificate", place as u64);
    lines.tail(", octet ");
    lines.count_member("octet", offset);
    lines.tail(": ");
    lines.text_member("fault", meaning(kind));
    let hint = format_hint(octets);
    if kind != FaultKind::Malformed && !hint.is_empty() {
        lines.text_row("", "hint", hint);
    }
    lines.close();
    let start = offset as usize;
    if kind == FaultKind::Malformed && start <= octets.len() {
        add_malformed(lines, &octets[start..], offset);
    }
}

// Returns whether the certificates are in the order of TLS: each certificate's issuer is the
// subject of the next one, and no certificate's issuer is the subject of the one before. The result
// is a hint: no clause says when it is true.
pub(crate) fn is_leaf_first(bundle: &Bundle) -> bool {
    for place in 1..bundle.len() {
        let this = bundle.get(place).unwrap().certificate.tbs_certificate();
        let before = bundle.get(place - 1).unwrap().certificate.tbs_certificate();
        if !before.issuer().has_octets_of(this.subject()) {
            return false;
        }
        if this.issuer().has_octets_of(before.subject()) {
            return false;
        }
    }
    bundle.len() > 1
}

// Adds the explanation of a stream without errors.
fn add_whole(lines: &mut Lines, bundle: &Bundle) {
    if bundle.is_empty() {
        lines.finding("the stream is empty");
    } else if is_leaf_first(bundle) {
        lines.finding(LEAF_FIRST);
    } else {
        lines.entry("certificates:");
        lines.count_member("certificates", bundle.len() as u64);
        lines.tail(", without errors");
        lines.close();
    }
}

// Feeds a bundle with a stream, up to its end.
fn feed_all(bundle: &mut Bundle, octets: &[u8]) -> Result<(), BundleError> {
    bundle.feed(octets)?;
    bundle.finish()
}

// Adds the explanation of a stream, and returns whether it can be decoded.
fn add_stream(lines: &mut Lines, octets: &[u8], limit: u32) -> bool
    requires { 6 ≤ limit }
{
    let mut bundle = Bundle::new(lines.alloc, limit);
    match feed_all(&mut bundle, octets) {
        Ok(()) => {
            add_whole(lines, &bundle);
            true
        }
        Err(error) => {
            add_stream_fault(lines, octets, error);
            false
        }
    }
}

/// Returns why bytes aren't a sequence of certificates of at most `limit` bytes each: the first
/// error, its offset, and the enclosing fields. It also says whether the certificates are in the
/// order of TLS, with the end entity's first.
pub fn explain_stream(
    alloc: Global,
    octets: &[u8],
    limit: u32,
    is_json: bool,
) -> Result<Report, AllocError>
    requires { 6 ≤ limit }
{
    let mut lines = Lines::new(alloc, is_json);
    lines.list("findings");
    let is_valid = add_stream(&mut lines, octets, limit);
    lines.end_list();
    Report::of(lines, is_valid)
}
