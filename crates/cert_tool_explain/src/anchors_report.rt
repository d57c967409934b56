//! Explains why bytes aren't trust anchors.

use crate::anchors::{Scope, add_anchor_fault, add_unchecked, begin_anchor};
use crate::report::Report;
use cert_desk_checking::desk_io::FromRead;
use cert_desk_checking::{AnchorFault, AnchorsError, read_anchors};
use cert_tool_describe::tool_lines::Lines;
use std::alloc::{AllocError, Global};

// Returns the message for an error of a trust anchor.
fn meaning(fault: AnchorFault) -> &'static str {
    match fault {
        AnchorFault::Malformed => "not a trust anchor",
        AnchorFault::NoName => "it has no name, so no certificate can name it as its issuer",
        AnchorFault::PathControls =>
            "it has certPathControls other than taName, which aren't supported",
    }
}

// Adds the error of the trust anchor that begins at this offset.
fn add_fault(lines: &mut Lines, octets: &[u8], offset: u64, fault: AnchorFault) {
    begin_anchor(lines, offset);
    lines.tail(": ");
    lines.text_member("fault", meaning(fault));
    lines.close();
    let start = offset as usize;
    match fault {
        AnchorFault::Malformed if start <= octets.len() => {
            add_anchor_fault(lines, &octets[start..], offset);
        }
        _ => {}
    }
}

// Returns the number of trust anchors that the bytes encode.
fn count_anchors(alloc: Global, octets: &[u8]) -> Result<usize, AnchorsError> {
    let anchors = read_anchors(alloc, &mut FromRead::new(octets))?;
    Ok(anchors.len())
}

// Adds the explanation of a file of trust anchors, and returns whether it can be decoded.
fn add_anchors(lines: &mut Lines, octets: &[u8]) -> bool {
    match count_anchors(lines.alloc, octets) {
        Ok(count) => {
            lines.entry("trust anchors:");
            lines.count_member("anchors", count as u64);
            lines.tail(", each with a name and a key");
            lines.close();
            add_unchecked(lines, octets, Scope::all());
            return true;
        }
        Err(AnchorsError::BadAnchors { offset, fault }) => {
            add_fault(lines, octets, offset, fault);
        }
        Err(_) => lines.fail(),
    }
    false
}

/// Returns why bytes aren't a sequence of trust anchors, each with a name and a key: the first
/// error and its offset. If they are, returns which of their fields aren't checked.
pub fn explain_anchors(alloc: Global, octets: &[u8], is_json: bool) -> Result<Report, AllocError> {
    let mut lines = Lines::new(alloc, is_json);
    lines.list("findings");
    let is_valid = add_anchors(&mut lines, octets);
    lines.end_list();
    Report::of(lines, is_valid)
}
