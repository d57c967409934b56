//! Orders files on one line.

use crate::refusal::Refusal;
use std::alloc::Global;

/// Returns the bytes of a file. It is `0x` and base 16, or its lines with a bar for each LF.
pub fn file_of(alloc: Global, text: &str) -> Result<Vec<u8>, Refusal> {
    if let Some(octets) = text.strip_prefix("0x") {
        return Ok(hex::decode(alloc, octets)?);
    }
    let mut file = Vec::new(alloc);
    for octet in text.as_bytes() {
        file.push(if *octet == b'|' { b'\n' } else { *octet })?;
    }
    Ok(file)
}
