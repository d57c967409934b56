//! Messages about certificates: reads a kind and a message (DER, in hex) from each line of standard
//! input, and prints what the message says and whether it is encoded to the same bytes.
#![tactic(auto)]

mod keys;
mod responses;
mod signed;
mod stamps;

use der_core::Result;
use std::alloc::Global;
use std::io;

fn main(rt: HostRuntime) -> io::Result<()> {
    for line in rt.lines(rt.alloc()) {
        match answer(rt.alloc(), line?.as_str()) {
            Ok(text) => println!(rt; "{text}")?,
            Err(error) => println!(rt; "rejected: {error}")?,
        }
    }
    Ok(())
}

/// Returns what the message of a line says.
fn answer(alloc: Global, line: &str) -> Result<String> {
    let (kind, digits) = line.split_once(' ').unwrap_or((line, ""));
    let Ok(octets) = hex::decode(alloc, digits) else {
        return Ok(format!(in alloc; "no hex")?);
    };
    described(alloc, kind, octets.as_slice())
}

/// Returns what a message of a kind says.
fn described(alloc: Global, kind: &str, octets: &[u8]) -> Result<String> {
    match kind {
        "ocsp-request" => responses::of_request(alloc, octets),
        "ocsp-response" => responses::of_response(alloc, octets),
        "message" => signed::of_message(alloc, octets),
        "key" => keys::of_key(alloc, octets),
        "encrypted-key" => keys::of_encrypted_key(alloc, octets),
        "timestamp-request" => stamps::of_request(alloc, octets),
        "timestamp" => stamps::of_response(alloc, octets),
        _ => Ok(format!(in alloc; "no such kind")?),
    }
}

/// Returns whether an encoding is that of the input.
fn same(encoding: Result<Vec<u8>>, octets: &[u8]) -> Result<&'static str> {
    Ok(if encoding?.as_slice() == octets {
        "same bytes"
    } else {
        "OTHER BYTES"
    })
}
