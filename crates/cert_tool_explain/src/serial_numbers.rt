//! Finds certificates of a chain with the same issuer and serial number.

use crate::chain_entry::ChainEntry;
use cert_tool_describe::der::ToDer;
use cert_tool_describe::tool_lines::Lines;
use std::alloc::{AllocError, Global};
use std::collections::BTreeMap;

// Returns the encodings of the issuer and of the serial number.
fn identity_of(alloc: Global, place: &ChainEntry<'_>) -> Result<Vec<u8>, AllocError> {
    let Ok(mut octets) = place.issuer().to_der(alloc) else {
        return Err(AllocError);
    };
    let serial = place.certificate.tbs_certificate().serial_number();
    octets.extend_from_slice(serial.as_bytes())?;
    Ok(octets)
}

// For each issuer and serial number, the index of the last certificate that has them.
#[derive(Drop)]
pub(crate) struct SerialNumbers {
    places: BTreeMap<Vec<u8>, usize>,
}

impl SerialNumbers {
    // Returns the empty map.
    pub(crate) fn new(alloc: Global) -> SerialNumbers {
        SerialNumbers {
            places: BTreeMap::new(alloc),
        }
    }

    // Adds a certificate, and returns the index of the last earlier one with the same issuer and
    // serial number.
    pub(crate) fn take(&mut self, lines: &mut Lines, place: &ChainEntry<'_>) -> Option<usize> {
        let Ok(identity) = identity_of(lines.alloc, place) else {
            lines.fail();
            return None;
        };
        match self.places.insert(identity, place.number) {
            Ok(before) => before,
            Err(_) => {
                lines.fail();
                None
            }
        }
    }
}
