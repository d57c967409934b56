//! The certificates of a chain, found by two programs.

use crate::bundles::limit_of;
use crate::plain_split::split;
use crate::refusal::Refusal;
use crate::words::octets_of;
use cert_desk::{Bundle, BundleError};
use std::alloc::Global;

/// Returns the number of certificates and of their bytes, found by the plain split and by a bundle.
pub fn answer(alloc: Global, rest: &str) -> Result<String, Refusal> {
    let (limit, octets) = rest.split_once(' ').ok_or(Refusal::Unread)?;
    let limit = limit_of(limit)?;
    let octets = octets_of(alloc, octets)?;
    let (certificates, end) = split(alloc, octets.as_slice(), limit)?;
    let mut bundle = Bundle::new(alloc, limit);
    if let Err(BundleError::OutOfMemory) = bundle.feed(octets.as_slice()) {
        return Err(Refusal::Memory);
    }
    let (count, read) = (bundle.len(), bundle.end_offset());
    let text = format!(in alloc; "{} {end}, {count} {read}", certificates.len())?;
    Ok(text)
}
