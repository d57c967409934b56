//! Finds the end of a certificate by its header.

ghost use Rattle.std.specs.Prelude.{◌≡◌, ◌≤◌, IfOk, IfErr, IfSome, IfNone};
ghost use Rattle.x509_cert_certificates.specs.Der.Shapes.{Body, Value, Spells, sequence};
ghost use Rattle.cert_desk_bundle.specs.Headers.{fault_of, IsContentAt, IsWanted, IsEarlyFault};

use crate::fault_kind::FaultKind;
use x509_cert_certificates::der::{ErrorKind, Header};

// Returns the kind of error of an input whose header has an error of this kind.
fn fault_of(kind: ErrorKind) -> FaultKind
    ensures { result ≡ fault_of kind }
{
    match kind {
        ErrorKind::IndefiniteLength => FaultKind::Indefinite,
        ErrorKind::Overlength => FaultKind::LengthTooWide,
        _ => FaultKind::LengthNotShortest,
    }
}

// Returns the length at which more can be decided about a certificate that begins with these bytes:
// its own length, or one byte more than there are while its header is incomplete.
pub fn wanted_len(octets: &[u8], offset: u64, limit: u32) -> Result<usize, FaultKind>
    requires { 6 ≤ limit }
    ensures wanted { IfOk result (IsWanted limit offset octets.now) }
    ensures fault { IfErr result (IsEarlyFault limit offset octets.now) }
{
    let [first, ..] = octets else {
        return Ok(1);
    };
    if *first != 0x30 {
        return Err(FaultKind::NoCertificate);
    }
    let (header, count) = match Header::scan(octets) {
        Ok(Some(front)) => front,
        Ok(None) => return Ok(octets.len() + 1),
        Err(error) => return Err(fault_of(error.kind)),
    };
    let len = count as u64 + u64::from(header.length.value);
    if len > u64::from(limit) || len > u64::MAX - offset {
        return Err(FaultKind::TooLarge);
    }
    Ok(len as usize)
}

// Returns the offset of the content, if all of these bytes are one SEQUENCE.
pub fn content_start(octets: &[u8]) -> Option<usize>
    ensures content { IfSome result (IsContentAt octets.now) }
    ensures none { IfNone result ((b : Body) (v : Value (sequence b))
        → Spells (sequence b) v octets.now → ⊥) }
{
    let [first, ..] = octets else {
        return None;
    };
    if *first != 0x30 {
        return None;
    }
    let (header, count) = match Header::scan(octets) {
        Ok(Some(front)) => front,
        Ok(None) => return None,
        Err(_) => return None,
    };
    let len = count as u64 + u64::from(header.length.value);
    if len != octets.len() as u64 {
        return None;
    }
    if len > u64::from(u32::MAX) {
        return None;
    }
    Some(count)
}
