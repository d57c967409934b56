//! Encoding one arc (X.690 8.19.2).

ghost use Rattle.std.specs.Prelude.{◌≡◌, ◌-◌, ◌<◌, ◌≤◌, ◌++◌, length, take, drop};
ghost use Rattle.const_oid.specs.IdentifierOctets.{arc_octets};
ghost use Rattle.const_oid.specs.OctetFaults.{begun};

use crate::error::Arc;

/// Returns the number of bytes of an arc's encoding.
pub(crate) fn octet_count(arc: Arc) -> usize
    ensures value { result ≡ length (arc_octets arc) }
    ensures some { 0 < result }
{
    let mut count = 1;
    let mut high = arc / 128;
    while high >= 1 << 64 {
        count += 1;
        high /= 128;
    }
    // One word is enough for the rest, and for most arcs.
    let mut word = high as u64;
    while word != 0 {
        count += 1;
        word /= 128;
    }
    count
}

/// Writes all bytes of an arc but the last, each with its high bit set, so that they end before
/// index `end`.
fn write_marked(bytes: &mut [u8], end: usize, high: Arc)
    requires room { length (begun high) ≤ end }
    requires within { end ≤ length bytes.old }
    ensures { bytes.new
        ≡ take (end - length (begun high)) bytes.old ++ (begun high ++ drop end bytes.old) }
{
    if high == 0 {
        return;
    }
    let last = end - 1;
    bytes[last] = 0x80 + (high % 128) as u8;
    write_marked(bytes, last, high / 128);
}

/// Writes the encoding of an arc, so that it ends before index `end`.
pub(crate) fn write_arc(bytes: &mut [u8], end: usize, arc: Arc)
    requires room { length (arc_octets arc) ≤ end }
    requires within { end ≤ length bytes.old }
    ensures { bytes.new ≡ take (end - length (arc_octets arc)) bytes.old
        ++ (arc_octets arc ++ drop end bytes.old) }
{
    let last = end - 1;
    bytes[last] = (arc % 128) as u8;
    write_marked(bytes, last, arc / 128);
}
