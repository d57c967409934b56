//! The order of the encodings of tags, lengths and headers.

ghost use Rattle.std.specs.Prelude.{◌≡◌, ◌≤◌, take};
ghost use Rattle.der_core_coding.specs.CoreHead.Tags.{IsTag, tag_octets};
ghost use Rattle.der_core_coding.specs.CoreHead.Heads.{length_octets, head_octets};
ghost use Rattle.der_core.specs.Orders.{octets_cmp};

use der_core_coding::core_head::{Length, Tag, leading_octet_of, number_of};
use der_core_coding::core_octets::Header;
use std::cmp::Ordering;

/// Returns the encoding of a tag (X.690 8.1.2): an array, and the number of bytes in it.
#[tactic(auto, using(crate::proofs::Cited::tag_forms))]
fn tag_octets_of(tag: Tag) -> ([u8; 6], usize)
    ensures octets { take result.1 result.0 ≡ tag_octets tag }
    ensures within { result.1 ≤ 6 }
    ensures number { IsTag tag }
{
    let first = leading_octet_of(tag);
    let n = number_of(tag);
    let last = (n % 128) as u8;
    if n < 31 {
        return ([first, 0, 0, 0, 0, 0], 1);
    }
    if n < 0x80 {
        return ([first, last, 0, 0, 0, 0], 2);
    }
    let d1 = 128 + (n / 0x80 % 128) as u8;
    if n < 0x4000 {
        return ([first, d1, last, 0, 0, 0], 3);
    }
    let d2 = 128 + (n / 0x4000 % 128) as u8;
    if n < 0x20_0000 {
        return ([first, d2, d1, last, 0, 0], 4);
    }
    let d3 = 128 + (n / 0x20_0000 % 128) as u8;
    if n < 0x1000_0000 {
        return ([first, d3, d2, d1, last, 0], 5);
    }
    let d4 = 128 + (n / 0x1000_0000) as u8;
    ([first, d4, d3, d2, d1, last], 6)
}

/// Compares the encodings of two tags.
///
/// This isn't the order of their numbers. After the first byte, 16383 is encoded as `FF 7F`, and
/// 16384 as `81 80 00`.
pub fn tag_cmp(a: Tag, b: Tag) -> Ordering
    ensures order { result ≡ octets_cmp (tag_octets a) (tag_octets b) }
    // The numbers of both tags have at most 32 bits.
    ensures numbers { IsTag a × IsTag b }
{
    let (a_octets, a_len) = tag_octets_of(a);
    let (b_octets, b_len) = tag_octets_of(b);
    a_octets[..a_len].cmp(&b_octets[..b_len])
}

/// Compares the encodings of two definite lengths (X.690 8.1.3, 10.1).
#[tactic(auto, using(crate::proofs::OrderLaws::length_octets_cmp))]
pub fn length_cmp(a: Length, b: Length) -> Ordering
    ensures { result ≡ octets_cmp (length_octets a.value) (length_octets b.value) }
{
    a.value.cmp(&b.value)
}

/// Compares the encodings of two headers: first their tags, then their lengths.
#[tactic(auto, using(crate::proofs::OrderLaws::head_cmp))]
pub fn header_cmp(a: Header, b: Header) -> Ordering
    ensures { result ≡ octets_cmp (head_octets a.tag a.length.value)
        (head_octets b.tag b.length.value) }
{
    tag_cmp(a.tag, b.tag).then(length_cmp(a.length, b.length))
}
