//! Comparison of contents that are stored as bytes.

ghost use Rattle.std.specs.Prelude.{◌≡◌, ◌∷◌};
ghost use Rattle.std.specs.List.{cons_option};
ghost use Rattle.der_core.specs.Orders.{octets_cmp};

use std::cmp::Ordering;

/// Compares two contents, which are these bytes.
pub fn value_cmp_by_contents(octets: &[u8], other: &[u8]) -> Ordering
    ensures { result ≡ octets_cmp octets.now other.now }
{
    octets.cmp(other)
}

/// Compares one byte followed by other bytes with some bytes.
fn led_cmp(lead: u8, octets: &[u8], other: &[u8]) -> Ordering
    ensures { result ≡ octets_cmp (lead ∷ octets.now) other.now }
{
    match other {
        [] => Ordering::Greater,
        [first, rest @ ..] => lead.cmp(first).then(octets.cmp(rest)),
    }
}

/// Compares two contents. Each consists of an optional leading byte and these bytes. The leading
/// byte is the number of unused bits of a bit string (X.690 8.6.2), or a zero before a natural
/// number whose first bit is one (X.690 8.3).
pub fn value_cmp_behind(
    lead: Option<u8>,
    octets: &[u8],
    other_lead: Option<u8>,
    other: &[u8],
) -> Ordering
    ensures { result ≡ octets_cmp (cons_option lead octets.now) (cons_option other_lead other.now) }
{
    match (lead, other_lead) {
        (None, None) => octets.cmp(other),
        (Some(lead), None) => led_cmp(lead, octets, other),
        (None, Some(other_lead)) => led_cmp(other_lead, other, octets).reverse(),
        (Some(lead), Some(other_lead)) => lead.cmp(&other_lead).then(octets.cmp(other)),
    }
}
