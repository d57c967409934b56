//! Finds certificates that end soon.

ghost use Rattle.std.specs.Prelude.{◌≡◌, ◌+◌, ◌*◌, true, map, nat_le, IfSome};
ghost use Rattle.std.specs.List.{list_any};
ghost use Rattle.std.specs.Option.{is_some};
ghost use Rattle.x509_cert_anchors.specs.AnchorViews.{trust_anchor_plain};
ghost use Rattle.x509_cert_anchors.specs.CertCertificates.Views.{certificate_plain};
ghost use Rattle.cert_tool_limits.specs.Limits.{anchor_ends, anchors_end, certificate_ends};
ghost use Rattle.cert_tool_limits.specs.Limits.{of_place};

use crate::anchor_rules::{issues_chain, signed_of};
use cert_desk_bundle::Bundle;
use cert_desk_bundle::cert_certificates::CertificateInner;
use cert_desk_bundle::cert_parts::Raw;
use cert_desk_rules::SignatureJudge;
use x509_cert_anchors::TrustAnchorChoice;

// Returns whether a time isn't later than this number of days after another. Both are in seconds
// since 1970.
fn is_within(last: u64, moment: u64, days: u32) -> bool
    ensures { result ≡ nat_le last (moment + days * 86400) }
{
    last <= moment.saturating_add(u64::from(days) * 86400)
}

// Returns whether a certificate ends within this number of days after the validation time.
fn certificate_ends(certificate: &CertificateInner<Raw>, moment: u64, days: u32) -> bool
    ensures { result ≡ certificate_ends days moment (certificate_plain certificate.now) }
{
    let validity = certificate.tbs_certificate().validity();
    is_within(
        validity.not_after.to_date_time().unix_seconds(),
        moment,
        days,
    )
}

// Returns whether a trust anchor ends within this number of days after the validation time. One
// that is only a key and a name doesn't end.
fn anchor_ends(anchor: &TrustAnchorChoice<Raw>, moment: u64, days: u32) -> bool
    ensures { result ≡ anchor_ends days moment (trust_anchor_plain anchor.now) }
{
    match signed_of(anchor) {
        Some(signed) => {
            let last = &signed.validity().not_after;
            is_within(last.to_date_time().unix_seconds(), moment, days)
        }
        None => false,
    }
}

/// Returns the index of the first certificate of a chain that ends within this number of days after
/// the validation time (seconds since 1970), if there is one.
pub fn first_ending(bundle: &Bundle, moment: u64, days: u32) -> Option<usize>
    ensures some { is_some result
        ≡ list_any (certificate_ends days moment) bundle.now.certificates }
    ensures place { IfSome result (λ place.
        of_place (certificate_ends days moment) bundle.now.certificates place ≡ true) }
{
    for place in 0..bundle.len() {
        let entry = bundle.get(place).unwrap();
        if certificate_ends(entry.certificate, moment, days) {
            return Some(place);
        }
    }
    None
}

/// Returns whether each trust anchor that issued a chain ends within this number of days after the
/// validation time.
pub fn anchors_end<J: SignatureJudge>(
    anchors: &[TrustAnchorChoice<Raw>],
    bundle: &Bundle,
    moment: u64,
    days: u32,
    judge: &mut J,
) -> bool
    ensures ends { result ≡ anchors_end (J.answers judge.old) days moment bundle.now.certificates
        (map trust_anchor_plain anchors.now) }
    ensures kept { J.answers judge.new ≡ J.answers judge.old }
{
    for anchor in anchors {
        if issues_chain(anchor, bundle, judge) && !anchor_ends(anchor, moment, days) {
            return false;
        }
    }
    true
}
