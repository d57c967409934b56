//! Checks each certificate of a chain against each rule.
ghost use Rattle.std.specs.Prelude.{◌≡◌, ◌≤◌, ℕ, length, IfOk, OnOk, OnErr};
ghost use Rattle.x509_cert_anchors.specs.Oid.Bound.{Bound};
ghost use Rattle.cert_desk_checking.specs.Anchors.{terms_of};
ghost use Rattle.cert_desk_checking.specs.Places.{asked_each};
ghost use Rattle.cert_desk_rules.specs.DeskBundle.Chains.{joined};
ghost use Rattle.cert_desk_rules.specs.KeptRules.{AreJudged};
ghost use Rattle.cert_desk_rules.specs.Verdicts.{raised};

use crate::anchor::Anchor;
use crate::checking::{is_signed, rules_kept};
use crate::issuer::Issuer;
use cert_desk_rules::desk_bundle::Bundle;
use cert_desk_rules::{KeptRules, PathRoom, SignatureJudge};
use std::alloc::{AllocError, Global};
use x509_cert_anchors::oid::ObjectIdentifier;

/// Returns which rules each certificate of a bundle keeps, in the order of the certificates, under
/// these trust anchors, at this validation time (seconds since 1970-01-01T00:00:00Z), for this key
/// purpose.
///
/// [`check`](crate::check) stops at the first certificate that breaks a rule. This function goes
/// on, so it may ask the verifier more often. It asks once about each certificate but the first,
/// under the key of the one before, whatever other rules they break. It asks about the first
/// certificate up to the first trust anchor under which the signature is accepted.
///
/// # Errors
///
/// - `AllocError`: memory runs out for the result, or for the extensions of a certificate. The
///   verifier was then asked about a number of certificates, from the first one on.
pub fn judge_each<J: SignatureJudge>(
    alloc: Global,
    bundle: &Bundle,
    anchors: &[Anchor],
    moment: u64,
    purpose: &ObjectIdentifier<39>,
    judge: &mut J,
) -> Result<Vec<KeptRules>, AllocError>
    ensures judged { IfOk result (λ judged.
        AreJudged (terms_of anchors.now moment purpose.now (J.answers judge.old))
        bundle.now.certificates (joined Bound bundle.now.certificates) judged.items) }
    ensures counted { OnOk result (J.questions judge.new
        ≡ raised (J.questions judge.old)
        (asked_each (terms_of anchors.now moment purpose.now (J.answers judge.old))
        bundle.now.certificates (joined Bound bundle.now.certificates)
        (length bundle.now.certificates))) }
    ensures stopped { OnErr result ((n : ℕ) × (n ≤ length bundle.now.certificates)
        × (J.questions judge.new
        ≡ raised (J.questions judge.old)
        (asked_each (terms_of anchors.now moment purpose.now (J.answers judge.old))
        bundle.now.certificates (joined Bound bundle.now.certificates) n))) }
    ensures kept { J.answers judge.new ≡ J.answers judge.old }
{
    let len = bundle.len();
    let mut issuer = Issuer::Anchors(anchors);
    let mut room = PathRoom::new();
    let mut calls = 0;
    let mut judged = Vec::new(alloc);
    for place in 0..len {
        let entry = bundle.get(place).unwrap();
        let certificate = entry.certificate;
        let is_last = place + 1 == len;
        let signed = is_signed(&entry, &issuer, false, judge, &mut calls);
        let mut kept = rules_kept(
            alloc,
            certificate,
            is_last,
            &issuer,
            moment,
            purpose,
            &mut room,
        )?;
        kept.signed = signed;
        judged.push(kept)?;
        issuer = Issuer::Before(certificate);
    }
    Ok(judged)
}
