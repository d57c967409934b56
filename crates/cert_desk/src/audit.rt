//! Validates an issued chain.

ghost use Rattle.std.specs.Prelude.{◌≡◌, ◌≢◌, ◌≤◌, ◌↔◌, ◌⊎◌, ℕ, List, ◌∷◌, map, IfOk, IfErr, OnErr};
ghost use Rattle.cert_desk_listing.specs.Oid.Bound.{Bound};
ghost use Rattle.cert_desk_listing.specs.Der.Grammar.{plain_list};
ghost use Rattle.cert_desk_listing.specs.CertCertificates.Certificates.{PlainCertificate};
ghost use Rattle.cert_desk_listing.specs.CertCertificates.Views.{certificate_plain};
ghost use Rattle.cert_desk_checking.specs.DeskRules.declared.checked.CheckError.TheVariants as errors;
ghost use Rattle.cert_desk_checking.specs.DeskRules.declared.checked.Verdict.TheVariants as verdicts;
ghost use Rattle.cert_desk_checking.specs.DeskBundle.declared.standing.Standing.TheVariants as standings;
ghost use Rattle.cert_desk_checking.specs.Anchors.{anchor_plain};
ghost use Rattle.cert_desk_checking.specs.DeskBundle.Streams.{Reads};
ghost use Rattle.cert_desk_checking.specs.DeskRules.Verdicts.{IsCounted, IsVerdict, StopsAsking};
ghost use Rattle.cert_desk_checking.specs.Issuers.{as_anchor};
ghost use Rattle.cert_desk.specs.Chains.{HoldsOrders};
ghost use Rattle.cert_desk.specs.Laws.{Permits, root_anchors, terms_for};
ghost use Rattle.x509_cert_builders.specs.States.{as_written};
ghost use Rattle.cert_desk.specs.PlainOrders.{PlainOrder};

use crate::issued::Issued;
use cert_desk_checking::desk_bundle::Bundle;
use cert_desk_checking::desk_rules::{CheckError, Checked, SignatureJudge};
use cert_desk_checking::{Anchor, check};
use cert_desk_listing::cert_certificates::Certificate;
use cert_desk_listing::oid::ObjectIdentifier;
use std::alloc::Global;

impl Issued {
    /// Returns the verdict of `check` on the chain, with its first certificate as the only anchor.
    ///
    /// Whatever orders the chain fulfils, it is trusted exactly if the validation time is within
    /// all dates, each order allows the key purpose, the path lengths are long enough, each
    /// certificate is within the size limit, and the verifier accepts each signature under the
    /// ordered key.
    ///
    /// # Errors
    ///
    /// - Memory runs out. The verifier wasn't asked, or was asked as often as the first
    ///   certificates need, which keep every rule.
    pub fn audit<J: SignatureJudge>(
        &self,
        alloc: Global,
        limit: u32,
        moment: u64,
        purpose: &ObjectIdentifier<39>,
        judge: &mut J,
    ) -> Result<Checked, CheckError>
        requires { 6 ≤ limit }
        ensures verdict { IfOk result
            (λ checked. (root : PlainOrder) (below : List PlainOrder) (cs : List PlainCertificate)
            → HoldsOrders (root ∷ below) cs self.now.stream
            → IsVerdict (terms_for root moment purpose.now (J.answers judge.old)) limit
            self.now.stream checked.verdict) }
        ensures trusted { IfOk result
            (λ checked. (root : PlainOrder) (below : List PlainOrder) (cs : List PlainCertificate)
            → HoldsOrders (root ∷ below) cs self.now.stream
            → (checked.verdict ≡ verdicts.Trusted)
            ↔ Permits limit moment purpose.now (J.answers judge.old) (root ∷ below) cs) }
        ensures counted { IfOk result
            (λ checked. (root : PlainOrder) (below : List PlainOrder) (cs : List PlainCertificate)
            → HoldsOrders (root ∷ below) cs self.now.stream
            → IsCounted (terms_for root moment purpose.now (J.answers judge.old)) limit
            self.now.stream checked (J.questions judge.old) (J.questions judge.new)) }
        ensures kept { J.answers judge.new ≡ J.answers judge.old }
        ensures refused { IfErr result (λ e. e ≡ errors.OutOfMemory) }
        ensures stopped { OnErr result ((judge.new ≡ judge.old)
            ⊎ ((root : PlainOrder) (below : List PlainOrder) (cs : List PlainCertificate)
            → HoldsOrders (root ∷ below) cs self.now.stream
            → StopsAsking (terms_for root moment purpose.now (J.answers judge.old)) limit
            self.now.stream (J.questions judge.old) (J.questions judge.new))) }
    {
        let anchors = anchors_of(alloc, self.certificates())?;
        let bundle = read(alloc, limit, self.stream());
        let checked = check(alloc, &bundle, anchors.as_slice(), moment, purpose, judge)?;
        Ok(checked)
    }
}

/// Returns a certificate as a trust anchor.
fn anchor_of(alloc: Global, root: &Certificate) -> Result<Anchor, CheckError>
    ensures copied { IfOk result
        (λ a. anchor_plain a ≡ as_anchor (as_written (certificate_plain root.now))) }
    ensures refused { IfErr result (λ e. e ≡ errors.OutOfMemory) }
{
    let signed = root.tbs_certificate();
    let Ok(name) = signed.subject().clone(alloc) else {
        return Err(CheckError::OutOfMemory);
    };
    let Ok(key) = signed.subject_public_key_info().clone(alloc) else {
        return Err(CheckError::OutOfMemory);
    };
    Ok(Anchor::new(name, key))
}

/// Returns the first certificate as the only trust anchor.
fn anchors_of(alloc: Global, certificates: &[Certificate]) -> Result<Vec<Anchor>, CheckError>
    ensures copied { IfOk result
        (λ v. map anchor_plain v.items
        ≡ root_anchors (plain_list (λ c. as_written (certificate_plain c)) certificates.now)) }
    ensures refused { IfErr result (λ e. e ≡ errors.OutOfMemory) }
{
    let mut anchors = Vec::new(alloc);
    if certificates.is_empty() {
        return Ok(anchors);
    }
    let anchor = anchor_of(alloc, &certificates[0])?;
    let Ok(()) = anchors.push(anchor) else {
        return Err(CheckError::OutOfMemory);
    };
    Ok(anchors)
}

/// Returns a bundle that has read a chain, or has run out of memory.
fn read(alloc: Global, limit: u32, stream: &[u8]) -> Bundle
    requires { 6 ≤ limit }
    ensures limit { result.limit ≡ limit }
    ensures closed { result.standing ≢ standings.Open }
    ensures sound { result.standing ≢ standings.NoDevice }
    ensures reads { result.standing ≢ standings.NoMemory → Reads Bound result stream.now }
{
    let mut bundle = Bundle::new(alloc, limit);
    if let Err(_error) = bundle.feed(stream) {
        return bundle;
    }
    if let Err(_error) = bundle.finish() {
        return bundle;
    }
    bundle
}
