//! Certification path validation: signatures, validity periods, name chaining, CA certificates,
//! path lengths and key purposes (RFC 5280 6.1).

ghost use Rattle.std.specs.Prelude.{◌≡◌, ◌≢◌, ℕ, ◌+◌, ◌<◌, ◌↔◌, ◌⊎◌, List, length, map};
ghost use Rattle.std.specs.Prelude.{IfOk, OnErr, IsTrue, nat_le, not, true, false, ◌&&◌};
ghost use Rattle.std.specs.List.{list_any};
ghost use Rattle.std.specs.Option.{is_some};
ghost use Rattle.x509_cert_anchors.specs.Oid.Bound.{Bound};
ghost use Rattle.x509_cert_anchors.specs.Der.Shapes.{IsValid};
ghost use Rattle.x509_cert_anchors.specs.Types.Seconds.{unix_seconds};
ghost use Rattle.x509_cert_anchors.specs.CertCertificates.Views.{certificate_plain};
ghost use Rattle.x509_cert_anchors.specs.CertParts.Views.{key_plain};
ghost use Rattle.x509_cert_anchors.specs.CertNames.Views.{name_plain};
ghost use Rattle.x509_cert_anchors.specs.CertCertificates.Certificates.{PlainCertificate};
ghost use Rattle.x509_cert_anchors.specs.CertCertificates.Certificates.{extensions_of};
ghost use Rattle.x509_cert_anchors.specs.CertCertificates.Certificates.{issuer, not_before};
ghost use Rattle.x509_cert_anchors.specs.CertCertificates.Certificates.{not_after};
ghost use Rattle.x509_cert_anchors.specs.CertCertificates.Certificates.{raw_certificate};
ghost use Rattle.cert_desk_rules.specs.DeskBundle.declared.fault_kind.FaultKind.{FaultKind};
ghost use Rattle.cert_desk_checking.specs.Anchors.{anchor_plain, terms_of};
ghost use Rattle.cert_desk_rules.specs.DeskBundle.Chains.{Chain, joined};
ghost use Rattle.cert_desk_rules.specs.Findings.{IsRoom};
ghost use Rattle.cert_desk_rules.specs.Paths.{is_self_issued, same_name};
ghost use Rattle.cert_desk_rules.specs.KeptRules.{kept_by};
ghost use Rattle.cert_desk_rules.specs.Judging.{Answers, has_one_algorithm, is_named, keeps_at};
ghost use Rattle.cert_desk_rules.specs.Judging.{accepted, number};
ghost use Rattle.cert_desk_rules.specs.DeskBundle.Streams.{Reads};
ghost use Rattle.cert_desk_rules.specs.Verdicts.{IsVerdict, Trusted, IsCounted, StopsAsking};
ghost use Rattle.cert_desk_rules.specs.Verdicts.{asked, asked_until};
ghost use Rattle.cert_desk_checking.specs.Places.{Rises, StandsAt, asked_of};
ghost use Rattle.cert_desk_checking.specs.Places.{asked_once, linked_to, signed_by, signs};
ghost use Rattle.cert_desk_rules.specs.Weighing.{may_take_memory};

use crate::anchor::Anchor;
use crate::issuer::Issuer;
use cert_desk_rules::desk_bundle::{Bundle, Entry, Standing};
use cert_desk_rules::{
    CheckError, Checked, KeptRules, PathRoom, Rule, SignatureJudge, Verdict, extensions_of,
    findings_of, first_twin,
};
use std::alloc::{AllocError, Global};
use x509_cert_anchors::cert_certificates::CertificateInner;
use x509_cert_anchors::cert_names::Name;
use x509_cert_anchors::cert_parts::{Raw, SubjectPublicKeyInfo};
use x509_cert_anchors::oid::ObjectIdentifier;

/// Validates the chain that a bundle has read. Returns the verdict, and how often the signature
/// verifier was asked. The bundle must have ended or failed (`Bundle::is_ended`).
///
/// The chain is validated under these trust anchors, at this validation time (seconds since
/// 1970-01-01T00:00:00Z) and for this key purpose. The verdict is
///
/// - `StreamFault` if the input isn't a sequence of certificates, with its first error;
/// - `Empty` if it has no bytes;
/// - `Trusted` if every certificate keeps every [`Rule`];
/// - `Refused` otherwise, with the first certificate that breaks a rule, and the first rule that it
///   breaks.
///
/// A chain that isn't trusted isn't an `Err`: compare `verdict` with `Verdict::Trusted`. Host names
/// and revocation aren't checked.
///
/// The verdict depends on the verifier's answers about the bytes of the input. The verifier is
/// asked only about certificates that keep all rules before that of the signature, and never if the
/// input has an error. The contract states how often it is asked, and not with which arguments.
/// The root of the crate `cert_desk` has an example.
///
/// # Panics
///
/// In a program that isn't proved, if the bundle hasn't ended or failed.
///
/// # Errors
///
/// - `Device`: a read of the input had failed.
/// - `OutOfMemory`: an allocation had failed in the bundle, or failed while the extensions of a
///   certificate were decoded. In the second case, the certificates before that one keep every
///   rule, and the verifier was asked as often as they need.
pub fn check<J: SignatureJudge>(
    alloc: Global,
    bundle: &Bundle,
    anchors: &[Anchor],
    moment: u64,
    purpose: &ObjectIdentifier<39>,
    judge: &mut J,
) -> Result<Checked, CheckError>
    requires { bundle.now.standing ≢ Standing.Open }
    ensures verdict { IfOk result (λ checked. (stream : List ℕ) → Reads Bound bundle.now stream
        → IsVerdict (terms_of anchors.now moment purpose.now (J.answers judge.old)) bundle.now.limit
        stream checked.verdict) }
    ensures trusted { IfOk result (λ checked. (stream : List ℕ) → Reads Bound bundle.now stream
        → Trusted (terms_of anchors.now moment purpose.now (J.answers judge.old)) bundle.now.limit
        stream → checked.verdict ≡ Verdict.Trusted) }
    ensures fault { IfOk result (λ checked. (kind : FaultKind) → bundle.now.standing
        ≡ Standing.Faulted kind
        → checked.verdict ≡ Verdict.StreamFault (length bundle.now.certificates)
        (length (joined Bound bundle.now.certificates)) kind) }
    ensures counted { IfOk result (λ checked. (stream : List ℕ) → Reads Bound bundle.now stream
        → IsCounted (terms_of anchors.now moment purpose.now (J.answers judge.old)) bundle.now.limit
        stream checked (J.questions judge.old) (J.questions judge.new)) }
    ensures kept { J.answers judge.new ≡ J.answers judge.old }

    // These clauses are about calls that return an error.
    ensures no_memory { bundle.now.standing ≡ Standing.NoMemory
        → result ≡ Err CheckError.OutOfMemory }
    ensures out_of_memory { result ≡ Err CheckError.OutOfMemory
        → (bundle.now.standing ≡ Standing.NoMemory) ⊎ (bundle.now.standing ≡ Standing.Ended) }
    ensures device { (result ≡ Err CheckError.Device) ↔ (bundle.now.standing ≡ Standing.NoDevice) }
    ensures stopped { OnErr result ((stream : List ℕ) → bundle.now.standing ≡ Standing.Ended
        → Reads Bound bundle.now stream
        → StopsAsking (terms_of anchors.now moment purpose.now (J.answers judge.old))
        bundle.now.limit stream (J.questions judge.old) (J.questions judge.new)) }

    // These clauses are about calls that don't ask the verifier.
    ensures untouched { bundle.now.standing ≢ Standing.Ended → judge.new ≡ judge.old }
    ensures no_calls { IfOk result (λ checked. bundle.now.standing ≢ Standing.Ended → checked.calls
        ≡ 0) }
{
    match bundle.standing() {
        Standing::Open => unreachable!(),
        Standing::Ended => match check_chain(alloc, bundle, anchors, moment, purpose, judge) {
            Ok(checked) => Ok(checked),
            Err(AllocError) => Err(CheckError::OutOfMemory),
        },
        Standing::Faulted(kind) => Ok(Checked {
            verdict: Verdict::StreamFault {
                place: bundle.len(),
                offset: bundle.end_offset(),
                kind,
            },
            calls: 0,
        }),
        Standing::NoMemory => Err(CheckError::OutOfMemory),
        Standing::NoDevice => Err(CheckError::Device),
    }
}

// Asks the verifier about a certificate, over the bytes of the input.
fn ask<J: SignatureJudge>(
    key: &SubjectPublicKeyInfo,
    entry: &Entry<'_>,
    judge: &mut J,
    calls: &mut u64,
) -> bool
    ensures answered { result
        ≡ accepted (J.answers judge.old) entry.now.signed.now
        (certificate_plain entry.now.certificate.now) (key_plain key.now) }
    ensures kept { J.answers judge.new ≡ J.answers judge.old }
    ensures counted { Rises 1 (J.questions judge.old) calls.old (J.questions judge.new) calls.new }
{
    *calls = calls.saturating_add(1);
    let certificate = entry.certificate;
    judge.accepts(
        key,
        certificate.signature_algorithm(),
        entry.signed,
        certificate.signature(),
    )
}

/// Returns whether the issuer of the certificate has this name, byte for byte.
pub fn is_issued_by(certificate: &CertificateInner<Raw>, name: &Name) -> bool
    requires { IsValid (raw_certificate Bound) (certificate_plain certificate.now) }
    ensures { result ≡ same_name Bound (issuer (certificate_plain certificate.now))
        (name_plain name.now) }
{
    certificate.tbs_certificate().issuer().has_octets_of(name)
}

// Returns whether an anchor has the issuer's name.
fn is_anchored(certificate: &CertificateInner<Raw>, anchors: &[Anchor]) -> bool
    requires { IsValid (raw_certificate Bound) (certificate_plain certificate.now) }
    ensures { result ≡ list_any (is_named Bound (certificate_plain certificate.now))
        (map anchor_plain anchors.now) }
{
    for anchor in anchors {
        if is_issued_by(certificate, anchor.name()) {
            return true;
        }
    }
    false
}

// Returns whether the anchor has the issuer's name and the verifier accepts the signature under the
// anchor's key. The verifier isn't asked about an anchor with another name. If `known`, the anchor
// has the name, and the names aren't compared again.
#[tactic(auto, unfolding(crate::specs::Places::signs, crate::specs::Places::asked_once, crate::specs::Anchors::anchor_plain))]
fn is_signed_under<J: SignatureJudge>(
    anchor: &Anchor,
    entry: &Entry<'_>,
    known: bool,
    judge: &mut J,
    calls: &mut u64,
) -> bool
    requires valid { IsValid (raw_certificate Bound)
        (certificate_plain entry.now.certificate.now) }
    requires known { IsTrue known
        → is_named Bound (certificate_plain entry.now.certificate.now) (anchor_plain anchor.now)
        ≡ true }
    ensures answered { result
        ≡ signs Bound (J.answers judge.old) entry.now.signed.now
        (certificate_plain entry.now.certificate.now) (anchor_plain anchor.now) }
    ensures kept { J.answers judge.new ≡ J.answers judge.old }
    ensures counted { Rises
        (asked_once Bound (certificate_plain entry.now.certificate.now) (anchor_plain anchor.now))
        (J.questions judge.old) calls.old (J.questions judge.new) calls.new }
{
    if known {
        return ask(anchor.key(), entry, judge, calls);
    }
    if !is_issued_by(entry.certificate, anchor.name()) {
        return false;
    }
    ask(anchor.key(), entry, judge, calls)
}

// Returns whether there is only one anchor, and it is known to have the issuer's name.
fn is_only(linked: bool, anchors: &[Anchor]) -> bool
    ensures { IsTrue result → IsTrue linked × (length anchors.now ≡ 1) }
{
    linked && anchors.len() == 1
}

// Returns whether the verifier accepts the signature under the key of a trust anchor with the
// issuer's name. The trust anchors are tried in order, up to the first under which it is accepted.
// If `linked`, one of them has the name; so a single one isn't compared again.
fn is_signed_by_anchor<J: SignatureJudge>(
    anchors: &[Anchor],
    entry: &Entry<'_>,
    linked: bool,
    judge: &mut J,
    calls: &mut u64,
) -> bool
    requires valid { IsValid (raw_certificate Bound)
        (certificate_plain entry.now.certificate.now) }
    requires linked { IsTrue linked
        → list_any (is_named Bound (certificate_plain entry.now.certificate.now))
        (map anchor_plain anchors.now) ≡ true }
    ensures answered { result
        ≡ list_any
        (signs Bound (J.answers judge.old) entry.now.signed.now
        (certificate_plain entry.now.certificate.now)) (map anchor_plain anchors.now) }
    ensures kept { J.answers judge.new ≡ J.answers judge.old }
    ensures counted { Rises
        (asked_until Bound (J.answers judge.old) entry.now.signed.now
        (certificate_plain entry.now.certificate.now) (map anchor_plain anchors.now))
        (J.questions judge.old) calls.old (J.questions judge.new) calls.new }
{
    let known = is_only(linked, anchors);
    for anchor in anchors {
        if is_signed_under(anchor, entry, known, judge, calls) {
            return true;
        }
    }
    false
}

// Returns whether the issuer of the certificate is the name of one of the anchors, or the subject
// of the certificate before.
fn is_linked(certificate: &CertificateInner<Raw>, issuer: &Issuer<'_>) -> bool
    requires { IsValid (raw_certificate Bound) (certificate_plain certificate.now) }
    ensures { result ≡ linked_to Bound issuer.now (certificate_plain certificate.now) }
{
    match *issuer {
        Issuer::Anchors(anchors) => is_anchored(certificate, anchors),
        Issuer::Before(before) => is_issued_by(certificate, before.tbs_certificate().subject()),
    }
}

// Returns whether the verifier accepts the signature under the key of an anchor with the issuer's
// name or, after the first certificate, under the key of the certificate before. If `linked`, the
// issuer's name is known to be one of these.
pub(crate) fn is_signed<J: SignatureJudge>(
    entry: &Entry<'_>,
    issuer: &Issuer<'_>,
    linked: bool,
    judge: &mut J,
    calls: &mut u64,
) -> bool
    requires valid { IsValid (raw_certificate Bound)
        (certificate_plain entry.now.certificate.now) }
    requires linked { IsTrue linked
        → linked_to Bound issuer.now (certificate_plain entry.now.certificate.now) ≡ true }
    ensures answered { result
        ≡ signed_by Bound (J.answers judge.old) entry.now.signed.now
        (certificate_plain entry.now.certificate.now) issuer.now }
    ensures kept { J.answers judge.new ≡ J.answers judge.old }
    ensures counted { Rises
        (asked_of Bound (J.answers judge.old) entry.now.signed.now
        (certificate_plain entry.now.certificate.now) issuer.now)
        (J.questions judge.old) calls.old (J.questions judge.new) calls.new }
{
    match *issuer {
        Issuer::Anchors(anchors) => is_signed_by_anchor(anchors, entry, linked, judge, calls),
        Issuer::Before(before) => {
            let key = before.tbs_certificate().subject_public_key_info();
            ask(key, entry, judge, calls)
        }
    }
}

// Returns whether the signature algorithm beside the signature and the one in the TBSCertificate
// have the same encoding (RFC 5280 4.1.1.2).
fn has_one_algorithm(certificate: &CertificateInner<Raw>) -> bool
    requires { IsValid (raw_certificate Bound) (certificate_plain certificate.now) }
    ensures { result ≡ has_one_algorithm Bound (certificate_plain certificate.now) }
{
    let signed = certificate.tbs_certificate().signature();
    signed.has_octets_of(certificate.signature_algorithm())
}

// Returns whether notBefore isn't after the validation time (RFC 5280 4.1.2.5).
fn has_begun(certificate: &CertificateInner<Raw>, moment: u64) -> bool
    ensures { result ≡ nat_le (unix_seconds (not_before (certificate_plain certificate.now)))
        moment }
{
    let validity = certificate.tbs_certificate().validity();
    validity.not_before.to_date_time().unix_seconds() <= moment
}

// Returns whether notAfter isn't before the validation time (RFC 5280 4.1.2.5).
fn lasts(certificate: &CertificateInner<Raw>, moment: u64) -> bool
    ensures { result
        ≡ nat_le moment (unix_seconds (not_after (certificate_plain certificate.now))) }
{
    let validity = certificate.tbs_certificate().validity();
    moment <= validity.not_after.to_date_time().unix_seconds()
}

// Returns whether the certificate is self-issued: its issuer and subject have the same bytes (RFC
// 5280 3.2).
pub(crate) fn is_self_issued(certificate: &CertificateInner<Raw>) -> bool
    requires { IsValid (raw_certificate Bound) (certificate_plain certificate.now) }
    ensures { result ≡ is_self_issued Bound (certificate_plain certificate.now) }
{
    is_issued_by(certificate, certificate.tbs_certificate().subject())
}

// Returns whether the certificate counts for a path length: there is a limit, and the certificate
// is neither the last one nor self-issued (RFC 5280 6.1.4 (l)).
fn takes_room(certificate: &CertificateInner<Raw>, is_last: bool, room: &PathRoom) -> bool
    requires { IsValid (raw_certificate Bound) (certificate_plain certificate.now) }
    ensures { result
        ≡ (is_some room.now.below
        && (not is_last && not (is_self_issued Bound (certificate_plain certificate.now)))) }
{
    room.is_limited() && (!is_last && !is_self_issued(certificate))
}

// Returns the rules that a certificate keeps. The rule on its signature is marked as broken,
// because the verifier wasn't asked. Updates `room` to the path length that is left after this
// certificate. Inlined, so that the caller tests each result right after it is computed.
#[inline(always)]
pub(crate) fn rules_kept(
    alloc: Global,
    certificate: &CertificateInner<Raw>,
    is_last: bool,
    issuer: &Issuer<'_>,
    moment: u64,
    purpose: &ObjectIdentifier<39>,
    room: &mut PathRoom,
) -> Result<KeptRules, AllocError>
    requires { IsValid (raw_certificate Bound) (certificate_plain certificate.now) }
    ensures judged { IfOk result
        (λ kept. (cs : List PlainCertificate) (anchors : List Anchor) (place : ℕ)
        (answers : Answers) (stream : List ℕ)
        → StandsAt cs anchors place (certificate_plain certificate.now) is_last issuer.now room.old
        → (rule : Rule) → number rule < number Rule.WrongSignature → kept_by kept rule
        ≡ keeps_at rule (terms_of anchors moment purpose.now answers) cs stream place) }
    ensures linked { IfOk result
        (λ kept. kept.linked ≡ linked_to Bound issuer.now (certificate_plain certificate.now)) }
    ensures signed { IfOk result (λ kept. kept_by kept Rule.WrongSignature ≡ false) }
    ensures room { IfOk result
        (λ kept. (cs : List PlainCertificate) (anchors : List Anchor) (place : ℕ)
        → StandsAt cs anchors place (certificate_plain certificate.now) is_last issuer.now room.old
        → IsRoom Bound cs (place + 1) room.new) }
    ensures memory { OnErr result
        (may_take_memory (extensions_of (certificate_plain certificate.now)) ≡ true) }
{
    let extensions = extensions_of(certificate);
    let findings = findings_of(alloc, extensions, purpose)?;
    let twin = first_twin(alloc, extensions)?;
    let counts = takes_room(certificate, is_last, room);
    let kept = KeptRules {
        one_algorithm: has_one_algorithm(certificate),
        distinct: twin.is_none(),
        well_formed: !findings.malformed,
        known: !findings.unweighed_critical,
        linked: is_linked(certificate, issuer),
        begun: has_begun(certificate, moment),
        lasting: lasts(certificate, moment),
        serving: findings.serves,
        issuing: findings.may_issue(is_last),
        within_lengths: room.admits(counts),
        signed: false,
    };
    room.add(counts, findings.path_len);
    Ok(kept)
}

// Validates a complete chain. Checks the certificates in order, up to the first that breaks a rule:
// first the rules that need no verifier, and then the signature.
fn check_chain<J: SignatureJudge>(
    alloc: Global,
    bundle: &Bundle,
    anchors: &[Anchor],
    moment: u64,
    purpose: &ObjectIdentifier<39>,
    judge: &mut J,
) -> Result<Checked, AllocError>
    ensures judged { IfOk result (λ checked. (stream : List ℕ)
        → Chain Bound bundle.now.limit bundle.now.certificates stream
        → IsVerdict (terms_of anchors.now moment purpose.now (J.answers judge.old)) bundle.now.limit
        stream checked.verdict) }
    ensures kept { J.answers judge.new ≡ J.answers judge.old }
    ensures counted { IfOk result (λ checked. Rises
        (asked (terms_of anchors.now moment purpose.now (J.answers judge.old))
        bundle.now.certificates (joined Bound bundle.now.certificates))
        (J.questions judge.old) 0 (J.questions judge.new) checked.calls) }
    ensures stopped { OnErr result
        ((stream : List ℕ) → Chain Bound bundle.now.limit bundle.now.certificates
        stream
        → StopsAsking (terms_of anchors.now moment purpose.now (J.answers judge.old))
        bundle.now.limit stream (J.questions judge.old) (J.questions judge.new)) }
{
    let len = bundle.len();
    let mut issuer = Issuer::Anchors(anchors);
    let mut room = PathRoom::new();
    let mut calls = 0;
    for place in 0..len {
        let entry = bundle.get(place).unwrap();
        let certificate = entry.certificate;
        let is_last = place + 1 == len;
        let kept = rules_kept(
            alloc,
            certificate,
            is_last,
            &issuer,
            moment,
            purpose,
            &mut room,
        )?;
        if let Some(rule) = kept.first_before_signature() {
            let verdict = Verdict::Refused { place, rule };
            return Ok(Checked { verdict, calls });
        }
        if !is_signed(&entry, &issuer, kept.linked, judge, &mut calls) {
            let rule = Rule::WrongSignature;
            let verdict = Verdict::Refused { place, rule };
            return Ok(Checked { verdict, calls });
        }
        issuer = Issuer::Before(certificate);
    }
    let verdict = if len == 0 {
        Verdict::Empty
    } else {
        Verdict::Trusted
    };
    Ok(Checked { verdict, calls })
}
