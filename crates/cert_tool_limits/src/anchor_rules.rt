//! Applies the rules of certificates to the trust anchor of a chain.

ghost use Rattle.std.specs.Prelude.{◌≡◌, ◌&&◌, [], map, nat_le, true, not, IfOk, IfSome};
ghost use Rattle.std.specs.List.{list_any};
ghost use Rattle.std.specs.Option.{is_none, option_map, option_map_or};
ghost use Rattle.x509_cert_anchors.specs.AnchorViews.{trust_anchor_plain};
ghost use Rattle.x509_cert_anchors.specs.CertCertificates.Certificates.{raw_certificate};
ghost use Rattle.x509_cert_anchors.specs.CertCertificates.Certificates.{tbs_not_after};
ghost use Rattle.x509_cert_anchors.specs.CertCertificates.Certificates.{tbs_not_before};
ghost use Rattle.x509_cert_anchors.specs.CertCertificates.Views.{certificate_plain, tbs_plain};
ghost use Rattle.x509_cert_anchors.specs.CertNames.Views.{name_plain};
ghost use Rattle.x509_cert_anchors.specs.CertParts.Views.{extensions_plain, key_plain};
ghost use Rattle.x509_cert_anchors.specs.Der.Grammar.{plain_option};
ghost use Rattle.x509_cert_anchors.specs.Der.Shapes.{IsValid};
ghost use Rattle.x509_cert_anchors.specs.Oid.Bound.{Bound};
ghost use Rattle.x509_cert_anchors.specs.Types.Seconds.{unix_seconds};
ghost use Rattle.cert_desk_rules.specs.declared.rule.Rule.{Rule};
ghost use Rattle.cert_desk_rules.specs.KeptRules.{kept_by};
ghost use Rattle.cert_desk_rules.specs.Paths.{is_self_issued, is_within};
ghost use Rattle.cert_tool_limits.specs.AnchorRules.{anchor_extensions, anchor_keeps, anchor_tbs};
ghost use Rattle.cert_tool_limits.specs.AnchorRules.{counted, is_issued_as, issues, issues_chain};
ghost use Rattle.cert_tool_limits.specs.Limits.{IsBroken, breaks, is_strict, is_strict_issuer};

use crate::limit::Limit;
use crate::name_constraints::constrains_names;
use cert_desk_bundle::cert_certificates::CertificateInner;
use cert_desk_bundle::cert_parts::{Extension, Raw, SubjectPublicKeyInfo};
use cert_desk_bundle::oid::ObjectIdentifier;
use cert_desk_bundle::{Bundle, Entry};
use cert_desk_checking::is_issued_by;
use cert_desk_rules::{KeptRules, Rule, SignatureJudge, findings_of, first_twin};
use std::alloc::{AllocError, Global};
use x509_cert_anchors::TrustAnchorChoice;
use x509_cert_anchors::cert_names::Name;
use x509_cert_certificates::TbsCertificateInner;
use x509_cert_certificates::cert_parts::Extensions;

// Returns the fields of a trust anchor's certificate, if it has one.
pub(crate) fn signed_of(anchor: &TrustAnchorChoice<Raw>) -> Option<&TbsCertificateInner<Raw>>
    ensures { option_map (λ t. tbs_plain t.now) result
        ≡ anchor_tbs (trust_anchor_plain anchor.now) }
{
    match anchor {
        TrustAnchorChoice::Certificate(certificate) => Some(certificate.tbs_certificate()),
        TrustAnchorChoice::TbsCertificate(signed) => Some(signed),
        TrustAnchorChoice::TaInfo(_) => None,
    }
}

// Returns the extensions, or an empty slice if the field is absent.
fn listed(extensions: Option<&Extensions>) -> &[Extension]
    ensures { extensions_plain result.now
        ≡ option_map_or (λ es. es) (plain_option (λ r. extensions_plain r.now.items)
        extensions.entry) [] }
{
    match extensions {
        Some(extensions) => extensions.as_slice(),
        None => &[],
    }
}

// Returns the extensions of a trust anchor, in order.
pub(crate) fn extensions_of(anchor: &TrustAnchorChoice<Raw>) -> &[Extension]
    ensures { extensions_plain result.now ≡ anchor_extensions (trust_anchor_plain anchor.now) }
{
    match anchor {
        TrustAnchorChoice::Certificate(certificate) => {
            listed(certificate.tbs_certificate().extensions())
        }
        TrustAnchorChoice::TbsCertificate(signed) => listed(signed.extensions()),
        TrustAnchorChoice::TaInfo(info) => listed(info.extensions.as_ref()),
    }
}

// Returns whether the notBefore of a trust anchor, if it has one, isn't after the validation time.
fn has_begun(anchor: &TrustAnchorChoice<Raw>, moment: u64) -> bool
    ensures { result ≡ option_map_or (λ t. nat_le (unix_seconds (tbs_not_before t)) moment)
        (anchor_tbs (trust_anchor_plain anchor.now)) true }
{
    match signed_of(anchor) {
        Some(signed) => signed.validity().not_before.to_date_time().unix_seconds() <= moment,
        None => true,
    }
}

// Returns whether the notAfter of a trust anchor, if it has one, isn't before the validation time.
fn lasts(anchor: &TrustAnchorChoice<Raw>, moment: u64) -> bool
    ensures { result ≡ option_map_or (λ t. nat_le moment (unix_seconds (tbs_not_after t)))
        (anchor_tbs (trust_anchor_plain anchor.now)) true }
{
    match signed_of(anchor) {
        Some(signed) => moment <= signed.validity().not_after.to_date_time().unix_seconds(),
        None => true,
    }
}

// Returns whether a certificate counts for path lengths: it is neither the last one nor self-issued
// (RFC 5280 4.2.1.9).
fn counts(certificate: &CertificateInner<Raw>, is_last: bool) -> bool
    requires { IsValid (raw_certificate Bound) (certificate_plain certificate.now) }
    ensures { result
        ≡ (not is_last && not (is_self_issued Bound (certificate_plain certificate.now))) }
{
    !is_last && !is_issued_by(certificate, certificate.tbs_certificate().subject())
}

// Returns how many certificates of a chain count for a path length of the trust anchor.
fn counted(bundle: &Bundle) -> usize
    ensures { result ≡ counted bundle.now.certificates }
{
    let len = bundle.len();
    let mut count = 0;
    for place in 0..len {
        let entry = bundle.get(place).unwrap();
        if !counts(entry.certificate, place + 1 == len) {
            continue;
        }
        count += 1;
    }
    count
}

// Returns the rules that a trust anchor keeps as the certificate before a chain.
fn kept_by_anchor(
    alloc: Global,
    anchor: &TrustAnchorChoice<Raw>,
    bundle: &Bundle,
    moment: u64,
    purpose: &ObjectIdentifier<39>,
) -> Result<KeptRules, AllocError>
    ensures { IfOk result (λ kept. (rule : Rule) → kept_by kept rule
        ≡ anchor_keeps rule moment purpose.now bundle.now.certificates
        (trust_anchor_plain anchor.now)) }
{
    let extensions = extensions_of(anchor);
    let findings = findings_of(alloc, extensions, purpose)?;
    let twin = first_twin(alloc, extensions)?;
    Ok(KeptRules {
        one_algorithm: true,
        distinct: twin.is_none(),
        well_formed: !findings.malformed,
        known: !findings.unweighed_critical,
        linked: true,
        begun: has_begun(anchor, moment),
        lasting: lasts(anchor, moment),
        serving: findings.serves,
        issuing: findings.may_issue(extensions.is_empty()),
        within_lengths: is_within(counted(bundle), findings.path_len),
        signed: true,
    })
}

// Returns whether a number doesn't exceed a path length, if there is one.
fn is_within(count: usize, most: Option<u8>) -> bool
    ensures { result ≡ is_within count most }
{
    match most {
        Some(most) => count <= usize::from(most),
        None => true,
    }
}

// Returns the limit that a trust anchor breaks before a chain: the first rule of certificates that
// it doesn't keep, or nameConstraints.
fn anchor_limit(
    alloc: Global,
    anchor: &TrustAnchorChoice<Raw>,
    bundle: &Bundle,
    moment: u64,
    purpose: &ObjectIdentifier<39>,
) -> Result<Option<Limit>, AllocError>
    ensures met { IfOk result (λ limit. is_none limit
        ≡ is_strict moment purpose.now bundle.now.certificates (trust_anchor_plain anchor.now)) }
    ensures broken { IfOk result (λ limit. IfSome limit (λ one.
        breaks one moment purpose.now bundle.now.certificates (trust_anchor_plain anchor.now)
        ≡ true)) }
{
    let kept = kept_by_anchor(alloc, anchor, bundle, moment, purpose)?;
    if let Some(rule) = kept.first_before_signature() {
        return Ok(Some(Limit::Anchor(rule)));
    }
    if constrains_names(extensions_of(anchor)) {
        return Ok(Some(Limit::AnchorConstrainedNames));
    }
    Ok(None)
}

// Returns whether a certificate's issuer has this name, and the verifier accepts its signature
// under this key.
fn is_issued_as<J: SignatureJudge>(
    entry: &Entry<'_>,
    name: &Name,
    key: &SubjectPublicKeyInfo,
    judge: &mut J,
) -> bool
    requires { IsValid (raw_certificate Bound) (certificate_plain entry.now.certificate.now) }
    ensures answered { result ≡ is_issued_as (J.answers judge.old) entry.now.signed.now
        (certificate_plain entry.now.certificate.now) (name_plain name.now) (key_plain key.now) }
    ensures kept { J.answers judge.new ≡ J.answers judge.old }
{
    let certificate = entry.certificate;
    is_issued_by(certificate, name)
        && judge.accepts(
            key,
            certificate.signature_algorithm(),
            entry.signed,
            certificate.signature(),
        )
}

// Returns whether a trust anchor issued a certificate.
fn issues<J: SignatureJudge>(
    anchor: &TrustAnchorChoice<Raw>,
    entry: &Entry<'_>,
    judge: &mut J,
) -> bool
    requires { IsValid (raw_certificate Bound) (certificate_plain entry.now.certificate.now) }
    ensures answered { result ≡ issues (J.answers judge.old) entry.now.signed.now
        (certificate_plain entry.now.certificate.now) (trust_anchor_plain anchor.now) }
    ensures kept { J.answers judge.new ≡ J.answers judge.old }
{
    match anchor {
        TrustAnchorChoice::Certificate(root) => {
            let signed = root.tbs_certificate();
            is_issued_as(
                entry,
                signed.subject(),
                signed.subject_public_key_info(),
                judge,
            )
        }
        TrustAnchorChoice::TbsCertificate(signed) => {
            is_issued_as(
                entry,
                signed.subject(),
                signed.subject_public_key_info(),
                judge,
            )
        }
        TrustAnchorChoice::TaInfo(info) => match &info.cert_path {
            Some(controls) => is_issued_as(entry, &controls.ta_name, &info.pub_key, judge),
            None => false,
        },
    }
}

// Returns whether a trust anchor issued a chain: it has the name of the first certificate's issuer,
// and the verifier accepts the signature of that certificate under its key.
pub(crate) fn issues_chain<J: SignatureJudge>(
    anchor: &TrustAnchorChoice<Raw>,
    bundle: &Bundle,
    judge: &mut J,
) -> bool
    ensures answered { result ≡ issues_chain (J.answers judge.old) bundle.now.certificates
        (trust_anchor_plain anchor.now) }
    ensures kept { J.answers judge.new ≡ J.answers judge.old }
{
    match bundle.get(0) {
        Some(first) => issues(anchor, &first, judge),
        None => false,
    }
}

/// Returns a limit that the trust anchors which issued a chain break, or `None` if one of them
/// keeps every rule of certificates and has no nameConstraints. If no trust anchor issued the
/// chain, the limit is the rule on signatures.
///
/// # Errors
///
/// - `AllocError`: memory runs out.
pub fn anchors_limit<J: SignatureJudge>(
    alloc: Global,
    anchors: &[TrustAnchorChoice<Raw>],
    bundle: &Bundle,
    moment: u64,
    purpose: &ObjectIdentifier<39>,
    judge: &mut J,
) -> Result<Option<Limit>, AllocError>
    ensures met { IfOk result (λ limit. is_none limit
        ≡ list_any (is_strict_issuer (J.answers judge.old) moment purpose.now
        bundle.now.certificates) (map trust_anchor_plain anchors.now)) }
    ensures broken { IfOk result (λ limit. IfSome limit (λ one.
        IsBroken (J.answers judge.old) moment purpose.now bundle.now.certificates
        (map trust_anchor_plain anchors.now) one)) }
    ensures kept { J.answers judge.new ≡ J.answers judge.old }
{
    let mut limit = Limit::Anchor(Rule::WrongSignature);
    for anchor in anchors {
        if !issues_chain(anchor, bundle, judge) {
            continue;
        }
        match anchor_limit(alloc, anchor, bundle, moment, purpose)? {
            Some(broken) => limit = broken,
            None => return Ok(None),
        }
    }
    Ok(Some(limit))
}
