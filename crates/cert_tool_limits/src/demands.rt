//! The demands on a trusted chain beyond the rules of path validation. A demand is an option
//! (`--host`, `--strict` or `--warn-days`), and a limit is what a chain breaks if it doesn't meet
//! one.

ghost use Rattle.std.specs.Prelude.{◌≡◌, ◌&&◌, ◌||◌, ◌-◌, length, map, not, slice_get};
ghost use Rattle.std.specs.Prelude.{IfOk, IfSome};
ghost use Rattle.std.specs.Option.{is_none, option_map};
ghost use Rattle.x509_cert_anchors.specs.CertCertificates.Views.{certificate_plain};
ghost use Rattle.x509_cert_anchors.specs.AnchorViews.{trust_anchor_plain};
ghost use Rattle.cert_tool_limits.specs.Limits.{IsUnmet, allows_purpose, meets_host, meets_strict};
ghost use Rattle.cert_tool_limits.specs.Limits.{of_last};
ghost use Rattle.cert_tool_limits.specs.DemandChecks.{IsEnding, IsDemandResult, are_made};
ghost use Rattle.x509_cert_anchors.specs.Der.Heads.{Fits};

use crate::anchor_rules::anchors_limit;
use crate::choices::choices_in;
use crate::ending::{anchors_end, first_ending};
use crate::host_names::is_for_host;
use crate::key_uses::allows_purpose;
use crate::limit::Limit;
use crate::name_constraints::first_constraints;
use cert_desk_bundle::cert_parts::Raw;
use cert_desk_bundle::oid::ObjectIdentifier;
use cert_desk_bundle::{Bundle, Entry};
use cert_desk_rules::SignatureJudge;
use cert_tool_hosts::Host;
use std::alloc::{AllocError, Global};
use x509_cert_anchors::TrustAnchorChoice;

/// The demands on a trusted chain beyond the rules of path validation.
#[derive(Clone, Copy)]
pub struct Demands<'a> {
    /// The host that the end-entity certificate must be issued for.
    pub host: Option<Host<'a>>,
    /// Whether the chain must also meet what no rule of path validation checks.
    pub is_strict: bool,
    /// A chain is reported if it ends within this number of days.
    pub warn_days: Option<u32>,
}

impl<'a> Demands<'a> {
    /// Returns whether there are demands.
    pub fn are_made(&self) -> bool
        ensures { result ≡ are_made self.now }
    {
        self.host.is_some() || self.is_strict || self.warn_days.is_some()
    }
}

/// The result of checking the demands on a trusted chain.
#[derive(Clone, Copy, Debug, PartialEq, Eq)]
pub enum DemandResult {
    /// The chain meets them and doesn't end soon.
    Met,
    /// The chain doesn't meet this one.
    Unmet(Unmet),
    /// The chain meets them, but the certificate at this index ends soon; without an index, the
    /// trust anchor does.
    Ends(Option<usize>),
}

/// A limit that a chain breaks, and the index of the certificate that breaks it. If a trust anchor
/// breaks it, the index is that of the first certificate.
#[derive(Clone, Copy, Debug, PartialEq, Eq)]
pub struct Unmet {
    /// The index, counted from 0.
    pub place: usize,
    /// The limit.
    pub limit: Limit,
}

// Returns the end-entity certificate, which is the last one of a chain.
fn last_of(bundle: &Bundle) -> Option<Entry<'_>>
    ensures { option_map (λ e. certificate_plain e.certificate.now) result
        ≡ slice_get bundle.now.certificates (length bundle.now.certificates - 1) }
{
    bundle.get(bundle.len().saturating_sub(1))
}

// Returns whether the end-entity certificate is issued for this host, if one is given.
fn meets_host(alloc: Global, bundle: &Bundle, host: Option<Host<'_>>) -> Result<bool, AllocError>
    ensures { IfOk result (λ b. b ≡ meets_host host.entry bundle.now.certificates) }
{
    let Some(host) = host else {
        return Ok(true);
    };
    let Some(last) = last_of(bundle) else {
        return Ok(false);
    };
    let is_met = is_for_host(alloc, last.certificate, &host)?;
    Ok(is_met)
}

// Returns whether the key usage of the end-entity certificate is consistent with a key purpose.
fn last_allows(alloc: Global, bundle: &Bundle, purpose: &ObjectIdentifier<39>) -> bool
    ensures { result ≡ of_last (allows_purpose purpose.now) bundle.now.certificates }
{
    match last_of(bundle) {
        Some(last) => allows_purpose(alloc, last.certificate, purpose),
        None => false,
    }
}

/// Returns a demand that a chain which keeps every rule doesn't meet. The end-entity certificate
/// must be issued for the host. If `is_strict`, its key usage must also be consistent with the key
/// purpose, no certificate may have nameConstraints, and one of the trust anchors that issued the
/// chain must keep every rule of certificates and have no nameConstraints.
///
/// # Errors
///
/// - `AllocError`: memory runs out.
pub fn first_unmet<J: SignatureJudge>(
    alloc: Global,
    anchors: &[TrustAnchorChoice<Raw>],
    bundle: &Bundle,
    host: Option<Host<'_>>,
    is_strict: bool,
    moment: u64,
    purpose: &ObjectIdentifier<39>,
    judge: &mut J,
) -> Result<Option<Unmet>, AllocError>
    ensures met { IfOk result (λ unmet. is_none unmet
        ≡ (meets_host host.entry bundle.now.certificates && (not is_strict
        || meets_strict (J.answers judge.old) moment purpose.now bundle.now.certificates
        (map trust_anchor_plain anchors.now)))) }
    ensures unmet { IfOk result (λ unmet. IfSome unmet (λ one. IsUnmet host.entry
        (J.answers judge.old) moment purpose.now bundle.now.certificates
        (map trust_anchor_plain anchors.now) one.place one.limit)) }
    ensures kept { J.answers judge.new ≡ J.answers judge.old }
{
    let last = bundle.len().saturating_sub(1);
    if !meets_host(alloc, bundle, host)? {
        return Ok(Some(Unmet {
            place: last,
            limit: Limit::WrongHost,
        }));
    }
    if !is_strict {
        return Ok(None);
    }
    if !last_allows(alloc, bundle, purpose) {
        return Ok(Some(Unmet {
            place: last,
            limit: Limit::WrongKeyUsage,
        }));
    }
    if let Some(place) = first_constraints(bundle) {
        return Ok(Some(Unmet {
            place,
            limit: Limit::ConstrainedNames,
        }));
    }
    match anchors_limit(alloc, anchors, bundle, moment, purpose, judge)? {
        Some(limit) => Ok(Some(Unmet { place: 0, limit })),
        None => Ok(None),
    }
}

// Returns whether a chain that meets its demands ends soon.
fn ending<J: SignatureJudge>(
    anchors: &[TrustAnchorChoice<Raw>],
    bundle: &Bundle,
    days: Option<u32>,
    moment: u64,
    judge: &mut J,
) -> DemandResult
    ensures ends { IsEnding days (J.answers judge.old) moment bundle.now.certificates
        (map trust_anchor_plain anchors.now) result }
{
    let Some(days) = days else {
        return DemandResult::Met;
    };
    if let Some(place) = first_ending(bundle, moment, days) {
        return DemandResult::Ends(Some(place));
    }
    if anchors_end(anchors, bundle, moment, days, judge) {
        return DemandResult::Ends(None);
    }
    DemandResult::Met
}

/// Checks the demands on a trusted chain. `octets` is the file of the trust anchors under which it
/// is trusted.
///
/// # Errors
///
/// - `AllocError`: memory runs out.
pub fn hold<J: SignatureJudge>(
    alloc: Global,
    octets: &[u8],
    bundle: &Bundle,
    demands: &Demands<'_>,
    moment: u64,
    purpose: &ObjectIdentifier<39>,
    judge: &mut J,
) -> Result<DemandResult, AllocError>
    requires { Fits octets.now }
    ensures held { IfOk result (λ held. IsDemandResult demands.now (J.answers judge.old) moment
        purpose.now bundle.now.certificates octets.now held) }
{
    // The bytes were decoded before, so the only possible error is that memory runs out.
    let Ok(anchors) = choices_in(alloc, octets) else {
        return Err(AllocError);
    };
    let unmet = first_unmet(
        alloc,
        anchors.as_slice(),
        bundle,
        demands.host,
        demands.is_strict,
        moment,
        purpose,
        judge,
    )?;
    match unmet {
        Some(unmet) => Ok(DemandResult::Unmet(unmet)),
        None => Ok(ending(anchors.as_slice(), bundle, demands.warn_days, moment, judge)),
    }
}
