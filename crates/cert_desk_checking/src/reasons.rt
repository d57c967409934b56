//! The reasons why a certificate breaks a rule.
ghost use Rattle.std.specs.Prelude.{◌≡◌, ◌<◌, ◌≤◌, ◌+◌, ◌-◌, List, ℕ, true, false, ◌⊎◌, length};
ghost use Rattle.std.specs.Prelude.{not, IfSome, IfOk, OnErr, ◌&&◌, ◌||◌};
ghost use Rattle.std.specs.List.{list_any};
ghost use Rattle.std.specs.Option.{is_some};
ghost use Rattle.x509_cert_anchors.specs.Oid.Bound.{Bound};
ghost use Rattle.x509_cert_anchors.specs.CertParts.Views.{extension_plain, extensions_plain};
ghost use Rattle.cert_desk_rules.specs.Judging.{Terms, are_distinct, is_alone, keeps_at};
ghost use Rattle.cert_desk_rules.specs.Paths.{used_up, counts, extensions_at, is_last};
ghost use Rattle.cert_desk_rules.specs.Paths.{is_within_lengths, keep_lengths, keeps_length};
ghost use Rattle.cert_desk_rules.specs.Reasons.{AreFirstTwins, ExplainsFirst, IsFirstAt};
ghost use Rattle.cert_desk_rules.specs.Reasons.{SomeMayTakeMemory, goes_against, has_no_authority};
ghost use Rattle.cert_desk_rules.specs.Reasons.{have_one_identifier, is_against, is_explained};
ghost use Rattle.cert_desk_rules.specs.Weighing.{may_take_memory};

use crate::checking::is_self_issued;
use cert_desk_rules::desk_bundle::Bundle;
use cert_desk_rules::{Findings, Reason, Rule, extensions_of, findings_of, first_twin};
use std::alloc::{AllocError, Global};
use std::slice;
use x509_cert_anchors::cert_parts::Extension;
use x509_cert_anchors::oid::ObjectIdentifier;

/// Returns the first reason why the certificate at an index of a bundle breaks a rule for this
/// purpose. Returns `None` if it keeps the rule, or if the rule can be broken in only one way.
///
/// Reasons are in the order of the extensions or indexes to which they belong. Pairs of extensions
/// with the same OID are in the order of their first index, and then of their second. For
/// `Rule::NotAuthority`, the absence of basic constraints comes before an extension.
///
/// # Errors
///
/// - `AllocError`: memory runs out. Decoding the extensions up to this certificate may allocate.
pub fn reason_of(
    alloc: Global,
    bundle: &Bundle,
    place: usize,
    rule: Rule,
    purpose: &ObjectIdentifier<39>,
) -> Result<Option<Reason>, AllocError>
    // A reason is returned exactly if the certificate breaks a rule that has reasons.
    ensures told { IfOk result (λ told. (t : Terms) (stream : List ℕ) → t.bound ≡ Bound → t.purpose
        ≡ purpose.now
        → is_some told
        ≡ (is_explained rule && not (keeps_at rule t bundle.now.certificates stream place))) }
    // The reason is true, and no earlier one is.
    ensures first { IfOk result (λ told. IfSome told
        (ExplainsFirst Bound purpose.now bundle.now.certificates place rule)) }
    ensures memory { OnErr result (SomeMayTakeMemory bundle.now.certificates place) }
{
    let Some(entry) = bundle.get(place) else {
        return Ok(None);
    };
    let extensions = extensions_of(entry.certificate);
    match rule {
        Rule::DuplicateExtension => twins_in(alloc, extensions),
        Rule::MalformedExtension | Rule::UnweighedCritical | Rule::AgainstPurpose => {
            extension_against(alloc, extensions, purpose, rule)
        }
        Rule::NotAuthority => {
            if is_last(bundle, place) {
                return Ok(None);
            }
            lack_of_authority(alloc, extensions, purpose)
        }
        Rule::PathTooLong => exceeded_length(alloc, bundle, place, purpose),
        _ => Ok(None),
    }
}

// Returns the first extension that alone breaks a rule.
fn extension_against(
    alloc: Global,
    extensions: &[Extension],
    purpose: &ObjectIdentifier<39>,
    rule: Rule,
) -> Result<Option<Reason>, AllocError>
    ensures told { IfOk result (λ told. is_some told
        ≡ list_any (is_against Bound purpose.now rule) (extensions_plain extensions.now)) }
    ensures first { IfOk result
        (λ told. IfSome told (λ reason. (number : ℕ) × (reason ≡ Reason.Extension number)
        × IsFirstAt (is_against Bound purpose.now rule) (extensions_plain extensions.now)
        number)) }
    ensures memory { OnErr result (may_take_memory (extensions_plain extensions.now) ≡ true) }
{
    for number in 0..extensions.len() {
        let findings = findings_of(alloc, slice::from_ref(&extensions[number]), purpose)?;
        if goes_against(&findings, rule) {
            return Ok(Some(Reason::Extension(number)));
        }
    }
    Ok(None)
}

// Returns whether an extension alone breaks a rule, by the findings about it.
fn goes_against(findings: &Findings, rule: Rule) -> bool
    ensures { result ≡ goes_against findings.now rule }
{
    match rule {
        Rule::MalformedExtension => findings.malformed,
        Rule::UnweighedCritical => findings.unweighed_critical,
        Rule::AgainstPurpose => !findings.serves,
        Rule::NotAuthority => !findings.certifies,
        _ => false,
    }
}

// Returns the first pair of extensions with the same OID.
fn twins_in(alloc: Global, extensions: &[Extension]) -> Result<Option<Reason>, AllocError>
    ensures told { IfOk result (λ told. is_some told
        ≡ not (are_distinct (extensions_plain extensions.now))) }
    ensures first { IfOk result (λ told. IfSome told (λ reason. (first : ℕ) × (second : ℕ)
        × (reason ≡ Reason.Twins first second)
        × AreFirstTwins (extensions_plain extensions.now) first second)) }
    ensures memory { OnErr result (may_take_memory (extensions_plain extensions.now) ≡ true) }
{
    let Some(first) = first_twin(alloc, extensions)? else {
        return Ok(None);
    };
    let behind = first + 1;
    let number = twin_of(&extensions[first], &extensions[behind..]).unwrap();
    let second = behind + number;
    Ok(Some(Reason::Twins { first, second }))
}

// Returns the index of the first of the others that has the OID of the extension.
fn twin_of(extension: &Extension, others: &[Extension]) -> Option<usize>
    ensures told { is_some result
        ≡ not (is_alone (extension_plain extension.now) (extensions_plain others.now)) }
    ensures within { IfSome result (λ number. number < length others.now) }
    ensures first { IfSome result
        (IsFirstAt (have_one_identifier (extension_plain extension.now))
        (extensions_plain others.now)) }
{
    for number in 0..others.len() {
        if extension.extn_id == others[number].extn_id {
            return Some(number);
        }
    }
    None
}

// Returns the first reason why the extensions aren't those of a CA whose key may sign certificates.
fn lack_of_authority(
    alloc: Global,
    extensions: &[Extension],
    purpose: &ObjectIdentifier<39>,
) -> Result<Option<Reason>, AllocError>
    ensures told { IfOk result (λ told. is_some told
        ≡ (has_no_authority Bound (extensions_plain extensions.now)
        || list_any (is_against Bound purpose.now Rule.NotAuthority)
        (extensions_plain extensions.now))) }
    ensures first { IfOk result (λ told. IfSome told (λ reason.
        ((reason ≡ Reason.NoConstraints)
        × (has_no_authority Bound (extensions_plain extensions.now) ≡ true))
        ⊎ ((has_no_authority Bound (extensions_plain extensions.now) ≡ false)
        × (number : ℕ) × (reason ≡ Reason.Extension number)
        × IsFirstAt (is_against Bound purpose.now Rule.NotAuthority)
        (extensions_plain extensions.now) number))) }
    ensures memory { OnErr result (may_take_memory (extensions_plain extensions.now) ≡ true) }
{
    let findings = findings_of(alloc, extensions, purpose)?;
    if !findings.ca {
        return Ok(Some(Reason::NoConstraints));
    }
    let against = extension_against(alloc, extensions, purpose, Rule::NotAuthority)?;
    Ok(against)
}

// Returns the first index whose path length is exceeded by the certificates up to this one, if this
// one counts. Counts the certificates once.
fn exceeded_length(
    alloc: Global,
    bundle: &Bundle,
    place: usize,
    purpose: &ObjectIdentifier<39>,
) -> Result<Option<Reason>, AllocError>
    requires within { place < length bundle.now.certificates }
    ensures told { IfOk result (λ told. is_some told
        ≡ not (is_within_lengths Bound bundle.now.certificates place)) }
    ensures first { IfOk result
        (λ told. IfSome told (λ reason. (before : ℕ) × (reason ≡ Reason.PathLength before)
        × (before < place) × (keeps_length Bound bundle.now.certificates before place ≡ false)
        × (keep_lengths Bound bundle.now.certificates before place ≡ true))) }
    ensures memory { OnErr result (SomeMayTakeMemory bundle.now.certificates place) }
{
    if !counts(bundle, place) {
        return Ok(None);
    }
    let mut left = counted_behind(bundle, 0, place);
    for before in 0..place {
        if !keeps_length(alloc, bundle, before, left, purpose)? {
            return Ok(Some(Reason::PathLength { place: before }));
        }
        if counts(bundle, before + 1) {
            left -= 1;
        }
    }
    Ok(None)
}

// Returns whether `count` certificates are within the path length of the certificate at an index.
fn keeps_length(
    alloc: Global,
    bundle: &Bundle,
    before: usize,
    count: usize,
    purpose: &ObjectIdentifier<39>,
) -> Result<bool, AllocError>
    requires within { before < length bundle.now.certificates }
    ensures kept { IfOk result (λ kept. (place : ℕ)
        → count ≡ used_up Bound bundle.now.certificates (before + 1) (place - before)
        → kept ≡ keeps_length Bound bundle.now.certificates before place) }
    ensures memory { OnErr result
        (may_take_memory (extensions_at bundle.now.certificates before) ≡ true) }
{
    let certificate = bundle.get(before).unwrap().certificate;
    let findings = findings_of(alloc, extensions_of(certificate), purpose)?;
    let Some(most) = findings.path_len else {
        return Ok(true);
    };
    Ok(count <= most as usize)
}

// Returns the number of certificates that count, from the one after `before` up to `place`.
fn counted_behind(bundle: &Bundle, before: usize, place: usize) -> usize
    requires order { before ≤ place }
    requires within { place < length bundle.now.certificates }
    ensures { result ≡ used_up Bound bundle.now.certificates (before + 1) (place - before) }
{
    let mut count = 0;
    for step in before..place {
        if counts(bundle, step + 1) {
            count += 1;
        }
    }
    count
}

// Returns whether the certificate at an index counts for path lengths: it is neither the last nor
// self-issued.
fn counts(bundle: &Bundle, place: usize) -> bool
    requires within { place < length bundle.now.certificates }
    ensures { result ≡ counts Bound bundle.now.certificates place }
{
    let certificate = bundle.get(place).unwrap().certificate;
    !is_last(bundle, place) && !is_self_issued(certificate)
}

// Returns whether the certificate at an index is the last one.
fn is_last(bundle: &Bundle, place: usize) -> bool
    requires within { place < length bundle.now.certificates }
    ensures { result ≡ is_last bundle.now.certificates place }
{
    let len = bundle.len();
    place + 1 == len
}
