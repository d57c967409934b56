//! The extensions of a certificate, and the search for two with the same OID (RFC 5280 4.2).

ghost use Rattle.std.specs.Prelude.{◌≡◌, ◌<◌, ℕ, length, true, false, not};
ghost use Rattle.std.specs.Prelude.{IfOk, IfSome, OnErr};
ghost use Rattle.std.specs.Option.{is_some};
ghost use Rattle.cert_desk_bundle.specs.CertCertificates.Certificates.{extensions_of};
ghost use Rattle.cert_desk_bundle.specs.CertCertificates.Views.{certificate_plain};
ghost use Rattle.cert_desk_bundle.specs.CertParts.Views.{extension_plain, extensions_plain};
ghost use Rattle.cert_desk_rules.specs.Judging.{are_distinct, has_twin, is_alone};
ghost use Rattle.cert_desk_rules.specs.Weighing.{may_take_memory};

use cert_desk_bundle::cert_certificates::CertificateInner;
use cert_desk_bundle::cert_parts::{Extension, Raw};
use std::alloc::{AllocError, Global};
use std::collections::BTreeSet;

// The largest number of extensions that are compared pairwise.
const FEW: usize = 16;

/// Returns the extensions in their order, or none if the field is absent.
pub fn extensions_of(certificate: &CertificateInner<Raw>) -> &[Extension]
    ensures { extensions_plain result.now ≡ extensions_of (certificate_plain certificate.now) }
{
    match certificate.tbs_certificate().extensions() {
        Some(extensions) => extensions.as_slice(),
        None => &[],
    }
}

/// Returns the index of the first extension whose OID a later extension has. Makes O(n log n)
/// comparisons, and allocates only for more than 16 extensions.
pub fn first_twin(alloc: Global, extensions: &[Extension]) -> Result<Option<usize>, AllocError>
    ensures distinct { IfOk result (λ twin. not (is_some twin)
        ≡ are_distinct (extensions_plain extensions.now)) }
    ensures within { IfOk result (λ twin. IfSome twin (λ place. place < length extensions.now)) }
    ensures twin { IfOk result (λ twin. IfSome twin (λ place.
        has_twin (extensions_plain extensions.now) place ≡ true)) }
    ensures first { IfOk result (λ twin. IfSome twin (λ place. (other : ℕ) → other < place
        → has_twin (extensions_plain extensions.now) other ≡ false)) }
    ensures memory { OnErr result (may_take_memory (extensions_plain extensions.now) ≡ true) }
{
    if extensions.len() <= FEW {
        return Ok(first_twin_of_few(extensions));
    }
    let twin = first_twin_of_many(alloc, extensions)?;
    Ok(twin)
}

// Does the same as `first_twin`. Goes from the last extension to the first, with a set of the OIDs
// so far.
fn first_twin_of_many(alloc: Global, extensions: &[Extension]) -> Result<Option<usize>, AllocError>
    ensures distinct { IfOk result (λ twin. not (is_some twin)
        ≡ are_distinct (extensions_plain extensions.now)) }
    ensures within { IfOk result (λ twin. IfSome twin (λ place. place < length extensions.now)) }
    ensures twin { IfOk result (λ twin. IfSome twin (λ place.
        has_twin (extensions_plain extensions.now) place ≡ true)) }
    ensures first { IfOk result (λ twin. IfSome twin (λ place. (other : ℕ) → other < place
        → has_twin (extensions_plain extensions.now) other ≡ false)) }
{
    let mut behind = BTreeSet::new(alloc);
    let mut twin = None;
    for place in (0..extensions.len()).rev() {
        if !behind.insert(extensions[place].extn_id)? {
            twin = Some(place);
        }
    }
    Ok(twin)
}

// Does the same as `first_twin`. Compares each pair of extensions, which doesn't allocate.
fn first_twin_of_few(extensions: &[Extension]) -> Option<usize>
    ensures distinct { not (is_some result) ≡ are_distinct (extensions_plain extensions.now) }
    ensures within { IfSome result (λ place. place < length extensions.now) }
    ensures twin { IfSome result (λ place. has_twin (extensions_plain extensions.now) place
        ≡ true) }
    ensures first { IfSome result (λ place. (other : ℕ) → other < place
        → has_twin (extensions_plain extensions.now) other ≡ false) }
{
    for place in 0..extensions.len() {
        if !is_alone(&extensions[place], &extensions[place + 1..]) {
            return Some(place);
        }
    }
    None
}

// Returns whether none of the others has the OID of this extension.
fn is_alone(extension: &Extension, others: &[Extension]) -> bool
    ensures { result ≡ is_alone (extension_plain extension.now) (extensions_plain others.now) }
{
    !others
        .iter()
        .any(|other| extension.extn_id == other.extn_id)
}
