//! Certification paths among the certificates of a bundle.

ghost use Rattle.std.specs.Prelude.{◌≡◌, ◌<◌, ℕ, List, [], ◌∷◌, ◌++◌, length, map, reverse};
ghost use Rattle.std.specs.Prelude.{IfOk, IfSome, true};
ghost use Rattle.std.specs.List.{list_any};
ghost use Rattle.cert_desk_checking.specs.Oid.Bound.{Bound};
ghost use Rattle.cert_desk_checking.specs.Anchors.{anchor_plain};
ghost use Rattle.cert_desk_checking.specs.Der.Shapes.{IsValid};
ghost use Rattle.cert_desk_checking.specs.CertCertificates.Certificates.{raw_certificate};
ghost use Rattle.cert_desk_checking.specs.CertCertificates.Views.{certificate_plain};
ghost use Rattle.cert_desk_checking.specs.DeskRules.Judging.{is_named};
ghost use Rattle.pki_signers.specs.Paths.{is_link, is_top, issuer_among, next_up, path_up};

use cert_desk_checking::desk_bundle::Bundle;
use cert_desk_checking::{Anchor, is_issued_by};
use std::alloc::{AllocError, Global};
use x509_cert_certificates::CertificateInner;
use x509_cert_certificates::cert_parts::Raw;

/// Returns the certification path of a certificate as indices of the bundle's certificates, from
/// the top down (RFC 5280 6.1). The last index is `last`.
///
/// Only names are compared, byte for byte. The path is made from its end: before a certificate
/// comes the first certificate whose subject is its issuer. The path stops at a certificate that is
/// self-issued, that names a trust anchor as its issuer, or whose issuer has no certificate here.
/// If the names form a cycle, it stops when it has as many indices as the bundle has certificates,
/// and an index may occur several times.
///
/// # Panics
///
/// In a program that isn't proved, if `last` isn't the index of a certificate (for an empty bundle,
/// it returns an empty path).
///
/// # Errors
///
/// - `AllocError`: memory runs out.
pub fn path_to(
    alloc: Global,
    certificates: &Bundle,
    last: usize,
    anchors: &[Anchor],
) -> Result<Vec<usize>, AllocError>
    requires { last < length certificates.now.certificates }
    ensures path { IfOk result (λ path. path.items ≡ reverse
        (path_up Bound (map anchor_plain anchors.now) certificates.now.certificates last)) }
    // The path ends with the certificate, and the subject of each certificate in it is the issuer
    // of the next.
    ensures last { IfOk result (λ path. (front : List ℕ) × (path.items ≡ front ++ last ∷ [])) }
    ensures linked { IfOk result (λ path. (front rest : List ℕ) (above below : ℕ)
        → path.items ≡ front ++ above ∷ below ∷ rest
        → is_link Bound certificates.now.certificates above below ≡ true) }
{
    let mut path = path_up(alloc, certificates, last, anchors)?;
    path.reverse();
    Ok(path)
}

// Returns the path from a certificate up, the certificate itself first.
fn path_up(
    alloc: Global,
    certificates: &Bundle,
    last: usize,
    anchors: &[Anchor],
) -> Result<Vec<usize>, AllocError>
    requires { last < length certificates.now.certificates }
    ensures { IfOk result (λ path. path.items
        ≡ path_up Bound (map anchor_plain anchors.now) certificates.now.certificates last) }
{
    let mut path = Vec::new(alloc);
    let mut place = last;
    for _turn in 0..certificates.len() {
        path.push(place)?;
        let Some(next) = next_up(certificates, place, anchors) else {
            return Ok(path);
        };
        place = next;
    }
    Ok(path)
}

// Returns the index of the certificate that comes before this one in a path, if there is one.
fn next_up(certificates: &Bundle, place: usize, anchors: &[Anchor]) -> Option<usize>
    requires { place < length certificates.now.certificates }
    ensures next { result ≡ next_up Bound (map anchor_plain anchors.now)
        certificates.now.certificates place }
    ensures within { IfSome result (λ next. next < length certificates.now.certificates) }
{
    let entry = certificates.get(place).unwrap();
    if is_top(entry.certificate, anchors) {
        return None;
    }
    issuer_among(certificates, entry.certificate)
}

// Returns whether a path begins with this certificate: it is self-issued, or its issuer is the name
// of a trust anchor.
fn is_top(certificate: &CertificateInner<Raw>, anchors: &[Anchor]) -> bool
    requires { IsValid (raw_certificate Bound) (certificate_plain certificate.now) }
    ensures { result ≡ is_top Bound (map anchor_plain anchors.now)
        (certificate_plain certificate.now) }
{
    if is_issued_by(certificate, certificate.tbs_certificate().subject()) {
        return true;
    }
    is_anchored(certificate, anchors)
}

// Returns whether a trust anchor has the issuer's name.
fn is_anchored(certificate: &CertificateInner<Raw>, anchors: &[Anchor]) -> bool
    requires { IsValid (raw_certificate Bound) (certificate_plain certificate.now) }
    ensures { result ≡ list_any (is_named Bound (certificate_plain certificate.now))
        (map anchor_plain anchors.now) }
{
    for anchor in anchors {
        if is_issued_by(certificate, anchor.name()) {
            return true;
        }
    }
    false
}

// Returns the index of the first certificate whose subject is the issuer of this one.
fn issuer_among(certificates: &Bundle, certificate: &CertificateInner<Raw>) -> Option<usize>
    requires { IsValid (raw_certificate Bound) (certificate_plain certificate.now) }
    ensures issuer { result ≡ issuer_among Bound certificates.now.certificates
        (certificate_plain certificate.now) }
    ensures within { IfSome result (λ place. place < length certificates.now.certificates) }
{
    for place in 0..certificates.len() {
        let other = certificates.get(place).unwrap();
        if is_issued_by(certificate, other.certificate.tbs_certificate().subject()) {
            return Some(place);
        }
    }
    None
}
