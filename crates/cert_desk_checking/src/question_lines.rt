//! The questions about the signatures of a chain, as lines of text.
ghost use Rattle.std.specs.Prelude.{◌≡◌, ◌<◌, List, ◌++◌, length, map, IfOk, OnOk, string_bytes};
ghost use Rattle.x509_cert_anchors.specs.Der.Shapes.{IsValid, octets_of};
ghost use Rattle.hex.specs.Hex.{encode_lower};
ghost use Rattle.cert_desk_checking.specs.Anchors.{anchor_plain};
ghost use Rattle.x509_cert_anchors.specs.Oid.Bound.{Bound};
ghost use Rattle.x509_cert_anchors.specs.CertCertificates.Views.{certificate_plain};
ghost use Rattle.x509_cert_anchors.specs.CertCertificates.Certificates.{raw_certificate};
ghost use Rattle.cert_desk_rules.specs.DeskBundle.Chains.{joined};
ghost use Rattle.cert_desk_rules.specs.Judging.{PlainAnchor};
ghost use Rattle.x509_cert_anchors.specs.CertParts.Views.{key_plain};
ghost use Rattle.cert_desk_checking.specs.QuestionLines.{anchor_word, chain_lines};
ghost use Rattle.cert_desk_checking.specs.QuestionLines.{lines_at, lines_octets};
ghost use Rattle.cert_desk_checking.specs.Questioning.{anchor_line, entry_line, entry_lines};

use crate::anchor::Anchor;
use crate::checking::is_issued_by;
use cert_desk_rules::desk_bundle::{Bundle, Entry};
use std::alloc::{AllocError, Global};
use x509_cert_anchors::cert_parts::SubjectPublicKeyInfo;
use x509_cert_anchors::der::{Encode, ToDer};

// Returns the encoding of a value in base 16.
fn hex_encoding_of<T: Encode>(alloc: Global, value: &T) -> Result<String, AllocError>
    ensures { IfOk result (λ text. string_bytes text
        ≡ encode_lower (octets_of T.shape (T.written value.now))) }
{
    let Ok(octets) = value.to_der(alloc) else {
        return Err(AllocError);
    };
    hex::encode(alloc, octets.as_slice())
}

// Returns the index of a trust anchor in decimal, or `-`.
fn anchor_word(alloc: Global, anchor: Option<usize>) -> Result<String, AllocError>
    ensures { IfOk result (λ text. string_bytes text ≡ anchor_word anchor) }
{
    match anchor {
        Some(number) => format!(in alloc; "{number}"),
        None => format!(in alloc; "-"),
    }
}

// Appends the line of a question about the certificate at an index, under a key. `anchor` is the
// index of the trust anchor with that key, if it is one's.
fn add_line(
    alloc: Global,
    text: &mut String,
    place: usize,
    anchor: Option<usize>,
    key: &SubjectPublicKeyInfo,
    entry: &Entry<'_>,
) -> Result<(), AllocError>
    ensures { OnOk result (string_bytes text.new ≡ string_bytes text.old
        ++ entry_line place anchor entry.now (key_plain key.now)) }
{
    let anchor = anchor_word(alloc, anchor)?;
    let key = hex_encoding_of(alloc, key)?;
    let algorithm = hex_encoding_of(alloc, entry.certificate.signature_algorithm())?;
    let signed = hex::encode(alloc, entry.signed)?;
    let bits = hex_encoding_of(alloc, entry.certificate.signature())?;
    writeln!(text, "{place} {anchor} {key} {algorithm} {signed} {bits}")?;
    Ok(())
}

// Appends the line of the question about the first certificate under the key of a trust anchor, if
// that has the issuer's name.
#[tactic(auto, unfolding(crate::specs::Anchors::anchor_plain))]
fn add_anchor(
    alloc: Global,
    text: &mut String,
    number: usize,
    anchor: &Anchor,
    entry: &Entry<'_>,
) -> Result<(), AllocError>
    requires { IsValid (raw_certificate Bound) (certificate_plain entry.now.certificate.now) }
    ensures { OnOk result (string_bytes text.new ≡ string_bytes text.old
        ++ anchor_line entry.now number (anchor_plain anchor.now)) }
{
    if !is_issued_by(entry.certificate, anchor.name()) {
        return Ok(());
    }
    add_line(alloc, text, 0, Some(number), anchor.key(), entry)
}

// Appends the lines of the questions about the first certificate: one for each trust anchor with
// the issuer's name, in order.
fn add_first(
    alloc: Global,
    text: &mut String,
    anchors: &[Anchor],
    entry: &Entry<'_>,
) -> Result<(), AllocError>
    requires { IsValid (raw_certificate Bound) (certificate_plain entry.now.certificate.now) }
    ensures { OnOk result (string_bytes text.new ≡ string_bytes text.old
        ++ entry_lines entry.now 0 (map anchor_plain anchors.now)) }
{
    for number in 0..anchors.len() {
        add_anchor(alloc, text, number, &anchors[number], entry)?;
    }
    Ok(())
}

// Appends the line of the question about a later certificate, under the key of the one before.
fn add_later(
    alloc: Global,
    text: &mut String,
    bundle: &Bundle,
    place: usize,
) -> Result<(), AllocError>
    requires later { 0 < place }
    requires within { place < length bundle.now.certificates }
    ensures { (anchors : List PlainAnchor) → OnOk result (string_bytes text.new
        ≡ string_bytes text.old ++ lines_octets (lines_at anchors bundle.now.certificates
        (joined Bound bundle.now.certificates) place)) }
{
    let before = bundle.get(place - 1).unwrap();
    let key = before
        .certificate
        .tbs_certificate()
        .subject_public_key_info();
    add_line(alloc, text, place, None, key, &bundle.get(place).unwrap())
}

// Appends the lines of the questions about the certificate at an index.
fn add_place(
    alloc: Global,
    text: &mut String,
    anchors: &[Anchor],
    bundle: &Bundle,
    place: usize,
) -> Result<(), AllocError>
    requires { place < length bundle.now.certificates }
    ensures { OnOk result (string_bytes text.new ≡ string_bytes text.old
        ++ lines_octets (lines_at (map anchor_plain anchors.now) bundle.now.certificates
        (joined Bound bundle.now.certificates) place)) }
{
    if place == 0 {
        return add_first(alloc, text, anchors, &bundle.get(0).unwrap());
    }
    add_later(alloc, text, bundle, place)
}

/// Returns a line for each question that the signatures of a chain may ask:
/// `PLACE ANCHOR KEY ALGORITHM SIGNED BITS`.
///
/// `PLACE` and `ANCHOR` are decimal indexes, and `ANCHOR` is `-` after the first certificate. The
/// others are in lowercase base 16: the encodings of the key and of the algorithm, the signed
/// bytes, and the encoding of the signature. For the first certificate, each anchor with the
/// issuer's name has a line, in the order of the anchors. For each other certificate the key is
/// that of the certificate before.
///
/// # Errors
///
/// - `AllocError`: memory runs out.
pub fn chain_lines(alloc: Global, anchors: &[Anchor], bundle: &Bundle) -> Result<String, AllocError>
    ensures { IfOk result (λ text. string_bytes text
        ≡ lines_octets (chain_lines (map anchor_plain anchors.now) bundle.now.certificates
        (joined Bound bundle.now.certificates))) }
{
    let mut text = String::new(alloc);
    for place in 0..bundle.len() {
        add_place(alloc, &mut text, anchors, bundle, place)?;
    }
    Ok(text)
}
