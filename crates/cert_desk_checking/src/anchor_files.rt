//! Files of trust anchors.
ghost use Rattle.std.specs.Prelude.{◌≡◌, ◌<◌, ◌^◌, length, map, IfOk, IfErr};
ghost use Rattle.x509_cert_anchors.specs.Der.Heads.{Fits};
ghost use Rattle.x509_cert_anchors.specs.AnchorViews.{trust_anchor_plain};
ghost use Rattle.cert_desk_checking.specs.Anchors.{anchor_plain, given_by};
ghost use Rattle.cert_desk_checking.specs.AnchorFiles.{IsAnchorFile, raw_choice};
ghost use Rattle.cert_desk_checking.specs.AnchorReading.{FailsBy, GivesNone, IsNoAnchorFile};
ghost use Rattle.cert_desk_checking.specs.AnchorReading.{IsUngiven};
ghost use Rattle.cert_desk_checking.specs.Files.{GivesAt, StandsAt};

use crate::anchor::Anchor;
use crate::anchor_error::AnchorError;
use crate::anchor_fault::AnchorFault;
use crate::anchors_error::AnchorsError;
use std::alloc::Global;
use x509_cert_anchors::TrustAnchorChoice;
use x509_cert_anchors::cert_parts::Raw;
use x509_cert_anchors::der::FromDer;
use x509_cert_anchors::der::making::is_out_of_memory;

// Returns the error for the trust anchor that begins at `start`.
fn faulty(start: usize, fault: AnchorFault) -> AnchorsError
    ensures { result ≡ AnchorsError.BadAnchors start fault }
{
    AnchorsError::BadAnchors {
        offset: start as u64,
        fault,
    }
}

/// Decodes the trust anchor that begins at `start`, with all its fields. Returns it and the offset
/// of its end.
///
/// # Errors
///
/// - `BadAnchors`: the bytes at this offset don't begin with a trust anchor (`Malformed`).
/// - `OutOfMemory`: memory runs out.
pub fn choice_at(
    alloc: Global,
    octets: &[u8],
    start: usize,
) -> Result<(TrustAnchorChoice<Raw>, usize), AnchorsError>
    requires some { start < length octets.now }
    requires short { Fits octets.now }
    ensures stands { IfOk result
        (λ p. StandsAt raw_choice octets.now start p.1 (trust_anchor_plain p.0)) }
    ensures none { IfErr result (GivesNone octets.now start) }
    ensures malformed { IfErr result (FailsBy (λ offset fault. fault ≡ AnchorFault.Malformed)) }
{
    match TrustAnchorChoice::<Raw>::from_der_partial(alloc, &octets[start..]) {
        Ok((choice, behind)) => Ok((choice, octets.len() - behind.len())),
        Err(error) => {
            if is_out_of_memory(&error) {
                return Err(AnchorsError::OutOfMemory);
            }
            Err(faulty(start, AnchorFault::Malformed))
        }
    }
}

// Returns the name and key of the trust anchor between two offsets, and the second offset.
fn given(
    alloc: Global,
    choice: &TrustAnchorChoice<Raw>,
    start: usize,
    end: usize,
) -> Result<(Anchor, usize), AnchorsError>
    ensures given { IfOk result (λ p. given_by (trust_anchor_plain choice.now)
        ≡ Ok (anchor_plain p.0)) }
    ensures end { IfOk result (λ p. p.1 ≡ end) }
    ensures ungiven { IfErr result (IsUngiven (trust_anchor_plain choice.now) start) }
{
    match Anchor::from_choice(alloc, choice) {
        Ok(anchor) => Ok((anchor, end)),
        Err(AnchorError::NoName) => Err(faulty(start, AnchorFault::NoName)),
        Err(AnchorError::PathControls) => Err(faulty(start, AnchorFault::PathControls)),
        Err(AnchorError::OutOfMemory) => Err(AnchorsError::OutOfMemory),
    }
}

// Returns the name and key of the trust anchor that begins at `start`, and the offset of its end.
fn anchor_at(alloc: Global, octets: &[u8], start: usize) -> Result<(Anchor, usize), AnchorsError>
    requires some { start < length octets.now }
    requires short { Fits octets.now }
    ensures given { IfOk result
        (λ p. GivesAt raw_choice given_by octets.now start p.1 (anchor_plain p.0)) }
    ensures none { IfErr result (GivesNone octets.now start) }
{
    let (choice, end) = choice_at(alloc, octets, start)?;
    given(alloc, &choice, start, end)
}

/// Returns the trust anchors of a file, which is a concatenation of trust anchors (RFC 5914 2).
///
/// # Errors
///
/// - `BadAnchors`: a trust anchor is rejected. The first such one is reported.
/// - `OutOfMemory`: memory runs out.
pub fn anchors_in(alloc: Global, octets: &[u8]) -> Result<Vec<Anchor>, AnchorsError>
    requires { Fits octets.now }
    ensures read { IfOk result
        (λ anchors. IsAnchorFile octets.now (map anchor_plain anchors.items)) }
    ensures refused { IfErr result (IsNoAnchorFile octets.now) }
{
    let mut anchors = Vec::new(alloc);
    let mut start = 0;
    while start < octets.len() {
        let (anchor, end) = anchor_at(alloc, octets, start)?;
        if anchors.push(anchor).is_err() {
            return Err(AnchorsError::OutOfMemory);
        }
        start = end;
    }
    Ok(anchors)
}
