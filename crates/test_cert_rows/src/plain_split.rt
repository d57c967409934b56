//! Splits a chain into certificates by trying each prefix.
//!
//! This is slow. It shows what a reader of chains has to find.

ghost use Rattle.std.specs.Prelude.{◌≤◌, map, drop, length, IfOk};
ghost use Rattle.const_oid.specs.Bound.{Bound};
ghost use Rattle.der_core.specs.Grammar.{plain_option};
ghost use Rattle.cert_desk_checking.specs.CertCertificates.Views.{certificate_plain};
ghost use Rattle.cert_desk_checking.specs.DeskBundle.Faults.{Split};
ghost use Rattle.test_cert_rows.specs.SplitFronts.{IsFirst};

use cert_desk::{CertificateInner, Raw};
use der_core::making::is_out_of_memory;
use std::alloc::{AllocError, Global};

/// Returns the certificate with which the bytes begin, with at most `limit` bytes, and its length.
///
/// Tries each prefix, the shortest first.
///
/// # Errors
///
/// - `AllocError`: memory runs out.
pub(crate) fn first_certificate(
    alloc: Global,
    octets: &[u8],
    limit: u32,
) -> Result<Option<(CertificateInner<Raw>, usize)>, AllocError>
    ensures { IfOk result
        (λ first. IsFirst Bound limit octets.now
        (plain_option (λ p. (certificate_plain p.0, p.1)) first)) }
{
    let mut most = octets.len();
    if most > limit as usize {
        most = limit as usize;
    }
    for len in 0..most + 1 {
        match CertificateInner::<Raw>::from_der(alloc, &octets[..len]) {
            Ok(certificate) => return Ok(Some((certificate, len))),
            Err(error) => {
                if is_out_of_memory(&error) {
                    return Err(AllocError);
                }
            }
        }
    }
    Ok(None)
}

/// Returns the certificates with which a chain begins, and their total length.
///
/// # Errors
///
/// - `AllocError`: memory runs out.
pub(crate) fn split(
    alloc: Global,
    stream: &[u8],
    limit: u32,
) -> Result<(Vec<CertificateInner<Raw>>, usize), AllocError>
    ensures within { IfOk result (λ p. p.1 ≤ length stream.now) }
    ensures split { IfOk result
        (λ p. Split Bound limit stream.now (map certificate_plain p.0.items)
        (drop p.1 stream.now)) }
{
    let mut certificates = Vec::new(alloc);
    let mut start = 0;
    loop {
        match first_certificate(alloc, &stream[start..], limit)? {
            None => return Ok((certificates, start)),
            Some((certificate, len)) => {
                certificates.push(certificate)?;
                start += len;
            }
        }
    }
}
