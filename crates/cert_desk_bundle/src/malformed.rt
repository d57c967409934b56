//! Why a certificate is malformed.
ghost use Rattle.std.specs.Prelude.{◌≡◌, ◌≤◌, ℕ, List, Ok, Err, IfOk, IfSome, IfNone, length};
ghost use Rattle.x509_cert_certificates.specs.Certificates.{PlainCertificate};
ghost use Rattle.cert_desk_bundle.specs.FirstFaults.{first_certificate};

use std::alloc::{AllocError, Global};
use x509_cert_certificates::CertificateInner;
use x509_cert_certificates::cert_parts::Raw;
use x509_cert_certificates::der::making::is_out_of_memory;
use x509_cert_certificates::der::{Error, FromDer};

// Returns the error, without its position if that is after the end of `len` bytes.
fn placed_within(error: Error, len: usize) -> Error
    ensures kind { result.kind ≡ error.kind }
    ensures within { IfSome result.position (λ place. place.value ≤ len) }
{
    match error.position {
        Some(place) if place.value as usize > len => error.kind.to_error(),
        _ => error,
    }
}

/// Returns why the bytes don't begin with a certificate: the first error that decoding meets, or
/// `None` if they do.
///
/// Use it for the bytes from the offset on at which an input is `Malformed`. The kind is that of
/// the first error. The position is the index of the byte at which the decoder found it; the
/// contract only says that it is one of these bytes, or their end.
///
/// # Errors
///
/// - `AllocError`: memory runs out.
pub fn first_fault(alloc: Global, octets: &[u8]) -> Result<Option<Error>, AllocError>
    ensures fault { IfOk result (λ told. IfSome told (λ e.
        first_certificate octets.now ≡ Err e.kind)) }
    ensures within { IfOk result (λ told. IfSome told (λ e.
        IfSome e.position (λ place. place.value ≤ length octets.now))) }
    ensures none { IfOk result (λ told. IfNone told ((c : PlainCertificate) × (behind : List ℕ)
        × (first_certificate octets.now ≡ Ok (c, behind)))) }
{
    let error = match CertificateInner::<Raw>::from_der_partial(alloc, octets) {
        Ok(_) => return Ok(None),
        Err(error) => error,
    };
    if is_out_of_memory(&error) {
        return Err(AllocError);
    }
    Ok(Some(placed_within(error, octets.len())))
}
