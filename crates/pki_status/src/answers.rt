//! Finding the answer of an OCSP response for a certificate (RFC 6960 4.2.1).

ghost use Rattle.std.specs.Prelude.{◌≡◌, IfOk, IfErr, find, option_copied};
ghost use Rattle.der_core.specs.Oid.Bound.{Bound};
ghost use Rattle.der_core.specs.Shapes.{IsValid};
ghost use Rattle.x509_cert_reading.specs.Certificates.{issuer};
ghost use Rattle.x509_cert_reading.specs.CertificateViews.{certificate_plain};
ghost use Rattle.x509_cert_reading.specs.Names.Names.{name};
ghost use Rattle.x509_cert_reading.specs.Parts.Views.{key_plain};
ghost use Rattle.pki_status.specs.CertIds.{is_about};

use crate::cert_ids::identifies;
use der_core::{Error, ErrorKind};
use pki_ocsp::SingleResponse;
use std::alloc::Global;
use x509_cert_reading::{CertificateInner, Raw, SubjectPublicKeyInfo};

/// Returns the answer for a certificate whose issuer has this key: the first one whose CertID
/// identifies the certificate ([`identifies`]), or `None` if there is no answer for it.
///
/// **The answer isn't verified.** Before you use it, verify the signature of the response, check
/// that its signer may answer for the issuer (RFC 6960 4.2.2.2), and compare `this_update` and
/// `next_update` with the time. docs/GUIDE.md lists what else has to be checked.
///
/// # Errors
///
/// - The errors of [`identifies`].
pub fn find_answer<'a>(
    alloc: Global,
    answers: &'a [SingleResponse],
    certificate: &CertificateInner<Raw>,
    issuer_key: &SubjectPublicKeyInfo,
) -> Result<Option<&'a SingleResponse>, Error>
    ensures answer { IfOk result (λ found. option_copied found ≡ find
        (is_about Bound (certificate_plain certificate.now) (key_plain issuer_key.now))
        answers.now) }
    ensures fault { IsValid (name Bound) (issuer (certificate_plain certificate.now))
        → IfErr result (λ e. e.kind ≡ ErrorKind.OutOfMemory) }
{
    for answer in answers {
        let is_about = identifies(alloc, &answer.cert_id, certificate, issuer_key)?;
        if is_about {
            return Ok(Some(answer));
        }
    }
    Ok(None)
}
