//! Types that a profile changes.

use crate::questions::{
    Question, answer_of_described, answer_of_ordered, answer_of_ordered_and_copied,
    answer_of_tagged, answer_of_value, answer_with_copy,
};
use crate::refusals::Refusal;
use std::alloc::Global;
use x509_cert::{
    CertPathControls, CertificateInner, CertificateList, Profile, Raw, RevokedCert, Rfc5280,
    SerialNumber, TbsCertList, TbsCertificateInner, TrustAnchorChoice, TrustAnchorInfo, Validity,
};

/// Returns the answer for a type with the profile after its name, or with `Raw`.
pub fn answer(alloc: Global, kind: &str, question: &Question<'_>) -> Result<String, Refusal> {
    match kind.strip_suffix("/Rfc5280") {
        Some(kind) => answer_under::<Rfc5280>(alloc, kind, question),
        None => answer_under::<Raw>(alloc, kind, question),
    }
}

/// Returns the answer for a type with a profile. It is generic, so that each type is checked once,
/// and not for each profile.
fn answer_under<P: Profile>(
    alloc: Global,
    kind: &str,
    question: &Question<'_>,
) -> Result<String, Refusal> {
    match kind {
        "SerialNumber" => answer_of_tagged::<SerialNumber<P>>(alloc, question),
        "Validity" => answer_of_value::<Validity<P>>(alloc, question),
        "TbsCertificate" => answer_of_ordered::<TbsCertificateInner<P>>(alloc, question),
        "Certificate" => answer_of_ordered_and_copied(
            alloc,
            question,
            <CertificateInner<P>>::clone,
        ),
        "CertificateList" => answer_of_ordered_and_copied(
            alloc,
            question,
            <CertificateList<P>>::clone,
        ),
        "TbsCertList" => answer_of_ordered::<TbsCertList<P>>(alloc, question),
        "RevokedCert" => answer_of_ordered::<RevokedCert<P>>(alloc, question),
        "TrustAnchorChoice" => answer_with_copy(alloc, question, <TrustAnchorChoice<P>>::clone),
        "TrustAnchorInfo" => answer_of_described::<TrustAnchorInfo<P>>(alloc, question),
        "CertPathControls" => answer_of_described::<CertPathControls<P>>(alloc, question),
        _ => Err(Refusal::Unread),
    }
}
