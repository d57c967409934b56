//! A certificate of a bundle, with its own bytes.

ghost use Rattle.std.specs.Prelude.{◌≡◌, ◌≢◌, ◌⊎◌, IfOk, IfErr};
ghost use Rattle.cert_desk_bundle.specs.Locations.{IsPlacedAt, IsUnread};

use crate::fault_kind::FaultKind;
use crate::scan::content_start;
use crate::standing::Standing;
use std::alloc::Global;
use x509_cert_certificates::assembling::certificate_of;
use x509_cert_certificates::cert_parts::{AlgorithmIdentifier, Raw};
use x509_cert_certificates::der::making::is_out_of_memory;
use x509_cert_certificates::der::{Error, ErrorKind, FromDer};
use x509_cert_certificates::types::BitString;
use x509_cert_certificates::{CertificateInner, TbsCertificateInner};

/// A certificate, its bytes, and its offset in the input.
#[derive(Drop)]
pub struct Located {
    pub offset: u64,
    pub octets: Vec<u8>,
    // The length of the header.
    pub header: usize,
    // The length of the TBSCertificate, which follows the header.
    pub signed: usize,
    pub certificate: CertificateInner<Raw>,
}

impl Located {
    // Decodes the certificate that has exactly these bytes and begins at this offset. The fields
    // are decoded one after another and put together here, so that they are moved through fewer
    // results.
    pub fn read(alloc: Global, offset: u64, octets: Vec<u8>) -> Result<Located, Standing>
        ensures read { IfOk result (IsPlacedAt offset octets.items) }
        ensures unread { IfErr result (IsUnread octets.items) }
    {
        let Some(header) = content_start(&octets) else {
            return Err(Standing::Faulted(FaultKind::Malformed));
        };
        let content = &octets[header..];
        let (part, behind) = match TbsCertificateInner::<Raw>::from_der_partial(alloc, content) {
            Ok(front) => front,
            Err(error) => return Err(standing_of(&error)),
        };
        let signed = content.len() - behind.len();
        let (algorithm, last) = match AlgorithmIdentifier::from_der_partial(alloc, behind) {
            Ok(front) => front,
            Err(error) => return Err(standing_of(&error)),
        };
        let signature = match BitString::from_der(alloc, last) {
            Ok(signature) => signature,
            Err(error) => return Err(standing_of(&error)),
        };
        let certificate = certificate_of(part, algorithm, signature);
        Ok(Located {
            offset,
            octets,
            header,
            signed,
            certificate,
        })
    }
}

// Returns the state of a bundle after this error of a certificate.
fn standing_of(error: &Error) -> Standing
    ensures { (result ≡ Standing.NoMemory) ⊎ ((result ≡ Standing.Faulted FaultKind.Malformed)
        × (error.now.kind ≢ ErrorKind.OutOfMemory)) }
{
    if is_out_of_memory(error) {
        return Standing::NoMemory;
    }
    Standing::Faulted(FaultKind::Malformed)
}
