//! Copying certificates. The largest field is copied last, so that less has to be freed if memory
//! runs out.

ghost use Rattle.der_core.specs.Copies.{IsCopy};
ghost use Rattle.x509_cert_certificates.specs.Views.{certificate_plain, tbs_plain};

use crate::certificate::CertificateInner;
use crate::tbs_certificate::TbsCertificateInner;
use der_core::making::{copies_of_option, copy_of_option};
use std::alloc::{AllocError, Global};
use x509_cert_parts::types::BitString;
use x509_cert_parts::{Extension, Validity};

impl<P> CertificateInner<P> {
    /// Returns a copy.
    ///
    /// # Errors
    ///
    /// - `AllocError`: memory runs out.
    pub fn clone(&self, alloc: Global) -> Result<CertificateInner<P>, AllocError>
        ensures { IsCopy self.now result certificate_plain }
    {
        Ok(CertificateInner {
            signature: self.signature.clone(alloc)?,
            signature_algorithm: self.signature_algorithm.clone(alloc)?,
            tbs_certificate: self.tbs_certificate.clone(alloc)?,
        })
    }
}

impl<P> TbsCertificateInner<P> {
    /// Returns a copy.
    ///
    /// # Errors
    ///
    /// - `AllocError`: memory runs out.
    pub fn clone(&self, alloc: Global) -> Result<TbsCertificateInner<P>, AllocError>
        ensures { IsCopy self.now result tbs_plain }
    {
        Ok(TbsCertificateInner {
            version: self.version,
            validity: Validity::new(self.validity.not_before, self.validity.not_after),
            serial_number: self.serial_number.clone(alloc)?,
            issuer: self.issuer.clone(alloc)?,
            subject: self.subject.clone(alloc)?,
            issuer_unique_id: copy_of_option(alloc, &self.issuer_unique_id, BitString::clone)?,
            subject_unique_id: copy_of_option(alloc, &self.subject_unique_id, BitString::clone)?,
            signature: self.signature.clone(alloc)?,
            subject_public_key_info: self.subject_public_key_info.clone(alloc)?,
            extensions: copies_of_option(alloc, &self.extensions, Extension::clone)?,
        })
    }
}
