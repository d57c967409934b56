//! Copying CRLs and CSRs. The largest field is copied last, so that less has to be freed if memory
//! runs out.

ghost use Rattle.der_core.specs.Copies.{IsCopy};
ghost use Rattle.x509_cert_parts.specs.Views.{extensions_plain};
ghost use Rattle.x509_cert_lists.specs.ListViews.{cert_req_info_plain, cert_req_plain};
ghost use Rattle.x509_cert_lists.specs.ListViews.{certificate_list_plain, revoked_cert_plain};
ghost use Rattle.x509_cert_lists.specs.ListViews.{tbs_cert_list_plain};

use crate::cert_req::CertReq;
use crate::cert_req_info::CertReqInfo;
use crate::certificate_list::CertificateList;
use crate::extension_req::ExtensionReq;
use crate::revoked_cert::RevokedCert;
use crate::tbs_cert_list::TbsCertList;
use der_core::StrictSetOf;
use der_core::making::{copies_of, copies_of_option};
use std::alloc::{AllocError, Global};
use x509_cert_names::Attribute;
use x509_cert_parts::{Extension, Profile};

impl<P> RevokedCert<P> {
    /// Returns a copy.
    ///
    /// # Errors
    ///
    /// - `AllocError`: memory runs out.
    pub fn clone(&self, alloc: Global) -> Result<RevokedCert<P>, AllocError>
        ensures { IsCopy self.now result revoked_cert_plain }
    {
        Ok(RevokedCert {
            serial_number: self.serial_number.clone(alloc)?,
            revocation_date: self.revocation_date,
            crl_entry_extensions: copies_of_option(
                alloc,
                &self.crl_entry_extensions,
                Extension::clone,
            )?,
        })
    }
}

impl<P: Profile> TbsCertList<P> {
    /// Returns a copy.
    ///
    /// # Errors
    ///
    /// - `AllocError`: memory runs out.
    pub fn clone(&self, alloc: Global) -> Result<TbsCertList<P>, AllocError>
        ensures { IsCopy self.now result tbs_cert_list_plain }
    {
        Ok(TbsCertList {
            version: self.version,
            this_update: self.this_update,
            next_update: self.next_update,
            issuer: self.issuer.clone(alloc)?,
            signature: self.signature.clone(alloc)?,
            crl_extensions: copies_of_option(alloc, &self.crl_extensions, Extension::clone)?,
            revoked_certificates: copies_of_option(
                alloc,
                &self.revoked_certificates,
                RevokedCert::clone,
            )?,
        })
    }
}

impl<P: Profile> CertificateList<P> {
    /// Returns a copy.
    ///
    /// # Errors
    ///
    /// - `AllocError`: memory runs out.
    pub fn clone(&self, alloc: Global) -> Result<CertificateList<P>, AllocError>
        ensures { IsCopy self.now result certificate_list_plain }
    {
        Ok(CertificateList {
            signature: self.signature.clone(alloc)?,
            signature_algorithm: self.signature_algorithm.clone(alloc)?,
            tbs_cert_list: self.tbs_cert_list.clone(alloc)?,
        })
    }
}

impl CertReqInfo {
    /// Returns a copy.
    ///
    /// # Errors
    ///
    /// - `AllocError`: memory runs out.
    pub fn clone(&self, alloc: Global) -> Result<CertReqInfo, AllocError>
        ensures { IsCopy self.now result cert_req_info_plain }
    {
        Ok(CertReqInfo {
            version: self.version,
            subject: self.subject.clone(alloc)?,
            public_key: self.public_key.clone(alloc)?,
            attributes: StrictSetOf {
                values: copies_of(alloc, self.attributes.as_slice(), Attribute::clone)?,
            },
        })
    }
}

impl CertReq {
    /// Returns a copy.
    ///
    /// # Errors
    ///
    /// - `AllocError`: memory runs out.
    pub fn clone(&self, alloc: Global) -> Result<CertReq, AllocError>
        ensures { IsCopy self.now result cert_req_plain }
    {
        Ok(CertReq {
            signature: self.signature.clone(alloc)?,
            algorithm: self.algorithm.clone(alloc)?,
            info: self.info.clone(alloc)?,
        })
    }
}

impl ExtensionReq {
    /// Returns a copy.
    ///
    /// # Errors
    ///
    /// - `AllocError`: memory runs out.
    pub fn clone(&self, alloc: Global) -> Result<ExtensionReq, AllocError>
        ensures { IsCopy self.now result (λ x. extensions_plain x.0.items) }
    {
        Ok(ExtensionReq(copies_of(alloc, self.0.as_slice(), Extension::clone)?))
    }
}
