//! Copying trust anchors. The largest field is copied last, so that less has to be freed if memory
//! runs out.

ghost use Rattle.std.specs.Prelude.{◌≡◌, IfOk, string_bytes};
ghost use Rattle.der_core.specs.Copies.{IsCopy};
ghost use Rattle.x509_cert_anchors.specs.AnchorViews.{cert_path_controls_plain};
ghost use Rattle.x509_cert_anchors.specs.AnchorViews.{trust_anchor_info_plain};
ghost use Rattle.x509_cert_anchors.specs.AnchorViews.{trust_anchor_plain};

use crate::{CertPathControls, TrustAnchorChoice, TrustAnchorInfo};
use der_core::making::{copies_of_option, copy_of_option};
use std::alloc::{AllocError, Global};
use x509_cert_certificates::CertificateInner;
use x509_cert_general_names::NameConstraints;
use x509_cert_policies::CertificatePolicies;
use x509_cert_policies::cert_parts::{Extension, Profile};

/// Returns a copy of a text.
///
/// # Errors
///
/// - `AllocError`: memory runs out.
fn copy_of_text(text: &String, alloc: Global) -> Result<String, AllocError>
    ensures { IfOk result (λ t. string_bytes t ≡ string_bytes text.now) }
{
    Ok(String::from_str(alloc, text.as_str())?)
}

impl<P: Profile> CertPathControls<P> {
    /// Returns a copy.
    ///
    /// # Errors
    ///
    /// - `AllocError`: memory runs out.
    pub fn clone(&self, alloc: Global) -> Result<CertPathControls<P>, AllocError>
        ensures { IsCopy self.now result cert_path_controls_plain }
    {
        Ok(CertPathControls {
            policy_flags: self.policy_flags,
            path_len_constraint: self.path_len_constraint,
            ta_name: self.ta_name.clone(alloc)?,
            policy_set: copy_of_option(alloc, &self.policy_set, CertificatePolicies::clone)?,
            name_constr: copy_of_option(alloc, &self.name_constr, NameConstraints::clone)?,
            certificate: copy_of_option(alloc, &self.certificate, CertificateInner::clone)?,
        })
    }
}

impl<P: Profile> TrustAnchorInfo<P> {
    /// Returns a copy.
    ///
    /// # Errors
    ///
    /// - `AllocError`: memory runs out.
    pub fn clone(&self, alloc: Global) -> Result<TrustAnchorInfo<P>, AllocError>
        ensures { IsCopy self.now result trust_anchor_info_plain }
    {
        Ok(TrustAnchorInfo {
            version: self.version,
            key_id: self.key_id.clone(alloc)?,
            ta_title: copy_of_option(alloc, &self.ta_title, copy_of_text)?,
            ta_title_lang_tag: copy_of_option(alloc, &self.ta_title_lang_tag, copy_of_text)?,
            extensions: copies_of_option(alloc, &self.extensions, Extension::clone)?,
            pub_key: self.pub_key.clone(alloc)?,
            cert_path: copy_of_option(alloc, &self.cert_path, CertPathControls::clone)?,
        })
    }
}

impl<P: Profile> TrustAnchorChoice<P> {
    /// Returns a copy.
    ///
    /// # Errors
    ///
    /// - `AllocError`: memory runs out.
    pub fn clone(&self, alloc: Global) -> Result<TrustAnchorChoice<P>, AllocError>
        ensures { IsCopy self.now result trust_anchor_plain }
    {
        match self {
            Self::Certificate(value) => Ok(Self::Certificate(value.clone(alloc)?)),
            Self::TbsCertificate(value) => Ok(Self::TbsCertificate(value.clone(alloc)?)),
            Self::TaInfo(value) => Ok(Self::TaInfo(value.clone(alloc)?)),
        }
    }
}
