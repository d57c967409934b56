//! Copying policies and notices.

ghost use Rattle.der_core.specs.Grammar.{plain_list};
ghost use Rattle.der_core.specs.Copies.{IsCopy};
ghost use Rattle.x509_cert_policies.specs.PolicyViews as views;

use crate::{
    CertificatePolicies, DisplayText, NoticeReference, PolicyInformation, PolicyMappings,
    PolicyQualifierInfo, UserNotice,
};
use der_core::making::{copies_of, copies_of_option, copy_of_option};
use std::alloc::{AllocError, Global};
use x509_cert_parts::types::{Any, Uint};

impl PolicyQualifierInfo {
    /// Returns a copy.
    ///
    /// # Errors
    ///
    /// - `AllocError`: memory runs out.
    pub fn clone(&self, alloc: Global) -> Result<PolicyQualifierInfo, AllocError>
        ensures { IsCopy self.now result views.policy_qualifier_info_plain }
    {
        Ok(PolicyQualifierInfo {
            policy_qualifier_id: self.policy_qualifier_id,
            qualifier: copy_of_option(alloc, &self.qualifier, Any::clone)?,
        })
    }
}

impl PolicyInformation {
    /// Returns a copy.
    ///
    /// # Errors
    ///
    /// - `AllocError`: memory runs out.
    pub fn clone(&self, alloc: Global) -> Result<PolicyInformation, AllocError>
        ensures { IsCopy self.now result views.policy_information_plain }
    {
        Ok(PolicyInformation {
            policy_identifier: self.policy_identifier,
            policy_qualifiers: copies_of_option(
                alloc,
                &self.policy_qualifiers,
                PolicyQualifierInfo::clone,
            )?,
        })
    }
}

impl CertificatePolicies {
    /// Returns a copy.
    ///
    /// # Errors
    ///
    /// - `AllocError`: memory runs out.
    pub fn clone(&self, alloc: Global) -> Result<CertificatePolicies, AllocError>
        ensures { IsCopy self.now result
            (λ x. plain_list views.policy_information_plain x.0.items) }
    {
        Ok(CertificatePolicies(copies_of(alloc, self.0.as_slice(), PolicyInformation::clone)?))
    }
}

impl PolicyMappings {
    /// Returns a copy.
    ///
    /// # Errors
    ///
    /// - `AllocError`: memory runs out.
    pub fn clone(&self, alloc: Global) -> Result<PolicyMappings, AllocError>
        ensures { IsCopy self.now result (λ x. plain_list views.policy_mapping_plain x.0.items) }
    {
        Ok(PolicyMappings(self.0.as_slice().to_vec(alloc)?))
    }
}

impl DisplayText {
    /// Returns a copy.
    ///
    /// # Errors
    ///
    /// - `AllocError`: memory runs out.
    pub fn clone(&self, alloc: Global) -> Result<DisplayText, AllocError>
        ensures { IsCopy self.now result views.display_plain }
    {
        match self {
            Self::Ia5String(text) => Ok(Self::Ia5String(text.clone(alloc)?)),
            Self::Utf8String(text) => Ok(Self::Utf8String(String::from_str(alloc, text.as_str())?)),
        }
    }
}

impl NoticeReference {
    /// Returns a copy.
    ///
    /// # Errors
    ///
    /// - `AllocError`: memory runs out.
    pub fn clone(&self, alloc: Global) -> Result<NoticeReference, AllocError>
        ensures { IsCopy self.now result views.notice_reference_plain }
    {
        Ok(NoticeReference {
            organization: self.organization.clone(alloc)?,
            notice_numbers: copies_of_option(alloc, &self.notice_numbers, Uint::clone)?,
        })
    }
}

impl UserNotice {
    /// Returns a copy.
    ///
    /// # Errors
    ///
    /// - `AllocError`: memory runs out.
    pub fn clone(&self, alloc: Global) -> Result<UserNotice, AllocError>
        ensures { IsCopy self.now result views.user_notice_plain }
    {
        Ok(UserNotice {
            notice_ref: copy_of_option(alloc, &self.notice_ref, NoticeReference::clone)?,
            explicit_text: copy_of_option(alloc, &self.explicit_text, DisplayText::clone)?,
        })
    }
}
