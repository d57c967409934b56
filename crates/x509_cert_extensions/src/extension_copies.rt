//! Copying extensions.

ghost use Rattle.x509_cert_policies.specs.Der.Grammar.{plain_list};
ghost use Rattle.x509_cert_policies.specs.Der.Copies.{IsCopy};
ghost use Rattle.x509_cert_general_names.specs.GeneralNameViews.{access_description_plain};
ghost use Rattle.x509_cert_general_names.specs.GeneralNameViews.{distribution_point_plain};
ghost use Rattle.x509_cert_general_names.specs.GeneralNameViews.{general_name_plain};
ghost use Rattle.x509_cert_general_names.specs.CertNames.Views.{attribute_plain};

use crate::{
    AuthorityInfoAccessSyntax, BaseCrlNumber, CrlDistributionPoints, CrlNumber, ExtendedKeyUsage,
    FreshestCrl, IssuerAltName, SubjectAltName, SubjectDirectoryAttributes,
    SubjectInfoAccessSyntax, SubjectKeyIdentifier,
};
use std::alloc::{AllocError, Global};
use x509_cert_general_names::cert_names::Attribute;
use x509_cert_general_names::{AccessDescription, DistributionPoint, GeneralName};
use x509_cert_policies::der::making::copies_of;

impl AuthorityInfoAccessSyntax {
    /// Returns a copy.
    ///
    /// # Errors
    ///
    /// - `AllocError`: memory runs out.
    pub fn clone(&self, alloc: Global) -> Result<AuthorityInfoAccessSyntax, AllocError>
        ensures { IsCopy self.now result (λ x. plain_list access_description_plain x.0.items) }
    {
        Ok(AuthorityInfoAccessSyntax(copies_of(
            alloc,
            self.0.as_slice(),
            AccessDescription::clone,
        )?))
    }
}

impl SubjectInfoAccessSyntax {
    /// Returns a copy.
    ///
    /// # Errors
    ///
    /// - `AllocError`: memory runs out.
    pub fn clone(&self, alloc: Global) -> Result<SubjectInfoAccessSyntax, AllocError>
        ensures { IsCopy self.now result (λ x. plain_list access_description_plain x.0.items) }
    {
        Ok(SubjectInfoAccessSyntax(copies_of(alloc, self.0.as_slice(), AccessDescription::clone)?))
    }
}

impl CrlDistributionPoints {
    /// Returns a copy.
    ///
    /// # Errors
    ///
    /// - `AllocError`: memory runs out.
    pub fn clone(&self, alloc: Global) -> Result<CrlDistributionPoints, AllocError>
        ensures { IsCopy self.now result (λ x. plain_list distribution_point_plain x.0.items) }
    {
        Ok(CrlDistributionPoints(copies_of(alloc, self.0.as_slice(), DistributionPoint::clone)?))
    }
}

impl FreshestCrl {
    /// Returns a copy.
    ///
    /// # Errors
    ///
    /// - `AllocError`: memory runs out.
    pub fn clone(&self, alloc: Global) -> Result<FreshestCrl, AllocError>
        ensures { IsCopy self.now result (λ x. plain_list distribution_point_plain x.0.items) }
    {
        Ok(FreshestCrl(copies_of(alloc, self.0.as_slice(), DistributionPoint::clone)?))
    }
}

impl IssuerAltName {
    /// Returns a copy.
    ///
    /// # Errors
    ///
    /// - `AllocError`: memory runs out.
    pub fn clone(&self, alloc: Global) -> Result<IssuerAltName, AllocError>
        ensures { IsCopy self.now result (λ x. plain_list general_name_plain x.0.items) }
    {
        Ok(IssuerAltName(copies_of(alloc, self.0.as_slice(), GeneralName::clone)?))
    }
}

impl SubjectAltName {
    /// Returns a copy.
    ///
    /// # Errors
    ///
    /// - `AllocError`: memory runs out.
    pub fn clone(&self, alloc: Global) -> Result<SubjectAltName, AllocError>
        ensures { IsCopy self.now result (λ x. plain_list general_name_plain x.0.items) }
    {
        Ok(SubjectAltName(copies_of(alloc, self.0.as_slice(), GeneralName::clone)?))
    }
}

impl SubjectDirectoryAttributes {
    /// Returns a copy.
    ///
    /// # Errors
    ///
    /// - `AllocError`: memory runs out.
    pub fn clone(&self, alloc: Global) -> Result<SubjectDirectoryAttributes, AllocError>
        ensures { IsCopy self.now result (λ x. plain_list attribute_plain x.0.items) }
    {
        Ok(SubjectDirectoryAttributes(copies_of(alloc, self.0.as_slice(), Attribute::clone)?))
    }
}

impl ExtendedKeyUsage {
    /// Returns a copy.
    ///
    /// # Errors
    ///
    /// - `AllocError`: memory runs out.
    pub fn clone(&self, alloc: Global) -> Result<ExtendedKeyUsage, AllocError>
        ensures { IsCopy self.now result (λ x. x.0.items) }
    {
        Ok(ExtendedKeyUsage(self.0.as_slice().to_vec(alloc)?))
    }
}

impl SubjectKeyIdentifier {
    /// Returns a copy.
    ///
    /// # Errors
    ///
    /// - `AllocError`: memory runs out.
    pub fn clone(&self, alloc: Global) -> Result<SubjectKeyIdentifier, AllocError>
        ensures { IsCopy self.now result (λ x. x.0) }
    {
        Ok(SubjectKeyIdentifier(self.0.clone(alloc)?))
    }
}

impl CrlNumber {
    /// Returns a copy.
    ///
    /// # Errors
    ///
    /// - `AllocError`: memory runs out.
    pub fn clone(&self, alloc: Global) -> Result<CrlNumber, AllocError>
        ensures { IsCopy self.now result (λ x. x.0) }
    {
        Ok(CrlNumber(self.0.clone(alloc)?))
    }
}

impl BaseCrlNumber {
    /// Returns a copy.
    ///
    /// # Errors
    ///
    /// - `AllocError`: memory runs out.
    pub fn clone(&self, alloc: Global) -> Result<BaseCrlNumber, AllocError>
        ensures { IsCopy self.now result (λ x. x.0) }
    {
        Ok(BaseCrlNumber(self.0.clone(alloc)?))
    }
}
