//! Copying general names and the types that contain them.

ghost use Rattle.der_core.specs.Copies.{IsCopy};
ghost use Rattle.x509_cert_general_names.specs.GeneralNameViews as views;

use crate::{
    AccessDescription, AuthorityKeyIdentifier, DistributionPoint, DistributionPointName,
    EdiPartyName, GeneralName, GeneralSubtree, HardwareModuleName, IssuingDistributionPoint,
    NameConstraints, OtherName,
};
use der_core::making::{copies_of, copies_of_option, copy_of_option};
use std::alloc::{AllocError, Global};
use x509_cert_names::DirectoryString;
use x509_cert_parts::SerialNumber;
use x509_cert_parts::types::OctetString;

impl OtherName {
    /// Returns a copy.
    ///
    /// # Errors
    ///
    /// - `AllocError`: memory runs out.
    pub fn clone(&self, alloc: Global) -> Result<OtherName, AllocError>
        ensures { IsCopy self.now result views.other_name_plain }
    {
        Ok(OtherName {
            type_id: self.type_id,
            value: self.value.clone(alloc)?,
        })
    }
}

impl EdiPartyName {
    /// Returns a copy.
    ///
    /// # Errors
    ///
    /// - `AllocError`: memory runs out.
    pub fn clone(&self, alloc: Global) -> Result<EdiPartyName, AllocError>
        ensures { IsCopy self.now result views.edi_party_name_plain }
    {
        Ok(EdiPartyName {
            name_assigner: copy_of_option(alloc, &self.name_assigner, DirectoryString::clone)?,
            party_name: self.party_name.clone(alloc)?,
        })
    }
}

impl GeneralName {
    /// Returns a copy.
    ///
    /// # Errors
    ///
    /// - `AllocError`: memory runs out.
    pub fn clone(&self, alloc: Global) -> Result<GeneralName, AllocError>
        ensures { IsCopy self.now result views.general_name_plain }
    {
        match self {
            Self::OtherName(name) => Ok(Self::OtherName(name.clone(alloc)?)),
            Self::Rfc822Name(name) => Ok(Self::Rfc822Name(name.clone(alloc)?)),
            Self::DnsName(name) => Ok(Self::DnsName(name.clone(alloc)?)),
            Self::DirectoryName(name) => Ok(Self::DirectoryName(name.clone(alloc)?)),
            Self::EdiPartyName(name) => Ok(Self::EdiPartyName(name.clone(alloc)?)),
            Self::UniformResourceIdentifier(name) => Ok(Self::UniformResourceIdentifier(name.clone(
                alloc,
            )?)),
            Self::IpAddress(name) => Ok(Self::IpAddress(name.clone(alloc)?)),
            Self::RegisteredId(name) => Ok(Self::RegisteredId(*name)),
        }
    }
}

impl DistributionPointName {
    /// Returns a copy.
    ///
    /// # Errors
    ///
    /// - `AllocError`: memory runs out.
    pub fn clone(&self, alloc: Global) -> Result<DistributionPointName, AllocError>
        ensures { IsCopy self.now result views.distribution_point_name_plain }
    {
        match self {
            Self::FullName(names) => {
                Ok(Self::FullName(copies_of(alloc, names.as_slice(), GeneralName::clone)?))
            }
            Self::NameRelativeToCRLIssuer(name) => {
                Ok(Self::NameRelativeToCRLIssuer(name.clone(alloc)?))
            }
        }
    }
}

impl AuthorityKeyIdentifier {
    /// Returns a copy.
    ///
    /// # Errors
    ///
    /// - `AllocError`: memory runs out.
    pub fn clone(&self, alloc: Global) -> Result<AuthorityKeyIdentifier, AllocError>
        ensures { IsCopy self.now result views.authority_key_identifier_plain }
    {
        Ok(AuthorityKeyIdentifier {
            key_identifier: copy_of_option(alloc, &self.key_identifier, OctetString::clone)?,
            authority_cert_serial_number: copy_of_option(
                alloc,
                &self.authority_cert_serial_number,
                SerialNumber::clone,
            )?,
            authority_cert_issuer: copies_of_option(
                alloc,
                &self.authority_cert_issuer,
                GeneralName::clone,
            )?,
        })
    }
}

impl DistributionPoint {
    /// Returns a copy.
    ///
    /// # Errors
    ///
    /// - `AllocError`: memory runs out.
    pub fn clone(&self, alloc: Global) -> Result<DistributionPoint, AllocError>
        ensures { IsCopy self.now result views.distribution_point_plain }
    {
        Ok(DistributionPoint {
            distribution_point: copy_of_option(
                alloc,
                &self.distribution_point,
                DistributionPointName::clone,
            )?,
            reasons: self.reasons,
            crl_issuer: copies_of_option(alloc, &self.crl_issuer, GeneralName::clone)?,
        })
    }
}

impl AccessDescription {
    /// Returns a copy.
    ///
    /// # Errors
    ///
    /// - `AllocError`: memory runs out.
    pub fn clone(&self, alloc: Global) -> Result<AccessDescription, AllocError>
        ensures { IsCopy self.now result views.access_description_plain }
    {
        Ok(AccessDescription {
            access_method: self.access_method,
            access_location: self.access_location.clone(alloc)?,
        })
    }
}

impl GeneralSubtree {
    /// Returns a copy.
    ///
    /// # Errors
    ///
    /// - `AllocError`: memory runs out.
    pub fn clone(&self, alloc: Global) -> Result<GeneralSubtree, AllocError>
        ensures { IsCopy self.now result views.general_subtree_plain }
    {
        Ok(GeneralSubtree {
            base: self.base.clone(alloc)?,
            minimum: self.minimum,
            maximum: self.maximum,
        })
    }
}

impl NameConstraints {
    /// Returns a copy.
    ///
    /// # Errors
    ///
    /// - `AllocError`: memory runs out.
    pub fn clone(&self, alloc: Global) -> Result<NameConstraints, AllocError>
        ensures { IsCopy self.now result views.name_constraints_plain }
    {
        Ok(NameConstraints {
            permitted_subtrees: copies_of_option(
                alloc,
                &self.permitted_subtrees,
                GeneralSubtree::clone,
            )?,
            excluded_subtrees: copies_of_option(
                alloc,
                &self.excluded_subtrees,
                GeneralSubtree::clone,
            )?,
        })
    }
}

impl IssuingDistributionPoint {
    /// Returns a copy.
    ///
    /// # Errors
    ///
    /// - `AllocError`: memory runs out.
    pub fn clone(&self, alloc: Global) -> Result<IssuingDistributionPoint, AllocError>
        ensures { IsCopy self.now result views.issuing_distribution_point_plain }
    {
        Ok(IssuingDistributionPoint {
            distribution_point: copy_of_option(
                alloc,
                &self.distribution_point,
                DistributionPointName::clone,
            )?,
            only_contains_user_certs: self.only_contains_user_certs,
            only_contains_ca_certs: self.only_contains_ca_certs,
            only_some_reasons: self.only_some_reasons,
            indirect_crl: self.indirect_crl,
            only_contains_attribute_certs: self.only_contains_attribute_certs,
        })
    }
}

impl HardwareModuleName {
    /// Returns a copy.
    ///
    /// # Errors
    ///
    /// - `AllocError`: memory runs out.
    pub fn clone(&self, alloc: Global) -> Result<HardwareModuleName, AllocError>
        ensures { IsCopy self.now result views.hardware_module_name_plain }
    {
        Ok(HardwareModuleName {
            hw_type: self.hw_type,
            hw_serial_num: self.hw_serial_num.clone(alloc)?,
        })
    }
}
