//! A law about the types of extensions: the contract of a function that does nothing.

ghost use Rattle.x509_cert_policies.specs.CertParts.ExtensionTypes as types;
ghost use Rattle.x509_cert_policies.specs.CertParts.ExtensionTypes.{IsOfType};

use crate::criticality::Criticality;
use crate::{
    AuthorityInfoAccessSyntax, BaseCrlNumber, CrlDistributionPoints, CrlNumber, CrlReason,
    ExtendedKeyUsage, FreshestCrl, IssuerAltName, KeyUsage, SubjectAltName,
    SubjectDirectoryAttributes, SubjectInfoAccessSyntax, SubjectKeyIdentifier,
};
use x509_cert_general_names::{AuthorityKeyIdentifier, IssuingDistributionPoint, NameConstraints};
use x509_cert_policies::oid::AssociatedOid;
use x509_cert_policies::timestamps::SignedCertificateTimestampList;
use x509_cert_policies::{
    BasicConstraints, CertificatePolicies, InhibitAnyPolicy, PolicyConstraints, PolicyMappings,
    PrivateKeyUsagePeriod,
};

/// Each type of extension has the OID and the criticality that the specification lists for it.
pub fn extensions_are_of_their_types()
    ensures authority_key_identifier { IsOfType types.authority_key_identifier
        ⟦<AuthorityKeyIdentifier as AssociatedOid>⟧.oid_arcs
        ⟦<AuthorityKeyIdentifier as Criticality>⟧.is_critical }
    ensures subject_key_identifier { IsOfType types.subject_key_identifier
        ⟦<SubjectKeyIdentifier as AssociatedOid>⟧.oid_arcs
        ⟦<SubjectKeyIdentifier as Criticality>⟧.is_critical }
    ensures key_usage { IsOfType types.key_usage
        ⟦<KeyUsage as AssociatedOid>⟧.oid_arcs ⟦<KeyUsage as Criticality>⟧.is_critical }
    ensures private_key_usage_period { IsOfType types.private_key_usage_period
        ⟦<PrivateKeyUsagePeriod as AssociatedOid>⟧.oid_arcs
        ⟦<PrivateKeyUsagePeriod as Criticality>⟧.is_critical }
    ensures certificate_policies { IsOfType types.certificate_policies
        ⟦<CertificatePolicies as AssociatedOid>⟧.oid_arcs
        ⟦<CertificatePolicies as Criticality>⟧.is_critical }
    ensures policy_mappings { IsOfType types.policy_mappings
        ⟦<PolicyMappings as AssociatedOid>⟧.oid_arcs ⟦<PolicyMappings as Criticality>⟧.is_critical }
    ensures subject_alt_name { IsOfType types.subject_alt_name
        ⟦<SubjectAltName as AssociatedOid>⟧.oid_arcs ⟦<SubjectAltName as Criticality>⟧.is_critical }
    ensures issuer_alt_name { IsOfType types.issuer_alt_name
        ⟦<IssuerAltName as AssociatedOid>⟧.oid_arcs ⟦<IssuerAltName as Criticality>⟧.is_critical }
    ensures subject_directory_attributes { IsOfType types.subject_directory_attributes
        ⟦<SubjectDirectoryAttributes as AssociatedOid>⟧.oid_arcs
        ⟦<SubjectDirectoryAttributes as Criticality>⟧.is_critical }
    ensures basic_constraints { IsOfType types.basic_constraints
        ⟦<BasicConstraints as AssociatedOid>⟧.oid_arcs
        ⟦<BasicConstraints as Criticality>⟧.is_critical }
    ensures name_constraints { IsOfType types.name_constraints
        ⟦<NameConstraints as AssociatedOid>⟧.oid_arcs
        ⟦<NameConstraints as Criticality>⟧.is_critical }
    ensures policy_constraints { IsOfType types.policy_constraints
        ⟦<PolicyConstraints as AssociatedOid>⟧.oid_arcs
        ⟦<PolicyConstraints as Criticality>⟧.is_critical }
    ensures extended_key_usage { IsOfType types.extended_key_usage
        ⟦<ExtendedKeyUsage as AssociatedOid>⟧.oid_arcs
        ⟦<ExtendedKeyUsage as Criticality>⟧.is_critical }
    ensures crl_distribution_points { IsOfType types.crl_distribution_points
        ⟦<CrlDistributionPoints as AssociatedOid>⟧.oid_arcs
        ⟦<CrlDistributionPoints as Criticality>⟧.is_critical }
    ensures inhibit_any_policy { IsOfType types.inhibit_any_policy
        ⟦<InhibitAnyPolicy as AssociatedOid>⟧.oid_arcs
        ⟦<InhibitAnyPolicy as Criticality>⟧.is_critical }
    ensures freshest_crl { IsOfType types.freshest_crl
        ⟦<FreshestCrl as AssociatedOid>⟧.oid_arcs ⟦<FreshestCrl as Criticality>⟧.is_critical }
    ensures authority_info_access { IsOfType types.authority_info_access
        ⟦<AuthorityInfoAccessSyntax as AssociatedOid>⟧.oid_arcs
        ⟦<AuthorityInfoAccessSyntax as Criticality>⟧.is_critical }
    ensures subject_info_access { IsOfType types.subject_info_access
        ⟦<SubjectInfoAccessSyntax as AssociatedOid>⟧.oid_arcs
        ⟦<SubjectInfoAccessSyntax as Criticality>⟧.is_critical }
    ensures crl_number { IsOfType types.crl_number
        ⟦<CrlNumber as AssociatedOid>⟧.oid_arcs ⟦<CrlNumber as Criticality>⟧.is_critical }
    ensures base_crl_number { IsOfType types.base_crl_number
        ⟦<BaseCrlNumber as AssociatedOid>⟧.oid_arcs ⟦<BaseCrlNumber as Criticality>⟧.is_critical }
    ensures issuing_distribution_point { IsOfType types.issuing_distribution_point
        ⟦<IssuingDistributionPoint as AssociatedOid>⟧.oid_arcs
        ⟦<IssuingDistributionPoint as Criticality>⟧.is_critical }
    ensures crl_reason { IsOfType types.crl_reason
        ⟦<CrlReason as AssociatedOid>⟧.oid_arcs ⟦<CrlReason as Criticality>⟧.is_critical }
    ensures signed_certificate_timestamps { IsOfType types.signed_certificate_timestamps
        ⟦<SignedCertificateTimestampList as AssociatedOid>⟧.oid_arcs
        ⟦<SignedCertificateTimestampList as Criticality>⟧.is_critical }
{}
