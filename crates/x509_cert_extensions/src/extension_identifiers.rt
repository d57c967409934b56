//! The OIDs of the extensions whose types are in this crate (RFC 5280 4.2, 5.2, 5.3).

ghost use Rattle.x509_cert_policies.specs.CertParts.ExtensionTypes as types;
ghost use Rattle.x509_cert_policies.specs.CertParts.ExtensionTypes.{identifier_of};

use crate::{
    AuthorityInfoAccessSyntax, BaseCrlNumber, CrlDistributionPoints, CrlNumber, CrlReason,
    ExtendedKeyUsage, FreshestCrl, IssuerAltName, KeyUsage, SubjectAltName,
    SubjectDirectoryAttributes, SubjectInfoAccessSyntax, SubjectKeyIdentifier,
};
use x509_cert_policies::oid::{AssociatedOid, ObjectIdentifier};

impl AssociatedOid for AuthorityInfoAccessSyntax {
    ghost oid_arcs = { identifier_of types.authority_info_access };

    fn associated_oid() -> ObjectIdentifier<39> {
        ObjectIdentifier::from_bytes_unwrap(&[0x2b, 6, 1, 5, 5, 7, 1, 1])
    }
}

impl AssociatedOid for BaseCrlNumber {
    ghost oid_arcs = { identifier_of types.base_crl_number };

    fn associated_oid() -> ObjectIdentifier<39> {
        ObjectIdentifier::from_bytes_unwrap(&[0x55, 0x1d, 0x1b])
    }
}

impl AssociatedOid for CrlDistributionPoints {
    ghost oid_arcs = { identifier_of types.crl_distribution_points };

    fn associated_oid() -> ObjectIdentifier<39> {
        ObjectIdentifier::from_bytes_unwrap(&[0x55, 0x1d, 0x1f])
    }
}

impl AssociatedOid for CrlNumber {
    ghost oid_arcs = { identifier_of types.crl_number };

    fn associated_oid() -> ObjectIdentifier<39> {
        ObjectIdentifier::from_bytes_unwrap(&[0x55, 0x1d, 0x14])
    }
}

impl AssociatedOid for ExtendedKeyUsage {
    ghost oid_arcs = { identifier_of types.extended_key_usage };

    fn associated_oid() -> ObjectIdentifier<39> {
        ObjectIdentifier::from_bytes_unwrap(&[0x55, 0x1d, 0x25])
    }
}

impl AssociatedOid for FreshestCrl {
    ghost oid_arcs = { identifier_of types.freshest_crl };

    fn associated_oid() -> ObjectIdentifier<39> {
        ObjectIdentifier::from_bytes_unwrap(&[0x55, 0x1d, 0x2e])
    }
}

impl AssociatedOid for IssuerAltName {
    ghost oid_arcs = { identifier_of types.issuer_alt_name };

    fn associated_oid() -> ObjectIdentifier<39> {
        ObjectIdentifier::from_bytes_unwrap(&[0x55, 0x1d, 0x12])
    }
}

impl AssociatedOid for KeyUsage {
    ghost oid_arcs = { identifier_of types.key_usage };

    fn associated_oid() -> ObjectIdentifier<39> {
        ObjectIdentifier::from_bytes_unwrap(&[0x55, 0x1d, 0x0f])
    }
}

impl AssociatedOid for SubjectAltName {
    ghost oid_arcs = { identifier_of types.subject_alt_name };

    fn associated_oid() -> ObjectIdentifier<39> {
        ObjectIdentifier::from_bytes_unwrap(&[0x55, 0x1d, 0x11])
    }
}

impl AssociatedOid for SubjectInfoAccessSyntax {
    ghost oid_arcs = { identifier_of types.subject_info_access };

    fn associated_oid() -> ObjectIdentifier<39> {
        ObjectIdentifier::from_bytes_unwrap(&[0x2b, 6, 1, 5, 5, 7, 1, 0x0b])
    }
}

impl AssociatedOid for SubjectKeyIdentifier {
    ghost oid_arcs = { identifier_of types.subject_key_identifier };

    fn associated_oid() -> ObjectIdentifier<39> {
        ObjectIdentifier::from_bytes_unwrap(&[0x55, 0x1d, 0x0e])
    }
}

impl AssociatedOid for CrlReason {
    ghost oid_arcs = { identifier_of types.crl_reason };

    fn associated_oid() -> ObjectIdentifier<39> {
        ObjectIdentifier::from_bytes_unwrap(&[0x55, 0x1d, 0x15])
    }
}

impl AssociatedOid for SubjectDirectoryAttributes {
    ghost oid_arcs = { identifier_of types.subject_directory_attributes };

    fn associated_oid() -> ObjectIdentifier<39> {
        ObjectIdentifier::from_bytes_unwrap(&[0x55, 0x1d, 9])
    }
}
