//! The OIDs of the extensions whose types are in this crate (RFC 5280 4.2.1; RFC 3280 4.2.1.4).

ghost use Rattle.x509_cert_parts.specs.ExtensionTypes as types;
ghost use Rattle.x509_cert_parts.specs.ExtensionTypes.{identifier_of};

use crate::{
    BasicConstraints, CertificatePolicies, InhibitAnyPolicy, PolicyConstraints, PolicyMappings,
    PrivateKeyUsagePeriod,
};
use der_core::oid::{AssociatedOid, ObjectIdentifier};

impl AssociatedOid for BasicConstraints {
    ghost oid_arcs = { identifier_of types.basic_constraints };

    fn associated_oid() -> ObjectIdentifier<39> {
        ObjectIdentifier::from_bytes_unwrap(&[0x55, 0x1d, 0x13])
    }
}

impl AssociatedOid for CertificatePolicies {
    ghost oid_arcs = { identifier_of types.certificate_policies };

    fn associated_oid() -> ObjectIdentifier<39> {
        ObjectIdentifier::from_bytes_unwrap(&[0x55, 0x1d, 0x20])
    }
}

impl AssociatedOid for InhibitAnyPolicy {
    ghost oid_arcs = { identifier_of types.inhibit_any_policy };

    fn associated_oid() -> ObjectIdentifier<39> {
        ObjectIdentifier::from_bytes_unwrap(&[0x55, 0x1d, 0x36])
    }
}

impl AssociatedOid for PolicyConstraints {
    ghost oid_arcs = { identifier_of types.policy_constraints };

    fn associated_oid() -> ObjectIdentifier<39> {
        ObjectIdentifier::from_bytes_unwrap(&[0x55, 0x1d, 0x24])
    }
}

impl AssociatedOid for PolicyMappings {
    ghost oid_arcs = { identifier_of types.policy_mappings };

    fn associated_oid() -> ObjectIdentifier<39> {
        ObjectIdentifier::from_bytes_unwrap(&[0x55, 0x1d, 0x21])
    }
}

impl AssociatedOid for PrivateKeyUsagePeriod {
    ghost oid_arcs = { identifier_of types.private_key_usage_period };

    fn associated_oid() -> ObjectIdentifier<39> {
        ObjectIdentifier::from_bytes_unwrap(&[0x55, 0x1d, 0x10])
    }
}
