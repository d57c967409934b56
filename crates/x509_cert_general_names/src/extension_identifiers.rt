//! The OIDs of the extensions whose types are in this crate (RFC 5280 4.2.1, 5.2).

ghost use Rattle.x509_cert_parts.specs.ExtensionTypes as types;
ghost use Rattle.x509_cert_parts.specs.ExtensionTypes.{identifier_of};
ghost use Rattle.x509_cert_general_names.specs.Modules.{module_arcs};

use crate::{
    AuthorityKeyIdentifier, HardwareModuleName, IssuingDistributionPoint, NameConstraints,
};
use der_core::oid::{AssociatedOid, ObjectIdentifier};

impl AssociatedOid for AuthorityKeyIdentifier {
    ghost oid_arcs = { identifier_of types.authority_key_identifier };

    fn associated_oid() -> ObjectIdentifier<39> {
        ObjectIdentifier::from_bytes_unwrap(&[0x55, 0x1d, 0x23])
    }
}

impl AssociatedOid for IssuingDistributionPoint {
    ghost oid_arcs = { identifier_of types.issuing_distribution_point };

    fn associated_oid() -> ObjectIdentifier<39> {
        ObjectIdentifier::from_bytes_unwrap(&[0x55, 0x1d, 0x1c])
    }
}

impl AssociatedOid for NameConstraints {
    ghost oid_arcs = { identifier_of types.name_constraints };

    fn associated_oid() -> ObjectIdentifier<39> {
        ObjectIdentifier::from_bytes_unwrap(&[0x55, 0x1d, 0x1e])
    }
}

/// The OID that marks an `OtherName` as a `HardwareModuleName` (RFC 4108 5).
impl AssociatedOid for HardwareModuleName {
    ghost oid_arcs = { module_arcs };

    fn associated_oid() -> ObjectIdentifier<39> {
        // The encoding of 1.3.6.1.5.5.7.8.4.
        ObjectIdentifier::from_bytes_unwrap(&[0x2b, 6, 1, 5, 5, 7, 8, 4])
    }
}
