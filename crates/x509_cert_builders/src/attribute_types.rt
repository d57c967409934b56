//! The attribute types that the naming rules for CAs mention.

ghost use Rattle.std.specs.Prelude.{◌≡◌};
ghost use Rattle.x509_cert_builders.specs.Naming.{authority_types, ordered_types};

use crate::identifiers::x500;
use x509_cert_certificates::cert_names::attribute_types::{
    common_name, country, domain_component, organization,
};
use x509_cert_certificates::oid::ObjectIdentifier;

/// Returns the attribute types whose order in a name is fixed, in that order (CA/Browser Forum,
/// Baseline Requirements 7.1.4.2). Between country and organization these are
/// `stateOrProvinceName`, `localityName`, `postalCode` and `streetAddress`, and after it `surname`,
/// `givenName` and `organizationalUnitName`.
pub(crate) fn ordered_types() -> [ObjectIdentifier<39>; 11]
    ensures { result ≡ ordered_types }
{
    [
        domain_component(),
        country(),
        x500(4, 8),
        x500(4, 7),
        x500(4, 17),
        x500(4, 9),
        organization(),
        x500(4, 4),
        x500(4, 42),
        x500(4, 11),
        common_name(),
    ]
}

/// Returns the attribute types that the name of a CA may contain (CA/Browser Forum, Baseline
/// Requirements 7.1.2.10.2).
pub(crate) fn authority_types() -> [ObjectIdentifier<39>; 7]
    ensures { result ≡ authority_types }
{
    [
        country(),
        x500(4, 8),
        x500(4, 7),
        x500(4, 17),
        x500(4, 9),
        organization(),
        common_name(),
    ]
}
