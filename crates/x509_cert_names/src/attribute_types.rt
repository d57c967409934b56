//! The OIDs of the attribute types for which `Name` has getters.

ghost use Rattle.std.specs.Prelude.{◌≡◌};
ghost use Rattle.x509_cert_name_texts.specs.Keys.{x520, pilot, email_address};

use der_core::oid::ObjectIdentifier;

/// Returns the OID of common names, 2.5.4.3 (RFC 5280 appendix A.1).
pub fn common_name() -> ObjectIdentifier<39>
    ensures { result ≡ x520 3 }
{
    ObjectIdentifier::from_bytes_unwrap(&[0x55, 4, 3])
}

/// Returns the OID of countries, 2.5.4.6 (RFC 5280 appendix A.1).
pub fn country() -> ObjectIdentifier<39>
    ensures { result ≡ x520 6 }
{
    ObjectIdentifier::from_bytes_unwrap(&[0x55, 4, 6])
}

/// Returns the OID of localities, 2.5.4.7 (RFC 5280 appendix A.1).
pub(crate) fn locality() -> ObjectIdentifier<39>
    ensures { result ≡ x520 7 }
{
    ObjectIdentifier::from_bytes_unwrap(&[0x55, 4, 7])
}

/// Returns the OID of states and provinces, 2.5.4.8 (RFC 5280 appendix A.1).
pub(crate) fn state_or_province() -> ObjectIdentifier<39>
    ensures { result ≡ x520 8 }
{
    ObjectIdentifier::from_bytes_unwrap(&[0x55, 4, 8])
}

/// Returns the OID of organizations, 2.5.4.10 (RFC 5280 appendix A.1).
pub fn organization() -> ObjectIdentifier<39>
    ensures { result ≡ x520 10 }
{
    ObjectIdentifier::from_bytes_unwrap(&[0x55, 4, 0x0a])
}

/// Returns the OID of organizational units, 2.5.4.11 (RFC 5280 appendix A.1).
pub(crate) fn organization_unit() -> ObjectIdentifier<39>
    ensures { result ≡ x520 11 }
{
    ObjectIdentifier::from_bytes_unwrap(&[0x55, 4, 0x0b])
}

/// Returns the OID of e-mail addresses, 1.2.840.113549.1.9.1 (RFC 5280 appendix A.1).
pub(crate) fn email_address() -> ObjectIdentifier<39>
    ensures { result ≡ email_address }
{
    ObjectIdentifier::from_bytes_unwrap(&[0x2a, 0x86, 0x48, 0x86, 0xf7, 0x0d, 1, 9, 1])
}

/// Returns the OID of serial numbers, 2.5.4.5 (RFC 5280 appendix A.1).
pub(crate) fn serial_number() -> ObjectIdentifier<39>
    ensures { result ≡ x520 5 }
{
    ObjectIdentifier::from_bytes_unwrap(&[0x55, 4, 5])
}

/// Returns the OID of domain components, 0.9.2342.19200300.100.1.25 (RFC 5280 appendix A.1).
pub fn domain_component() -> ObjectIdentifier<39>
    ensures { result ≡ pilot 25 }
{
    ObjectIdentifier::from_bytes_unwrap(&[9, 0x92, 0x26, 0x89, 0x93, 0xf2, 0x2c, 0x64, 1, 0x19])
}
