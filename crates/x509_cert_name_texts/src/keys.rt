//! The short and long names of attribute types.

ghost use Rattle.std.specs.Prelude.{◌≡◌, option_map, find};
ghost use Rattle.der_core.specs.Oid.Bound.{Bound};
ghost use Rattle.der_core.specs.Reading.{GivesNow};
ghost use Rattle.x509_cert_name_texts.specs.Keys.{key_arcs, key_of};
ghost use Rattle.x509_cert_name_texts.specs.Rows.{row_of, rows, is_called, has_octets};

use der_core::Error;
use der_core::oid::ObjectIdentifier;

/// An attribute type that has a name: the encoding of its OID, its shortest name in capitals, and
/// its long name. If it has only one name, both fields contain it.
#[derive(Clone, Copy)]
struct Named {
    octets: &'static [u8],
    short: &'static str,
    long: &'static str,
}

/// Builds the table of attribute types from lines of OID encoding, shortest name and long name.
macro_rules! named {
    ($($octets:expr, $short:literal, $long:literal;)*) => {
        [$(Named { octets: &$octets, short: $short, long: $long }),*]
    };
}

/// The attribute types that have a name (RFC 4514 3; RFC 4519 2; RFC 2985 5.2.1).
const NAMED_TYPES: [Named; 14] = named! {
    [0x55, 4, 3], "CN", "commonName";
    [0x55, 4, 4], "SN", "surname";
    [0x55, 4, 5], "SERIALNUMBER", "serialNumber";
    [0x55, 4, 6], "C", "countryName";
    [0x55, 4, 7], "L", "localityName";
    [0x55, 4, 8], "ST", "stateOrProvinceName";
    [0x55, 4, 9], "STREET", "streetAddress";
    [0x55, 4, 10], "O", "organizationName";
    [0x55, 4, 11], "OU", "organizationalUnitName";
    [0x55, 4, 17], "POSTALCODE", "postalCode";
    [0x55, 4, 42], "GN", "givenName";
    [0x09, 0x92, 0x26, 0x89, 0x93, 0xf2, 0x2c, 0x64, 0x01, 0x19], "DC", "domainComponent";
    [0x09, 0x92, 0x26, 0x89, 0x93, 0xf2, 0x2c, 0x64, 0x01, 0x01], "UID", "userId";
    [0x2a, 0x86, 0x48, 0x86, 0xf7, 0x0d, 0x01, 0x09, 0x01], "EMAILADDRESS", "emailAddress";
};

impl Named {
    /// Returns whether the key is one of the type's names, ignoring ASCII case.
    fn is_called(&self, key: &str) -> bool
        ensures { result ≡ is_called key.now (row_of self.now) }
    {
        self.short.eq_ignore_ascii_case(key) || self.long.eq_ignore_ascii_case(key)
    }
}

/// Returns the first attribute type in the table that has this name, if any.
fn type_called(key: &str) -> Option<&'static Named>
    ensures { option_map (λ n. row_of n.now) result ≡ find (is_called key.now) rows }
{
    NAMED_TYPES.iter().find(|named| named.is_called(key))
}

/// Returns the attribute type in the table whose OID has this encoding, if any.
fn type_with(octets: &[u8]) -> Option<&'static Named>
    ensures { option_map (λ n. row_of n.now) result ≡ find (has_octets octets.now) rows }
{
    NAMED_TYPES.iter().find(|named| named.octets == octets)
}

/// Returns the OID of the attribute type that a key denotes: the key is a name from the table, in
/// either case, or an OID in dotted decimal form.
///
/// # Errors
///
/// - `OidMalformed`: the key is neither.
#[tactic(auto, using(crate::proofs::KeyLaws::key_arcs_named, crate::proofs::KeyLaws::key_arcs_dotted))]
pub fn type_of_key(key: &str) -> Result<ObjectIdentifier<39>, Error>
    ensures { GivesNow (λ oid. oid) result (key_arcs Bound key.now) }
{
    match type_called(key) {
        Some(named) => Ok(ObjectIdentifier::from_bytes(named.octets)?),
        None => Ok(ObjectIdentifier::new(key)?),
    }
}

/// Returns the shortest name of an attribute type, in capitals, or `None` if the type has no name.
#[tactic(auto, using(crate::proofs::KeyLaws::key_of_found, crate::proofs::KeyLaws::key_of_none))]
pub fn key_of(oid: &ObjectIdentifier<39>) -> Option<&'static str>
    ensures { key_of oid.now ≡ option_map (λ name. name.now) result }
{
    let named = type_with(oid.as_bytes())?;
    Some(named.short)
}
