ghost use Rattle.x509_cert_lists.specs.Attributes.{challenge_password_arcs};

use crate::as_attribute::AsAttribute;
use der_core::oid::{AssociatedOid, ObjectIdentifier};
use der_core::{Encode, Error, Length, Shaped, Writer};
use std::alloc::Global;
use x509_cert_names::DirectoryString;
use x509_cert_parts::types::Any;

/// A password with which an entity may ask for the revocation of its certificate, as the value of
/// an attribute in a CSR (RFC 2985 5.4.1).
///
/// ```text
/// challengePassword ATTRIBUTE ::= {
///     WITH SYNTAX DirectoryString {pkcs-9-ub-challengePassword}
///     SINGLE VALUE TRUE
///     ID pkcs-9-at-challengePassword }
/// ```
#[derive(Debug, Drop)]
pub struct ChallengePassword(pub DirectoryString);

/// The OID `challengePassword`, 1.2.840.113549.1.9.7.
impl AssociatedOid for ChallengePassword {
    ghost oid_arcs = { challenge_password_arcs };

    fn associated_oid() -> ObjectIdentifier<39> {
        ObjectIdentifier::from_bytes_unwrap(&[0x2a, 0x86, 0x48, 0x86, 0xf7, 0x0d, 1, 9, 7])
    }
}

impl Shaped for ChallengePassword {
    ghost shape = { ⟦<DirectoryString as Shaped>⟧.shape };

    ghost plain = { λ x. ⟦<DirectoryString as Shaped>⟧.plain x.0 };

    ghost written = { λ x. ⟦<DirectoryString as Shaped>⟧.written x.0 };
}

impl Encode for ChallengePassword {
    fn encoded_len(&self) -> Result<Length, Error> {
        self.0.encoded_len()
    }

    fn encode<W: Writer>(&self, writer: &mut W) -> Result<(), Error> {
        self.0.encode(writer)
    }
}

impl AsAttribute for ChallengePassword {
    fn to_any(&self, alloc: Global) -> Result<Any, Error> {
        match &self.0 {
            DirectoryString::PrintableString(text) => Ok(Any::encode_from(alloc, text)?),
            DirectoryString::TeletexString(text) => Ok(Any::encode_from(alloc, text)?),
            DirectoryString::Utf8String(text) => Ok(Any::encode_from(alloc, text)?),
            DirectoryString::BmpString(text) => Ok(Any::encode_from(alloc, text)?),
        }
    }
}
