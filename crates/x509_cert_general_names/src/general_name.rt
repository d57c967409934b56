//! The types `GeneralName` and `GeneralNames`.

ghost use Rattle.std.specs.Prelude.{◌≡◌, ◌≤◌, vec_len, refl, IfOk, IfErr};
ghost use Rattle.der_core.specs.Oid.Bound.{Bound};
ghost use Rattle.der_core.specs.ErrorTypes.ErrorKind.TheVariants.{OutOfMemory};
ghost use Rattle.x509_cert_general_names.specs.Addresses.{address_octets};
ghost use Rattle.x509_cert_general_names.specs.GeneralNames.{general_name};
ghost use Rattle.x509_cert_general_names.specs.GeneralNameViews.{general_name_plain};
ghost use Rattle.x509_cert_general_names.specs.declared.general_name.GeneralName.TheVariants
    as names;

use crate::edi_party_name::EdiPartyName;
use crate::other_name::OtherName;
use der_core::describing::{LentField, ReadCase};
use der_core::making::{cases_cmp, cases_tag};
use der_core::oid::ObjectIdentifier;
use der_core::{
    AsRead, Choice, Decode, DerOrd, Element, Encode, EncodeRef, Error, Explicit, FirstTag,
    Implicit, ImplicitRef, Length, Member, OneOf8, Reader, Shaped, Tag, Writer, case,
};
use std::alloc::{AllocError, Global};
use std::cmp::Ordering;
use std::net::IpAddr;
use x509_cert_names::Name;
use x509_cert_parts::types::{Ia5String, OctetString};

/// A name of one of several kinds (RFC 5280 4.2.1.6). `x400Address` isn't supported.
///
/// ```text
/// GeneralName ::= CHOICE {
///     otherName                  [0] OtherName,
///     rfc822Name                 [1] IA5String,
///     dNSName                    [2] IA5String,
///     directoryName              [4] Name,
///     ediPartyName               [5] EDIPartyName,
///     uniformResourceIdentifier  [6] IA5String,
///     iPAddress                  [7] OCTET STRING,
///     registeredID               [8] OBJECT IDENTIFIER }
/// ```
#[derive(Debug, Drop, PartialEq, Eq)]
pub enum GeneralName {
    /// A name of a kind that an OID identifies.
    OtherName(OtherName),
    /// An e-mail address.
    Rfc822Name(Ia5String),
    /// A DNS name.
    DnsName(Ia5String),
    /// A distinguished name.
    DirectoryName(Name),
    /// A party in electronic data interchange.
    EdiPartyName(EdiPartyName),
    /// A URI.
    UniformResourceIdentifier(Ia5String),
    /// An IP address, or an IP address and a mask.
    IpAddress(OctetString),
    /// An OID.
    RegisteredId(ObjectIdentifier<39>),
}

type Cases = OneOf8<
    Implicit<OtherName, 0>,
    Implicit<Ia5String, 1>,
    Implicit<Ia5String, 2>,
    Explicit<Name, 4>,
    Implicit<EdiPartyName, 5>,
    Implicit<Ia5String, 6>,
    Implicit<OctetString, 7>,
    Implicit<ObjectIdentifier<39>, 8>,
>;

type CasesRef<'a> = OneOf8<
    ImplicitRef<'a, OtherName, 0>,
    ImplicitRef<'a, Ia5String, 1>,
    ImplicitRef<'a, Ia5String, 2>,
    Explicit<EncodeRef<'a, Name>, 4>,
    ImplicitRef<'a, EdiPartyName, 5>,
    ImplicitRef<'a, Ia5String, 6>,
    ImplicitRef<'a, OctetString, 7>,
    ImplicitRef<'a, ObjectIdentifier<39>, 8>,
>;

/// Returns the bytes of an IP address in network byte order.
///
/// # Errors
///
/// - `AllocError`: memory runs out.
fn octets_of(alloc: Global, address: IpAddr) -> Result<Vec<u8>, AllocError>
    ensures octets { IfOk result (λ v. v.items ≡ address_octets address) }
    ensures few { IfOk result (λ v. vec_len v ≤ 16) }
{
    match address {
        IpAddr::V4(address) => Ok(address.octets().as_slice().to_vec(alloc)?),
        IpAddr::V6(address) => Ok(address.octets().as_slice().to_vec(alloc)?),
    }
}

impl GeneralName {
    /// Returns the general name of an IP address: its four bytes (RFC 791 3.1) or its sixteen (RFC
    /// 4291 2).
    ///
    /// # Errors
    ///
    /// - `OutOfMemory`: memory runs out.
    pub fn from_ip(alloc: Global, address: IpAddr) -> Result<GeneralName, Error>
        ensures ok { IfOk result (λ n. n ≡ names.IpAddress (address_octets address)) }
        ensures err { IfErr result (λ e. e.kind ≡ OutOfMemory) }
    {
        let octets = octets_of(alloc, address)?;
        Ok(GeneralName::IpAddress(OctetString::new(octets)?))
    }

    /// Returns the value as a choice of references, which has the encoding and ordering of a
    /// CHOICE.
    fn cases<'a>(&'a self) -> CasesRef<'a>
        ensures { ⟦<CasesRef<'a> as LentField>⟧.written result ≡ general_name_plain self.now }
    {
        match self {
            GeneralName::OtherName(value) => case!(1 of 8: ImplicitRef { value: value }),
            GeneralName::Rfc822Name(value) => case!(2 of 8: ImplicitRef { value: value }),
            GeneralName::DnsName(value) => case!(3 of 8: ImplicitRef { value: value }),
            GeneralName::DirectoryName(value) => {
                case!(4 of 8: Explicit { value: EncodeRef(value) })
            }
            GeneralName::EdiPartyName(value) => case!(5 of 8: ImplicitRef { value: value }),
            GeneralName::UniformResourceIdentifier(value) => {
                case!(6 of 8: ImplicitRef { value: value })
            }
            GeneralName::IpAddress(value) => case!(7 of 8: ImplicitRef { value: value }),
            GeneralName::RegisteredId(value) => case!(8 of 8: ImplicitRef { value: value }),
        }
    }
}

impl Shaped for GeneralName {
    ghost shape = { general_name Bound };

    ghost plain = { general_name_plain };

    ghost written = { general_name_plain };
}

impl Choice for GeneralName {
    fn can_decode(tag: Tag) -> bool {
        Cases::can_decode(tag)
    }
}

impl<'a, R: Reader<'a>> Decode<'a, R> for GeneralName {
    fn decode(alloc: Global, reader: &mut R) -> Result<GeneralName, Error> {
        match Cases::read_case(alloc, reader)? {
            case!(1 of 8: value) => Ok(GeneralName::OtherName(value.value)),
            case!(2 of 8: value) => Ok(GeneralName::Rfc822Name(value.value)),
            case!(3 of 8: value) => Ok(GeneralName::DnsName(value.value)),
            case!(4 of 8: value) => Ok(GeneralName::DirectoryName(value.value)),
            case!(5 of 8: value) => Ok(GeneralName::EdiPartyName(value.value)),
            case!(6 of 8: value) => Ok(GeneralName::UniformResourceIdentifier(value.value)),
            case!(7 of 8: value) => Ok(GeneralName::IpAddress(value.value)),
            case!(8 of 8: value) => Ok(GeneralName::RegisteredId(value.value)),
        }
    }
}

impl Encode for GeneralName {
    fn encoded_len(&self) -> Result<Length, Error> {
        self.cases().field_len()
    }

    fn encode<W: Writer>(&self, writer: &mut W) -> Result<(), Error> {
        self.cases().encode_field(writer)
    }
}

impl Element for GeneralName {
    ghost element = { refl };
}

impl Member for GeneralName {
    ghost apart = { refl };
}

impl AsRead for GeneralName {
    ghost as_read = { λ _. refl };
}

/// Compares the tags first, then the contents.
impl DerOrd for GeneralName {
    fn der_cmp(&self, other: &Self) -> Result<Ordering, Error> {
        cases_cmp(&self.cases(), &other.cases())
    }
}

impl FirstTag for GeneralName {
    fn first_tag(&self) -> Option<Tag> {
        cases_tag(&self.cases())
    }
}

/// General names of one subject or issuer (RFC 5280 4.2.1.6). The list may be empty.
///
/// ```text
/// GeneralNames ::= SEQUENCE SIZE (1..MAX) OF GeneralName
/// ```
pub type GeneralNames = Vec<GeneralName>;
