//! The type `SignedCertificateTimestampList` and its OID.

ghost use Rattle.std.specs.Prelude.{◌≡◌, IfOk, IfErr, flat_map, All};
ghost use Rattle.x509_cert_policies.specs.Lists.{IsMember, sct_octets, SpellsList, ReadsNoList};
ghost use Rattle.x509_cert_policies.specs.Lists.{MakesNoList, ReadsNoMembers, MakesNoMembers};
ghost use Rattle.x509_cert_policies.specs.Lists.{list_arcs};

use crate::serialized_sct::SerializedSct;
use crate::timestamp_error::Error;
use crate::tls_error::TlsError;
use crate::tls_value::TlsValue;
use crate::vectors::{append_vector, split_vector};
use der_core::describing::{AsField, Described, Ordered, Wraps};
use der_core::oid::{AssociatedOid, ObjectIdentifier};
use std::alloc::Global;
use x509_cert_parts::types::OctetString;

/// The extension with a certificate's signed timestamps (RFC 6962 3.3). Its OID is
/// 1.3.6.1.4.1.11129.2.4.2.
///
/// ```text
/// SignedCertificateTimestampList ::= OCTET STRING
///
/// struct {
///     SerializedSCT sct_list<1..2^16-1>;
/// } SignedCertificateTimestampList;
/// ```
///
/// The empty list is also accepted and encoded.
#[derive(Debug, Drop, PartialEq)]
pub struct SignedCertificateTimestampList(OctetString);

/// Returns the encodings of the members, one after another.
///
/// # Errors
///
/// - `InvalidVectorLength`: a member has more than 65535 bytes.
/// - `OutOfMemory`: memory runs out.
fn append_members(alloc: Global, serialized_scts: &[SerializedSct]) -> Result<Vec<u8>, TlsError>
    ensures ok { IfOk result (λ v. v.items ≡ flat_map sct_octets serialized_scts.now) }
    ensures value { IfOk result (λ _. All IsMember serialized_scts.now) }
    ensures err { IfErr result (λ e. MakesNoMembers serialized_scts.now e) }
{
    let mut body = Vec::new(alloc);
    for sct in serialized_scts {
        sct.append_to(&mut body)?;
    }
    Ok(body)
}

/// Decodes members, one after another, up to the end of the bytes.
///
/// # Errors
///
/// - `EndOfStream`: the bytes end within a member.
/// - `OutOfMemory`: memory runs out.
fn read_members(alloc: Global, body: &[u8]) -> Result<Vec<SerializedSct>, TlsError>
    ensures ok { IfOk result (λ v. body.now ≡ flat_map sct_octets v.items) }
    ensures value { IfOk result (λ v. All IsMember v.items) }
    ensures err { IfErr result (λ e. ReadsNoMembers body.now e) }
{
    let mut scts = Vec::new(alloc);
    let mut more = body;
    while !more.is_empty() {
        let (sct, rest) = SerializedSct::tls_deserialize_bytes(alloc, more)?;
        scts.push(sct)?;
        more = rest;
    }
    Ok(scts)
}

impl SignedCertificateTimestampList {
    /// Returns the list with these members.
    ///
    /// # Errors
    ///
    /// - `InvalidVectorLength`: a member has more than 65535 bytes, or all members with their
    ///   lengths do.
    /// - `OutOfMemory`: memory runs out.
    #[tactic(auto, using(crate::proofs::Readings::list_is_short))]
    pub fn new(alloc: Global, serialized_scts: &[SerializedSct]) -> Result<Self, Error>
        ensures ok { IfOk result (λ l. SpellsList serialized_scts.now l.0) }
        ensures err { IfErr result (λ e. MakesNoList serialized_scts.now e) }
    {
        let body = append_members(alloc, serialized_scts)?;
        let mut output = Vec::new(alloc);
        append_vector(body.as_slice(), &mut output)?;
        Ok(SignedCertificateTimestampList(OctetString::new(output)?))
    }

    /// Returns the members of the list, undecoded.
    ///
    /// # Errors
    ///
    /// The first error in the bytes is returned, unless memory runs out.
    ///
    /// - `EndOfStream`: the bytes end within the list or a member.
    /// - `TrailingData`: bytes follow the list.
    /// - `OutOfMemory`: memory runs out.
    pub fn parse_timestamps(&self, alloc: Global) -> Result<Vec<SerializedSct>, Error>
        ensures ok { IfOk result (λ v. SpellsList v.items self.now.0) }
        ensures err { IfErr result (λ e. ReadsNoList self.now.0 e) }
    {
        let (body, rest) = split_vector(self.0.as_bytes())?;
        if !rest.is_empty() {
            return Err(Error::Tls(TlsError::TrailingData));
        }
        Ok(read_members(alloc, body)?)
    }
}

impl Described for SignedCertificateTimestampList {
    type By = AsField<OctetString>;
}

impl Wraps<OctetString> for SignedCertificateTimestampList {
    ghost inner = { λ x. x.0 };

    fn inner(&self) -> &OctetString {
        &self.0
    }

    ghost made = { λ _ _ e. e };
}

impl Ordered for SignedCertificateTimestampList {}

impl From<OctetString> for SignedCertificateTimestampList {
    ghost from_gives = { λ v x. x.0 ≡ v };

    fn from(value: OctetString) -> SignedCertificateTimestampList {
        SignedCertificateTimestampList(value)
    }
}

impl From<SignedCertificateTimestampList> for OctetString {
    ghost from_gives = { λ x v. v ≡ x.0 };

    fn from(value: SignedCertificateTimestampList) -> OctetString {
        value.0
    }
}

impl AsRef<OctetString> for SignedCertificateTimestampList {
    fn as_ref(&self) -> &OctetString
        ensures { result.now ≡ self.now.0 }
    {
        &self.0
    }
}

impl AsMut<OctetString> for SignedCertificateTimestampList {
    ghost use Rattle.std.specs.Borrow.{sem, Lends};
    ghost use Rattle.x509_cert_parts.specs.Types.OctetStringContracts.OctetString.{the_row as inner_row};
    ghost use Rattle.x509_cert_policies.specs.contracts.signed_certificate_timestamp_list.SignedCertificateTimestampList.{the_row};

    fn as_mut(&mut self) -> &mut OctetString
        ensures* writes_back { sem 𝓛 (Lends the_row inner_row self.entry result
            (λ w. record { 0 = w })) }
        ensures value { result.now ≡ self.old.0 }
    {
        &mut self.0
    }
}

/// The OID 1.3.6.1.4.1.11129.2.4.2 (RFC 6962 3.3).
impl AssociatedOid for SignedCertificateTimestampList {
    ghost oid_arcs = { list_arcs };

    fn associated_oid() -> ObjectIdentifier<39> {
        ObjectIdentifier::from_bytes_unwrap(&[0x2b, 6, 1, 4, 1, 0xd6, 0x79, 2, 4, 2])
    }
}
