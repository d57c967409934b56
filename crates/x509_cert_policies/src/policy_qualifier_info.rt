//! The types `PolicyQualifierInfo` and `CpsUri`.

ghost use Rattle.std.specs.Prelude.{◌≡◌, refl};
ghost use Rattle.der_core.specs.Oid.Bound.{Bound};
ghost use Rattle.x509_cert_policies.specs.Policies.{policy_qualifier_info_fields};
ghost use Rattle.x509_cert_policies.specs.PolicyViews.{policy_qualifier_info_plain};

use der_core::describing::{AsRecord, Described, FieldsView, RowUser, Rows};
use der_core::oid::ObjectIdentifier;
use der_core::{DecodeFields, Error, Reader, lend, read_row};
use std::alloc::Global;
use x509_cert_parts::types::{Any, Ia5String};

/// A qualifier of a policy (RFC 5280 4.2.1.4).
///
/// ```text
/// PolicyQualifierInfo ::= SEQUENCE {
///     policyQualifierId  PolicyQualifierId,
///     qualifier          ANY DEFINED BY policyQualifierId OPTIONAL }
/// ```
#[derive(Debug, Drop, PartialEq, Eq)]
pub struct PolicyQualifierInfo {
    /// The OID of the kind of qualifier.
    pub policy_qualifier_id: ObjectIdentifier<39>,
    /// The qualifier, undecoded: its tag and content.
    pub qualifier: Option<Any>,
}

impl FieldsView for PolicyQualifierInfo {
    ghost body = { policy_qualifier_info_fields Bound };

    ghost view = { policy_qualifier_info_plain };
}

impl<'a, R: Reader<'a>> DecodeFields<'a, R> for PolicyQualifierInfo {
    fn decode_fields(alloc: Global, reader: &mut R) -> Result<PolicyQualifierInfo, Error> {
        read_row!(alloc, reader; PolicyQualifierInfo { policy_qualifier_id, qualifier })
    }
}

impl Described for PolicyQualifierInfo {
    type By = AsRecord;
}

impl Rows for PolicyQualifierInfo {
    fn with_rows<U: RowUser>(&self, other: &Self, user: &mut U) -> U::Answer {
        lend!(self, other, user; policy_qualifier_id, qualifier)
    }

    ghost apart = { refl };
}

/// The URI of a certification practice statement: the qualifier with the OID 1.3.6.1.5.5.7.2.1 (RFC
/// 5280 4.2.1.4).
///
/// ```text
/// CPSuri ::= IA5String
/// ```
pub type CpsUri = Ia5String;
