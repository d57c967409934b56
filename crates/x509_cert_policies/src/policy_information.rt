ghost use Rattle.std.specs.Prelude.{◌≡◌, refl};
ghost use Rattle.der_core.specs.Oid.Bound.{Bound};
ghost use Rattle.x509_cert_policies.specs.Policies.{policy_information_fields};
ghost use Rattle.x509_cert_policies.specs.PolicyViews.{policy_information_plain};

use crate::policy_qualifier_info::PolicyQualifierInfo;
use der_core::describing::{AsRecord, Described, FieldsView, RowUser, Rows};
use der_core::oid::ObjectIdentifier;
use der_core::{DecodeFields, Error, Reader, lend, read_row};
use std::alloc::Global;

/// A policy under which a certificate was issued (RFC 5280 4.2.1.4). A list of qualifiers that is
/// present may be empty.
///
/// ```text
/// PolicyInformation ::= SEQUENCE {
///     policyIdentifier  CertPolicyId,
///     policyQualifiers  SEQUENCE SIZE (1..MAX) OF PolicyQualifierInfo OPTIONAL }
/// ```
#[derive(Debug, Drop, PartialEq, Eq)]
pub struct PolicyInformation {
    /// The OID of the policy.
    pub policy_identifier: ObjectIdentifier<39>,
    /// The qualifiers of the policy.
    pub policy_qualifiers: Option<Vec<PolicyQualifierInfo>>,
}

impl FieldsView for PolicyInformation {
    ghost body = { policy_information_fields Bound };

    ghost view = { policy_information_plain };
}

impl<'a, R: Reader<'a>> DecodeFields<'a, R> for PolicyInformation {
    fn decode_fields(alloc: Global, reader: &mut R) -> Result<PolicyInformation, Error> {
        read_row!(alloc, reader; PolicyInformation { policy_identifier, policy_qualifiers })
    }
}

impl Described for PolicyInformation {
    type By = AsRecord;
}

impl Rows for PolicyInformation {
    fn with_rows<U: RowUser>(&self, other: &Self, user: &mut U) -> U::Answer {
        lend!(self, other, user; policy_identifier, policy_qualifiers)
    }

    ghost apart = { refl };
}
