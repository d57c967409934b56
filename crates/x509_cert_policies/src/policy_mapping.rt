ghost use Rattle.std.specs.Prelude.{◌≡◌, refl};
ghost use Rattle.der_core.specs.Oid.Bound.{Bound};
ghost use Rattle.x509_cert_policies.specs.Policies.{policy_mapping_fields};
ghost use Rattle.x509_cert_policies.specs.PolicyViews.{policy_mapping_plain};

use der_core::describing::{AsRecord, Described, FieldsView, RowUser, Rows};
use der_core::oid::ObjectIdentifier;
use der_core::{DecodeFields, Error, Reader, lend, read_row};
use std::alloc::Global;

/// A policy of the issuer's domain that the issuer considers equivalent to one of the subject's
/// domain (RFC 5280 4.2.1.5).
///
/// ```text
/// PolicyMapping ::= SEQUENCE {
///     issuerDomainPolicy   CertPolicyId,
///     subjectDomainPolicy  CertPolicyId }
/// ```
#[derive(Clone, Copy, Debug, PartialEq, Eq)]
pub struct PolicyMapping {
    /// The policy of the issuer's domain.
    pub issuer_domain_policy: ObjectIdentifier<39>,
    /// The policy of the subject's domain.
    pub subject_domain_policy: ObjectIdentifier<39>,
}

impl FieldsView for PolicyMapping {
    ghost body = { policy_mapping_fields Bound };

    ghost view = { policy_mapping_plain };
}

impl<'a, R: Reader<'a>> DecodeFields<'a, R> for PolicyMapping {
    fn decode_fields(alloc: Global, reader: &mut R) -> Result<PolicyMapping, Error> {
        read_row!(alloc, reader; PolicyMapping { issuer_domain_policy, subject_domain_policy })
    }
}

impl Described for PolicyMapping {
    type By = AsRecord;
}

impl Rows for PolicyMapping {
    fn with_rows<U: RowUser>(&self, other: &Self, user: &mut U) -> U::Answer {
        lend!(self, other, user; issuer_domain_policy, subject_domain_policy)
    }

    ghost apart = { refl };
}
