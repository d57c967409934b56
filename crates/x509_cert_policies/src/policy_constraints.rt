ghost use Rattle.std.specs.Prelude.{◌≡◌, refl};
ghost use Rattle.x509_cert_policies.specs.Policies.{policy_constraints_fields};
ghost use Rattle.x509_cert_policies.specs.PolicyViews.{policy_constraints_plain};

use der_core::describing::{AsRecord, Described, FieldsView, RowUser, Rows};
use der_core::{DecodeFields, Error, Reader, lend, read_row};
use std::alloc::Global;

/// Constraints on the policies in the rest of a certificate chain (RFC 5280 4.2.1.11). Numbers
/// above 2^32 - 1 are rejected.
///
/// ```text
/// PolicyConstraints ::= SEQUENCE {
///     requireExplicitPolicy  [0] SkipCerts OPTIONAL,
///     inhibitPolicyMapping   [1] SkipCerts OPTIONAL }
///
/// SkipCerts ::= INTEGER (0..MAX)
/// ```
#[derive(Clone, Copy, Debug, PartialEq, Eq)]
pub struct PolicyConstraints {
    /// The number of further certificates in the chain before an explicit policy is required.
    pub require_explicit_policy: Option<u32>,
    /// The number of further certificates in the chain before policies may no longer be mapped.
    pub inhibit_policy_mapping: Option<u32>,
}

impl FieldsView for PolicyConstraints {
    ghost body = { policy_constraints_fields };

    ghost view = { policy_constraints_plain };
}

impl<'a, R: Reader<'a>> DecodeFields<'a, R> for PolicyConstraints {
    fn decode_fields(alloc: Global, reader: &mut R) -> Result<PolicyConstraints, Error> {
        read_row!(alloc, reader; PolicyConstraints {
            require_explicit_policy: implicit 0 optional,
            inhibit_policy_mapping: implicit 1 optional,
        })
    }
}

impl Described for PolicyConstraints {
    type By = AsRecord;
}

impl Rows for PolicyConstraints {
    fn with_rows<U: RowUser>(&self, other: &Self, user: &mut U) -> U::Answer {
        lend!(self, other, user;
            require_explicit_policy: implicit 0 optional,
            inhibit_policy_mapping: implicit 1 optional)
    }

    ghost apart = { refl };
}
