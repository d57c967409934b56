ghost use Rattle.std.specs.Prelude.{pos, refl};
ghost use Rattle.der_core.specs.Oid.Bound.{Bound};
ghost use Rattle.der_core.specs.Grammar.{plain_list, plain_option};
ghost use Rattle.x509_cert_general_names.specs.GeneralNameViews.{name_constraints_plain};
ghost use Rattle.x509_cert_policies.specs.PolicyViews.{policy_information_plain};
ghost use Rattle.x509_cert_anchors.specs.Anchors.{cert_path_controls_fields, cert_path_controls_by};
ghost use Rattle.x509_cert_anchors.specs.Anchors.{constraint_fields};
ghost use Rattle.x509_cert_anchors.specs.AnchorViews.{cert_path_controls_plain};

use crate::cert_policies::CertPolicyFlags;
use der_core::describing::{AsRecord, DecodeRow, Described, FieldRow, RowUser, Rows};
use der_core::making::implicit_of;
use der_core::{DecodeFields, Error, Fields, Reader, lend, row};
use std::alloc::Global;
use x509_cert_certificates::CertificateInner;
use x509_cert_general_names::NameConstraints;
use x509_cert_general_names::cert_names::Name;
use x509_cert_policies::CertificatePolicies;
use x509_cert_policies::cert_parts::{Profile, Rfc5280};

/// The name of a trust anchor, and the constraints on certificate chains from it (RFC 5914 2.5).
///
/// ```text
/// CertPathControls ::= SEQUENCE {
///     taName             Name,
///     certificate        [0] Certificate OPTIONAL,
///     policySet          [1] CertificatePolicies OPTIONAL,
///     policyFlags        [2] CertPolicyFlags OPTIONAL,
///     nameConstr         [3] NameConstraints OPTIONAL,
///     pathLenConstraint  [4] INTEGER (0..MAX) OPTIONAL }
/// ```
#[derive(Drop)]
#[derive_where(Debug, PartialEq, Eq)]
pub struct CertPathControls<P = Rfc5280> {
    /// The name of the trust anchor.
    pub ta_name: Name,
    /// A certificate for the key of the trust anchor.
    pub certificate: Option<CertificateInner<P>>,
    /// The policies that are allowed.
    pub policy_set: Option<CertificatePolicies>,
    /// The requirements on policies.
    pub policy_flags: Option<CertPolicyFlags>,
    /// The names that are allowed and those that aren't.
    pub name_constr: Option<NameConstraints>,
    /// The greatest number of intermediate certificates that may follow, if it is limited. A number
    /// above 2^32 - 1 is rejected.
    pub path_len_constraint: Option<u32>,
}

impl<P: Profile> Fields for CertPathControls<P> {
    ghost fields = { cert_path_controls_fields Bound P.serial_limit };

    ghost fields_plain = { cert_path_controls_plain };

    ghost fields_written = { λ x. cert_path_controls_by P.respells (cert_path_controls_plain x) };
}

/// The fields after the certificate. They are decoded as a record of their own, since the proof for
/// all six fields at once exceeds the checker's limit of steps.
#[derive(Drop)]
struct Constraints {
    policy_set: Option<CertificatePolicies>,
    policy_flags: Option<CertPolicyFlags>,
    name_constr: Option<NameConstraints>,
    path_len_constraint: Option<u32>,
}

impl FieldRow for Constraints {
    ghost fields = { constraint_fields Bound };

    ghost fields_plain = { λ c. (
      plain_option (λ ps. plain_list policy_information_plain ps.0.items) c.policy_set,
      (
        plain_option (λ f. f.flags.0) c.policy_flags,
        (
          plain_option name_constraints_plain c.name_constr,
          (plain_option (λ n. pos n) c.path_len_constraint, tt),
        ),
      ),
    ) };

    ghost fields_written = { λ c. (
      plain_option (λ ps. plain_list policy_information_plain ps.0.items) c.policy_set,
      (
        plain_option (λ f. f.flags.0) c.policy_flags,
        (
          plain_option name_constraints_plain c.name_constr,
          (plain_option (λ n. pos n) c.path_len_constraint, tt),
        ),
      ),
    ) };
}

impl<'a, R: Reader<'a>> DecodeRow<'a, R> for Constraints {
    fn decode_row(alloc: Global, reader: &mut R) -> Result<Constraints, Error> {
        let row!(policy_set, policy_flags, name_constr, path_len_constraint) =
            DecodeRow::decode_row(alloc, reader)?;
        Ok(Constraints {
            policy_set: implicit_of::<_, 1>(policy_set),
            policy_flags: implicit_of::<_, 2>(policy_flags),
            name_constr: implicit_of::<_, 3>(name_constr),
            path_len_constraint: implicit_of::<_, 4>(path_len_constraint),
        })
    }
}

impl<'a, R: Reader<'a>, P: Profile> DecodeFields<'a, R> for CertPathControls<P> {
    fn decode_fields(alloc: Global, reader: &mut R) -> Result<CertPathControls<P>, Error> {
        let (ta_name, (certificate, constraints)) = DecodeRow::decode_row(alloc, reader)?;
        let Constraints {
            policy_set,
            policy_flags,
            name_constr,
            path_len_constraint,
        } = constraints;
        Ok(CertPathControls {
            ta_name,
            certificate: implicit_of::<_, 0>(certificate),
            policy_set,
            policy_flags,
            name_constr,
            path_len_constraint,
        })
    }
}

impl<P: Profile> Described for CertPathControls<P> {
    type By = AsRecord;
}

impl<P: Profile> Rows for CertPathControls<P> {
    fn with_rows<U: RowUser>(&self, other: &Self, user: &mut U) -> U::Answer {
        lend!(self, other, user;
            ta_name, certificate: implicit 0 optional, policy_set: implicit 1 optional,
            policy_flags: implicit 2 optional, name_constr: implicit 3 optional,
            path_len_constraint: implicit 4 optional)
    }

    ghost apart = { refl };
}
