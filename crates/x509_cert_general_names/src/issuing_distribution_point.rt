ghost use Rattle.std.specs.Prelude.{◌≡◌, refl};
ghost use Rattle.der_core.specs.Oid.Bound.{Bound};
ghost use Rattle.x509_cert_general_names.specs.GeneralNames.{issuing_distribution_point_fields};
ghost use Rattle.x509_cert_general_names.specs.GeneralNameViews.{issuing_distribution_point_plain};

use crate::distribution_point_name::DistributionPointName;
use crate::reason_flags::ReasonFlags;
use der_core::describing::{AsRecord, Described, FieldsView, RowUser, Rows};
use der_core::{DecodeFields, Error, Reader, lend, read_row};
use std::alloc::Global;

/// The location of a CRL and the certificates that it covers (RFC 5280 5.2.5).
///
/// ```text
/// IssuingDistributionPoint ::= SEQUENCE {
///     distributionPoint           [0] DistributionPointName OPTIONAL,
///     onlyContainsUserCerts       [1] BOOLEAN DEFAULT FALSE,
///     onlyContainsCACerts         [2] BOOLEAN DEFAULT FALSE,
///     onlySomeReasons             [3] ReasonFlags OPTIONAL,
///     indirectCRL                 [4] BOOLEAN DEFAULT FALSE,
///     onlyContainsAttributeCerts  [5] BOOLEAN DEFAULT FALSE }
/// ```
#[derive(Debug, Drop, PartialEq, Eq)]
pub struct IssuingDistributionPoint {
    /// The location of the CRL.
    pub distribution_point: Option<DistributionPointName>,
    /// True if the CRL covers only end-entity certificates.
    pub only_contains_user_certs: bool,
    /// True if the CRL covers only CA certificates.
    pub only_contains_ca_certs: bool,
    /// The revocation reasons that the CRL covers. If absent, it covers all reasons.
    pub only_some_reasons: Option<ReasonFlags>,
    /// True if the CRL also covers certificates of other issuers.
    pub indirect_crl: bool,
    /// True if the CRL covers only attribute certificates.
    pub only_contains_attribute_certs: bool,
}

impl FieldsView for IssuingDistributionPoint {
    ghost body = { issuing_distribution_point_fields Bound };

    ghost view = { issuing_distribution_point_plain };
}

impl<'a, R: Reader<'a>> DecodeFields<'a, R> for IssuingDistributionPoint {
    fn decode_fields(alloc: Global, reader: &mut R) -> Result<IssuingDistributionPoint, Error> {
        read_row!(alloc, reader; IssuingDistributionPoint {
            distribution_point: explicit 0 optional, only_contains_user_certs: implicit 1 default,
            only_contains_ca_certs: implicit 2 default, only_some_reasons: implicit 3 optional,
            indirect_crl: implicit 4 default, only_contains_attribute_certs: implicit 5 default,
        })
    }
}

impl Described for IssuingDistributionPoint {
    type By = AsRecord;
}

impl Rows for IssuingDistributionPoint {
    fn with_rows<U: RowUser>(&self, other: &Self, user: &mut U) -> U::Answer {
        lend!(self, other, user;
            distribution_point: explicit 0 optional, only_contains_user_certs: implicit 1 default,
            only_contains_ca_certs: implicit 2 default, only_some_reasons: implicit 3 optional,
            indirect_crl: implicit 4 default, only_contains_attribute_certs: implicit 5 default)
    }

    ghost apart = { refl };
}
