ghost use Rattle.std.specs.Prelude.{◌≡◌, refl};
ghost use Rattle.der_core.specs.Oid.Bound.{Bound};
ghost use Rattle.x509_cert_general_names.specs.GeneralNames.{distribution_point_fields};
ghost use Rattle.x509_cert_general_names.specs.GeneralNameViews.{distribution_point_plain};

use crate::distribution_point_name::DistributionPointName;
use crate::general_name::GeneralNames;
use crate::reason_flags::ReasonFlags;
use der_core::describing::{AsRecord, Described, FieldsView, RowUser, Rows};
use der_core::{DecodeFields, Error, Reader, lend, read_row};
use std::alloc::Global;

/// A location of a CRL (RFC 5280 4.2.1.13).
///
/// ```text
/// DistributionPoint ::= SEQUENCE {
///     distributionPoint  [0] DistributionPointName OPTIONAL,
///     reasons            [1] ReasonFlags OPTIONAL,
///     cRLIssuer          [2] GeneralNames OPTIONAL }
/// ```
#[derive(Debug, Drop, PartialEq, Eq)]
pub struct DistributionPoint {
    /// The location.
    pub distribution_point: Option<DistributionPointName>,
    /// The revocation reasons that the CRL covers. If absent, it covers all reasons.
    pub reasons: Option<ReasonFlags>,
    /// The issuer of the CRL, if it isn't the issuer of the certificate.
    pub crl_issuer: Option<GeneralNames>,
}

impl FieldsView for DistributionPoint {
    ghost body = { distribution_point_fields Bound };

    ghost view = { distribution_point_plain };
}

impl<'a, R: Reader<'a>> DecodeFields<'a, R> for DistributionPoint {
    fn decode_fields(alloc: Global, reader: &mut R) -> Result<DistributionPoint, Error> {
        read_row!(alloc, reader; DistributionPoint {
            distribution_point: explicit 0 optional, reasons: implicit 1 optional,
            crl_issuer: implicit 2 optional,
        })
    }
}

impl Described for DistributionPoint {
    type By = AsRecord;
}

impl Rows for DistributionPoint {
    fn with_rows<U: RowUser>(&self, other: &Self, user: &mut U) -> U::Answer {
        lend!(self, other, user;
            distribution_point: explicit 0 optional, reasons: implicit 1 optional,
            crl_issuer: implicit 2 optional)
    }

    ghost apart = { refl };
}
