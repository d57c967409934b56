ghost use Rattle.std.specs.Prelude.{◌≡◌, refl};
ghost use Rattle.x509_cert_policies.specs.Policies.{private_key_usage_period_fields};
ghost use Rattle.x509_cert_policies.specs.PolicyViews.{private_key_usage_period_plain};

use der_core::describing::{AsRecord, Described, FieldsView, RowUser, Rows};
use der_core::{DecodeFields, Error, Reader, lend, read_row};
use std::alloc::Global;
use x509_cert_parts::types::GeneralizedTime;

/// The period in which a private key is used (RFC 3280 4.2.1.4).
///
/// ```text
/// PrivateKeyUsagePeriod ::= SEQUENCE {
///     notBefore  [0] GeneralizedTime OPTIONAL,
///     notAfter   [1] GeneralizedTime OPTIONAL }
/// ```
#[derive(Clone, Copy, Debug, PartialEq, Eq)]
pub struct PrivateKeyUsagePeriod {
    /// The date before which the key isn't used (`notBefore`).
    pub not_before: Option<GeneralizedTime>,
    /// The date after which the key isn't used (`notAfter`).
    pub not_after: Option<GeneralizedTime>,
}

impl FieldsView for PrivateKeyUsagePeriod {
    ghost body = { private_key_usage_period_fields };

    ghost view = { private_key_usage_period_plain };
}

impl<'a, R: Reader<'a>> DecodeFields<'a, R> for PrivateKeyUsagePeriod {
    fn decode_fields(alloc: Global, reader: &mut R) -> Result<PrivateKeyUsagePeriod, Error> {
        read_row!(alloc, reader; PrivateKeyUsagePeriod {
            not_before: implicit 0 optional, not_after: implicit 1 optional,
        })
    }
}

impl Described for PrivateKeyUsagePeriod {
    type By = AsRecord;
}

impl Rows for PrivateKeyUsagePeriod {
    fn with_rows<U: RowUser>(&self, other: &Self, user: &mut U) -> U::Answer {
        lend!(self, other, user; not_before: implicit 0 optional, not_after: implicit 1 optional)
    }

    ghost apart = { refl };
}
