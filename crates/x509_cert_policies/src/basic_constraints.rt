ghost use Rattle.std.specs.Prelude.{◌≡◌, refl};
ghost use Rattle.x509_cert_policies.specs.Policies.{basic_constraints_fields};
ghost use Rattle.x509_cert_policies.specs.PolicyViews.{basic_constraints_plain};

use der_core::describing::{AsRecord, Described, FieldsView, RowUser, Rows};
use der_core::{DecodeFields, Error, Reader, lend, read_row};
use std::alloc::Global;

/// The basic constraints of a certificate: they say whether its subject is a CA, and limit the
/// length of chains below it (RFC 5280 4.2.1.9).
///
/// ```text
/// BasicConstraints ::= SEQUENCE {
///     cA                 BOOLEAN DEFAULT FALSE,
///     pathLenConstraint  INTEGER (0..MAX) OPTIONAL }
/// ```
#[derive(Clone, Copy, Debug, PartialEq, Eq)]
pub struct BasicConstraints {
    /// True if the subject is a CA, whose key may verify the signatures of certificates.
    pub ca: bool,
    /// The greatest number of intermediate certificates between this one and the end-entity
    /// certificate, if it is limited. A number above 255 is rejected.
    pub path_len_constraint: Option<u8>,
}

impl FieldsView for BasicConstraints {
    ghost body = { basic_constraints_fields };

    ghost view = { basic_constraints_plain };
}

impl<'a, R: Reader<'a>> DecodeFields<'a, R> for BasicConstraints {
    fn decode_fields(alloc: Global, reader: &mut R) -> Result<BasicConstraints, Error> {
        read_row!(alloc, reader; BasicConstraints { ca: default, path_len_constraint })
    }
}

impl Described for BasicConstraints {
    type By = AsRecord;
}

impl Rows for BasicConstraints {
    fn with_rows<U: RowUser>(&self, other: &Self, user: &mut U) -> U::Answer {
        lend!(self, other, user; ca: default, path_len_constraint)
    }

    ghost apart = { refl };
}
