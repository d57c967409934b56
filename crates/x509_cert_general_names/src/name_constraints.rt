ghost use Rattle.std.specs.Prelude.{◌≡◌, refl};
ghost use Rattle.der_core.specs.Oid.Bound.{Bound};
ghost use Rattle.x509_cert_general_names.specs.GeneralNames.{name_constraints_fields};
ghost use Rattle.x509_cert_general_names.specs.GeneralNameViews.{name_constraints_plain};

use crate::general_subtree::GeneralSubtrees;
use der_core::describing::{AsRecord, Described, FieldsView, RowUser, Rows};
use der_core::{DecodeFields, Error, Reader, lend, read_row};
use std::alloc::Global;

/// Limits the names of the subjects of all later certificates in a chain (RFC 5280 4.2.1.10). Each
/// list of subtrees may be empty, and both may be absent.
///
/// ```text
/// NameConstraints ::= SEQUENCE {
///     permittedSubtrees  [0] GeneralSubtrees OPTIONAL,
///     excludedSubtrees   [1] GeneralSubtrees OPTIONAL }
///
/// GeneralSubtrees ::= SEQUENCE SIZE (1..MAX) OF GeneralSubtree
/// ```
#[derive(Debug, Drop, PartialEq, Eq)]
pub struct NameConstraints {
    /// The subtrees in which the names must be.
    pub permitted_subtrees: Option<GeneralSubtrees>,
    /// The subtrees in which the names must not be.
    pub excluded_subtrees: Option<GeneralSubtrees>,
}

impl FieldsView for NameConstraints {
    ghost body = { name_constraints_fields Bound };

    ghost view = { name_constraints_plain };
}

impl<'a, R: Reader<'a>> DecodeFields<'a, R> for NameConstraints {
    fn decode_fields(alloc: Global, reader: &mut R) -> Result<NameConstraints, Error> {
        read_row!(alloc, reader; NameConstraints {
            permitted_subtrees: implicit 0 optional, excluded_subtrees: implicit 1 optional,
        })
    }
}

impl Described for NameConstraints {
    type By = AsRecord;
}

impl Rows for NameConstraints {
    fn with_rows<U: RowUser>(&self, other: &Self, user: &mut U) -> U::Answer {
        lend!(self, other, user;
            permitted_subtrees: implicit 0 optional, excluded_subtrees: implicit 1 optional)
    }

    ghost apart = { refl };
}
