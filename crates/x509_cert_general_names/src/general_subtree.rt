//! The types `GeneralSubtree` and `GeneralSubtrees`.

ghost use Rattle.std.specs.Prelude.{◌≡◌, refl};
ghost use Rattle.der_core.specs.Oid.Bound.{Bound};
ghost use Rattle.x509_cert_general_names.specs.GeneralNames.{general_subtree_fields};
ghost use Rattle.x509_cert_general_names.specs.GeneralNameViews.{general_subtree_plain};

use crate::general_name::GeneralName;
use der_core::describing::{AsRecord, Described, FieldsView, RowUser, Rows};
use der_core::{DecodeFields, Error, Reader, lend, read_row};
use std::alloc::Global;

/// The names below a base name (RFC 5280 4.2.1.10). Numbers above 2^32 - 1 are rejected.
///
/// ```text
/// GeneralSubtree ::= SEQUENCE {
///     base     GeneralName,
///     minimum  [0] BaseDistance DEFAULT 0,
///     maximum  [1] BaseDistance OPTIONAL }
///
/// BaseDistance ::= INTEGER (0..MAX)
/// ```
#[derive(Debug, Drop, PartialEq, Eq)]
pub struct GeneralSubtree {
    /// The base name.
    pub base: GeneralName,
    /// The number of levels below the base at which the subtree begins. RFC 5280 requires 0.
    pub minimum: u32,
    /// The number of levels below the base at which the subtree ends, if it ends. RFC 5280 requires
    /// that it is absent.
    pub maximum: Option<u32>,
}

impl FieldsView for GeneralSubtree {
    ghost body = { general_subtree_fields Bound };

    ghost view = { general_subtree_plain };
}

impl<'a, R: Reader<'a>> DecodeFields<'a, R> for GeneralSubtree {
    fn decode_fields(alloc: Global, reader: &mut R) -> Result<GeneralSubtree, Error> {
        read_row!(alloc, reader; GeneralSubtree {
            base, minimum: implicit 0 default, maximum: implicit 1 optional,
        })
    }
}

impl Described for GeneralSubtree {
    type By = AsRecord;
}

impl Rows for GeneralSubtree {
    fn with_rows<U: RowUser>(&self, other: &Self, user: &mut U) -> U::Answer {
        lend!(self, other, user; base, minimum: implicit 0 default, maximum: implicit 1 optional)
    }

    ghost apart = { refl };
}

/// Subtrees of names (RFC 5280 4.2.1.10). The list may be empty.
///
/// ```text
/// GeneralSubtrees ::= SEQUENCE SIZE (1..MAX) OF GeneralSubtree
/// ```
pub type GeneralSubtrees = Vec<GeneralSubtree>;
