//! The type `Attribute` and sets of attributes.

ghost use Rattle.std.specs.Prelude.{refl};
ghost use Rattle.der_core.specs.Oid.Bound.{Bound};
ghost use Rattle.der_core.specs.Copies.{IsCopy};
ghost use Rattle.x509_cert_names.specs.Names.{attribute_fields};
ghost use Rattle.x509_cert_names.specs.Views.{attribute_plain};

use crate::attribute_type_and_value::{AttributeType, AttributeValue};
use crate::members::copy_of;
use der_core::describing::{AsRecord, Described, FieldsView, RowUser, Rows};
use der_core::{DecodeFields, Error, InRangeValue, Reader, StrictSetOf, lend, read_row};
use std::alloc::{AllocError, Global};

/// An attribute: a type and a set of different values (RFC 5280 appendix A.1).
///
/// ```text
/// Attribute ::= SEQUENCE { type AttributeType, values SET OF AttributeValue }
/// ```
#[derive(Debug, Drop, PartialEq, Eq)]
pub struct Attribute {
    /// The type of the attribute.
    pub oid: AttributeType,
    /// The values, in ascending order of their encodings.
    pub values: StrictSetOf<AttributeValue>,
}

/// A set of different attributes (RFC 2986 4).
///
/// ```text
/// Attributes ::= SET OF Attribute
/// ```
pub type Attributes = StrictSetOf<Attribute>;

impl Attribute {
    /// Returns a copy.
    ///
    /// # Errors
    ///
    /// - `AllocError`: memory runs out.
    pub fn clone(&self, alloc: Global) -> Result<Attribute, AllocError>
        ensures { IsCopy self.now result attribute_plain }
    {
        let values = copy_of(alloc, self.values.as_slice())?;
        Ok(Attribute {
            oid: self.oid,
            values: StrictSetOf { values },
        })
    }
}

impl FieldsView for Attribute {
    ghost body = { attribute_fields Bound };

    ghost view = { attribute_plain };
}

impl<'a, R: Reader<'a>> DecodeFields<'a, R> for Attribute {
    fn decode_fields(alloc: Global, reader: &mut R) -> Result<Attribute, Error> {
        read_row!(alloc, reader; Attribute { oid, values })
    }
}

impl Described for Attribute {
    type By = AsRecord;
}

impl Rows for Attribute {
    fn with_rows<U: RowUser>(&self, other: &Self, user: &mut U) -> U::Answer {
        lend!(self, other, user; oid, values)
    }

    ghost apart = { refl };
}

impl InRangeValue for Attribute {
    fn value_in_range(&self) {
        self.oid.value_in_range();
        self.values.value_in_range();
    }
}
