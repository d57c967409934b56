//! Values as attributes of CSRs.

use der_core::oid::AssociatedOid;
use der_core::{Encode, Error, StrictSetOf};
use std::alloc::Global;
use x509_cert_names::Attribute;
use x509_cert_parts::types::Any;

/// A type whose values can be the only value of an attribute in a CSR (RFC 2986 4.1).
pub trait AsAttribute: AssociatedOid + Encode {
    ghost use Rattle.der_core.specs.Reading.{Gives};
    ghost use Rattle.x509_cert_names.specs.Views.{attribute_plain};
    ghost use Rattle.x509_cert_lists.specs.Attributes.{any_of, attribute_of};

    /// Returns the tag and the content of the value's encoding.
    ///
    /// # Errors
    ///
    /// - `Failed`: the type is an optional field, whose encoding may be absent.
    /// - `Overflow`: the encoding has 2^32 bytes or more.
    /// - `OutOfMemory`: memory runs out.
    fn to_any(&self, alloc: Global) -> Result<Any, Error>
        ensures { Gives (λ a. a) result (any_of Self.shape (Self.written self.now)) };

    /// Returns the attribute with the type's OID and this value only.
    ///
    /// # Errors
    ///
    /// - The errors of `to_any`.
    fn to_attribute(&self, alloc: Global) -> Result<Attribute, Error>
        ensures { Gives attribute_plain result
            (attribute_of Self.oid_arcs (any_of Self.shape (Self.written self.now))) }
    {
        let value = self.to_any(alloc)?;
        let mut values = Vec::new(alloc);
        values.push(value)?;
        Ok(Attribute {
            oid: Self::associated_oid(),
            values: StrictSetOf { values },
        })
    }
}
