ghost use Rattle.std.specs.Prelude.{◌≡◌, refl};
ghost use Rattle.der_core.specs.Oid.Bound.{Bound};
ghost use Rattle.der_core.specs.Reading.{Gives};
ghost use Rattle.x509_cert_general_names.specs.GeneralNames.{other_name_fields};
ghost use Rattle.x509_cert_general_names.specs.Modules.{module_held};
ghost use Rattle.x509_cert_general_names.specs.GeneralNameViews.{hardware_module_name_plain};
ghost use Rattle.x509_cert_general_names.specs.GeneralNameViews.{other_name_plain};

use crate::hardware_module_name::HardwareModuleName;
use der_core::describing::{AsRecord, Described, FieldsView, RowUser, Rows};
use der_core::oid::{AssociatedOid, ObjectIdentifier};
use der_core::{DecodeFields, Error, Reader, lend, read_row};
use std::alloc::Global;
use x509_cert_parts::types::Any;

/// A name of a kind that an OID identifies (RFC 5280 4.2.1.6).
///
/// ```text
/// OtherName ::= SEQUENCE {
///     type-id  OBJECT IDENTIFIER,
///     value    [0] EXPLICIT ANY DEFINED BY type-id }
/// ```
#[derive(Debug, Drop, PartialEq, Eq)]
pub struct OtherName {
    /// The OID of the kind.
    pub type_id: ObjectIdentifier<39>,
    /// The name, undecoded: its tag and content.
    pub value: Any,
}

impl OtherName {
    /// Returns the name that contains this hardware module name (RFC 4108 5).
    ///
    /// # Errors
    ///
    /// - `Overflow`: the encoding of the module name has 2^32 bytes or more.
    /// - `OutOfMemory`: memory runs out.
    pub fn try_from(alloc: Global, named: &HardwareModuleName) -> Result<OtherName, Error>
        ensures { Gives other_name_plain result
            (module_held Bound (hardware_module_name_plain named.now)) }
    {
        let value = Any::encode_from(alloc, named)?;
        Ok(OtherName {
            type_id: HardwareModuleName::associated_oid(),
            value,
        })
    }
}

impl FieldsView for OtherName {
    ghost body = { other_name_fields Bound };

    ghost view = { other_name_plain };
}

impl<'a, R: Reader<'a>> DecodeFields<'a, R> for OtherName {
    fn decode_fields(alloc: Global, reader: &mut R) -> Result<OtherName, Error> {
        read_row!(alloc, reader; OtherName { type_id, value: explicit 0 })
    }
}

impl Described for OtherName {
    type By = AsRecord;
}

impl Rows for OtherName {
    fn with_rows<U: RowUser>(&self, other: &Self, user: &mut U) -> U::Answer {
        lend!(self, other, user; type_id, value: explicit 0)
    }

    ghost apart = { refl };
}
