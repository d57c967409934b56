ghost use Rattle.std.specs.Prelude.{◌≡◌, true, false, Ok, Some, None, IsSome, IfOk, IfSome, refl};
ghost use Rattle.der_core.specs.Oid.Bound.{Bound};
ghost use Rattle.der_core.specs.Grammar.{plain_option};
ghost use Rattle.der_core.specs.Reading.{Gives};
ghost use Rattle.x509_cert_general_names.specs.GeneralNames.{hardware_module_name_fields};
ghost use Rattle.x509_cert_general_names.specs.Modules.{PlainModule, is_of_module, HasEncoding};
ghost use Rattle.x509_cert_general_names.specs.Modules.{HoldsModule, module_read};
ghost use Rattle.x509_cert_general_names.specs.GeneralNameViews.{hardware_module_name_plain};
ghost use Rattle.x509_cert_general_names.specs.GeneralNameViews.{other_name_plain};

use crate::other_name::OtherName;
use der_core::describing::{AsRecord, Described, FieldsView, RowUser, Rows};
use der_core::oid::{AssociatedOid, ObjectIdentifier};
use der_core::{DecodeFields, Error, Reader, lend, read_row};
use std::alloc::Global;
use x509_cert_parts::types::OctetString;

/// The name of a hardware module (RFC 4108 5), which is contained in an `OtherName`.
///
/// ```text
/// HardwareModuleName ::= SEQUENCE {
///     hwType       OBJECT IDENTIFIER,
///     hwSerialNum  OCTET STRING }
/// ```
#[derive(Debug, Drop, PartialEq, Eq)]
pub struct HardwareModuleName {
    /// The type of the module.
    pub hw_type: ObjectIdentifier<39>,
    /// The serial number of the module.
    pub hw_serial_num: OctetString,
}

impl HardwareModuleName {
    /// Decodes the hardware module name that an `OtherName` contains, or returns `None` if its OID
    /// is another one.
    ///
    /// # Errors
    ///
    /// - `TagUnexpected`: the value isn't a SEQUENCE.
    /// - The first error of its content.
    /// - `OutOfMemory`: memory runs out.
    pub fn from_other_name(alloc: Global, other_name: &OtherName) -> Result<Option<Self>, Error>
        // A name with another OID contains none.
        ensures other { is_of_module (other_name_plain other_name.now) ≡ false → result ≡ Ok None }
        // With the OID of hardware modules, the value is decoded or rejected.
        ensures held { is_of_module (other_name_plain other_name.now) ≡ true → IfOk result IsSome }
        // The decoded module is the one that the value encodes.
        ensures spelled { HasEncoding (other_name_plain other_name.now)
            → IfOk result
            (λ o.
            IfSome o
            (λ m. HoldsModule Bound (other_name_plain other_name.now)
            (hardware_module_name_plain m))) }
        // A module that the value encodes is returned, unless memory runs out.
        ensures only { (m : PlainModule) → is_of_module (other_name_plain other_name.now) ≡ true
            → HasEncoding (other_name_plain other_name.now)
            → HoldsModule Bound (other_name_plain other_name.now) m
            → Gives (plain_option hardware_module_name_plain) result (Ok (Some m)) }
        // The value or the error is that of the decoder that the specification defines.
        ensures exact { is_of_module (other_name_plain other_name.now) ≡ true
            → Gives (plain_option hardware_module_name_plain) result
            (module_read Bound (other_name_plain other_name.now)) }
    {
        if other_name.type_id == HardwareModuleName::associated_oid() {
            let module: HardwareModuleName = other_name.value.decode_as(alloc)?;
            return Ok(Some(module));
        }
        Ok(None)
    }
}

impl FieldsView for HardwareModuleName {
    ghost body = { hardware_module_name_fields Bound };

    ghost view = { hardware_module_name_plain };
}

impl<'a, R: Reader<'a>> DecodeFields<'a, R> for HardwareModuleName {
    fn decode_fields(alloc: Global, reader: &mut R) -> Result<HardwareModuleName, Error> {
        read_row!(alloc, reader; HardwareModuleName { hw_type, hw_serial_num })
    }
}

impl Described for HardwareModuleName {
    type By = AsRecord;
}

impl Rows for HardwareModuleName {
    fn with_rows<U: RowUser>(&self, other: &Self, user: &mut U) -> U::Answer {
        lend!(self, other, user; hw_type, hw_serial_num)
    }

    ghost apart = { refl };
}
