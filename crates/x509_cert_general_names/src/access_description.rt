ghost use Rattle.std.specs.Prelude.{◌≡◌, refl};
ghost use Rattle.der_core.specs.Oid.Bound.{Bound};
ghost use Rattle.x509_cert_general_names.specs.GeneralNames.{access_description_fields};
ghost use Rattle.x509_cert_general_names.specs.GeneralNameViews.{access_description_plain};

use crate::general_name::GeneralName;
use der_core::describing::{AsRecord, Described, FieldsView, RowUser, Rows};
use der_core::oid::ObjectIdentifier;
use der_core::{DecodeFields, Error, Reader, lend, read_row};
use std::alloc::Global;

/// A service of an issuer and the location of the service (RFC 5280 4.2.2.1).
///
/// ```text
/// AccessDescription ::= SEQUENCE {
///     accessMethod    OBJECT IDENTIFIER,
///     accessLocation  GeneralName }
/// ```
#[derive(Debug, Drop, PartialEq, Eq)]
pub struct AccessDescription {
    /// The OID of the service.
    pub access_method: ObjectIdentifier<39>,
    /// The location of the service.
    pub access_location: GeneralName,
}

impl FieldsView for AccessDescription {
    ghost body = { access_description_fields Bound };

    ghost view = { access_description_plain };
}

impl<'a, R: Reader<'a>> DecodeFields<'a, R> for AccessDescription {
    fn decode_fields(alloc: Global, reader: &mut R) -> Result<AccessDescription, Error> {
        read_row!(alloc, reader; AccessDescription { access_method, access_location })
    }
}

impl Described for AccessDescription {
    type By = AsRecord;
}

impl Rows for AccessDescription {
    fn with_rows<U: RowUser>(&self, other: &Self, user: &mut U) -> U::Answer {
        lend!(self, other, user; access_method, access_location)
    }

    ghost apart = { refl };
}
