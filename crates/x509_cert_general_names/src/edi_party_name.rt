ghost use Rattle.std.specs.Prelude.{◌≡◌, refl};
ghost use Rattle.x509_cert_general_names.specs.GeneralNames.{edi_party_name_fields};
ghost use Rattle.x509_cert_general_names.specs.GeneralNameViews.{edi_party_name_plain};

use der_core::describing::{AsRecord, Described, FieldsView, RowUser, Rows};
use der_core::{DecodeFields, Error, Reader, lend, read_row};
use std::alloc::Global;
use x509_cert_names::DirectoryString;

/// The name of a party in electronic data interchange (RFC 5280 4.2.1.6).
///
/// ```text
/// EDIPartyName ::= SEQUENCE {
///     nameAssigner  [0] DirectoryString OPTIONAL,
///     partyName     [1] DirectoryString }
/// ```
#[derive(Debug, Drop, PartialEq, Eq)]
pub struct EdiPartyName {
    /// The authority that assigned the name.
    pub name_assigner: Option<DirectoryString>,
    /// The name.
    pub party_name: DirectoryString,
}

impl FieldsView for EdiPartyName {
    ghost body = { edi_party_name_fields };

    ghost view = { edi_party_name_plain };
}

impl<'a, R: Reader<'a>> DecodeFields<'a, R> for EdiPartyName {
    fn decode_fields(alloc: Global, reader: &mut R) -> Result<EdiPartyName, Error> {
        read_row!(alloc, reader; EdiPartyName {
            name_assigner: explicit 0 optional, party_name: explicit 1,
        })
    }
}

impl Described for EdiPartyName {
    type By = AsRecord;
}

impl Rows for EdiPartyName {
    fn with_rows<U: RowUser>(&self, other: &Self, user: &mut U) -> U::Answer {
        lend!(self, other, user; name_assigner: explicit 0 optional, party_name: explicit 1)
    }

    ghost apart = { refl };
}
