//! ServiceLocator.

ghost use Rattle.std.specs.Prelude.{refl};

use der_core::describing::{AsRecord, Described, FieldRow, FieldsView, RowUser, Rows};
use der_core::{DecodeFields, Error, Reader, Shaped, lend, read_row};
use std::alloc::Global;
use x509_cert_reading::{AccessDescription, Name};

/// ```text
/// ServiceLocator ::= SEQUENCE {
///     issuer                  Name,
///     locator                 AuthorityInfoAccessSyntax }
/// ```
#[derive(Debug, Drop, PartialEq, Eq)]
pub struct ServiceLocator {
    pub issuer: Name,
    pub locator: Vec<AccessDescription>,
}

type Row = (Name, (Vec<AccessDescription>, ()));

impl Described for ServiceLocator {
    type By = AsRecord;
}

impl FieldsView for ServiceLocator {
    ghost body = { ⟦<Row as FieldRow>⟧.fields };

    ghost view = { λ r. (
      ⟦<Name as Shaped>⟧.plain r.issuer,
      (⟦<Vec<AccessDescription> as Shaped>⟧.plain r.locator, tt),
    ) };
}

impl<'a, R: Reader<'a>> DecodeFields<'a, R> for ServiceLocator {
    fn decode_fields(alloc: Global, reader: &mut R) -> Result<ServiceLocator, Error> {
        read_row!(alloc, reader; ServiceLocator { issuer, locator })
    }
}

impl Rows for ServiceLocator {
    fn with_rows<U: RowUser>(&self, other: &Self, user: &mut U) -> U::Answer {
        lend!(self, other, user; issuer, locator)
    }

    ghost apart = { refl };
}
