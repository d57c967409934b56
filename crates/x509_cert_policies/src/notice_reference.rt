ghost use Rattle.std.specs.Prelude.{◌≡◌, refl};
ghost use Rattle.x509_cert_policies.specs.Policies.{notice_reference_fields};
ghost use Rattle.x509_cert_policies.specs.PolicyViews.{notice_reference_plain};

use crate::display_text::DisplayText;
use der_core::describing::{AsRecord, Described, FieldsView, RowUser, Rows};
use der_core::{DecodeFields, Error, Reader, lend, read_row};
use std::alloc::Global;
use x509_cert_parts::types::Uint;

/// A reference to the text of a notice (RFC 5280 4.2.1.4).
///
/// ```text
/// NoticeReference ::= SEQUENCE {
///     organization   DisplayText,
///     noticeNumbers  SEQUENCE OF INTEGER OPTIONAL }
/// ```
#[derive(Debug, Drop, PartialEq, Eq)]
pub struct NoticeReference {
    /// The organization that publishes the text.
    pub organization: DisplayText,
    /// The numbers of the statements in the organization's text.
    pub notice_numbers: Option<Vec<Uint>>,
}

impl FieldsView for NoticeReference {
    ghost body = { notice_reference_fields };

    ghost view = { notice_reference_plain };
}

impl<'a, R: Reader<'a>> DecodeFields<'a, R> for NoticeReference {
    fn decode_fields(alloc: Global, reader: &mut R) -> Result<NoticeReference, Error> {
        read_row!(alloc, reader; NoticeReference { organization, notice_numbers })
    }
}

impl Described for NoticeReference {
    type By = AsRecord;
}

impl Rows for NoticeReference {
    fn with_rows<U: RowUser>(&self, other: &Self, user: &mut U) -> U::Answer {
        lend!(self, other, user; organization, notice_numbers)
    }

    ghost apart = { refl };
}
