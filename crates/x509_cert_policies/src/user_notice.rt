ghost use Rattle.std.specs.Prelude.{◌≡◌, refl};
ghost use Rattle.x509_cert_policies.specs.Policies.{user_notice_fields};
ghost use Rattle.x509_cert_policies.specs.PolicyViews.{user_notice_plain};

use crate::display_text::DisplayText;
use crate::notice_reference::NoticeReference;
use der_core::describing::{AsRecord, Described, FieldsView, RowUser, Rows};
use der_core::{DecodeFields, Error, Reader, lend, read_row};
use std::alloc::Global;

/// A notice for relying parties (RFC 5280 4.2.1.4).
///
/// ```text
/// UserNotice ::= SEQUENCE {
///     noticeRef     NoticeReference OPTIONAL,
///     explicitText  DisplayText OPTIONAL }
/// ```
#[derive(Debug, Drop, PartialEq, Eq)]
pub struct UserNotice {
    /// A reference to the text.
    pub notice_ref: Option<NoticeReference>,
    /// The text.
    pub explicit_text: Option<DisplayText>,
}

impl FieldsView for UserNotice {
    ghost body = { user_notice_fields };

    ghost view = { user_notice_plain };
}

impl<'a, R: Reader<'a>> DecodeFields<'a, R> for UserNotice {
    fn decode_fields(alloc: Global, reader: &mut R) -> Result<UserNotice, Error> {
        read_row!(alloc, reader; UserNotice { notice_ref, explicit_text })
    }
}

impl Described for UserNotice {
    type By = AsRecord;
}

impl Rows for UserNotice {
    fn with_rows<U: RowUser>(&self, other: &Self, user: &mut U) -> U::Answer {
        lend!(self, other, user; notice_ref, explicit_text)
    }

    ghost apart = { refl };
}
