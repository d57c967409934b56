//! EncryptedData.

ghost use Rattle.std.specs.Prelude.{[], refl};
ghost use Rattle.der_types_more.specs.OptionalSets.{value_or};

use crate::aliases::UnprotectedAttributes;
use crate::cms_version::CmsVersion;
use crate::encrypted_content_info::EncryptedContentInfo;
use der_core::describing::{
    AsRecord, Described, FieldRow, FieldsView, ReadRow, RowUser, Rows, Whole,
};
use der_core::{DecodeFields, EncodeRef, Error, Reader, Shaped, ShapedValue, WithDefault};
use der_types_more::{OptionalSet, members_of};
use std::alloc::Global;
use x509_cert_reading::Attribute;

/// ```text
/// EncryptedData ::= SEQUENCE {
///     version CMSVersion,
///     encryptedContentInfo EncryptedContentInfo,
///     unprotectedAttrs [1] IMPLICIT UnprotectedAttributes OPTIONAL }
/// ```
#[derive(Debug, Drop, PartialEq, Eq)]
pub struct EncryptedData {
    pub version: CmsVersion,
    pub encrypted_content_info: EncryptedContentInfo,
    pub unprotected_attrs: Option<UnprotectedAttributes>,
}

type Row = (
    Whole<CmsVersion>,
    (
        Whole<EncryptedContentInfo>,
        (WithDefault<OptionalSet<Attribute, 1>>, ()),
    ),
);

impl Described for EncryptedData {
    type By = AsRecord;
}

impl FieldsView for EncryptedData {
    ghost body = { ⟦<Row as FieldRow>⟧.fields };

    ghost view = { λ r. (
      ⟦<CmsVersion as Shaped>⟧.plain r.version,
      (
        ⟦<EncryptedContentInfo as Shaped>⟧.plain r.encrypted_content_info,
        (value_or [] ⟦<UnprotectedAttributes as ShapedValue>⟧.value_plain r.unprotected_attrs, tt),
      ),
    ) };
}

impl<'a, R: Reader<'a>> DecodeFields<'a, R> for EncryptedData {
    fn decode_fields(alloc: Global, reader: &mut R) -> Result<EncryptedData, Error> {
        let (version, (encrypted_content_info, (unprotected_attrs, ()))) = Row::read_row(
            alloc, reader,
        )?;
        Ok(EncryptedData {
            version: version.0,
            encrypted_content_info: encrypted_content_info.0,
            unprotected_attrs: unprotected_attrs.value.0,
        })
    }
}

impl Rows for EncryptedData {
    fn with_rows<U: RowUser>(&self, other: &Self, user: &mut U) -> U::Answer {
        user.take_lent(
            &(
                EncodeRef(&self.version),
                (
                    EncodeRef(&self.encrypted_content_info),
                    (
                        WithDefault {
                            value: members_of::<_, 1>(&self.unprotected_attrs),
                        },
                        (),
                    ),
                ),
            ),
            &(
                EncodeRef(&other.version),
                (
                    EncodeRef(&other.encrypted_content_info),
                    (
                        WithDefault {
                            value: members_of::<_, 1>(&other.unprotected_attrs),
                        },
                        (),
                    ),
                ),
            ),
        )
    }

    ghost apart = { refl };
}
