//! DigestedData.

ghost use Rattle.std.specs.Prelude.{refl};

use crate::aliases::{Digest, DigestAlgorithmIdentifier};
use crate::cms_version::CmsVersion;
use crate::encapsulated_content_info::EncapsulatedContentInfo;
use der_core::describing::{AsRecord, Described, FieldRow, FieldsView, RowUser, Rows};
use der_core::{DecodeFields, Error, Reader, Shaped, lend, read_row};
use std::alloc::Global;

/// ```text
/// DigestedData ::= SEQUENCE {
///     version CMSVersion,
///     digestAlgorithm DigestAlgorithmIdentifier,
///     encapContentInfo EncapsulatedContentInfo,
///     digest Digest }
/// ```
#[derive(Debug, Drop, PartialEq, Eq)]
pub struct DigestedData {
    pub version: CmsVersion,
    pub digest_algorithm: DigestAlgorithmIdentifier,
    pub encap_content_info: EncapsulatedContentInfo,
    pub digest: Digest,
}

type Row = (
    CmsVersion,
    (
        DigestAlgorithmIdentifier,
        (EncapsulatedContentInfo, (Digest, ())),
    ),
);

impl Described for DigestedData {
    type By = AsRecord;
}

impl FieldsView for DigestedData {
    ghost body = { ⟦<Row as FieldRow>⟧.fields };

    ghost view = { λ r. (
      ⟦<CmsVersion as Shaped>⟧.plain r.version,
      (
        ⟦<DigestAlgorithmIdentifier as Shaped>⟧.plain r.digest_algorithm,
        (
          ⟦<EncapsulatedContentInfo as Shaped>⟧.plain r.encap_content_info,
          (⟦<Digest as Shaped>⟧.plain r.digest, tt),
        ),
      ),
    ) };
}

impl<'a, R: Reader<'a>> DecodeFields<'a, R> for DigestedData {
    fn decode_fields(alloc: Global, reader: &mut R) -> Result<DigestedData, Error> {
        read_row!(alloc, reader; DigestedData {
            version, digest_algorithm, encap_content_info, digest,
        })
    }
}

impl Rows for DigestedData {
    fn with_rows<U: RowUser>(&self, other: &Self, user: &mut U) -> U::Answer {
        lend!(self, other, user; version, digest_algorithm, encap_content_info, digest)
    }

    ghost apart = { refl };
}
