//! SignedData.

ghost use Rattle.std.specs.Prelude.{refl};
ghost use Rattle.der_core.specs.Grammar.{plain_option};

use crate::aliases::{
    CertificateSet, DigestAlgorithmIdentifiers, RevocationInfoChoices, SignerInfos,
};
use crate::cms_version::CmsVersion;
use crate::encapsulated_content_info::EncapsulatedContentInfo;
use der_core::describing::{AsRecord, Described, FieldRow, FieldsView, RowUser, Rows};
use der_core::{DecodeFields, Error, Implicit, Reader, Shaped, ShapedValue, lend, read_row};
use std::alloc::Global;

/// ```text
/// SignedData ::= SEQUENCE {
///     version CMSVersion,
///     digestAlgorithms DigestAlgorithmIdentifiers,
///     encapContentInfo EncapsulatedContentInfo,
///     certificates [0] IMPLICIT CertificateSet OPTIONAL,
///     crls [1] IMPLICIT RevocationInfoChoices OPTIONAL,
///     signerInfos SignerInfos }
/// ```
#[derive(Debug, Drop, PartialEq, Eq)]
pub struct SignedData {
    pub version: CmsVersion,
    pub digest_algorithms: DigestAlgorithmIdentifiers,
    pub encap_content_info: EncapsulatedContentInfo,
    pub certificates: Option<CertificateSet>,
    pub crls: Option<RevocationInfoChoices>,
    pub signer_infos: SignerInfos,
}

type Row = (
    CmsVersion,
    (
        DigestAlgorithmIdentifiers,
        (
            EncapsulatedContentInfo,
            (
                Option<Implicit<CertificateSet, 0>>,
                (
                    Option<Implicit<RevocationInfoChoices, 1>>,
                    (SignerInfos, ()),
                ),
            ),
        ),
    ),
);

impl Described for SignedData {
    type By = AsRecord;
}

impl FieldsView for SignedData {
    ghost body = { ⟦<Row as FieldRow>⟧.fields };

    ghost view = { λ r. (
      ⟦<CmsVersion as Shaped>⟧.plain r.version,
      (
        ⟦<DigestAlgorithmIdentifiers as Shaped>⟧.plain r.digest_algorithms,
        (
          ⟦<EncapsulatedContentInfo as Shaped>⟧.plain r.encap_content_info,
          (
            plain_option ⟦<CertificateSet as ShapedValue>⟧.value_plain r.certificates,
            (
              plain_option ⟦<RevocationInfoChoices as ShapedValue>⟧.value_plain r.crls,
              (⟦<SignerInfos as Shaped>⟧.plain r.signer_infos, tt),
            ),
          ),
        ),
      ),
    ) };
}

impl<'a, R: Reader<'a>> DecodeFields<'a, R> for SignedData {
    fn decode_fields(alloc: Global, reader: &mut R) -> Result<SignedData, Error> {
        read_row!(alloc, reader; SignedData {
            version, digest_algorithms, encap_content_info, certificates: implicit 0 optional,
            crls: implicit 1 optional, signer_infos,
        })
    }
}

impl Rows for SignedData {
    fn with_rows<U: RowUser>(&self, other: &Self, user: &mut U) -> U::Answer {
        lend!(self, other, user;
            version, digest_algorithms, encap_content_info, certificates: implicit 0 optional,
            crls: implicit 1 optional, signer_infos)
    }

    ghost apart = { refl };
}
